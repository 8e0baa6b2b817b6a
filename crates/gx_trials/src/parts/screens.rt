//! How a text is cut into rows: where each starts and ends, which the screen alone doesn't tell.
use crate::wanted;
use anyhow::{Result, ensure};
use glk_screen::wrap;
use std::alloc::Global;

/// The characters of a text, as numbers.
fn characters(alloc: Global, text: &str) -> Result<Vec<u32>> {
    let mut numbers = Vec::new(alloc);
    for c in text.chars() {
        numbers.push(u32::from(c))?;
    }
    Ok(numbers)
}

/// The start and the end of each row of a text in a window of so many columns, with a blank before each number.
fn ends_of(alloc: Global, characters: &[u32], width: u32) -> Result<String> {
    ensure!(characters.len() < 0x100, "the text is too long");
    let rows = wrap(alloc, characters, width.max(1))?;
    let mut ends = String::new(alloc);
    for end in rows.as_slice().iter() {
        write!(ends, " {end}")?;
    }
    Ok(ends)
}

/// Compares the rows of a text in a window of so many columns, each by its start and its end.
fn compare(alloc: Global, text: &str, width: u32, wanted: &str) -> Result<()> {
    let characters = characters(alloc, text)?;
    let ends = ends_of(alloc, characters.as_slice(), width);
    wanted::compare(text, wanted, ends?.as_str().trim())
}

/// Words, and a last one that is longer than the window.
pub fn words(alloc: Global) -> Result<()> {
    compare(alloc, "aaa bb cccccc", 5, "0 3 4 6 7 12 12 13")?;
    compare(alloc, "ab c", 1, "0 1 1 2 3 4")?;
    compare(alloc, "  x", 2, "0 1 2 3")
}

/// Several paragraphs, the last one empty, and no text at all.
pub fn paragraphs(alloc: Global) -> Result<()> {
    compare(alloc, "a\n\nbc d\n", 3, "0 1 2 2 3 5 6 7 8 8")?;
    compare(alloc, "", 7, "0 0")
}

/// A character of two columns, in a window of one and at the edge of three.
pub fn wide(alloc: Global) -> Result<()> {
    compare(alloc, "中a", 1, "0 1 1 2")?;
    compare(alloc, "ab中", 3, "0 2 2 3")
}

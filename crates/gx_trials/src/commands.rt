//! Command lines, and what they come to (files `.commands`).
//!
//! A line has the words after the program's name, each between bars, and after these `shelf NUMBERS` or `sink NUMBERS`,
//! the calls that fail, from 1 on, with `,` between the two, and `text LINES`, the file `text`; after `=>` the text
//! that is sent, or `<hello>` for the bytes of that story, and after `:` the program's line without its name. A line
//! feed is `/`. What follows `;` at a line's head is a remark.
//!
//! The shelf has the stories `hello`, `-`, `--steps`, `a b` and `höle`, which are one and the same and show `Hi` in
//! twelve steps, `wrong`, whose checksum differs, and `string`, whose start function is a string.
use crate::runs::{Devices, MOST_PAGES, Told, run};
use crate::tally::{Place, Tally};
use anyhow::{Result, bail};
use gx_outside::MemShelf;
use std::alloc::Global;

/// The names of the story that shows `Hi`.
const NAMES: [&str; 5] = ["hello", "-", "--steps", "a b", "höle"];

/// Where the type of the story's start function stands.
const FUNCTION_TYPE: usize = 36;

/// Devices with the files, and as what stands behind the last bar has them.
fn devices_of(alloc: Global, hello: &[u8], given: &str) -> Result<Devices> {
    let (fails, text) = match given.split_once("text ") {
        Some((fails, text)) => (fails, Some(text)),
        None => (given, None),
    };
    let fails = fails.replace(alloc, ",", "\n")?;
    let mut devices = Devices::new(alloc, fails.as_str())?;
    put_files(alloc, &mut devices.shelf, hello, text)?;
    Ok(devices)
}

fn put_files(alloc: Global, shelf: &mut MemShelf, hello: &[u8], text: Option<&str>) -> Result<()> {
    for name in NAMES.iter() {
        shelf.put(name, hello)?;
    }
    if let Some(text) = text {
        shelf.put("text", text.replace(alloc, "/", "\n")?.as_bytes())?;
    }
    put_changed(
        alloc,
        shelf,
        "wrong",
        hello,
        (hello.len().saturating_sub(1), 1),
    )?;
    put_changed(alloc, shelf, "string", hello, (FUNCTION_TYPE, 0xE0))
}

/// Puts the story with another byte at a place.
fn put_changed(
    alloc: Global,
    shelf: &mut MemShelf,
    name: &str,
    hello: &[u8],
    (place, byte): (usize, u8),
) -> Result<()> {
    let mut story = Vec::from_slice(alloc, hello)?;
    if let Some(old) = story.as_mut_slice().get_mut(place) {
        *old = byte;
    }
    shelf.put(name, story.as_slice())?;
    Ok(())
}

/// What words come to, each with a bar before it.
fn told_by(alloc: Global, hello: &[u8], words: &str, given: &str) -> Result<Told> {
    let devices = devices_of(alloc, hello, given)?;
    let words = format!(in alloc; "gx_player{words}")?;
    run(alloc, MOST_PAGES, words.as_str(), devices)
}

/// The words of a line, what stands behind the last bar, what is sent, and what is said.
fn parts_of(line: &str) -> Option<(&str, &str, &str, &str)> {
    let (written, wanted) = line.split_once("=>")?;
    let (shown, said) = wanted.split_once(':')?;
    let (words, given) = written.rsplit_once('|')?;
    if !words.is_empty() && !words.starts_with('|') {
        return None;
    }
    Some((words, given.trim(), shown.trim(), said.trim()))
}

/// Compares what the words of a line come to.
fn compare_line(alloc: Global, hello: &[u8], line: &str) -> Result<()> {
    let Some((words, given, shown, said)) = parts_of(line) else {
        bail!("not words between bars, =>, a text, a colon and a line");
    };
    let told = told_by(alloc, hello, words, given)?;
    compare_told(alloc, hello, &told, shown, said)
}

/// Compares a line that was told, where there is one, and what was shown.
fn compare_told(alloc: Global, hello: &[u8], told: &Told, shown: &str, said: &str) -> Result<()> {
    let line = told.line.as_str();
    let said = if said.is_empty() && line.starts_with("well") {
        line
    } else {
        said
    };
    if shown == "<hello>" {
        return told.compare(said, hello);
    }
    let shown = shown.replace(alloc, "/", "\n")?;
    told.compare(said, shown.as_bytes())
}

/// Compares what each line of a table comes to.
pub fn compare_all<P: Print>(
    rt: &P,
    alloc: Global,
    hello: &[u8],
    file: &str,
    table: &str,
    tally: &mut Tally,
) -> Result<()> {
    for line in table.lines() {
        let place = Place {
            file,
            story: "a command line",
            line,
        };
        if line.is_empty() || line.starts_with(';') {
            continue;
        }
        tally.note_at(rt, place, compare_line(alloc, hello, line))?;
    }
    Ok(())
}

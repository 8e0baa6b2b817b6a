//! All chunks of a form at once; the player itself looks for one chunk after another.
use anyhow::{Result, ensure};
use iff_chunks::{Form, Part, read_form};
use std::alloc::Global;

/// A form of kind `IFZS` with the chunks `Stks`, of three bytes and one that fills up, and `MAll`.
const FORM: [u8; 32] = *b"FORM\x00\x00\x00\x18IFZSStks\x00\x00\x00\x03abc\x00MAll\x00\x00\x00\x00";

const STACK: Part = Part {
    id: *b"Stks",
    at: 20,
    len: 3,
};

const HEAP: Part = Part {
    id: *b"MAll",
    at: 32,
    len: 0,
};

/// Chunks that are found by their letters and by their place.
fn compare(form: &Form) -> Result<()> {
    let there = (form.first(*b"Stks"), form.at(24));
    ensure!(there == (Some(STACK), Some(HEAP)), "another chunk");
    let none = form.first(*b"CMem").is_none() && form.at(usize::MAX).is_none();
    ensure!(none, "a chunk that isn't there, or past the end");
    Ok(())
}

/// A form with a chunk of odd length.
pub fn chunks(alloc: Global) -> Result<()> {
    let form = read_form(alloc, &FORM, *b"IFZS")?;
    compare(&form)?;
    ensure!(STACK.body(&FORM) == b"abc".as_slice(), "another body");
    Ok(())
}

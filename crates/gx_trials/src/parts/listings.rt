//! Codes of which a story's start function isn't made, as text.
use anyhow::{Result, ensure};
use gx_asm::{ListFault, list};
use std::alloc::Global;

/// A code against its text, or why it has none.
fn compare(alloc: Global, code: &[u8], wanted: Result<&str, ListFault>) -> Result<()> {
    ensure!(code.len() < 0x100, "the code is too long");
    let listed = list(alloc, code);
    let there = match &listed {
        Ok(text) => Ok(text.as_slice()),
        Err(fault) => Err(*fault),
    };
    ensure!(
        there == wanted.map(str::as_bytes),
        "a code is listed otherwise"
    );
    Ok(())
}

/// Instructions with no operand, with three, and with one of four bytes; a code goes on after a quit.
pub fn texts(alloc: Global) -> Result<()> {
    compare(alloc, &[], Ok(""))?;
    compare(
        alloc,
        &[0x00, 0x10, 0x11, 0x08, 0x02, 0xFD],
        Ok("nop\nadd #02 #fd sp\n"),
    )?;
    compare(
        alloc,
        &[0x70, 0x03, 0, 0, 0, 0x48, 0x81, 0x20, 0x00],
        Ok("streamchar #00000048\nquit\nnop\n"),
    )
}

/// The second instruction is cut, has its number in a longer form, is none, or has a mode without a meaning.
pub fn faults(alloc: Global) -> Result<()> {
    compare(alloc, &[0, 0x70, 0x01], Err(ListFault::Cut { at: 1 }))?;
    compare(
        alloc,
        &[0, 0x80, 0x70, 0x00],
        Err(ListFault::Spelling { at: 1 }),
    )?;
    compare(alloc, &[0, 0x7F], Err(ListFault::BadOpcode { at: 1 }))?;
    compare(alloc, &[0, 0x70, 0x04], Err(ListFault::BadMode { at: 1 }))
}

//! Packed bytes that are read into a list of their own; a save is read behind the bytes below RAM.
use anyhow::{Result, ensure};
use std::alloc::Global;
use zero_runs::{RunFault, unpack};

/// Packed bytes with so many bytes to be made, over old ones, against what they stand for or why they don't.
fn compare(
    alloc: Global,
    (packed, size): (&[u8], usize),
    old: &[u8],
    wanted: Result<&[u8], RunFault>,
) -> Result<()> {
    let unpacked = unpack(alloc, packed, old, size);
    let there = match &unpacked {
        Ok(bytes) => Ok(bytes.as_slice()),
        Err(fault) => Err(*fault),
    };
    ensure!(there == wanted, "{size} bytes are unpacked otherwise");
    Ok(())
}

/// A byte by itself, a run, zeros that are missing at the end, and a run over old bytes.
pub fn runs(alloc: Global) -> Result<()> {
    compare(alloc, (&[5], 1), &[], Ok(&[5]))?;
    compare(alloc, (&[0, 1, 7], 3), &[], Ok(&[0, 0, 7]))?;
    compare(alloc, (&[5], 2), &[], Ok(&[5, 0]))?;
    compare(alloc, (&[0, 0, 0xFF], 4), &[1, 2, 3], Ok(&[1, 0xFD, 3, 0]))
}

/// A run without its count, and more bytes than there is room for; no bytes at all are none.
pub fn faults(alloc: Global) -> Result<()> {
    compare(alloc, (&[5, 0], 9), &[], Err(RunFault::Cut))?;
    compare(alloc, (&[0, 9], 9), &[], Err(RunFault::TooMany))?;
    compare(alloc, (&[], 0), &[1], Ok(&[]))
}

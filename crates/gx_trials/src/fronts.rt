//! Files that are cut: each front of a file is refused, and the whole one isn't.
use crate::runs::{Devices, MOST_PAGES, run};
use anyhow::{Context, Result, bail};
use std::alloc::Global;

const PLAY: &str = "gx_player|story|--job|play";

const CHECK: &str = "gx_player|story|--job|check";

/// Plays and checks each front of a file, which is refused with fault 1 below so many bytes and with another fault from
/// there on, as `KNOWN FAULT` says, and checks the whole one, whose checksum is right.
pub fn compare_fronts(alloc: Global, file: &[u8], wanted: &str) -> Result<()> {
    let (known, fault) = wanted.split_once(' ').context("fronts without a fault")?;
    let known = known.parse::<usize>()?;
    let line = format!(in alloc; "no story ({fault})")?;
    for length in 0..file.len() {
        let front = file.get(..length).unwrap_or_default();
        let line = if length < known {
            "no story (1)"
        } else {
            line.as_str()
        };
        compare_front(alloc, front, line)?;
    }
    compare_job(alloc, CHECK, file, "well after 0 steps", b"checksum ok\n")
}

/// Compares how both jobs refuse a front.
fn compare_front(alloc: Global, front: &[u8], line: &str) -> Result<()> {
    for words in [PLAY, CHECK] {
        if let Err(error) = compare_job(alloc, words, front, line, b"") {
            let length = front.len();
            bail!("{words} of {length} bytes: {error}");
        }
    }
    Ok(())
}

/// Compares what a job on a file comes to, and what it shows.
fn compare_job(alloc: Global, words: &str, file: &[u8], line: &str, shown: &[u8]) -> Result<()> {
    let devices = Devices::with_story(alloc, "", file)?;
    run(alloc, MOST_PAGES, words, devices)?.compare(line, shown)
}

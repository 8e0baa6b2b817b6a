//! Plays the stories of the files that the command line names, and compares how they end and what they leave.
//!
//! It prints a line for each run that differs, with what differs, and last `N as wanted, M otherwise`; its status is 1
//! where any run differs. A file that isn't there, one of no known kind and one without stories are errors.
//!
//! The files lie in data/, by topics. Stories of instructions are those of `operands`, `branches`, `calc`, `memory`
//! (and its heap), `searches`, `stack`, `flow` (functions and call stubs), `strings`, `filters` and `game`, and of
//! Glk's calls those of `world`, in the order of the standard, and of `saves`, most of which begin with a jump over
//! the first 128 bytes, which a save repeats.
//!
//! - `stories` plays files of stories, which are of two kinds, and says how they are written; `story` plays one of
//!   their runs, `programs` reads what it plays, and `story_files` is the file that this makes. `commands` has command
//!   lines. `notation` has what all lines have in common, `wanted` how anything is compared and told.
//! - `runs` plays a command line over objects in memory, `fronts` a file that is cut at each byte, `sequel` a story
//!   that goes on where memory ran out, and `rewinding` one that goes back.
//! - `parts` calls parts of the machine by themselves, for what no story shows.
//! - `tally` counts.
#![tactic(auto)]

mod commands;
mod fronts;
mod notation;
mod parts;
mod programs;
mod rewinding;
mod runs;
mod sequel;
mod stories;
mod story;
mod story_files;
mod tally;
mod wanted;

use anyhow::{Result, anyhow, bail, ensure};
use std::alloc::Global;
use std::rt::Files;
use std::{env, fs};
use stories::{Kind, play_all};
use tally::Tally;

/// What several files have need of.
#[derive(Drop)]
struct Common {
    /// The story that shows `Hi`.
    hello: Vec<u8>,
    /// The selectors of Glk's calls by their names (Glk 0.7.5, "The Dispatch Layer"): a line a call, its selector in
    /// hexadecimal, and its name.
    selectors: String,
}

/// The text of a file. A line that ends in `\` goes on in the next one.
fn read_table<R: Files + Alloc>(rt: &R, alloc: Global, name: &str) -> Result<String> {
    match fs::read_to_string(rt, name) {
        Ok(text) => Ok(text.as_str().replace(alloc, "\\\n", "")?),
        Err(_) => Err(anyhow!("{name} can't be read")),
    }
}

/// Plays the stories of a file.
fn play_file<R: Files + Alloc + Print>(
    rt: &R,
    alloc: Global,
    common: &Common,
    name: &str,
    tally: &mut Tally,
) -> Result<()> {
    let table = read_table(rt, alloc, name)?;
    let table = table.as_str();
    let before = tally.counted();
    match name.rsplit('.').next() {
        Some("small") => play_all(rt, alloc, Kind::small(), name, table, tally)?,
        Some("calls") => {
            let kind = Kind::calls(common.selectors.as_str());
            play_all(rt, alloc, kind, name, table, tally)?;
        }
        Some("commands") => {
            commands::compare_all(rt, alloc, common.hello.as_slice(), name, table, tally)?;
        }
        _ => bail!("{name} is a file of no known kind"),
    }
    ensure!(tally.counted() > before, "{name} has no stories");
    Ok(())
}

fn main(rt: HostRuntime) -> Result<()> {
    let alloc = rt.alloc();
    let common = Common {
        hello: fs::read(&rt, "hello.ulx")?,
        selectors: fs::read_to_string(&rt, "selectors")?,
    };
    let mut tally = Tally::new();
    parts::try_all(&rt, alloc, &mut tally)?;
    for name in env::args(&rt)?.skip(1) {
        play_file(&rt, alloc, &common, name.as_str(), &mut tally)?;
    }
    let (passed, failed) = (tally.passed, tally.failed);
    println!(rt; "{passed} as wanted, {failed} otherwise")?;
    ensure!(failed == 0, "not all runs came to what was wanted");
    Ok(())
}

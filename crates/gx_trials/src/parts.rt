//! What no story can show: texts that the program doesn't print, what a pool counts and refuses, pages that are shared,
//! where the rows of a text start and end, each way back and on of a tape, and calls that nothing above makes.
//!
//! Each of these functions plays no story. It compares what calls of one crate answer, says with an error what differs,
//! and counts as a run.
mod characters;
mod devices;
mod files;
mod headers;
mod listings;
mod packing;
mod pages;
mod pools;
mod replies;
mod reports;
mod screens;
mod stacks;
mod tapes;
mod words;
mod worlds;

use crate::tally::Tally;
use anyhow::{Result, bail};
use std::alloc::Global;

/// How many there are.
const COUNT: u32 = 30;

/// Calls one of them.
fn part(alloc: Global, number: u32) -> Result<()> {
    match number {
        0 => words::texts(alloc),
        1 => words::sizes(),
        2 => characters::forms(alloc),
        3 => devices::texts(alloc),
        4 => files::chunks(alloc),
        5 => headers::words(alloc),
        6 => listings::texts(alloc),
        7 => listings::faults(alloc),
        8 => packing::runs(alloc),
        9 => packing::faults(alloc),
        10 => pools::counts(alloc),
        11 => pools::large_blocks(alloc),
        12 => pools::refusal_below(alloc),
        13 => pages::shares_pages(alloc),
        14 => pages::keeps_huge_memory(alloc),
        15 => replies::writes(alloc),
        16 => replies::writes_and(alloc),
        17 => replies::pushes(alloc),
        18 => reports::reports(alloc),
        19 => screens::words(alloc),
        20 => screens::paragraphs(alloc),
        21 => screens::wide(alloc),
        22 => stacks::frames(alloc),
        23 => stacks::values(alloc),
        24 => worlds::cells(alloc),
        25 => worlds::waiting(alloc),
        26 => worlds::open_files(alloc),
        27 => tapes::goes_back_and_on(alloc),
        28 => tapes::takes_checkpoints_where_due(alloc),
        29 => tapes::keeps_few_checkpoints(alloc),
        _ => bail!("no part has the number {number}"),
    }
}

/// Calls each of them.
pub fn try_all<P: Print>(rt: &P, alloc: Global, tally: &mut Tally) -> Result<()> {
    for number in 0..COUNT {
        tally.note(rt, part(alloc, number))?;
    }
    Ok(())
}

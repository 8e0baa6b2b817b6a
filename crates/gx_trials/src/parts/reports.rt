//! The line that says how a run ended, for each status.
use crate::wanted::compare;
use anyhow::Result;
use gx_pool::PagePool;
use gx_session::Ended;
use std::alloc::Global;

/// The status, the fault, its place, the steps, and the line.
const REPORTS: [(u8, u8, u32, u64, &str); 14] = [
    (0, 0, 0, 12, ""),
    (1, 0, 0, 0, "gx_player: the command line is not understood"),
    (2, 5, 0, 0, "gx_player: no story (5)"),
    (
        3,
        16,
        0x01AF,
        18_446_744_073_709_551_615,
        "gx_player: fault 16 at 000001af after 18446744073709551615 steps",
    ),
    (3, 0, 0, 0, "gx_player: the checksum differs"),
    (4, 0, 0, 1000, "gx_player: budget spent after 1000 steps"),
    (5, 0, 0, 0, "gx_player: input ended"),
    (6, 0, 0, 0, "gx_player: nothing to wait for"),
    (7, 0, 0, 0, "gx_player: input line too long"),
    (8, 0, 0, 0, "gx_player: file fault"),
    (9, 0, 0, 0, "gx_player: input fault"),
    (10, 0, 0, 0, "gx_player: output fault"),
    (11, 0, 0, 0, "gx_player: out of memory"),
    (14, 0, 0, 0, ""),
];

/// A run that ended so, with no machine.
fn ended<'p>(status: u8, fault: u8, at: u32, steps: u64) -> Ended<&'p PagePool> {
    Ended {
        status,
        fault,
        at,
        steps,
        machine: None,
    }
}

/// The line of each.
pub fn reports(alloc: Global) -> Result<()> {
    for (status, fault, at, steps, wanted) in REPORTS.iter() {
        let ended = ended(*status, *fault, *at, *steps);
        compare("reports", wanted, ended.line(alloc)?.as_str())?;
    }
    Ok(())
}

//! The texts of what a device answers where it fails.
use anyhow::{Result, ensure};
use gx_outside::{Failed, SendFault, ShelfFault};
use std::alloc::Global;

/// The texts of the failures of a source, a sink and a shelf.
pub fn texts(alloc: Global) -> Result<()> {
    let failed = format!(in alloc; "{}; {}; {}", Failed, SendFault::Failed, ShelfFault::Failed)?;
    let failed = failed.as_str();
    let wanted = "the input can't be read; the output can't be written; the file can't be used";
    ensure!(failed == wanted, "failures are {failed}");
    let refused = format!(in alloc; "{}; {}", SendFault::NoMemory, ShelfFault::NoMemory)?;
    let refused = refused.as_str();
    ensure!(
        refused == "out of memory; out of memory",
        "refusals are {refused}"
    );
    Ok(())
}

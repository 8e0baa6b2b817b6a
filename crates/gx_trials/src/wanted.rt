//! What is wanted against what is found: each difference is told here.
use crate::notation::{facts, last};
use anyhow::{Result, ensure};

/// Compares a text.
pub fn compare(what: &str, wanted: &str, found: &str) -> Result<()> {
    ensure!(found == wanted, "{what}: {found} and not {wanted}");
    Ok(())
}

/// Compares a number.
pub fn compare_number(what: &str, wanted: u64, found: u64) -> Result<()> {
    ensure!(found == wanted, "{what}: {found} and not {wanted}");
    Ok(())
}

/// Compares bytes, which may be missing, and tells them as text.
pub fn compare_bytes(what: &str, wanted: &[u8], found: Option<&[u8]>) -> Result<()> {
    let there = std::str::from_utf8(found.unwrap_or_default()).unwrap_or("no UTF-8");
    ensure!(found == Some(wanted), "{what}: there is {there}");
    Ok(())
}

/// Compares each line of what is found with the last line of its kind that says what is wanted, if there is one.
pub fn compare_lines(wanted: &str, found: &str) -> Result<()> {
    for line in found.lines() {
        let (kind, found) = facts(line);
        if let Some(wanted) = last(wanted, kind) {
            compare(kind, wanted, found)?;
        }
    }
    Ok(())
}

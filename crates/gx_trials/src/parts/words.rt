//! The texts of the machine's faults, and sizes at the end of 32 bits.
use anyhow::{Result, ensure};
use gx_words::{Fault, round_up_256};
use std::alloc::Global;

/// Each fault with its number and its text.
const TEXTS: [(Fault, &str); 17] = [
    (Fault::BadOpcode, "1 unknown opcode"),
    (Fault::BadMode, "2 operand mode not allowed"),
    (Fault::BadAddress, "3 address outside memory"),
    (Fault::ReadOnly, "4 write to read-only memory"),
    (Fault::Divide, "5 division without a quotient"),
    (Fault::Overflow, "6 stack overflow"),
    (Fault::Underflow, "7 stack underflow"),
    (Fault::BadFrame, "8 bad call frame"),
    (Fault::BadLocal, "9 no such local"),
    (Fault::BadFunction, "10 not a function"),
    (Fault::BadString, "11 not a string"),
    (Fault::BadToken, "12 bad catch token"),
    (Fault::MemSize, "13 bad memory size"),
    (Fault::HeapUse, "14 bad use of the heap"),
    (Fault::DebugTrap, "15 debug trap"),
    (Fault::BadGlk, "16 bad Glk call"),
    (Fault::NoMemory, "17 out of memory"),
];

/// The number and the text of a fault.
fn compare_text(alloc: Global, fault: Fault, wanted: &str) -> Result<()> {
    let text = format!(in alloc; "{} {fault}", fault.number())?;
    let text = text.as_str();
    ensure!(text == wanted, "a fault is {text} and not {wanted}");
    Ok(())
}

/// The numbers and the texts of all faults.
pub fn texts(alloc: Global) -> Result<()> {
    for (fault, wanted) in TEXTS.iter() {
        compare_text(alloc, *fault, wanted)?;
    }
    Ok(())
}

/// The largest sizes: the last multiple of 256 stays, and a size above it has none.
pub fn sizes() -> Result<()> {
    let largest = (round_up_256(0xFFFF_FEFF), round_up_256(0xFFFF_FF00));
    let wanted = (Some(0xFFFF_FF00), Some(0xFFFF_FF00));
    ensure!(largest == wanted, "the largest sizes are rounded otherwise");
    ensure!(round_up_256(0xFFFF_FF01).is_none(), "a size past 32 bits");
    Ok(())
}

//! Limits that the standard leaves to an interpreter.

/// The largest memory in bytes.
pub const CEILING: u32 = 0x1000_0000;

/// The largest stack in bytes.
pub const STACK_LIMIT: u32 = 0x0100_0000;

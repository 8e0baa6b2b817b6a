//! The types of functions and strings in memory, each the object's first byte (Glulx 3.1.2, "Typable
//! Objects").

/// A function whose arguments are on the stack, with their count on top.
pub const STACK_FUNCTION: u32 = 0xC0;
/// A function whose arguments are in its locals.
pub const LOCALS_FUNCTION: u32 = 0xC1;
/// A string of bytes up to a zero byte.
pub const C_STRING: u32 = 0xE0;
/// A string of bits that the decoding table turns into text.
pub const COMPRESSED_STRING: u32 = 0xE1;
/// A string of words up to a zero word.
pub const UNICODE_STRING: u32 = 0xE2;

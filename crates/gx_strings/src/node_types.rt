//! The types of the nodes of a decoding table, each its first byte (Glulx 3.1.2, "The
//! String-Decoding Table").

/// Two nodes, of which the next bit names one.
pub const BRANCH: u32 = 0x00;
/// The end of the string.
pub const STRING_TERMINATOR: u32 = 0x01;
/// A character in a byte.
pub const SINGLE_CHARACTER: u32 = 0x02;
/// Bytes up to a zero byte.
pub const C_STYLE_STRING: u32 = 0x03;
/// A character in a word.
pub const SINGLE_UNICODE_CHARACTER: u32 = 0x04;
/// Words up to a zero word.
pub const C_STYLE_UNICODE_STRING: u32 = 0x05;
/// The address of a string or function.
pub const INDIRECT_REFERENCE: u32 = 0x08;
/// The address at which that of a string or function stands.
pub const DOUBLE_INDIRECT_REFERENCE: u32 = 0x09;
/// The address of a string or function, and arguments.
pub const INDIRECT_REFERENCE_WITH_ARGUMENTS: u32 = 0x0A;
/// The address at which that of a string or function stands, and arguments.
pub const DOUBLE_INDIRECT_REFERENCE_WITH_ARGUMENTS: u32 = 0x0B;

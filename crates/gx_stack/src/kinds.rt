//! The kinds of call stubs, each its DestType (Glulx 3.1.2, "Call Stubs"): what is done with the value that is
//! returned. The printing and the code that go on drop it.

/// The value that is returned is dropped.
pub const TO_NOWHERE: u32 = 0;
/// The value is stored in memory.
pub const TO_MEMORY: u32 = 1;
/// The value is stored in a local.
pub const TO_LOCAL: u32 = 2;
/// The value is pushed.
pub const TO_STACK: u32 = 3;
/// The printing of a compressed string goes on.
pub const RESUME_COMPRESSED: u32 = 0x10;
/// Code goes on after a string.
pub const RESUME_CODE: u32 = 0x11;
/// The printing of a number goes on.
pub const RESUME_NUMBER: u32 = 0x12;
/// The printing of a C-style string goes on.
pub const RESUME_C_STRING: u32 = 0x13;
/// The printing of a Unicode string goes on.
pub const RESUME_UNICODE: u32 = 0x14;

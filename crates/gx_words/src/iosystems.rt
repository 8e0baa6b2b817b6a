//! The I/O systems, by which a story prints (Glulx 3.1.2, "Output").

/// What is printed is dropped.
pub const NULL_SYSTEM: u32 = 0;
/// A function of the story is called with each character.
pub const FILTER_SYSTEM: u32 = 1;
/// Each character goes to the current Glk stream.
pub const GLK_SYSTEM: u32 = 2;

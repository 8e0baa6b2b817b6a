//! The statuses of a run, and of a command line that comes to none. Those from `SHELF_FAULT` to `NO_MEMORY`
//! say that a run was cut short; `BAD_TEXT` and `NO_LISTING` are of no run.

/// The program ended.
pub const ENDED: u8 = 0;
/// The command line is not understood.
pub const BAD_WORDS: u8 = 1;
/// There is no story.
pub const BAD_STORY: u8 = 2;
/// The story met a fault.
pub const FAULT: u8 = 3;
/// The budget is spent.
pub const SPENT: u8 = 4;
/// The input ended.
pub const INPUT_ENDED: u8 = 5;
/// The story waits for what can't come.
pub const STUCK: u8 = 6;
/// A line of input is too long.
pub const LINE_TOO_LONG: u8 = 7;
/// The shelf failed.
pub const SHELF_FAULT: u8 = 8;
/// The source failed.
pub const INPUT_FAULT: u8 = 9;
/// The sink failed.
pub const OUTPUT_FAULT: u8 = 10;
/// Memory ran out.
pub const NO_MEMORY: u8 = 11;
/// The text has no code.
pub const BAD_TEXT: u8 = 12;
/// The story has no listing.
pub const NO_LISTING: u8 = 13;

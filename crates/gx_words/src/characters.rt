//! The character that ends a line.

/// A line feed (Glk 0.7.5, "Output").
pub const LINE_FEED: u32 = 0x0A;

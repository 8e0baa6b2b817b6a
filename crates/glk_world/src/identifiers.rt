//! The identifiers of objects (Glk 0.7.5, "Opaque Objects").

/// The last one that is given.
pub const LAST_IDENTIFIER: u32 = 0xFFFF_FFFE;

//! The header with which a story begins: nine words, each at its address (Glulx 3.1.2, "The
//! Header").

pub const MAGIC_AT: usize = 0x00;

pub const VERSION_AT: usize = 0x04;

pub const RAMSTART_AT: usize = 0x08;

pub const EXTSTART_AT: usize = 0x0C;

pub const ENDMEM_AT: usize = 0x10;

pub const STACK_SIZE_AT: usize = 0x14;

pub const START_FUNCTION_AT: usize = 0x18;

pub const TABLE_AT: usize = 0x1C;

pub const CHECKSUM_AT: usize = 0x20;

/// The length of the header in bytes.
pub const HEADER_LEN: usize = 0x24;

/// The word with which a story begins: the letters `Glul`.
pub const MAGIC: u32 = 0x476C_756C;

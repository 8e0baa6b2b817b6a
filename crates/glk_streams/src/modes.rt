//! How a stream is open, and where a position is counted from (Glk 0.7.5, "Streams").

/// filemode_Write
pub const WRITE: u32 = 1;

/// filemode_Read
pub const READ: u32 = 2;

/// filemode_ReadWrite
pub const READ_WRITE: u32 = 3;

/// filemode_WriteAppend
pub const WRITE_APPEND: u32 = 5;

/// seekmode_Start
pub const FROM_START: u32 = 0;

/// seekmode_Current
pub const FROM_CURRENT: u32 = 1;

/// seekmode_End
pub const FROM_END: u32 = 2;

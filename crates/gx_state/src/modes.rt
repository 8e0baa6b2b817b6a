//! What the machine does next, and where a result goes.
use gx_words::Printing;

/// Whether the machine runs code or prints.
#[derive(Clone, Copy, Debug, PartialEq, Eq)]
pub enum Mode {
    /// The next step is the instruction at PC.
    Running,
    /// The next step is the next item of what is printed.
    Printing(Printing),
}

/// Where a result goes (Glulx 3.1.2, "Instruction Format").
#[derive(Clone, Copy, Debug, PartialEq, Eq)]
pub enum Dest {
    /// It is dropped.
    Nowhere,
    /// To memory at an address.
    Memory(u32),
    /// To the local at an offset.
    Local(u32),
    /// It is pushed.
    Push,
}

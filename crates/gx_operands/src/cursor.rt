//! Where decoding stands in an instruction (Glulx 3.1.2, "Instruction Format").

/// Where decoding stands: the address of the next operand's data, and how many values were popped.
#[derive(Clone, Copy, Debug, PartialEq, Eq)]
pub struct Cursor {
    pub at: u32,
    pub popped: u32,
}

//! Where the printing of a string or number stands (Glulx 3.1.2, "Call Stubs" and "Strings").

/// What is printed: a string by its type, or a number.
#[derive(Clone, Copy, Debug, PartialEq, Eq)]
pub enum PrintKind {
    /// Bytes up to a zero byte.
    E0,
    /// Bits that the decoding table turns into text.
    E1,
    /// Words up to a zero word.
    E2,
    /// The decimal digits of a signed number.
    Number,
}

/// The next item of what is printed.
///
/// `at` is its address and `bit` its bit for a string; for a number `at` is the number and `bit`
/// the index of the next digit. `started` is false until a call stub of type 11 was pushed, or
/// where none will be.
#[derive(Clone, Copy, Debug, PartialEq, Eq)]
pub struct Printing {
    pub kind: PrintKind,
    pub at: u32,
    pub bit: u32,
    pub started: bool,
}

//! What the printing of a string or number comes to next.

use gx_words::Printing;

/// The next item of what is printed.
#[derive(Clone, Copy, Debug, PartialEq, Eq)]
pub enum Item {
    /// A character, and the place after it.
    Char {
        value: u32,
        next: Printing,
    },
    /// A reference to a string: the place after the reference, and where the string begins.
    Sub {
        back: Printing,
        inner: Printing,
    },
    /// A reference to a function at `at`: the place after the reference, and the address and number
    /// of its arguments, which are words; both are 0 where the reference has none.
    Call {
        back: Printing,
        at: u32,
        args_at: u32,
        args: u32,
    },
    /// The end of the string or number.
    End,
}

/// What comes next, told without a look at what a reference leads to.
#[derive(Clone, Copy, Debug, PartialEq, Eq)]
pub enum CharOrEnd {
    /// A character, with the address and the bit behind it.
    Char { value: u32, at: u32, bit: u32 },
    /// The end of the string or number.
    End,
    /// A reference, or a fault.
    Neither,
}

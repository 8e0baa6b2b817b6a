//! Why a step of the machine is not done.
//!
//! A fault other than `NoMemory` comes exactly where the definitions say so; `NoMemory` is the one
//! free answer, and after each fault the machine is as before the step.
ghost use Rattle.std.specs.Prelude.{◌≡◌, ◌≤◌};
ghost use Rattle.gx_words.specs.Faults.{number_of};
ghost use Rattle.gx_words.specs.declared.faults.Fault.TheVariants.{NoMemory};

use std::alloc::{AllocError, AllocFailed};
use thiserror::Error;

/// The faults in the order of their numbers, which the status line shows.
#[derive(Clone, Copy, Debug, PartialEq, Eq, Error)]
pub enum Fault {
    /// The number of the instruction is in no row of the table.
    #[error("unknown opcode")]
    BadOpcode = 1,
    /// An operand's addressing mode isn't allowed there.
    #[error("operand mode not allowed")]
    BadMode,
    /// A byte that is read or written isn't in memory.
    #[error("address outside memory")]
    BadAddress,
    /// A write inside memory touches a byte below RAMSTART.
    #[error("write to read-only memory")]
    ReadOnly,
    /// The divisor is 0, or the quotient has no place in 32 bits.
    #[error("division without a quotient")]
    Divide,
    /// The stack would pass its limit.
    #[error("stack overflow")]
    Overflow,
    /// More values are asked for than the frame has.
    #[error("stack underflow")]
    Underflow,
    /// A call stub or a call frame isn't as it has to be.
    #[error("bad call frame")]
    BadFrame,
    /// The frame has no such local.
    #[error("no such local")]
    BadLocal,
    /// The object to be called is no function that can be entered.
    #[error("not a function")]
    BadFunction,
    /// The object to be printed is no string, or its table has a node of no known type.
    #[error("not a string")]
    BadString,
    /// A throw names no place on the stack.
    #[error("bad catch token")]
    BadToken,
    /// A size of memory is below ENDMEM or no multiple of 256.
    #[error("bad memory size")]
    MemSize,
    /// A block of no bytes is asked for, or one is freed that isn't there.
    #[error("bad use of the heap")]
    HeapUse,
    /// The story asked for a debugger.
    #[error("debug trap")]
    DebugTrap,
    /// A Glk call that isn't there, has too few arguments or names no object.
    #[error("bad Glk call")]
    BadGlk,
    /// Memory ran out: the one fault that no definition has.
    #[error("out of memory")]
    NoMemory,
}

impl Fault {
    /// The number that the status line shows.
    pub fn number(self) -> u8
        ensures value { result ≡ number_of self }
        ensures range { (1 ≤ result) × (result ≤ 17) }
    {
        self as u8
    }
}

impl From<AllocError> for Fault {
    ghost from_gives = { λ _ fault. fault ≡ NoMemory };

    fn from(_refused: AllocError) -> Fault {
        Fault::NoMemory
    }
}

impl<T: Drop> From<AllocFailed<T>> for Fault {
    ghost from_gives = { λ _ fault. fault ≡ NoMemory };

    fn from(_refused: AllocFailed<T>) -> Fault {
        Fault::NoMemory
    }
}

//! Why a call of the stack is refused. The stack is as before after each.
ghost use Rattle.std.specs.Prelude.{◌≡◌, ◌≤◌};
ghost use Rattle.gx_stack.specs.Faults.{number_of, fault_of};

use gx_words::Fault;
use thiserror::Error;

#[derive(Clone, Copy, Debug, PartialEq, Eq, Error)]
pub enum StackFault {
    /// The stack would pass its limit.
    #[error("stack overflow")]
    Overflow = 1,
    /// More is asked for than the frame or the stack has.
    #[error("stack underflow")]
    Underflow,
    /// No good frame begins there.
    #[error("bad call frame")]
    BadFrame,
    /// The frame has no such local.
    #[error("no such local")]
    BadLocal,
}

impl StackFault {
    /// Its number in the list above.
    pub fn number(self) -> u8
        ensures value { result ≡ number_of self }
        ensures range { (1 ≤ result) × (result ≤ 4) }
    {
        self as u8
    }
}

impl From<StackFault> for Fault {
    ghost from_gives = { λ fault answer. answer ≡ fault_of fault };

    fn from(fault: StackFault) -> Fault {
        match fault {
            StackFault::Overflow => Fault::Overflow,
            StackFault::Underflow => Fault::Underflow,
            StackFault::BadFrame => Fault::BadFrame,
            StackFault::BadLocal => Fault::BadLocal,
        }
    }
}

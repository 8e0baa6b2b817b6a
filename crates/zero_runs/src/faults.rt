//! Why packed bytes are refused.
ghost use Rattle.std.specs.Prelude.{◌≡◌};
ghost use Rattle.zero_runs.specs.Faults.{number_of};
ghost use Rattle.zero_runs.specs.declared.faults.RunFault.TheVariants.{NoMemory};

use std::alloc::AllocError;
use thiserror::Error;

/// The faults in the order of their numbers.
#[derive(Clone, Copy, Debug, PartialEq, Eq, Error)]
pub enum RunFault {
    /// A zero byte that should have a count ends the data.
    #[error("run of zeros without a count")]
    Cut = 1,
    /// More bytes come than there is room for.
    #[error("more bytes than the size allows")]
    TooMany,
    /// Memory ran out: the one fault that no definition has.
    #[error("out of memory")]
    NoMemory,
}

impl RunFault {
    /// The fault's number.
    pub fn number(self) -> u8
        ensures { result ≡ number_of self }
    {
        self as u8
    }
}

impl From<AllocError> for RunFault {
    ghost from_gives = { λ _ fault. fault ≡ NoMemory };

    fn from(_refused: AllocError) -> RunFault {
        RunFault::NoMemory
    }
}

//! Why bytes aren't a form of a kind.
ghost use Rattle.std.specs.Prelude.{◌≡◌, ◌≤◌};
ghost use Rattle.iff_chunks.specs.Faults.{number_of};
ghost use Rattle.iff_chunks.specs.declared.faults.IffFault.TheVariants.{NoMemory};

use std::alloc::AllocFailed;
use thiserror::Error;

/// The faults in the order of their numbers; `NoMemory` is the one that no definition has.
#[derive(Clone, Copy, Debug, PartialEq, Eq, Error)]
pub enum IffFault {
    /// The bytes, the form or a chunk of it ends too early.
    #[error("IFF form is cut")]
    Cut = 1,
    /// The bytes don't begin with `FORM`.
    #[error("not an IFF form")]
    NotForm,
    /// The form has another kind.
    #[error("IFF form of another kind")]
    WrongKind,
    /// Memory ran out.
    #[error("out of memory")]
    NoMemory,
}

impl IffFault {
    pub fn number(self) -> u8
        ensures value { result ≡ number_of self }
        ensures range { (1 ≤ result) × (result ≤ 4) }
    {
        self as u8
    }
}

impl<T: Drop> From<AllocFailed<T>> for IffFault {
    ghost from_gives = { λ _ fault. fault ≡ NoMemory };

    fn from(_refused: AllocFailed<T>) -> IffFault {
        IffFault::NoMemory
    }
}

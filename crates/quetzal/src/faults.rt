//! Why a save is refused.
ghost use Rattle.std.specs.Prelude.{◌≡◌, ◌≤◌, OnOk, true};
ghost use Rattle.quetzal.specs.Faults.{allowed, fault_of, fault_of_run, number_of};
ghost use Rattle.quetzal.specs.declared.faults.SaveFault.TheVariants.{NoMemory};

use iff_chunks::IffFault;
use std::alloc::{AllocError, AllocFailed};
use thiserror::Error;
use zero_runs::RunFault;

/// The faults in the order of their numbers, which is that of their checks.
#[derive(Clone, Copy, Debug, PartialEq, Eq, Error)]
pub enum SaveFault {
    /// The file is no form of kind `IFZS`, or lacks a chunk `IFhd` or `Stks`, or its memory has no size.
    #[error("not a saved game")]
    Form = 1,
    /// It is of another story.
    #[error("saved game of another story")]
    OtherStory,
    /// It has no memory.
    #[error("saved game without memory")]
    NoMemoryChunk,
    /// The size of its memory isn't one that the story's memory may have.
    #[error("bad memory size in the saved game")]
    Size,
    /// The bytes of its memory aren't as many as its size says, or a run of zeros has no count.
    #[error("bad memory in the saved game")]
    Runs,
    /// Its stack doesn't end with a stub on a good frame, or the stub's result has no place.
    #[error("bad stack in the saved game")]
    Stack,
    /// Its heap isn't one that the story can have.
    #[error("bad heap in the saved game")]
    Blocks,
    /// Memory ran out: the one fault that no definition has.
    #[error("out of memory")]
    NoMemory,
}

impl SaveFault {
    /// The fault's number.
    pub fn number(self) -> u8
        ensures value { result ≡ number_of self }
        ensures range { (1 ≤ result) × (result ≤ 8) }
    {
        self as u8
    }
}

impl From<AllocError> for SaveFault {
    ghost from_gives = { λ _ fault. fault ≡ NoMemory };

    fn from(_refused: AllocError) -> SaveFault {
        SaveFault::NoMemory
    }
}

impl<T: Drop> From<AllocFailed<T>> for SaveFault {
    ghost from_gives = { λ _ fault. fault ≡ NoMemory };

    fn from(_refused: AllocFailed<T>) -> SaveFault {
        SaveFault::NoMemory
    }
}

impl From<IffFault> for SaveFault {
    ghost from_gives = { λ fault answer. answer ≡ fault_of fault };

    fn from(fault: IffFault) -> SaveFault {
        match fault {
            IffFault::NoMemory => SaveFault::NoMemory,
            IffFault::Cut | IffFault::NotForm | IffFault::WrongKind => SaveFault::Form,
        }
    }
}

impl From<RunFault> for SaveFault {
    ghost from_gives = { λ fault answer. answer ≡ fault_of_run fault };

    fn from(fault: RunFault) -> SaveFault {
        match fault {
            RunFault::NoMemory => SaveFault::NoMemory,
            RunFault::Cut | RunFault::TooMany => SaveFault::Runs,
        }
    }
}

/// What a test passes, or else has the fault.
pub(crate) fn allowed(passes: bool, fault: SaveFault) -> Result<(), SaveFault>
    ensures value { result ≡ allowed passes fault }
    ensures passes { OnOk result (passes ≡ true) }
{
    if passes { Ok(()) } else { Err(fault) }
}

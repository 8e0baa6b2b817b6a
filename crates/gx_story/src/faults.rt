//! Why a story file is refused.
//!
//! A fault other than `NoMemory` comes exactly where the definition `accepted` has it; `NoMemory`
//! is the one free answer.
ghost use Rattle.std.specs.Prelude.{◌≡◌, ◌≤◌};
ghost use Rattle.gx_story.specs.Faults.{fault_of, number_of};
ghost use Rattle.gx_story.specs.declared.faults.StoryFault.TheVariants.{NoMemory};

use iff_chunks::IffFault;
use std::alloc::AllocError;
use thiserror::Error;

/// The faults in the order of their numbers; `Blorb` is looked for before the others.
#[derive(Clone, Copy, Debug, PartialEq, Eq, Error)]
pub enum StoryFault {
    /// The story is shorter than its header.
    #[error("story shorter than its header")]
    Short = 1,
    /// The story doesn't begin with `Glul`.
    #[error("not a Glulx story")]
    NotGlulx,
    /// The version is below 2.0.0 or above 3.1.255.
    #[error("unsupported Glulx version")]
    Version,
    /// A size is no multiple of 256, or the sizes aren't in order.
    #[error("inconsistent sizes in the header")]
    Sizes,
    /// Memory or the stack would be larger than the limits.
    #[error("story needs too much memory")]
    TooLarge,
    /// The file ends within the stored part.
    #[error("story file is cut")]
    Cut,
    /// The Blorb holds no story that can be found.
    #[error("no story in the Blorb file")]
    Blorb,
    /// Memory ran out: the one fault that no definition has.
    #[error("out of memory")]
    NoMemory,
}

impl StoryFault {
    /// The number that the status line shows.
    pub fn number(self) -> u8
        ensures value { result ≡ number_of self }
        ensures range { (1 ≤ result) × (result ≤ 8) }
    {
        self as u8
    }
}

impl From<AllocError> for StoryFault {
    ghost from_gives = { λ _ fault. fault ≡ NoMemory };

    fn from(_refused: AllocError) -> StoryFault {
        StoryFault::NoMemory
    }
}

impl From<IffFault> for StoryFault {
    ghost from_gives = { λ fault answer. answer ≡ fault_of fault };

    fn from(fault: IffFault) -> StoryFault {
        match fault {
            IffFault::NoMemory => StoryFault::NoMemory,
            IffFault::Cut | IffFault::NotForm | IffFault::WrongKind => StoryFault::Blorb,
        }
    }
}

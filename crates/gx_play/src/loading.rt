//! The story or the text under a name, from the shelf.
//!
//! The shelf is asked once. There is none where the file isn't there or is too long, and no story where
//! it is none that gx_story accepts; the numbers of these faults are the program's.
ghost use Rattle.std.specs.Prelude.{◌≡◌, ◌≤◌, ℕ, Ok, Err, IfOk, length};
ghost use Rattle.gx_words.specs.Constants.{ceiling};
ghost use Rattle.gx_outside.specs.Chains.{IsCalled};
ghost use Rattle.gx_session.specs.Counts.{Blames};
ghost use Rattle.gx_play.specs.Constants.{most_text};
ghost use Rattle.gx_play.specs.Outcomes.{in_file};
ghost use Rattle.gx_story.specs.Stories.{accepted};
ghost use Rattle.gx_play.specs.Answers.{HasNoMachine};
ghost use Rattle.gx_play.specs.Loading.{LoadsFile, refusal_status, refusal_fault};

use gx_outside::{Load, Shelf, ShelfFault};
use gx_session::{Ended, statuses};
use gx_story::{Story, StoryFault};
use gx_words::{Bytes, CEILING};
use std::alloc::{Allocator, Global};

/// The fault of a file that isn't there; the others are those of `StoryFault`.
pub const NO_FILE: u8 = 0;

/// A text of more bytes isn't assembled.
pub const MOST_TEXT: usize = 0x0100_0000;

/// Why there is no story, or no text.
#[derive(Clone, Copy)]
pub enum Refusal {
    /// The number of the fault.
    BadStory(u8),
    /// The shelf failed.
    Shelf,
    /// Memory ran out.
    NoMemory,
}

impl From<ShelfFault> for Refusal {
    ghost use Rattle.gx_play.specs.Loading.{refusal_of_shelf};

    ghost from_gives = { λ fault refusal. refusal ≡ refusal_of_shelf fault };

    fn from(fault: ShelfFault) -> Refusal {
        match fault {
            ShelfFault::Failed => Refusal::Shelf,
            ShelfFault::NoMemory => Refusal::NoMemory,
        }
    }
}

impl From<StoryFault> for Refusal {
    ghost use Rattle.gx_play.specs.Loading.{refusal_of_story};

    ghost from_gives = { λ fault refusal. refusal ≡ refusal_of_story fault };

    fn from(fault: StoryFault) -> Refusal {
        match fault {
            StoryFault::NoMemory => Refusal::NoMemory,
            _ => Refusal::BadStory(fault.number()),
        }
    }
}

/// The story under a name.
pub fn load_story<F: Shelf>(alloc: Global, shelf: &mut F, name: &str) -> Result<Story, Refusal>
    ensures value { IsCalled F.called shelf.old shelf.new
        (λ asked. LoadsFile ceiling (in_file ceiling accepted) (F.seen shelf.old) (F.seen shelf.new) name.now asked
        result) }
    ensures count { Blames (F.seen shelf.old).calls (F.seen shelf.new).calls (result ≡ Err Refusal.Shelf) }
    ensures fault { (fault : ℕ) → result ≡ Err (Refusal.BadStory fault) → fault ≤ 7 }
{
    match shelf.load(name, CEILING as usize)? {
        Load::Missing => Err(Refusal::BadStory(NO_FILE)),
        Load::TooLong => Err(Refusal::BadStory(StoryFault::TooLarge.number())),
        Load::Found(bytes) => Ok(Story::read(alloc, bytes.as_slice())?),
    }
}

/// The text under a name.
pub fn load_text<F: Shelf>(shelf: &mut F, name: &str) -> Result<Bytes, Refusal>
    ensures value { IsCalled F.called shelf.old shelf.new
        (λ asked. LoadsFile most_text (in_file most_text (λ bytes. Ok bytes)) (F.seen shelf.old) (F.seen shelf.new)
        name.now asked result) }
    ensures count { Blames (F.seen shelf.old).calls (F.seen shelf.new).calls (result ≡ Err Refusal.Shelf) }
    ensures fault { (fault : ℕ) → result ≡ Err (Refusal.BadStory fault) → fault ≤ 7 }
    ensures bound { IfOk result (λ text. length text ≤ most_text) }
{
    match shelf.load(name, MOST_TEXT)? {
        Load::Missing => Err(Refusal::BadStory(NO_FILE)),
        Load::TooLong => Err(Refusal::BadStory(StoryFault::TooLarge.number())),
        Load::Found(text) => Ok(text),
    }
}

/// The answer where nothing was loaded.
pub fn without_story<A: Allocator + Clone>(refusal: Refusal) -> Ended<A>
    ensures { HasNoMachine result (refusal_status refusal) (refusal_fault refusal) 0 0 }
{
    match refusal {
        Refusal::BadStory(fault) => without_machine(statuses::BAD_STORY, fault, 0),
        Refusal::Shelf => without_machine(statuses::SHELF_FAULT, 0, 0),
        Refusal::NoMemory => without_machine(statuses::NO_MEMORY, 0, 0),
    }
}

/// An answer without a machine.
pub fn without_machine<A: Allocator + Clone>(status: u8, fault: u8, at: u32) -> Ended<A>
    ensures { HasNoMachine result status fault at 0 }
{
    Ended {
        status,
        fault,
        at,
        steps: 0,
        machine: None,
    }
}

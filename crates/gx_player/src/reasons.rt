//! Why a run ended as it did, in a sentence: the texts of the second line on standard error.
//!
//! A reason is found by `misread` in the words, by `stories` in the file that was read, and by `stopped` in what a run
//! left behind. The texts of faults are those of the faults themselves.
use crate::options::{Listed, Wanted};
use crate::shown::{Cause, Shown, Version};
use gx_asm::{AsmFault, ListFault};
use gx_story::StoryFault;
use gx_words::Fault;
use thiserror::Error;

/// What isn't understood in the words, and what would be.
#[derive(Clone, Copy, Debug, PartialEq, Eq, Error)]
pub enum WordsReason<'a> {
    #[error("word {0} isn't UTF-8")]
    NotUtf8(usize),
    #[error("there is no STORY; it stands before or behind the options")]
    NoStory,
    #[error("{0} is a second STORY, and one is played")]
    SecondStory(Shown<'a>),
    #[error("{0} is no option; there are {1}")]
    UnknownOption(Shown<'a>, Listed),
    #[error("--{0} stands twice")]
    Twice(Shown<'a>),
    #[error("--{0} takes no value")]
    WithValue(Shown<'a>),
    #[error("--{0} has no value behind it; it takes {1}")]
    NoValue(Shown<'a>, Wanted),
    #[error("--{0} takes {1}, not '{2}'")]
    BadValue(Shown<'a>, Wanted, Shown<'a>),
    #[error("job work takes {0} for STORY, not '{1}'")]
    BadWork(Wanted, Shown<'a>),
    #[error("--screen doesn't go with --{0}")]
    NotWithScreen(Shown<'a>),
    #[error("--screen goes with job play alone")]
    NoScreen,
    #[error("the words don't go together")]
    Together,
}

/// What is wrong with the file of a story or of a text, by its name.
#[derive(Clone, Copy, Debug, PartialEq, Eq, Error)]
pub enum FileReason<'a> {
    #[error("the name of the file is empty")]
    NoName,
    #[error("there is no file {0}")]
    Missing(Shown<'a>),
    #[error("{0} has {1} bytes, and a story's header alone has 36")]
    Short(Shown<'a>, usize),
    #[error("{0} doesn't begin with Glul{1}")]
    NotGlulx(Shown<'a>, Guess),
    #[error("{0} is of Glulx {1}, and 2.0.0 to 3.1.255 are played")]
    Version(Shown<'a>, Version),
    #[error("{0} has {1} bytes, and by its header {2}")]
    Cut(Shown<'a>, usize, u32),
    #[error("{0} has too many bytes")]
    TooLong(Shown<'a>),
    #[error("{0}: {1}")]
    Story(Shown<'a>, StoryFault),
    #[error("{0}: {1}")]
    Text(Shown<'a>, AsmFault),
    #[error("{0}: {1}")]
    Listing(Shown<'a>, ListFault),
    #[error("{0}: its bytes have another sum than its header says")]
    Checksum(Shown<'a>),
}

/// What a file that is no story may be.
#[derive(Clone, Copy, Debug, PartialEq, Eq, Error)]
pub enum Guess {
    #[error(" (it may be a story for the Z-machine)")]
    ZMachine,
    #[error(" (it may be a story for TADS)")]
    Tads,
    #[error("")]
    Nothing,
}

/// Why a story's step has no effect.
#[derive(Clone, Copy, Debug, PartialEq, Eq, Error)]
pub enum StepReason {
    #[error("real numbers aren't supported: {name} (opcode {number:x})")]
    RealNumbers { name: &'static str, number: u32 },
    #[error("no instruction has the number {number:x}")]
    BadOpcode { number: u32 },
    #[error("the function at {at:08x} has no type C0 or C1")]
    NoFunction { at: u32 },
    #[error("the function at {at:08x} is called with {count} arguments, and 255 are the most")]
    Arguments { at: u32, count: u32 },
    #[error("the function at {at:08x} has a locals format that isn't supported")]
    Locals { at: u32 },
    #[error("the story's start function, at {at:08x}, can't be called")]
    NoStart { at: u32 },
    #[error(transparent)]
    Fault(Fault),
}

/// Which device failed, at what, and why.
#[derive(Clone, Copy, Debug, Error)]
pub enum DeviceReason<'a> {
    #[error("{0} can't be read: {1}")]
    Read(Shown<'a>, Cause),
    #[error("{0} can't be stored: {1}")]
    Stored(Shown<'a>, Cause),
    #[error("{0} can't be removed: {1}")]
    Removed(Shown<'a>, Cause),
    #[error("{0} can't be looked for: {1}")]
    Found(Shown<'a>, Cause),
    #[error("standard input can't be read: {0}")]
    Input(Cause),
    #[error("standard output takes no more: {0}")]
    Output(Cause),
}

/// Why a run ended as it did: of the words, or of what the folder knows.
#[derive(Clone, Copy, Debug, Error)]
pub enum Reason<'w, 's> {
    #[error(transparent)]
    Words(WordsReason<'w>),
    #[error(transparent)]
    File(FileReason<'s>),
    #[error(transparent)]
    Step(StepReason),
    #[error(transparent)]
    Device(DeviceReason<'s>),
    #[error("the system gives no more memory; with fewer states for undo (--undo) a run needs less")]
    NoMemory,
}

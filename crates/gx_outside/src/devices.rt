//! A source of input, a sink for output, and a shelf of files.
//!
//! Contracts see each device as a record: its counts, whether it tells what it holds, and, where it
//! tells, what that is. Each call raises the count of calls by one. The count of failures rises by
//! one where the call answers `Failed`, and stands where it doesn't, so that a device which isn't
//! blamed didn't fail; a count at 2^64 - 1, which no run reaches, stands still. The counts also tell
//! whether the last call failed, and whether memory ran out in it. A source counts besides for how many
//! bytes its reads had room, whatever they gave. A device that tells goes on telling, whatever it
//! answers, and one that doesn't never begins to.
//!
//! Want of memory, which is no failure of the device, may come at any call that has an answer for
//! it; at `load` it comes only where there are bytes to be handed out.
ghost use Rattle.std.specs.Prelude.{◌≡◌, ◌≤◌, length, IfOk};
ghost use Rattle.gx_outside.specs.Outside.{FlatSource, FlatSink, FlatShelf};
ghost use Rattle.gx_outside.specs.Reads.{SourceRead, SourceCall, given};
ghost use Rattle.gx_outside.specs.Sends.{Send, SinkCall};
ghost use Rattle.gx_outside.specs.Shelves.{Exchange, ShelfCall, load_file, store_file, remove_file, find_file};
ghost use Rattle.gx_outside.specs.Shelves.{answer_as, loaded, was_stored, was_there};

use gx_words::Bytes;
use std::alloc::{AllocError, AllocFailed};
use thiserror::Error;

/// The source can't be read.
#[derive(Clone, Copy, Debug, PartialEq, Eq, Error)]
#[error("the input can't be read")]
pub struct Failed;

/// Why bytes were not sent.
#[derive(Clone, Copy, Debug, PartialEq, Eq, Error)]
pub enum SendFault {
    /// The sink didn't take them all.
    #[error("the output can't be written")]
    Failed,
    /// Memory ran out.
    #[error("out of memory")]
    NoMemory,
}

/// Why the shelf didn't do what it was asked.
#[derive(Clone, Copy, Debug, PartialEq, Eq, Error)]
pub enum ShelfFault {
    /// The file can't be read, written, removed or looked for.
    #[error("the file can't be used")]
    Failed,
    /// Memory ran out.
    #[error("out of memory")]
    NoMemory,
}

impl From<AllocError> for SendFault {
    ghost use Rattle.gx_outside.specs.declared.devices.SendFault.TheVariants.{NoMemory};

    ghost from_gives = { λ _ fault. fault ≡ NoMemory };

    fn from(_refused: AllocError) -> SendFault {
        SendFault::NoMemory
    }
}

impl From<AllocError> for ShelfFault {
    ghost use Rattle.gx_outside.specs.declared.devices.ShelfFault.TheVariants.{NoMemory};

    ghost from_gives = { λ _ fault. fault ≡ NoMemory };

    fn from(_refused: AllocError) -> ShelfFault {
        ShelfFault::NoMemory
    }
}

/// What a shelf has under a name.
#[derive(Drop)]
pub enum Load {
    /// No file.
    Missing,
    /// A file of more bytes than were asked for.
    TooLong,
    /// A file, with its bytes.
    Found(Bytes),
}

/// Where input comes from. Contracts see the bytes that are left, and each call.
///
/// What a call is to a device, `called`, is left to the device, here and at the other two. So what is proved for every
/// device is proved of the very calls that were made: nothing else leads from what the device was to what it is.
pub trait Source {
    ghost seen: { Self → FlatSource };

    ghost called: { Self → SourceRead → Self → Type 0 };

    /// Fills a front of the slice with the next bytes, and answers its length.
    ///
    /// 0 for a slice that isn't empty means that nothing is left.
    fn read(&mut self, into: &mut [u8]) -> Result<usize, Failed>
        ensures bound { IfOk result (λ count. count ≤ length into.old) }
        ensures call { called self.old (length into.old, given into.new result) self.new };

    ghost called_so: { (before : Self) (r : SourceRead) (now : Self)
        → called before r now → SourceCall (seen before) r (seen now) };
}

/// Where output goes. Contracts see the bytes that were taken, and each call.
pub trait Sink {
    ghost seen: { Self → FlatSink };

    ghost called: { Self → Send → Self → Type 0 };

    /// Adds all the bytes; after a refusal it has added a front of them, none or all of them too.
    fn send(&mut self, bytes: &[u8]) -> Result<(), SendFault>
        ensures { called self.old (bytes.now, result) self.new };

    ghost called_so: { (before : Self) (s : Send) (now : Self)
        → called before s now → SinkCall (seen before) s (seen now) };
}

/// Where files stand, each under a name. Contracts see a map from names to bytes, and each call.
pub trait Shelf {
    ghost seen: { Self → FlatShelf };

    ghost called: { Self → Exchange → Self → Type 0 };

    /// The file of a name, if it has at most `most` bytes. No file changes.
    fn load(&mut self, name: &str, most: usize) -> Result<Load, ShelfFault>
        ensures { called self.old (load_file name.now most, answer_as loaded result) self.new };

    /// Makes the name hold the bytes. After a refusal the file of this one name is open: it may
    /// be the old one, the new one, a part of the new one, or gone.
    fn store(&mut self, name: &str, bytes: &[u8]) -> Result<(), ShelfFault>
        ensures { called self.old (store_file name.now bytes.now, answer_as (λ _. was_stored) result) self.new };

    /// Removes the file of a name, and answers whether there was one. After a refusal the file of
    /// this one name is open.
    fn remove(&mut self, name: &str) -> Result<bool, ShelfFault>
        ensures { called self.old (remove_file name.now, answer_as was_there result) self.new };

    /// Whether the name has a file. No file changes.
    fn has(&mut self, name: &str) -> Result<bool, ShelfFault>
        ensures { called self.old (find_file name.now, answer_as was_there result) self.new };

    ghost called_so: { (before : Self) (c : Exchange) (now : Self)
        → called before c now → ShelfCall (seen before) c (seen now) };
}

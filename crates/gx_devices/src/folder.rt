//! The files of the current folder.
//!
//! A store puts a new file in the old one's place, whole or not at all (`replace`). What is read is
//! what a name leads to, through links too; what is removed is the name. A name that is too long for a
//! file system has a shorter one (`names`), and a call that is interrupted is made again (`patient`).
//!
//! What is read is proved for every reader whose bytes std tells: all that it has left, or the answer
//! that it has more than was asked for. std doesn't say which file a name opens, what is in it, what
//! its metadata tell, what a removal takes away, nor when a call fails; no contract here does either.
//! What is kept of the last call (`last`) is for whoever is told how a run ended.
ghost use Rattle.std.specs.Prelude.{◌≡◌, ◌≢◌, ◌↔◌, true, false, None, Ok, Err, Some, IfOk, IfSome, IsSomeAnd};
ghost use Rattle.std.specs.Prelude.{MatchResult, option_copied, option_map};
ghost use Rattle.std.specs.IoError.{error_kind};
ghost use Rattle.std.specs.Result.{result_err};
ghost use Rattle.gx_devices.specs.Devices.{seen_folder};
ghost use Rattle.gx_devices.specs.Last.{IsCallOf, IsNoted, looked};
ghost use Rattle.gx_outside.specs.Outside.{HasCause, IsBounded, no_call, shelf_cause};
ghost use Rattle.gx_outside.specs.Shelves.{ShelfCall, load_of};

use super::last::{Act, LastCall};
use super::names::FolderName;
use super::patient::{Patient, uninterrupted};
use super::replace::replace_file;
use gx_outside::{Calls, Load, Shelf, ShelfFault};
use gx_words::Bytes;
use std::alloc::Global;
use std::fs::{File, OpenFile};
use std::io::{ErrorKind, Read};
use std::marker::Model;
use std::rt::Files;
use std::time::Clock;
use std::{fs, io};

/// The files of the current folder.
#[derive(Drop)]
pub struct FolderShelf<'a, R> {
    rt: &'a R,
    alloc: Global,
    calls: Calls,
    last: Option<LastCall>,
}

impl<'a, R> Model for FolderShelf<'a, R> {
    ghost use Rattle.gx_devices.specs.Devices.{HeldFolder};

    ghost Value = { HeldFolder };

    ghost view = { λ s. record { calls = s.calls; last = s.last } };
}

impl<'a, R: Files> FolderShelf<'a, R> {
    /// The shelf takes the bytes that it loads from the allocator.
    pub fn new(alloc: Global, rt: &'a R) -> FolderShelf<'a, R>
        ensures { result ≡ record { calls = no_call; last = None } }
    {
        FolderShelf {
            rt,
            alloc,
            calls: Calls::none(),
            last: None,
        }
    }

    /// What is known of the last call; None where there was none.
    pub fn last(&self) -> Option<&LastCall>
        ensures { option_copied result ≡ self.now.last }
    {
        self.last.as_ref()
    }

    /// Counts a call, and keeps its file's name and its error.
    fn note<T>(&mut self, act: Act, name: &str, answer: io::Result<T>) -> Result<T, ShelfFault>
        ensures cause { HasCause self.old.calls self.new.calls (shelf_cause result).0 (shelf_cause result).1 }
        ensures answer { MatchResult answer (λ given. result ≡ Ok given) (λ error.
            MatchResult result (λ _. ⊥) (λ fault.
            (fault ≡ ShelfFault.NoMemory) ↔ (error_kind error ≡ ErrorKind.OutOfMemory))) }
        ensures last { IsSomeAnd self.new.last (IsCallOf act name.now (result_err answer)) }
    {
        let error = answer.as_ref().err().copied();
        self.last = Some(LastCall::new(self.alloc, act, name, error));
        let answer = answer.map_err(fault_of);
        self.calls.note(
            matches!(answer, Err(ShelfFault::Failed)),
            matches!(answer, Err(ShelfFault::NoMemory)),
        );
        answer
    }

    /// Keeps what was read in the last call, if it handed out a file.
    fn look(&mut self, loaded: &Result<Load, ShelfFault>)
        ensures { self.new ≡ record self.old { last = option_map (looked loaded.now) self.old.last } }
    {
        if let (Ok(load), Some(last)) = (loaded, &mut self.last) {
            last.look(load);
        }
    }
}

/// What an error of a file is to a shelf.
pub(super) fn fault_of(error: io::Error) -> ShelfFault
    ensures { (result ≡ ShelfFault.NoMemory) ↔ (error_kind error ≡ ErrorKind.OutOfMemory) }
{
    match error.kind() {
        ErrorKind::OutOfMemory => ShelfFault::NoMemory,
        _ => ShelfFault::Failed,
    }
}

/// All bytes that a reader has left, unless they are more than `most`.
fn read_file<R: Read>(file: &mut R, alloc: Global, most: usize) -> io::Result<Load>
    ensures bound { IfOk result (IsBounded most) }
    ensures there { result ≢ Ok Load.Missing }
    ensures whole { IfSome (R.remaining file.old) (λ left. IfOk result (λ load. load ≡ load_of most (Some left))) }
{
    let mut bytes = Bytes::new(alloc);
    let mut piece = [0u8; 4096];
    'pieces: loop {
        let count = file.read(&mut piece)?;
        if count == 0 {
            return Ok(Load::Found(bytes));
        }
        if count > most - bytes.len() {
            return Ok(Load::TooLong);
        }
        bytes.extend_from_slice(&piece[..count])?;
    }
}

/// The file of a name, unless it has more than `most` bytes.
fn load_file<R: Files + Clock>(rt: &R, alloc: Global, name: &str, most: usize) -> io::Result<Load>
    ensures { IfOk result (IsBounded most) }
{
    let file = match fs::open(rt, name) {
        Ok(file) => file,
        Err(error) if error.kind() == ErrorKind::NotFound => return Ok(Load::Missing),
        Err(error) => return Err(error),
    };
    let attributes = uninterrupted(|| file.metadata())?;
    if attributes.len() > most as u64 {
        return Ok(Load::TooLong);
    }
    read_file(&mut Patient::new(rt, file), alloc, most)
}

/// Whether a call found the file of its name, and false where there is none.
fn found<T: Drop>(answer: io::Result<T>) -> io::Result<bool>
    ensures { MatchResult answer (λ _. result ≡ Ok true) (λ error.
        (error_kind error ≡ ErrorKind.NotFound → result ≡ Ok false)
        × (error_kind error ≢ ErrorKind.NotFound → result ≡ Err error)) }
{
    match answer {
        Ok(_) => Ok(true),
        Err(error) if error.kind() == ErrorKind::NotFound => Ok(false),
        Err(error) => Err(error),
    }
}

impl<R: Files<File = File> + Clock> Shelf for FolderShelf<'_, R> {
    ghost seen = { seen_folder };

    // What a call does is said as far as std tells, which is how it is counted and what is kept of it. That a run makes
    // the session's calls is proved for every shelf, whatever `called` says of it.
    ghost called = { λ before c now. ShelfCall (seen_folder before) c (seen_folder now)
        × IsSomeAnd now.last (IsNoted c) };

    ghost called_so = { λ before c now does. does.0 };

    fn load(&mut self, name: &str, most: usize) -> Result<Load, ShelfFault> {
        let own = FolderName::of(name);
        let loaded = load_file(self.rt, self.alloc, own.as_str(), most);
        let loaded = self.note(Act::Read, name, loaded);
        self.look(&loaded);
        loaded
    }

    fn store(&mut self, name: &str, bytes: &[u8]) -> Result<(), ShelfFault> {
        let own = FolderName::of(name);
        let stored = replace_file(self.rt, self.alloc, own.as_str(), bytes);
        self.note(Act::Store, name, stored)
    }

    fn remove(&mut self, name: &str) -> Result<bool, ShelfFault> {
        let own = FolderName::of(name);
        let removed = found(uninterrupted(|| fs::remove_file(self.rt, own.as_str())));
        self.note(Act::Remove, name, removed)
    }

    fn has(&mut self, name: &str) -> Result<bool, ShelfFault> {
        let own = FolderName::of(name);
        let has = found(uninterrupted(|| fs::metadata(self.rt, own.as_str())));
        self.note(Act::Find, name, has)
    }
}

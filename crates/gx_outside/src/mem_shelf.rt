//! A shelf in memory.
ghost use Rattle.std.specs.Prelude.{◌≡◌, false, is_err, is_some, IfOk, OnOk, OnErr};
ghost use Rattle.std.specs.Option.{option_copied};
ghost use Rattle.std.specs.FinMap.{empty, insert, remove};
ghost use Rattle.gx_outside.specs.Files.{with_file, no_files};
ghost use Rattle.gx_outside.specs.Fakes.{no_calls, fails_next, after_call, seen_shelf, files_of};
ghost use Rattle.gx_outside.specs.Outside.{shelf_cause};
ghost use Rattle.gx_outside.specs.Shelves.{ShelfCall, AnswerMayWant, load_of, answer_for, load_file, store_file};
ghost use Rattle.gx_outside.specs.Shelves.{remove_file, find_file, answer_as, loaded, was_stored, was_there};

use crate::numbered::NumberedCalls;
use crate::{Load, Shelf, ShelfFault};
use gx_words::Bytes;
use std::alloc::{AllocError, Global};
use std::collections::BTreeMap;
use std::marker::Model;

/// A shelf that keeps its files. The calls of the trait are numbered from 1, and those whose
/// numbers it was given fail and change nothing.
#[derive(Drop)]
pub struct MemShelf {
    alloc: Global,
    files: BTreeMap<String, Bytes>,
    calls: NumberedCalls,
}

impl Model for MemShelf {
    ghost use Rattle.gx_outside.specs.Fakes.{HeldShelf, shelf_code, by_name};

    ghost Value = { HeldShelf };

    ghost coded = { shelf_code };

    ghost view = { λ s. record { files = by_name s.files; calls = s.calls } };
}

impl MemShelf {
    /// A shelf with no files.
    pub fn new(alloc: Global, fails: &[u64]) -> Result<MemShelf, AllocError>
        ensures ok { IfOk result (λ shelf. shelf ≡ record { files = empty; calls = no_calls fails.now }) }
        ensures none { IfOk result (λ shelf. files_of shelf.files ≡ no_files) }
    {
        Ok(MemShelf {
            alloc,
            files: BTreeMap::new(alloc),
            calls: NumberedCalls::new(alloc, fails)?,
        })
    }

    /// Makes the name hold the bytes. This is no numbered call, and never fails but for memory.
    pub fn put(&mut self, name: &str, bytes: &[u8]) -> Result<(), AllocError>
        ensures ok { OnOk result (self.new
            ≡ record self.old { files = insert self.old.files name.now bytes.now }) }
        ensures stored { OnOk result (files_of self.new.files
            ≡ with_file (files_of self.old.files) name.now (Some bytes.now)) }
        ensures err { OnErr result (self.new ≡ self.old) }
    {
        let name = String::from_str(self.alloc, name)?;
        let bytes = Bytes::from_slice(self.alloc, bytes)?;
        self.files.insert(name, bytes)?;
        Ok(())
    }

    /// The bytes of a name; None where it has no file. This is no numbered call.
    pub fn get(&self, name: &str) -> Option<&[u8]>
        ensures { option_copied result ≡ files_of self.now.files name.now }
    {
        match self.files.get(name) {
            None => None,
            Some(bytes) => Some(bytes.as_slice()),
        }
    }

    /// The file of a name, if it has at most `most` bytes.
    fn find(&self, name: &str, most: usize) -> Result<Load, AllocError>
        ensures found { IfOk result (λ load. load ≡ load_of most (files_of self.now.files name.now)) }
        ensures memory { OnErr result (AnswerMayWant (load_file name.now most)
            (answer_for (files_of self.now.files) (load_file name.now most))) }
    {
        match self.get(name) {
            None => Ok(Load::Missing),
            Some(bytes) if bytes.len() > most => Ok(Load::TooLong),
            Some(bytes) => Ok(Load::Found(Bytes::from_slice(self.alloc, bytes)?)),
        }
    }

    /// Takes the file of a name away, and says whether there was one.
    fn take_away(&mut self, name: &str) -> bool
        ensures was { result ≡ is_some (files_of self.old.files name.now) }
        ensures after { self.new ≡ record self.old { files = remove self.old.files name.now } }
        ensures removed { files_of self.new.files ≡ with_file (files_of self.old.files) name.now None }
    {
        self.files.remove(name).is_some()
    }
}

impl Shelf for MemShelf {
    ghost seen = { seen_shelf };

    ghost called = { λ before c now. ShelfCall (seen_shelf before) c (seen_shelf now) };

    ghost called_so = { λ before c now does. does };

    fn load(&mut self, name: &str, most: usize) -> Result<Load, ShelfFault>
        ensures fails { (shelf_cause result).0 ≡ fails_next self.old.calls }
        ensures calls { self.new ≡ record self.old { calls = after_call self.old.calls (shelf_cause result).1 } }
        ensures does { ShelfCall (seen_shelf self.old) (load_file name.now most, answer_as loaded result)
            (seen_shelf self.new) }
    {
        if self.calls.begin() {
            return Err(ShelfFault::Failed);
        }
        let found = self.find(name, most);
        self.calls.end(found.is_err());
        Ok(found?)
    }

    #[tactic(auto, using(crate::proofs::ByName::changes))]
    fn store(&mut self, name: &str, bytes: &[u8]) -> Result<(), ShelfFault>
        ensures fails { (shelf_cause result).0 ≡ fails_next self.old.calls }
        ensures calls { self.new.calls ≡ after_call self.old.calls (shelf_cause result).1 }
        ensures ok { OnOk result (self.new.files ≡ insert self.old.files name.now bytes.now) }
        ensures err { OnErr result (self.new.files ≡ self.old.files) }
        ensures does { ShelfCall (seen_shelf self.old)
            (store_file name.now bytes.now, answer_as (λ _. was_stored) result)
            (seen_shelf self.new) }
    {
        if self.calls.begin() {
            return Err(ShelfFault::Failed);
        }
        let stored = self.put(name, bytes);
        self.calls.end(stored.is_err());
        stored?;
        Ok(())
    }

    #[tactic(auto, using(crate::proofs::ByName::changes))]
    fn remove(&mut self, name: &str) -> Result<bool, ShelfFault>
        ensures fails { is_err result ≡ fails_next self.old.calls }
        ensures calls { self.new.calls ≡ after_call self.old.calls false }
        ensures ok { OnOk result (self.new.files ≡ remove self.old.files name.now) }
        ensures err { OnErr result (self.new.files ≡ self.old.files) }
        ensures does { ShelfCall (seen_shelf self.old) (remove_file name.now, answer_as was_there result)
            (seen_shelf self.new) }
    {
        if self.calls.begin() {
            return Err(ShelfFault::Failed);
        }
        Ok(self.take_away(name))
    }

    fn has(&mut self, name: &str) -> Result<bool, ShelfFault>
        ensures fails { is_err result ≡ fails_next self.old.calls }
        ensures calls { self.new ≡ record self.old { calls = after_call self.old.calls false } }
        ensures does { ShelfCall (seen_shelf self.old) (find_file name.now, answer_as was_there result)
            (seen_shelf self.new) }
    {
        if self.calls.begin() {
            return Err(ShelfFault::Failed);
        }
        Ok(self.get(name).is_some())
    }
}

//! A tape: it records the run of a machine, and goes back in it by any number of units, and on again.
//!
//! Contracts see a tape as its machine with what that asks, and the record of its run: the machine as it stood at the
//! beginning of each event, and after each event that followed where the run has gone back (specs/Tape). How little of
//! that is kept is seen nowhere:
//!
//! - `books` has what a tape keeps: the first machine, checkpoints, and a note of each event that took something from
//!   outside.
//! - `recording` makes steps and answers what they ask, and notes what was taken.
//! - `replaying` makes the events again, from a checkpoint to a place.
//! - `replies` copies a reply.
#![tactic(auto)]

ghost use Rattle.std.specs.Prelude.{◌≡◌, ◌≤◌, ◌<◌, ◌↔◌, None, length, IsTrue, IfOk, OnOk, OnErr};
ghost use Rattle.gx_machine.specs.Log.{no_events, units_of};
ghost use Rattle.gx_rewind.specs.Tape.{units_at_end, gone_back, gone_on};

mod books;
mod recording;
mod replaying;
mod replies;

use books::Book;
use gx_machine::Machine;
use std::alloc::{AllocError, Allocator, Global};
use std::marker::Model;

/// A machine, and the record of its run.
#[derive(Drop)]
pub struct Tape<A: Allocator + Clone> {
    machine: Machine<A>,
    book: Book<A>,
}

impl<A: Allocator + Clone> Model for Tape<A> {
    ghost use Rattle.gx_rewind.specs.Tape.{FlatTape};

    ghost Value = { FlatTape };

    ghost use Rattle.gx_rewind.specs.Views.{flat_of, IsTape};

    ghost view = { flat_of };

    ghost invariant = { IsTape };
}

impl<A: Allocator + Clone> Tape<A> {
    /// Records a machine from here on, with `most` checkpoints at most, `every` units or more apart.
    pub fn new(
        alloc: Global,
        machine: Machine<A>,
        every: u64,
        most: usize,
    ) -> Result<Tape<A>, AllocError>
        requires asks { machine.asking ≡ None }
        requires every { 1 ≤ every }
        requires most { 1 ≤ most }
        ensures { IfOk result (λ tape. tape ≡ record { whole = machine; log = no_events }) }
    {
        let book = Book::new(alloc, &machine, every, most)?;
        Ok(Tape { machine, book })
    }

    /// The units that were used at its place.
    pub fn units(&self) -> u64
        ensures { result ≡ units_of self.now.log.before }
    {
        self.book.units
    }

    /// The units at the end of its record.
    pub fn end(&self) -> u64
        ensures { result ≡ units_at_end self.now }
    {
        self.book.end
    }

    /// Its machine.
    pub fn machine(&self) -> &Machine<A>
        ensures { result.now ≡ self.now.whole }
    {
        &self.machine
    }

    /// Goes back by so many units, or to the beginning, and answers the units that were used there. What is asked is
    /// dropped. Where the tape stays at its place this is all, and takes no memory.
    pub fn back(&mut self, k: u64) -> Result<u64, AllocError>
        ensures ok { OnOk result (self.new ≡ gone_back self.old k) }
        ensures units { IfOk result (λ units. units ≡ units_of self.new.log.before) }
        ensures err { OnErr result (self.new ≡ self.old) }
        ensures memory { OnErr result ((0 < k) × (0 < units_of self.old.log.before)) }
    {
        let target = self.book.units.saturating_sub(k);
        if target == self.book.units {
            self.machine.drop_asking();
            return Ok(target);
        }
        let spot = self.book.replayed(target)?;
        self.machine = spot.machine;
        self.book.units = spot.units;
        self.book.index = spot.index;
        Ok(spot.units)
    }

    /// Makes the next event that is recorded, and answers whether there was one.
    pub fn again(&mut self) -> Result<bool, AllocError>
        requires { self.old.whole.asking ≡ None }
        ensures ok { OnOk result (self.new ≡ gone_on self.old) }
        ensures some { IfOk result (λ more. IsTrue more ↔ (0 < length self.old.log.after)) }
        ensures err { OnErr result (self.new ≡ self.old) }
        ensures memory { OnErr result (0 < length self.old.log.after) }
    {
        if self.book.units == self.book.end {
            return Ok(false);
        }
        let spot = self.book.followed(&self.machine)?;
        self.machine = spot.machine;
        self.book.units = spot.units;
        self.book.index = spot.index;
        Ok(true)
    }
}

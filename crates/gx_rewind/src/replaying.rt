//! The events of a run made again, from the nearest checkpoint to a place.
//!
//! All of it is done on forks, so that nothing has changed after a refusal.
ghost use Rattle.std.specs.Prelude.{◌≡◌, ◌+◌, ◌-◌, ◌^◌, ◌<◌, ◌≤◌, ℕ, true, false, None, Some, IfOk, IfSome, OnOk};
ghost use Rattle.gx_machine.specs.Step.{cost_of};
ghost use Rattle.gx_rewind.specs.Path.{answered_by_nothing, taken_from, word_in, IsFit};
ghost use Rattle.gx_rewind.specs.Views.{RecordsSomeRun, IsSpot, IsMade, IsTried, IsTaking, IsWant, RunsQuietly};
ghost use Rattle.gx_rewind.specs.Views.{gone_to};

use crate::books::{Book, Note, Spot, Taken, until};
use crate::replies::nothing;
use gx_machine::{Asking, Machine};
use gx_state::Effect;
use gx_words::Fault;
use std::alloc::{AllocError, Allocator, Global};

impl<A: Allocator + Clone> Book<A> {
    /// The last place before which at most so many units were used.
    pub(crate) fn replayed(&self, target: u64) -> Result<Spot<A>, AllocError>
        requires kept { RecordsSomeRun self.now }
        requires within { target ≤ self.now.units }
        ensures spot { IfOk result (λ spot. IsSpot self.now spot) }
        ensures within { IfOk result (λ spot. spot.units ≤ target) }
        ensures last { IfOk result (λ spot. target < spot.units + cost_of spot.machine.machine) }
    {
        let mut spot = self.nearest(target)?;
        while self.go_on(&mut spot, target)? {}
        Ok(spot)
    }

    /// The place after the event that follows the present place, whose machine is handed in.
    pub(crate) fn followed(&self, machine: &Machine<A>) -> Result<Spot<A>, AllocError>
        requires asks { machine.now.asking ≡ None }
        requires before { self.now.units + cost_of machine.now.machine ≤ self.now.end }
        requires fit { IsFit machine.now.machine (taken_from self.now.notes.items self.now.index self.now.units) }
        ensures { IfOk result (λ spot. IsMade (taken_from self.now.notes.items self.now.index self.now.units)
            (record { machine = machine.now; units = self.now.units; index = self.now.index }) spot) }
    {
        let mut spot = Spot {
            machine: machine.fork(self.alloc)?,
            units: self.units,
            index: self.index,
        };
        match self.note_at(&spot) {
            Some(note) => {
                if !make(&mut spot, note, self.end, self.alloc)? {
                    unreachable!()
                }
            }
            None => {
                if !step(&mut spot, self.end, self.alloc)? {
                    unreachable!()
                }
            }
        }
        Ok(spot)
    }

    /// A fork of the checkpoint that lies nearest before so many units, or of the beginning.
    fn nearest(&self, target: u64) -> Result<Spot<A>, AllocError>
        requires kept { RecordsSomeRun self.now }
        ensures spot { IfOk result (λ spot. IsSpot self.now spot) }
        ensures within { IfOk result (λ spot. spot.units ≤ target) }
    {
        let count = until(self.checkpoints.as_slice(), target);
        if count == 0 {
            return Ok(Spot {
                machine: self.opening.fork(self.alloc)?,
                units: 0,
                index: 0,
            });
        }
        let nearest = &self.checkpoints[count - 1];
        Ok(Spot {
            machine: nearest.machine.fork(self.alloc)?,
            units: nearest.units,
            index: nearest.index,
        })
    }

    /// The note of the event that begins at a place.
    fn note_at(&self, spot: &Spot<A>) -> Option<&Note<A>>
        ensures some { IfSome result (λ note. taken_from self.now.notes.items spot.now.index spot.now.units
            ≡ Some note.now.taken) }
        ensures none { result ≡ None → taken_from self.now.notes.items spot.now.index spot.now.units ≡ None }
        ensures index { IfSome result (λ note. spot.now.index < 2 ^ 64 - 1) }
    {
        if spot.index >= self.notes.len() {
            return None;
        }
        let note = &self.notes[spot.index];
        if note.units != spot.units {
            return None;
        }
        Some(note)
    }

    /// The units up to which the events after a place took nothing, at most those that are handed in.
    fn free_until(&self, spot: &Spot<A>, target: u64) -> u64
        requires before { spot.now.units < target }
        requires none { taken_from self.now.notes.items spot.now.index spot.now.units ≡ None }
        ensures free { (u : ℕ) → spot.now.units ≤ u → u < result
            → taken_from self.now.notes.items spot.now.index u ≡ None }
        ensures after { spot.now.units < result }
        ensures within { result ≤ target }
    {
        if spot.index >= self.notes.len() {
            return target;
        }
        let note = &self.notes[spot.index];
        if note.units < spot.units {
            return target;
        }
        note.units.min(target)
    }

    /// Makes the next events within so many units: those up to the next one that took something, or that one. Answers
    /// whether more may follow.
    fn go_on(&self, spot: &mut Spot<A>, target: u64) -> Result<bool, AllocError>
        requires kept { RecordsSomeRun self.now }
        requires within { target ≤ self.now.units }
        requires spot { IsSpot self.now spot.old }
        requires before { spot.old.units ≤ target }
        ensures spot { IfOk result (λ more. IsSpot self.now spot.new) }
        ensures within { IfOk result (λ more. spot.new.units ≤ target) }
        ensures more { IfOk result (λ more. more ≡ true → spot.old.units < spot.new.units) }
        ensures last { IfOk result (λ more. more ≡ false → target < spot.new.units + cost_of spot.new.machine.machine) }
    {
        if spot.units == target {
            return Ok(false);
        }
        if let Some(note) = self.note_at(spot) {
            let made = make(spot, note, target, self.alloc)?;
            return Ok(made);
        }
        let limit = self.free_until(spot, target);
        if self.run(spot, limit)? {
            return Ok(true);
        }
        if limit == target {
            return Ok(false);
        }
        if spot.units < limit {
            return step(spot, target, self.alloc);
        }
        Ok(true)
    }

    /// Makes the next events, which take nothing, within so many units. Answers whether the last of them was no plain
    /// step, so that others may follow within them.
    fn run(&self, spot: &mut Spot<A>, limit: u64) -> Result<bool, AllocError>
        requires kept { RecordsSomeRun self.now }
        requires within { limit ≤ self.now.units }
        requires spot { IsSpot self.now spot.old }
        requires before { spot.old.units ≤ limit }
        requires free { (u : ℕ) → spot.old.units ≤ u → u < limit
            → taken_from self.now.notes.items spot.old.index u ≡ None }
        ensures { IfOk result (λ more. RunsQuietly limit more spot.old spot.new) }
    {
        let mut budget = limit - spot.units;
        let mut left = budget;
        let effect = match spot.machine.advance(0, &mut budget, &mut left) {
            Ok(effect) => effect,
            Err(fault) => return Err(wanted(&fault)),
        };
        match effect {
            Effect::Spent => {
                spot.units = limit - budget;
                Ok(false)
            }
            _ => {
                settle(&mut spot.machine, self.alloc)?;
                spot.units = limit - left;
                Ok(true)
            }
        }
    }
}

/// Makes the next event, which takes nothing, within so many units. Answers whether it is made.
fn step<A: Allocator + Clone>(
    spot: &mut Spot<A>,
    limit: u64,
    alloc: Global,
) -> Result<bool, AllocError>
    requires asks { spot.old.machine.asking ≡ None }
    requires before { spot.old.units ≤ limit }
    requires fit { IsFit {A = A} spot.old.machine.machine None }
    ensures { IfOk result (λ made. IsTried {A = A} limit None made spot.old spot.new) }
{
    let mut left = limit - spot.units;
    let effect = match spot.machine.step(0, &mut left) {
        Ok(effect) => effect,
        Err(fault) => return Err(wanted(&fault)),
    };
    match effect {
        Effect::Spent => Ok(false),
        _ => {
            settle(&mut spot.machine, alloc)?;
            spot.units = limit - left;
            Ok(true)
        }
    }
}

/// Answers with nothing what a machine asks, if anything.
fn settle<A: Allocator + Clone>(machine: &mut Machine<A>, alloc: Global) -> Result<(), AllocError>
    ensures { OnOk result (machine.new
        ≡ record { machine = answered_by_nothing machine.old.machine machine.old.asking; asking = None }) }
{
    match machine.asking() {
        None => Ok(()),
        Some(Asking::Put) => {
            machine.finish_put();
            Ok(())
        }
        Some(_) => machine.finish(&nothing(alloc)),
    }
}

/// Makes the next event, which took something, within so many units. Answers whether it is made.
fn make<A: Allocator + Clone>(
    spot: &mut Spot<A>,
    note: &Note<A>,
    limit: u64,
    alloc: Global,
) -> Result<bool, AllocError>
    requires asks { spot.old.machine.asking ≡ None }
    requires before { spot.old.units ≤ limit }
    requires fit { IsFit spot.old.machine.machine (Some note.now.taken) }
    requires room { spot.old.index < 2 ^ 64 - 1 }
    ensures { IfOk result (λ made. IsTried limit (Some note.now.taken) made spot.old spot.new) }
{
    let mut left = limit - spot.units;
    let effect = match spot.machine.step(word_of(&note.taken), &mut left) {
        Ok(effect) => effect,
        Err(fault) => return Err(wanted(&fault)),
    };
    match effect {
        Effect::Spent => Ok(false),
        _ => {
            take(&mut spot.machine, &note.taken, alloc)?;
            spot.units = limit - left;
            spot.index += 1;
            Ok(true)
        }
    }
}

/// The fault of a step that was made before.
fn wanted(fault: &Fault) -> AllocError
    requires { IsWant fault.now }
{
    match fault {
        Fault::NoMemory => AllocError,
        _ => unreachable!(),
    }
}

/// The word of an event that took this.
fn word_of<A: Allocator + Clone>(taken: &Taken<A>) -> u32
    ensures { result ≡ word_in taken.now }
{
    match taken {
        Taken::Word(word) => *word,
        Taken::Reply(_) => 0,
        Taken::Machine(_) => 0,
    }
}

/// Gives a machine what the event took, once its step is made.
fn take<A: Allocator + Clone>(
    machine: &mut Machine<A>,
    taken: &Taken<A>,
    alloc: Global,
) -> Result<(), AllocError>
    requires { IsTaking machine.old taken.now }
    ensures { OnOk result (machine.new ≡ record { machine = gone_to machine.old.machine taken.now; asking = None }) }
{
    match taken {
        Taken::Word(_) => Ok(()),
        Taken::Reply(reply) => machine.finish(reply),
        Taken::Machine(gone) => {
            *machine = gone.fork(alloc)?;
            Ok(())
        }
    }
}

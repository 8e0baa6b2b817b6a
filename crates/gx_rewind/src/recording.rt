//! A tape makes steps and answers what they ask, and notes what was taken from outside.
//!
//! A call makes steps until a checkpoint is due, and one more: then the next call takes it. So there are checkpoints in
//! a long run that asks nothing.
//!
//! Room for a note is asked for before anything is done, so that nothing has changed after a refusal.
ghost use Rattle.std.specs.Prelude.{◌≡◌, ◌≢◌, ◌≤◌, true, false, None, Ok, IfOk};
ghost use Rattle.gx_state.specs.declared.effects.Effect.TheVariants.{Spent};
ghost use Rattle.gx_machine.specs.Advancing.{Advances};

use crate::Tape;
use crate::books::Taken;
use crate::replies::{copied, is_nothing};
use arrayvec::ArrayVec;
use gx_machine::{Engine, Machine};
use gx_state::{Effect, FlatCopy, Mode, Reply, State};
use gx_story::Story;
use gx_words::Fault;
use ops_print::MOST_PUTS;
use std::alloc::{AllocError, Allocator, Global};

impl<A: Allocator + Clone> Engine<A> for Tape<A> {
    ghost use Rattle.std.specs.Prelude.{Some};

    ghost whole = { λ tape. tape.whole };

    ghost log = { λ tape. Some tape.log };

    fn advance(&mut self, word: u32, budget: &mut u64, left: &mut u64) -> Result<Effect, Fault> {
        self.machine.ways_back();
        if self.book.ready(&self.machine).is_err() {
            *left = *budget;
            return Err(Fault::NoMemory);
        }
        let start = *budget;
        let room = self.book.room();
        prove!(start <= room);
        let part = self.book.part(start);
        let result = advance_parted(&mut self.machine, word, part, budget, left);
        self.book.ran(word, start, *budget, *left, &result);
        result
    }

    fn next_put(&mut self, budget: u64) -> Option<u32> {
        let found = self.machine.next_put(budget)?;
        self.book.pending = 1;
        Some(found)
    }

    fn finish(&mut self, reply: &Reply) -> Result<(), AllocError> {
        if is_nothing(reply) {
            self.machine.finish(reply)?;
            let units = self.book.pending;
            self.book.went(units);
            return Ok(());
        }
        self.book.notes.reserve(1)?;
        let taken = copied(self.book.alloc, reply)?;
        self.machine.finish(reply)?;
        let units = self.book.pending;
        self.book.noted(units, Taken::Reply(taken));
        Ok(())
    }

    fn finish_put(&mut self) {
        self.machine.finish_put();
        let units = self.book.pending;
        self.book.went(units);
    }

    fn more_puts(&self, _most: usize, _chars: &mut ArrayVec<u32, MOST_PUTS>) -> Mode {
        Mode::Running
    }

    fn finish_puts(&mut self, _mode: Mode) {
        self.finish_put();
    }

    fn save_copy(&self, alloc: Global) -> Result<FlatCopy, AllocError> {
        self.machine.save_copy(alloc)
    }

    fn restore_copy(&mut self, copy: &FlatCopy) -> Result<(), AllocError> {
        self.book.notes.reserve(1)?;
        let mut gone = self.machine.fork(self.book.alloc)?;
        gone.restore_copy(copy)?;
        let taken = boxed(self.book.alloc, &gone)?;
        self.machine = gone;
        let units = self.book.pending;
        self.book.noted(units, Taken::Machine(taken));
        Ok(())
    }

    fn state(&self) -> &State<A> {
        self.machine.state()
    }

    fn story(&self) -> &Story {
        self.machine.story()
    }

    fn undo_len(&self) -> usize {
        self.machine.undo_len()
    }
}

/// The same machine once more, in a box.
fn boxed<A: Allocator + Clone>(
    alloc: Global,
    machine: &Machine<A>,
) -> Result<Box<Machine<A>>, AllocError>
    ensures { IfOk result (λ copy. copy.value ≡ machine.now) }
{
    let fork = machine.fork(alloc)?;
    Ok(Box::new(alloc, fork)?)
}

/// Steps within part of the budget, and one more within all of it where the next one doesn't fit into that part. Those
/// are steps within the budget, as a machine makes them.
fn advance_parted<A: Allocator + Clone>(
    machine: &mut Machine<A>,
    word: u32,
    part: u64,
    budget: &mut u64,
    left: &mut u64,
) -> Result<Effect, Fault>
    requires asks { machine.old.asking ≡ None }
    requires within { part ≤ budget.old }
    ensures { Advances word result (machine.old, budget.old) None budget.new (machine.new, left.new) None }
{
    let later = *budget - part;
    *budget = part;
    let outcome = machine.advance(word, budget, left);
    *budget += later;
    if is_spent(&outcome) {
        *left = *budget;
        return machine.step(word, left);
    }
    *left += later;
    outcome
}

/// Whether the last of some steps didn't fit into the budget.
fn is_spent(outcome: &Result<Effect, Fault>) -> bool
    ensures yes { result ≡ true → outcome.now ≡ Ok Spent }
    ensures no { result ≡ false → outcome.now ≢ Ok Spent }
{
    matches!(outcome, Ok(Effect::Spent))
}

//! What a tape keeps of a run: the first machine, checkpoints, and a note of each event that took something from
//! outside.
//!
//! A note has the units that were used where its event began: an event takes one unit at least, so that these name it.
//! An event without a note took the word 0, and was answered with nothing where it asked. So all that is left out here
//! follows from what is kept.
ghost use Rattle.std.specs.Prelude.{◌≡◌, ◌≢◌, ◌+◌, ◌^◌, ◌*◌, ◌/◌, ◌-◌, ◌<◌, ◌≤◌, ◌∷◌, [], None, Some, length};
ghost use Rattle.std.specs.Prelude.{slice_index_or, take, min, ℕ, vec_len, vec_capacity, Ok, IsSome, IfOk, OnOk};
ghost use Rattle.gx_machine.specs.Log.{Log, no_events};
ghost use Rattle.gx_machine.specs.Advancing.{Advances, Passes};
ghost use Rattle.gx_machine.specs.Machine.{FlatMachine, Whole};
ghost use Rattle.gx_machine.specs.Step.{asking_of, cost_of, stepped};
ghost use Rattle.gx_rewind.specs.declared.books.Spot.{Spot};
ghost use Rattle.gx_rewind.specs.Path.{machine_after_event, IsFit};
ghost use Rattle.gx_rewind.specs.Views.{IsBook, AreLike, HasEnded, RecordsSteps};

use gx_machine::Machine;
use gx_state::{Effect, Reply};
use gx_words::Fault;
use std::alloc::{AllocError, Allocator, Global};

/// What an event took from outside.
#[derive(Drop)]
pub(crate) enum Taken<A: Allocator + Clone> {
    /// The random word that it drew.
    Word(u32),
    /// The answer to what it asked.
    Reply(Reply),
    /// The machine that it went to, in a restore. It lies apart, so that a note has the size of a reply.
    Machine(Box<Machine<A>>),
}

/// What the event took that began after so many units.
#[derive(Drop)]
pub(crate) struct Note<A: Allocator + Clone> {
    pub(crate) units: u64,
    pub(crate) taken: Taken<A>,
}

/// A place of the run: its machine, the units that were used before it, and the place of the next note.
#[derive(Drop)]
pub(crate) struct Spot<A: Allocator + Clone> {
    pub(crate) machine: Machine<A>,
    pub(crate) units: u64,
    pub(crate) index: usize,
}

/// What is kept of a run, and a place in it: the units that were used there, and the place of the next note.
#[derive(Drop)]
pub(crate) struct Book<A: Allocator + Clone> {
    pub(crate) alloc: Global,
    pub(crate) opening: Machine<A>,
    pub(crate) notes: Vec<Note<A>>,
    pub(crate) checkpoints: Vec<Spot<A>>,
    pub(crate) index: usize,
    pub(crate) units: u64,
    /// The units at the end of the record.
    pub(crate) end: u64,
    /// The units of the step that has asked.
    pub(crate) pending: u64,
    /// The units from which on a checkpoint is due.
    pub(crate) due: u64,
    /// At least so many units lie between two checkpoints.
    pub(crate) every: u64,
    /// At most so many checkpoints are kept.
    pub(crate) most: usize,
}

impl<A: Allocator + Clone> Book<A> {
    /// A book that begins with a machine.
    pub(crate) fn new(
        alloc: Global,
        machine: &Machine<A>,
        every: u64,
        most: usize,
    ) -> Result<Book<A>, AllocError>
        requires { machine.now.asking ≡ None }
        ensures { IfOk result (λ book. IsBook book machine.now.machine no_events) }
    {
        Ok(Book {
            alloc,
            opening: machine.fork(alloc)?,
            notes: Vec::new(alloc),
            checkpoints: Vec::new(alloc),
            index: 0,
            units: 0,
            end: 0,
            pending: 0,
            due: every,
            every,
            most,
        })
    }

    /// How many units more can be counted.
    pub(crate) fn room(&self) -> u64
        ensures { result + self.now.units ≡ 2 ^ 64 - 1 }
    {
        u64::MAX - self.units
    }

    /// Has room for one note more, and takes a checkpoint where one is due.
    pub(crate) fn ready(&mut self, machine: &Machine<A>) -> Result<(), AllocError>
        requires asks { machine.now.asking ≡ None }
        ensures room { OnOk result (vec_len self.new.notes < vec_capacity self.new.notes) }
        ensures like { AreLike self.old self.new }
        ensures book { (log : Log) → IsBook self.old machine.now.machine log → IsBook self.new machine.now.machine log }
    {
        self.notes.reserve(1)?;
        if self.units != self.end || self.units < self.due {
            return Ok(());
        }
        self.check(machine)
    }

    /// How many of so many units there are until the next checkpoint is due. A run that leaves the record has one due
    /// within `every` units.
    pub(crate) fn part(&self, budget: u64) -> u64
        ensures at_end { self.now.units ≡ self.now.end → result ≡ min budget (self.now.due - self.now.units) }
        ensures elsewhere { self.now.units ≢ self.now.end → result ≡ min budget self.now.every }
    {
        if self.units == self.end {
            budget.min(self.due.saturating_sub(self.units))
        } else {
            budget.min(self.every)
        }
    }

    /// Takes a checkpoint.
    fn check(&mut self, machine: &Machine<A>) -> Result<(), AllocError>
        requires asks { machine.now.asking ≡ None }
        ensures room { vec_len self.new.notes ≡ vec_len self.old.notes }
        ensures capacity { vec_capacity self.new.notes ≡ vec_capacity self.old.notes }
        ensures like { AreLike self.old self.new }
        ensures book { (log : Log) → IsBook self.old machine.now.machine log → IsBook self.new machine.now.machine log }
    {
        let taken = machine.fork(self.alloc)?;
        self.checkpoints.push(Spot {
            machine: taken,
            units: self.units,
            index: self.index,
        })?;
        self.due = self.units.saturating_add(self.every);
        self.spare();
        Ok(())
    }

    /// Drops a checkpoint where there are more than may be.
    fn spare(&mut self)
        ensures room { vec_len self.new.notes ≡ vec_len self.old.notes }
        ensures capacity { vec_capacity self.new.notes ≡ vec_capacity self.old.notes }
        ensures like { AreLike self.old self.new }
        ensures book { (m : FlatMachine) (log : Log) → IsBook self.old m log → IsBook self.new m log }
    {
        if self.checkpoints.len() <= self.most {
            return;
        }
        let at = densest(self.checkpoints.as_slice());
        self.checkpoints.remove(at);
    }

    /// Cuts off what followed the place.
    pub(crate) fn cut(&mut self)
        ensures notes { self.new.notes.items ≡ take self.old.index self.old.notes.items }
        ensures capacity { vec_capacity self.new.notes ≡ vec_capacity self.old.notes }
        ensures len { vec_len self.new.notes ≤ vec_len self.old.notes }
        ensures end { self.new.end ≡ self.old.units }
        ensures units { self.new.units ≡ self.old.units }
        ensures index { self.new.index ≡ self.old.index }
        ensures opening { self.new.opening ≡ self.old.opening }
        ensures pending { self.new.pending ≡ self.old.pending }
        ensures book { (m : FlatMachine) (log : Log) → IsBook self.old m log
            → IsBook self.new m (record log { after = [] }) }
    {
        if self.units == self.end && self.index == self.notes.len() {
            return;
        }
        self.notes.truncate(self.index);
        let count = until(self.checkpoints.as_slice(), self.units);
        self.checkpoints.truncate(count);
        self.end = self.units;
        self.due = units_of_last(self.checkpoints.as_slice()).saturating_add(self.every);
    }

    /// Records the steps that a machine made with a word: `start` units were left before them, `budget` before the last
    /// of them, and `left` after it.
    pub(crate) fn ran(
        &mut self,
        word: u32,
        start: u64,
        budget: u64,
        left: u64,
        outcome: &Result<Effect, Fault>,
    )
        requires room { vec_len self.old.notes < vec_capacity self.old.notes }
        requires fits { self.old.units + start ≤ 2 ^ 64 - 1 }
        requires lower { budget ≤ start }
        requires less { left ≤ budget }
        ensures { (old new : Whole) → old.asking ≡ None
            → Advances word outcome.now (old, start) None budget (new, left) None
            → RecordsSteps word outcome.now (old, start) budget (new, left) self.old self.new }
    {
        self.passed(start - budget);
        if let Ok(effect) = outcome {
            self.did(word, budget - left, effect);
        }
    }

    /// Records the last of these steps, which takes so many units where it is done.
    fn did(&mut self, word: u32, cost: u64, effect: &Effect)
        requires room { vec_len self.old.notes < vec_capacity self.old.notes }
        requires fits { self.old.units + cost ≤ 2 ^ 64 - 1 }
        ensures { (before new : Whole) (budget left : ℕ) (log : Log) → IsBook self.old before.machine log
            → before.asking ≡ None
            → stepped before word budget ≡ Ok ((new, left), effect.now) → cost ≡ budget - left
            → (IsSome (asking_of effect.now) → new.machine ≡ before.machine)
            → HasEnded effect.now before new log self.new }
    {
        match effect {
            Effect::Went => self.went(cost),
            Effect::Quit => self.went(cost),
            Effect::Drew => self.noted(cost, Taken::Word(word)),
            _ => self.pending = cost,
        }
    }

    /// Events ended that took nothing from outside, if any.
    fn passed(&mut self, units: u64)
        requires { self.old.units + units ≤ 2 ^ 64 - 1 }
        ensures room { vec_capacity self.new.notes ≡ vec_capacity self.old.notes }
        ensures len { vec_len self.new.notes ≤ vec_len self.old.notes }
        ensures units { self.new.units ≡ self.old.units + units }
        ensures book { (word n start budget : ℕ) (old new : Whole) (log : Log) → old.asking ≡ None
            → units ≡ start - budget
            → Passes word n (old, start) None (new, budget) None → IsBook self.old old.machine log
            → (last : Log) × Passes word n (old, start) (Some log) (new, budget) (Some last)
            × IsBook self.new new.machine last }
    {
        if units == 0 {
            return;
        }
        self.cut();
        self.units += units;
        self.end = self.units;
    }

    /// An event ended that took nothing from outside.
    pub(crate) fn went(&mut self, units: u64)
        requires { self.old.units + units ≤ 2 ^ 64 - 1 }
        ensures room { vec_capacity self.new.notes ≡ vec_capacity self.old.notes }
        ensures len { vec_len self.new.notes ≤ vec_len self.old.notes }
        ensures book { (m : FlatMachine) (log : Log) → IsBook self.old m log → units ≡ cost_of m → IsFit {A = A} m None
            → IsBook self.new (machine_after_event {A = A} m None) (record { before = m ∷ log.before; after = [] }) }
    {
        self.cut();
        self.units += units;
        self.end = self.units;
    }

    /// An event ended that took this from outside.
    pub(crate) fn noted(&mut self, units: u64, taken: Taken<A>)
        requires fits { self.old.units + units ≤ 2 ^ 64 - 1 }
        requires room { vec_len self.old.notes < vec_capacity self.old.notes }
        ensures book { (m : FlatMachine) (log : Log) → IsBook self.old m log → units ≡ cost_of m → IsFit m (Some taken)
            → IsBook self.new (machine_after_event m (Some taken)) (record { before = m ∷ log.before; after = [] }) }
    {
        self.cut();
        let begun = self.units;
        self.notes.push_reserved(Note {
            units: begun,
            taken,
        });
        self.index = self.notes.as_slice().len();
        self.units += units;
        self.end = self.units;
    }
}

/// The units of the last checkpoint; none where there is no checkpoint.
fn units_of_last<A: Allocator + Clone>(checkpoints: &[Spot<A>]) -> u64 {
    match checkpoints.last() {
        Some(spot) => spot.units,
        None => 0,
    }
}

/// Where checkpoints lie densest for their distance from the newest, which is none of these. Dropped one by one there,
/// they lie the further apart the longer ago they are.
fn densest<A: Allocator + Clone>(checkpoints: &[Spot<A>]) -> usize
    requires some { 0 < length checkpoints.now }
    ensures within { result < length checkpoints.now }
    ensures newest { 1 < length checkpoints.now → result + 1 < length checkpoints.now }
{
    let newest = units_of_last(checkpoints);
    let last = checkpoints.len() - 1;
    let mut found = 0;
    let mut most = 0;
    let mut before = 0;
    let mut at = 0;
    while at < last {
        let units = checkpoints[at].units;
        let gap = checkpoints[at + 1].units.saturating_sub(before);
        let here = density(newest.saturating_sub(units), gap);
        if here > most {
            most = here;
            found = at;
        }
        before = units;
        at += 1;
    }
    found
}

/// How many times 1/1,024 of a gap, with a unit more, fits into a distance.
fn density(distance: u64, gap: u64) -> u128
    ensures { result ≡ distance * 1024 / (gap + 1) }
{
    u128::from(distance) * 1024 / (u128::from(gap) + 1)
}

/// How many checkpoints there are before the first after so many units.
pub(crate) fn until<A: Allocator + Clone>(checkpoints: &[Spot<A>], units: u64) -> usize
    ensures within { result ≤ length checkpoints.now }
    ensures before { (k : ℕ) (d : Spot A) → k < result → (slice_index_or checkpoints.now k d).units ≤ units }
{
    let mut count = 0;
    while count < checkpoints.len() && checkpoints[count].units <= units {
        count += 1;
    }
    count
}

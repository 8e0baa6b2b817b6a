//! The machine: one step, and the answer to what it asks.
ghost use Rattle.std.specs.Prelude.{◌≡◌, ◌≢◌, ◌⊎◌, ◌+◌, ◌-◌, ◌*◌, ◌<◌, ◌≤◌, ℕ, true, false, [], length, Ok, Some, None};
ghost use Rattle.std.specs.Prelude.{IfOk, IfSome, IsSome, OnOk, OnErr};
ghost use Rattle.gx_words.specs.Faults.{Does, Makes};
ghost use Rattle.gx_state.specs.declared.effects.Effect.TheVariants.{Put};
ghost use Rattle.gx_state.specs.declared.modes.Mode.TheVariants.{Running, Printing as APrinting};
ghost use Rattle.gx_state.specs.Copies.{IsCopyFor};
ghost use Rattle.gx_state.specs.Flat.{sp_of, IsHeight};
ghost use Rattle.gx_state.specs.Replies.{AreInRam, IsReply};
ghost use Rattle.gx_state.specs.Stores.{store_fault, IsMemory};
ghost use Rattle.gx_pages.specs.Memory.{HasBytes};
ghost use Rattle.ops_print.specs.Asks.{is_put};
ghost use Rattle.ops_print.specs.Puts.{most_puts, PutsNext};
ghost use Rattle.gx_undo.specs.Undo.{most_undo};
ghost use Rattle.gx_machine.specs.declared.askings.Asking.TheVariants as asking;
ghost use Rattle.gx_machine.specs.Answer.{answered_state, with_writes, with_pushes, IsStoredAnswer, answered_whole};
ghost use Rattle.gx_machine.specs.Answer.{AnswersAsking};
ghost use Rattle.gx_machine.specs.Puts.{put_reply, put_on};
ghost use Rattle.gx_machine.specs.SavedCopies.{restored_whole, saved_copy};
ghost use Rattle.gx_machine.specs.Step.{room_of, asking_of, stepped, IsStepWriting};
ghost use Rattle.gx_machine.specs.Quick.{Tries, PassesUntil};
ghost use Rattle.gx_machine.specs.Start.{first_machine};
ghost use Rattle.gx_machine.specs.Advancing.{Advances, Passes};
ghost use Rattle.gx_machine.specs.WaysBack.{HasWaysBack};
ghost use Rattle.gx_machine.specs.Views.{IsPendingAnswer, result_len};

use crate::printing::{is_silent, prints_at_pc, prints_next, start};
use crate::quick::quick;
use crate::rows::{next_put, print, quick_item, run};
use crate::{Asking, Engine};
use arrayvec::ArrayVec;
use gx_operands::Plan;
use gx_state::{Dest, Effect, FlatCopy, Mode, Reply, State};
use gx_story::Story;
use gx_undo::Undo;
use gx_words::{Fault, Printing, word_bytes};
use ops_print::MOST_PUTS;
use std::alloc::{AllocError, Allocator, Global};
use std::marker::Model;

/// What the machine waits for, and what its answer does: the stack pointer that the pops leave, where
/// the value goes, and the address and the mode that follow.
#[derive(Clone, Copy, Debug)]
pub(crate) struct Pending {
    pub(crate) asking: Asking,
    pub(crate) sp: u32,
    pub(crate) dest: Dest,
    pub(crate) next: u32,
    pub(crate) mode: Mode,
}

/// A machine.
#[derive(Drop)]
pub struct Machine<A: Allocator + Clone> {
    state: State<A>,
    undo: Undo<A>,
    pending: Option<Pending>,
}

impl<A: Allocator + Clone> Model for Machine<A> {
    ghost use Rattle.gx_machine.specs.Machine.{Whole};

    ghost Value = { Whole };

    ghost use Rattle.gx_machine.specs.Views.{whole_of, IsMachine};

    ghost view = { whole_of };

    ghost invariant = { IsMachine };
}

impl<A: Allocator + Clone> Machine<A> {
    /// A machine that starts a story, and keeps at most `depth` copies for undo.
    #[tactic(auto, unfolding(crate::specs::Start::first_machine))]
    pub fn start(alloc: Global, pages: A, story: Story, depth: usize) -> Result<Machine<A>, Fault>
        requires { (1 ≤ depth) × (depth ≤ most_undo) }
        ensures value { Makes (λ machine. machine) result (first_machine story depth) }
        ensures asks { IfOk result (λ machine. machine.asking ≡ None) }
    {
        let state = State::start_with(alloc, pages, story)?;
        let undo = Undo::new(alloc, depth)?;
        Ok(Machine {
            state,
            undo,
            pending: None,
        })
    }

    /// Its state.
    pub fn state(&self) -> &State<A>
        ensures { result.now.flat ≡ self.now.machine.flat }
    {
        &self.state
    }

    /// The same machine once more. Memory is shared, and so are the copies for undo and the story; the stack and the
    /// list of the heap's blocks are copied.
    pub fn fork(&self, alloc: Global) -> Result<Machine<A>, AllocError>
        ensures { IfOk result (λ machine. machine ≡ self.now) }
    {
        Ok(Machine {
            state: self.state.fork(alloc)?,
            undo: self.undo.fork(alloc)?,
            pending: self.pending,
        })
    }

    /// Drops what is asked, if anything: the machine stands before the step that asked.
    pub fn drop_asking(&mut self)
        ensures { self.new ≡ record self.old { asking = None } }
    {
        self.pending = None;
    }

    /// The story that it plays.
    pub fn story(&self) -> &Story
        ensures { result.now ≡ self.now.machine.flat.story }
    {
        self.state.story()
    }

    /// What it waits for; None where it may make a step.
    pub fn asking(&self) -> Option<Asking>
        ensures { result ≡ self.now.asking }
    {
        match self.pending {
            Some(pending) => Some(pending.asking),
            None => None,
        }
    }

    /// Does nothing: its contract says that the way back to each copy that it keeps has no fault.
    #[inline(always)]
    pub fn ways_back(&self)
        ensures { HasWaysBack self.now.machine }
    {
        let _stack = self.state.stack(); // a state is sound
    }

    /// How many copies it keeps for undo.
    pub fn undo_len(&self) -> usize
        ensures { result ≡ length self.now.machine.undo.copies }
    {
        self.undo.len()
    }

    /// One step within the budget, with a random word that it may use.
    #[tactic(auto, using(crate::proofs::Steps::steps))]
    pub fn step(&mut self, word: u32, budget: &mut u64) -> Result<Effect, Fault>
        requires { self.old.asking ≡ None }
        ensures step { Does (IsStepWriting self.old.machine budget.old) (λ effect. effect) result (self.old, budget.old)
            (self.new, budget.new) (stepped self.old word budget.old) }
        ensures stands { IfOk result (λ effect. IsSome (asking_of effect) → self.new.machine ≡ self.old.machine) }
    {
        self.turn(&mut Plan::new(), word, budget)
    }

    /// The character that the next step within the budget asks to be put, where it is an item of what is printed, or
    /// streamchar's or streamunichar's: the step is made then. Else nothing is done.
    #[inline(always)]
    #[tactic(auto, using(crate::proofs::Steps::steps))]
    pub fn next_put(&mut self, budget: u64) -> Option<u32>
        requires { self.old.asking ≡ None }
        ensures value { IfSome result (λ c. (word : ℕ)
            → stepped self.old word budget ≡ Ok ((self.new, budget - 1), Put c)) }
        ensures asks { IfSome result (λ c. self.new.asking ≡ Some asking.Put) }
        ensures stands { self.new.machine ≡ self.old.machine }
        ensures some { IfSome result (λ c. 1 ≤ budget) }
        ensures none { result ≡ None → self.new ≡ self.old }
        ensures rest { result ≡ None → self.old.machine.flat.mode ≢ Running → (word : ℕ)
            → IfOk (stepped self.old word budget) (λ r. is_put r.1 ≡ false) }
        ensures backs { HasWaysBack self.old.machine }
    {
        self.ways_back();
        if budget == 0 || self.state.stack().size() == 0 {
            return None;
        }
        next_put(&self.state, &mut self.pending)
    }

    /// What `next_put` gives, where the next step may print.
    #[inline(always)]
    fn put_next(&mut self, budget: u64) -> Option<u32>
        requires { self.old.asking ≡ None }
        ensures value { IfSome result (λ c. (word : ℕ)
            → stepped self.old word budget ≡ Ok ((self.new, budget - 1), Put c)) }
        ensures stands { self.new.machine ≡ self.old.machine }
        ensures some { IfSome result (λ c. 1 ≤ budget) }
        ensures none { result ≡ None → self.new ≡ self.old }
    {
        if !prints_next(&self.state) {
            return None;
        }
        self.put_apart(budget)
    }

    /// The same as `next_put`. It stands apart from the steps of code, which are far more often.
    #[cold]
    #[inline(never)]
    fn put_apart(&mut self, budget: u64) -> Option<u32>
        requires { self.old.asking ≡ None }
        ensures value { IfSome result (λ c. (word : ℕ)
            → stepped self.old word budget ≡ Ok ((self.new, budget - 1), Put c)) }
        ensures stands { self.new.machine ≡ self.old.machine }
        ensures some { IfSome result (λ c. 1 ≤ budget) }
        ensures none { result ≡ None → self.new ≡ self.old }
    {
        self.next_put(budget)
    }

    /// Steps within the budget, all with one random word, as long as they ask nothing and the word isn't used, and then
    /// one that may. The budget is lowered by all of them but the last, and `left` is what that one leaves.
    #[tactic(auto, using(crate::proofs::Steps::steps))]
    pub fn advance(&mut self, word: u32, budget: &mut u64, left: &mut u64) -> Result<Effect, Fault>
        requires { self.old.asking ≡ None }
        ensures { Advances word result (self.old, budget.old) None budget.new (self.new, left.new) None }
    {
        let mut plan = Plan::new();
        loop {
            let passed = self.passes(budget);
            self.ways_back();
            *left = *budget;
            passed?;
            match self.put_next(*budget) {
                Some(c) => {
                    *left -= 1;
                    return Ok(Effect::Put(c));
                }
                None => {}
            }
            match self.turn(&mut plan, word, left) {
                Ok(Effect::Went) => *budget = *left,
                done => return done,
            }
        }
    }

    /// Makes steps the quick way, as long as there are such: instructions, and steps of printing that put nothing.
    #[inline(always)]
    #[tactic(auto, using(crate::proofs::Steps::steps))]
    fn passes(&mut self, budget: &mut u64) -> Result<(), Fault>
        requires asks { self.old.asking ≡ None }
        ensures value { (word : ℕ) → PassesUntil word result (self.old, budget.old) (self.new, budget.new) }
        ensures asks { self.new.asking ≡ None }
        ensures no_more { budget.new ≤ budget.old }
    {
        loop {
            self.passes_running(budget)?;
            if !self.passes_printing(budget) {
                return Ok(());
            }
        }
    }

    /// The steps of printing that can be made, where the next step may print. It is true where there was one, and more
    /// may follow.
    #[inline(always)]
    #[tactic(auto, using(crate::proofs::Starts::no_passes))]
    fn passes_printing(&mut self, budget: &mut u64) -> bool
        requires asks { self.old.asking ≡ None }
        ensures value { (word : ℕ)
            → (n : ℕ) × Passes word n (self.old, budget.old) None (self.new, budget.new) None }
        ensures asks { self.new.asking ≡ None }
        ensures fewer { result ≡ true → budget.new < budget.old }
        ensures no_more { budget.new ≤ budget.old }
    {
        if !prints_next(&self.state) {
            return false;
        }
        self.prints_apart(budget)
    }

    /// Steps of printing: an instruction that begins to print or drops a character, and items that put nothing. It is
    /// true where there was one, and more may follow: under Glk a character is to be put behind such an instruction.
    ///
    /// Code runs far more often, and so the compiler is told that this is rare: it then takes the steps of code into
    /// one function.
    #[cold]
    #[inline(never)]
    #[tactic(auto, using(crate::proofs::Starts::printed))]
    fn prints_apart(&mut self, budget: &mut u64) -> bool
        requires asks { self.old.asking ≡ None }
        ensures value { (word : ℕ)
            → (n : ℕ) × Passes word n (self.old, budget.old) None (self.new, budget.new) None }
        ensures asks { self.new.asking ≡ None }
        ensures fewer { result ≡ true → budget.new < budget.old }
        ensures no_more { budget.new ≤ budget.old }
    {
        let before = *budget;
        if self.pass_start(budget) && !is_silent(&self.state) {
            return false;
        }
        self.prints_items(budget);
        *budget < before
    }

    /// Items that put nothing, as many as come next.
    #[inline(always)]
    fn prints_items(&mut self, budget: &mut u64)
        requires asks { self.old.asking ≡ None }
        ensures value { (word : ℕ)
            → (n : ℕ) × Passes word n (self.old, budget.old) None (self.new, budget.new) None }
        ensures asks { self.new.asking ≡ None }
        ensures no_more { budget.new ≤ budget.old }
    {
        while self.pass_printing(budget) {}
    }

    /// One instruction that begins to print or drops a character. Nothing is done where the next step is another.
    #[inline(always)]
    #[tactic(auto, using(crate::proofs::Steps::steps))]
    fn pass_start(&mut self, budget: &mut u64) -> bool
        requires asks { self.old.asking ≡ None }
        ensures value { (word : ℕ) → Tries ⊥ (Ok result) (self.old, budget.old) (self.new, budget.new)
            (stepped self.old word budget.old) }
        ensures asks { self.new.asking ≡ None }
        ensures fewer { result ≡ true → budget.new < budget.old }
        ensures no_more { budget.new ≤ budget.old }
        ensures backs { HasWaysBack self.old.machine }
    {
        self.ways_back();
        if *budget == 0 || self.state.stack().size() == 0 {
            return false;
        }
        match self.state.mode() {
            Mode::Running => self.pass_started(budget),
            Mode::Printing(_) => false,
        }
    }

    /// The same for a machine that runs code, with a unit at least.
    #[inline(always)]
    #[tactic(auto, using(crate::proofs::Steps::steps))]
    fn pass_started(&mut self, budget: &mut u64) -> bool
        requires asks { self.old.asking ≡ None }
        requires some { 1 ≤ budget.old }
        requires live { 0 < sp_of self.old.machine.flat }
        requires running { self.old.machine.flat.mode ≡ Mode.Running }
        ensures value { (word : ℕ) → Tries ⊥ (Ok result) (self.old, budget.old) (self.new, budget.new)
            (stepped self.old word budget.old) }
        ensures asks { self.new.asking ≡ None }
        ensures fewer { result ≡ true → budget.new < budget.old }
        ensures no_more { budget.new ≤ budget.old }
    {
        if !prints_at_pc(&self.state) {
            return false;
        }
        if start(&mut self.state) {
            *budget -= 1;
            return true;
        }
        false
    }

    /// One step of printing that puts nothing. Nothing is done where the next one does something else.
    #[inline(always)]
    #[tactic(auto, using(crate::proofs::Steps::steps))]
    fn pass_printing(&mut self, budget: &mut u64) -> bool
        requires asks { self.old.asking ≡ None }
        ensures value { (word : ℕ) → Tries ⊥ (Ok result) (self.old, budget.old) (self.new, budget.new)
            (stepped self.old word budget.old) }
        ensures asks { self.new.asking ≡ None }
        ensures fewer { result ≡ true → budget.new < budget.old }
        ensures no_more { budget.new ≤ budget.old }
        ensures backs { HasWaysBack self.old.machine }
    {
        self.ways_back();
        if *budget == 0 || self.state.stack().size() == 0 {
            return false;
        }
        match self.state.mode() {
            Mode::Running => false,
            Mode::Printing(printing) => self.pass_char(&printing, budget),
        }
    }

    /// The same for a machine that prints, with a unit at least.
    #[inline(always)]
    #[tactic(auto, using(crate::proofs::Steps::steps))]
    fn pass_char(&mut self, printing: &Printing, budget: &mut u64) -> bool
        requires asks { self.old.asking ≡ None }
        requires some { 1 ≤ budget.old }
        requires live { 0 < sp_of self.old.machine.flat }
        requires printing { self.old.machine.flat.mode ≡ APrinting printing.now }
        ensures value { (word : ℕ) → Tries ⊥ (Ok result) (self.old, budget.old) (self.new, budget.new)
            (stepped self.old word budget.old) }
        ensures asks { self.new.asking ≡ None }
        ensures fewer { result ≡ true → budget.new < budget.old }
        ensures no_more { budget.new ≤ budget.old }
    {
        if quick_item(&mut self.state, printing) {
            *budget -= 1;
            return true;
        }
        false
    }

    /// The same for a machine that runs code at first.
    #[inline(always)]
    #[tactic(auto, using(crate::proofs::Steps::steps))]
    fn passes_running(&mut self, budget: &mut u64) -> Result<(), Fault>
        requires asks { self.old.asking ≡ None }
        ensures value { (word : ℕ) → PassesUntil word result (self.old, budget.old) (self.new, budget.new) }
        ensures asks { self.new.asking ≡ None }
        ensures no_more { budget.new ≤ budget.old }
    {
        while self.pass(budget)? {}
        Ok(())
    }

    /// One step the quick way. Nothing is done where there is none.
    #[inline(always)]
    #[tactic(auto, using(crate::proofs::Steps::steps))]
    fn pass(&mut self, budget: &mut u64) -> Result<bool, Fault>
        requires asks { self.old.asking ≡ None }
        ensures value { (word : ℕ) → Tries (IsStepWriting self.old.machine budget.old) result (self.old, budget.old)
            (self.new, budget.new) (stepped self.old word budget.old) }
        ensures asks { self.new.asking ≡ None }
        ensures fewer { result ≡ Ok true → budget.new < budget.old }
        ensures no_more { budget.new ≤ budget.old }
        ensures backs { HasWaysBack self.old.machine }
    {
        self.ways_back();
        if *budget == 0 || self.state.stack().bytes().is_empty() {
            return Ok(false);
        }
        match self.state.mode() {
            Mode::Running => self.pass_running(budget),
            Mode::Printing(_) => Ok(false),
        }
    }

    /// The same for a machine that runs code, with a unit at least.
    #[inline(always)]
    #[tactic(auto, using(crate::proofs::Steps::steps))]
    fn pass_running(&mut self, budget: &mut u64) -> Result<bool, Fault>
        requires asks { self.old.asking ≡ None }
        requires some { 1 ≤ budget.old }
        requires live { 0 < sp_of self.old.machine.flat }
        requires running { self.old.machine.flat.mode ≡ Mode.Running }
        ensures value { (word : ℕ) → Tries (IsStepWriting self.old.machine budget.old) result (self.old, budget.old)
            (self.new, budget.new) (stepped self.old word budget.old) }
        ensures asks { self.new.asking ≡ None }
        ensures fewer { result ≡ Ok true → budget.new < budget.old }
        ensures no_more { budget.new ≤ budget.old }
    {
        if quick(&mut self.state)? {
            *budget -= 1;
            return Ok(true);
        }
        Ok(false)
    }

    /// One step within the budget, whose instruction is read into `plan`.
    #[inline(always)]
    #[tactic(auto, using(crate::proofs::Steps::steps))]
    fn turn(&mut self, plan: &mut Plan, word: u32, budget: &mut u64) -> Result<Effect, Fault>
        requires { self.old.asking ≡ None }
        ensures step { Does (IsStepWriting self.old.machine budget.old) (λ effect. effect) result (self.old, budget.old)
            (self.new, budget.new) (stepped self.old word budget.old) }
        ensures stands { IfOk result (λ effect. IsSome (asking_of effect) → self.new.machine ≡ self.old.machine) }
    {
        if *budget == 0 {
            return Ok(Effect::Spent);
        }
        if self.state.stack().size() == 0 {
            return Err(Fault::BadFrame);
        }
        match self.state.mode() {
            Mode::Running => self.run(plan, word, budget),
            Mode::Printing(_) => self.print(budget),
        }
    }

    /// The same for a machine that runs code, with a unit at least.
    #[tactic(auto, using(crate::proofs::Steps::steps))]
    fn run(&mut self, plan: &mut Plan, word: u32, budget: &mut u64) -> Result<Effect, Fault>
        requires asks { self.old.asking ≡ None }
        requires some { 1 ≤ budget.old }
        requires live { 0 < sp_of self.old.machine.flat }
        requires running { self.old.machine.flat.mode ≡ Mode.Running }
        ensures step { Does (IsStepWriting self.old.machine budget.old) (λ effect. effect) result (self.old, budget.old)
            (self.new, budget.new) (stepped self.old word budget.old) }
        ensures stands { IfOk result (λ effect. IsSome (asking_of effect) → self.new.machine ≡ self.old.machine) }
    {
        let mut left = *budget - 1;
        let effect = run(
            &mut self.state,
            &mut self.undo,
            plan,
            word,
            &mut left,
            &mut self.pending,
        )?;
        if let Effect::Spent = effect {
            return Ok(Effect::Spent);
        }
        *budget = left;
        Ok(effect)
    }

    /// The same for a machine that prints, whatever the word is.
    #[tactic(auto, using(crate::proofs::Steps::steps))]
    fn print(&mut self, budget: &mut u64) -> Result<Effect, Fault>
        requires asks { self.old.asking ≡ None }
        requires some { 1 ≤ budget.old }
        requires live { 0 < sp_of self.old.machine.flat }
        requires printing { self.old.machine.flat.mode ≢ Mode.Running }
        ensures step { (word : ℕ) → Does ⊥ (λ effect. effect) result (self.old, budget.old) (self.new, budget.new)
            (stepped self.old word budget.old) }
        ensures stands { IfOk result (λ effect. IsSome (asking_of effect) → self.new.machine ≡ self.old.machine) }
    {
        let effect = print(&mut self.state, &mut self.pending)?;
        *budget -= 1;
        Ok(effect)
    }

    /// Answers what the last step asked: the pops are made, the writes and the pushes follow in order,
    /// and the value is stored.
    #[tactic(auto, unfolding(crate::specs::Answer::answer_of))]
    pub fn finish(&mut self, reply: &Reply) -> Result<(), AllocError>
        requires { AnswersAsking self.old reply.now }
        ensures ok { OnOk result (self.new ≡ answered_whole self.old reply.now) }
        ensures err { OnErr result (self.new ≡ self.old) }
        ensures memory { OnErr result (HasBytes reply.now.writes ⊎ IsStoredAnswer self.old.machine.flat) }
    {
        if let Some(pending) = &self.pending {
            answer(&mut self.state, pending, reply)?;
        }
        self.pending = None;
        Ok(())
    }

    /// The same for a character that was put, with a reply that pushes and writes nothing; this takes no memory.
    #[inline(always)]
    #[tactic(auto, unfolding(crate::specs::Answer::answer_of))]
    pub fn finish_put(&mut self)
        requires { self.old.asking ≡ Some asking.Put }
        ensures { self.new ≡ answered_whole self.old put_reply }
    {
        if let Some(pending) = &self.pending {
            answer_put(&mut self.state, pending);
        }
        self.pending = None;
    }

    /// The characters that are put behind the one that is asked, by steps that are answered at once: the next items of
    /// the same string or number, `most` at most. They are added to `chars`, and the mode behind them is answered.
    #[inline(always)]
    #[tactic(auto, unfolding(crate::specs::Answer::answer_of))]
    pub fn more_puts(&self, most: usize, chars: &mut ArrayVec<u32, MOST_PUTS>) -> Mode
        requires asks { self.now.asking ≡ Some asking.Put }
        requires room { length chars.old.items + most ≤ most_puts }
        ensures { PutsNext (answered_whole self.now put_reply).machine.flat most chars.old.items chars.new.items
            result }
    {
        let Some(pending) = &self.pending else {
            unreachable!()
        };
        puts_behind(&self.state, pending, most, chars)
    }

    /// Answers the character that is asked and those that are put behind it, up to this mode, with replies that push
    /// and write nothing; this takes no memory.
    #[inline(always)]
    #[tactic(auto, unfolding(crate::specs::Answer::answer_of))]
    pub fn finish_puts(&mut self, mode: Mode)
        requires { self.old.asking ≡ Some asking.Put }
        ensures { self.new ≡ put_on self.old mode }
    {
        if let Some(pending) = &self.pending {
            answer_puts(&mut self.state, pending, mode);
        }
        self.pending = None;
    }

    /// The copy that the save which the last step asked is to write: the state once the operands are popped, with the
    /// stub of the store operand on top of its stack.
    #[tactic(auto, using(ops_game::proofs::Copies::place_found))]
    pub fn save_copy(&self, alloc: Global) -> Result<FlatCopy, AllocError>
        requires { self.now.asking ≡ Some Asking.Save }
        ensures value { IfOk result (λ copy. copy ≡ saved_copy self.now.machine.flat) }
        ensures fit { IfOk result (λ copy. IsCopyFor self.now.machine.flat.story copy) }
    {
        let Some(pending) = self.pending else {
            unreachable!()
        };
        self.state
            .flat(alloc, &pending.dest, pending.next, pending.sp)
    }

    /// Goes back to a copy, for the restore which the last step asked: nothing is pending then.
    #[tactic(auto, unfolding(crate::specs::SavedCopies::restored))]
    pub fn restore_copy(&mut self, copy: &FlatCopy) -> Result<(), AllocError>
        requires asks { self.old.asking ≡ Some Asking.Restore }
        requires fit { IsCopyFor self.old.machine.flat.story copy.now }
        ensures ok { OnOk result (self.new ≡ restored_whole self.old copy.now) }
        ensures err { OnErr result (self.new ≡ self.old) }
    {
        self.state.with_bytes(copy)?;
        self.pending = None;
        Ok(())
    }
}

/// Makes the writes of a reply, and stores its value where that goes to memory or a local.
#[tactic(auto, unfolding(crate::proofs::Opened::setting_local))]
fn write_all<A: Allocator + Clone>(
    state: &mut State<A>,
    pending: &Pending,
    reply: &Reply,
) -> Result<(), AllocError>
    requires height { IsHeight state.old.flat pending.now.sp }
    requires stores { store_fault state.old.flat 4 pending.now.dest pending.now.sp ≡ Ok tt }
    requires writes { AreInRam state.old.flat reply.now.writes }
    ensures ok { OnOk result (state.new.flat ≡ with_writes state.old.flat pending.now.dest reply.now) }
    ensures err { OnErr result (state.new.flat ≡ state.old.flat) }
    ensures height { IsHeight state.new.flat pending.now.sp }
    ensures memory { OnErr result (HasBytes reply.now.writes ⊎ IsMemory pending.now.dest) }
{
    match pending.dest {
        Dest::Memory(at) => state.write_all_and(&reply.writes, at, &word_bytes(reply.value)),
        Dest::Local(at) => {
            state.write_all(&reply.writes)?;
            match state.set_local(at, 4, reply.value) {
                Ok(()) => Ok(()),
                Err(_) => unreachable!(),
            }
        }
        _ => state.write_all(&reply.writes),
    }
}

/// Pushes the values of a reply, and its value where that is pushed.
#[tactic(auto, unfolding(crate::proofs::Opened::pushing), using(gx_stack::proofs::Turns::value_turns))]
fn push_all<A: Allocator + Clone>(state: &mut State<A>, pending: &Pending, reply: &Reply)
    requires live { 0 < sp_of state.old.flat }
    requires room { sp_of state.old.flat + 4 * length reply.now.pushes + result_len pending.now.dest
        ≤ state.old.flat.stack.limit }
    ensures { state.new.flat ≡ with_pushes state.old.flat pending.now.dest reply.now }
{
    match state.push_all(reply.pushes.as_slice()) {
        Ok(()) => {}
        Err(_) => unreachable!(),
    }
    if pending.dest == Dest::Push {
        match state.push(reply.value) {
            Ok(()) => {}
            Err(_) => unreachable!(),
        }
    }
}

/// Makes what a reply says of a state that waits for it.
fn answer<A: Allocator + Clone>(
    state: &mut State<A>,
    pending: &Pending,
    reply: &Reply,
) -> Result<(), AllocError>
    requires pends { IsPendingAnswer state.old.flat pending.now }
    requires fits { IsReply state.old.flat (room_of (Some pending.now.asking)) reply.now }
    ensures ok { OnOk result (state.new.flat ≡ answered_state state.old.flat reply.now) }
    ensures err { OnErr result (state.new.flat ≡ state.old.flat) }
    ensures memory { OnErr result (HasBytes reply.now.writes ⊎ IsStoredAnswer state.old.flat) }
{
    write_all(state, pending, reply)?;
    state.cut_stack(pending.sp);
    push_all(state, pending, reply);
    state.set_pc(pending.next);
    state.set_mode(pending.mode);
    Ok(())
}

/// The characters that are put behind the one that a state waits for, and the mode behind them.
#[inline(always)]
fn puts_behind<A: Allocator + Clone>(
    state: &State<A>,
    pending: &Pending,
    most: usize,
    chars: &mut ArrayVec<u32, MOST_PUTS>,
) -> Mode
    requires pends { IsPendingAnswer state.now.flat pending.now }
    requires asks { pending.now.asking ≡ asking.Put }
    requires room { length chars.old.items + most ≤ most_puts }
    ensures { PutsNext (answered_state state.now.flat put_reply) most chars.old.items chars.new.items result }
{
    match pending.mode {
        Mode::Running => Mode::Running,
        Mode::Printing(printing) => {
            Mode::Printing(ops_print::more_puts(state, &printing, most, chars))
        }
    }
}

/// Answers a state that waits until a character is put: nothing is pushed, written or stored.
#[inline(always)]
#[tactic(auto, using(crate::proofs::Answers::put_answered))]
fn answer_put<A: Allocator + Clone>(state: &mut State<A>, pending: &Pending)
    requires pends { IsPendingAnswer state.old.flat pending.now }
    requires asks { pending.now.asking ≡ asking.Put }
    ensures { state.new.flat ≡ answered_state state.old.flat put_reply }
{
    state.cut_stack(pending.sp);
    state.set_pc(pending.next);
    state.set_mode(pending.mode);
}

/// Answers a state that waits until a character is put, and those behind it up to this mode: nothing is pushed, written
/// or stored.
#[inline(always)]
#[tactic(auto, using(crate::proofs::Puts::puts_answered))]
fn answer_puts<A: Allocator + Clone>(state: &mut State<A>, pending: &Pending, mode: Mode)
    requires pends { IsPendingAnswer state.old.flat pending.now }
    requires asks { pending.now.asking ≡ asking.Put }
    ensures { state.new.flat ≡ record (answered_state state.old.flat put_reply) { mode = mode } }
{
    state.cut_stack(pending.sp);
    state.set_pc(pending.next);
    state.set_mode(mode);
}

impl<A: Allocator + Clone> Engine<A> for Machine<A> {
    ghost whole = { λ machine. machine };

    ghost log = { λ machine. None };

    fn advance(&mut self, word: u32, budget: &mut u64, left: &mut u64) -> Result<Effect, Fault> {
        Machine::advance(self, word, budget, left)
    }

    fn next_put(&mut self, budget: u64) -> Option<u32> {
        Machine::next_put(self, budget)
    }

    fn finish(&mut self, reply: &Reply) -> Result<(), AllocError> {
        Machine::finish(self, reply)
    }

    fn finish_put(&mut self) {
        Machine::finish_put(self);
    }

    fn more_puts(&self, most: usize, chars: &mut ArrayVec<u32, MOST_PUTS>) -> Mode {
        Machine::more_puts(self, most, chars)
    }

    fn finish_puts(&mut self, mode: Mode) {
        Machine::finish_puts(self, mode);
    }

    fn save_copy(&self, alloc: Global) -> Result<FlatCopy, AllocError> {
        Machine::save_copy(self, alloc)
    }

    fn restore_copy(&mut self, copy: &FlatCopy) -> Result<(), AllocError> {
        Machine::restore_copy(self, copy)
    }

    fn state(&self) -> &State<A> {
        Machine::state(self)
    }

    fn story(&self) -> &Story {
        Machine::story(self)
    }

    fn undo_len(&self) -> usize {
        Machine::undo_len(self)
    }
}

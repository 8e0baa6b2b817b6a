//! What a session runs on, seen through its steps and answers: a machine, or a tape that records one.
ghost use Rattle.std.specs.Prelude.{◌≡◌, ◌≢◌, ◌≤◌, ◌+◌, ◌-◌, ◌⊎◌, ℕ, false, [], length, Option, Ok, Some, None, IsSome};
ghost use Rattle.std.specs.Prelude.{IfSome, IfOk, OnOk, OnErr};
ghost use Rattle.gx_pages.specs.Memory.{HasBytes};
ghost use Rattle.gx_state.specs.declared.effects.Effect.TheVariants.{Put};
ghost use Rattle.gx_state.specs.declared.modes.Mode.TheVariants.{Running};
ghost use Rattle.gx_state.specs.Copies.{IsCopyFor};
ghost use Rattle.ops_print.specs.Asks.{is_put};
ghost use Rattle.ops_print.specs.Puts.{most_puts};
ghost use Rattle.gx_machine.specs.Machine.{Whole};
ghost use Rattle.gx_machine.specs.Answer.{IsStoredAnswer, answered_whole, AnswersAsking};
ghost use Rattle.gx_machine.specs.Puts.{put_reply, put_on, PutsBehind};
ghost use Rattle.gx_machine.specs.SavedCopies.{restored_whole, saved_copy};
ghost use Rattle.gx_machine.specs.Step.{stepped};
ghost use Rattle.gx_machine.specs.Log.{Log, logged};
ghost use Rattle.gx_machine.specs.Advancing.{units_left, Advances};
ghost use Rattle.gx_machine.specs.WaysBack.{HasWaysBack};

use crate::Asking;
use arrayvec::ArrayVec;
use gx_state::{Effect, FlatCopy, Mode, Reply, State};
use gx_story::Story;
use gx_words::Fault;
use ops_print::MOST_PUTS;
use std::alloc::{AllocError, Allocator, Global};

/// Steps and the answers to what they ask, and what is recorded of them.
///
/// A step and an answer want memory only where they write, resize or copy memory, or for the record; nothing has
/// changed then. An event is a step with the answer to what it asked: it is recorded once it has ended.
pub trait Engine<A: Allocator + Clone> {
    ghost whole: { Self → Whole };

    /// What it records of its run: None where it records nothing.
    ghost log: { Self → Option Log };

    /// Steps within the budget, all with one random word, as long as they ask nothing and the word isn't used, and then
    /// one that may. The budget is lowered by all of them but the last, and `left` is what that one leaves.
    fn advance(&mut self, word: u32, budget: &mut u64, left: &mut u64) -> Result<Effect, Fault>
        requires asks { (whole self.old).asking ≡ None }
        requires room { budget.old ≤ units_left (log self.old) }
        ensures { Advances word result (whole self.old, budget.old) (log self.old) budget.new (whole self.new, left.new)
            (log self.new) };

    /// The character that the next step within the budget asks to be put, where it is an item of what is printed, or
    /// one that code prints by itself: the step is made then. Else nothing is done.
    fn next_put(&mut self, budget: u64) -> Option<u32>
        requires asks { (whole self.old).asking ≡ None }
        requires room { budget ≤ units_left (log self.old) }
        ensures value { IfSome result (λ c. (word : ℕ)
            → stepped (whole self.old) word budget ≡ Ok ((whole self.new, budget - 1), Put c)) }
        ensures asks { IfSome result (λ c. (whole self.new).asking ≡ Some Asking.Put) }
        ensures stands { (whole self.new).machine ≡ (whole self.old).machine }
        ensures some { IfSome result (λ c. 1 ≤ budget) }
        ensures none { result ≡ None → whole self.new ≡ whole self.old }
        ensures rest { result ≡ None → (whole self.old).machine.flat.mode ≢ Running → (word : ℕ)
            → IfOk (stepped (whole self.old) word budget) (λ r. is_put r.1 ≡ false) }
        ensures logs { log self.new ≡ log self.old }
        ensures backs { HasWaysBack (whole self.old).machine };

    /// Answers what the last step asked.
    fn finish(&mut self, reply: &Reply) -> Result<(), AllocError>
        requires { AnswersAsking (whole self.old) reply.now }
        ensures ok { OnOk result (whole self.new ≡ answered_whole (whole self.old) reply.now) }
        ensures logs { OnOk result (log self.new ≡ logged (log self.old) (whole self.old).machine) }
        ensures err { OnErr result ((whole self.new ≡ whole self.old) × (log self.new ≡ log self.old)) }
        ensures memory { OnErr result (IsSome (log self.old)
            ⊎ (HasBytes reply.now.writes ⊎ IsStoredAnswer (whole self.old).machine.flat)) };

    /// The same for a character that was put, with a reply that pushes and writes nothing. It never wants memory.
    fn finish_put(&mut self)
        requires { (whole self.old).asking ≡ Some Asking.Put }
        ensures value { whole self.new ≡ answered_whole (whole self.old) put_reply }
        ensures logs { log self.new ≡ logged (log self.old) (whole self.old).machine };

    /// The characters that are put behind the one that is asked, by steps that are answered at once: the next items of
    /// the same string or number, `most` at most. They are added to `chars`, and if there are any, the mode behind them
    /// is answered; the machine stands, and still asks. An engine that records gives none.
    fn more_puts(&self, most: usize, chars: &mut ArrayVec<u32, MOST_PUTS>) -> Mode
        requires asks { (whole self.now).asking ≡ Some Asking.Put }
        requires room { length chars.old.items + most ≤ most_puts }
        ensures { PutsBehind (whole self.now) (log self.now) most chars.old.items chars.new.items result };

    /// Answers the character that is asked and those that are put behind it, up to this mode; where the run is recorded,
    /// that character alone. It never wants memory.
    fn finish_puts(&mut self, mode: Mode)
        requires asks { (whole self.old).asking ≡ Some Asking.Put }
        requires alone { log self.old ≡ None
            ⊎ (mode ≡ (answered_whole (whole self.old) put_reply).machine.flat.mode) }
        ensures value { whole self.new ≡ put_on (whole self.old) mode }
        ensures logs { log self.new ≡ logged (log self.old) (whole self.old).machine };

    /// The copy that the save which the last step asked is to write.
    fn save_copy(&self, alloc: Global) -> Result<FlatCopy, AllocError>
        requires { (whole self.now).asking ≡ Some Asking.Save }
        ensures value { IfOk result (λ copy. copy ≡ saved_copy (whole self.now).machine.flat) }
        ensures fit { IfOk result (λ copy. IsCopyFor (whole self.now).machine.flat.story copy) };

    /// Goes back to a copy, for the restore which the last step asked.
    fn restore_copy(&mut self, copy: &FlatCopy) -> Result<(), AllocError>
        requires asks { (whole self.old).asking ≡ Some Asking.Restore }
        requires fit { IsCopyFor (whole self.old).machine.flat.story copy.now }
        ensures ok { OnOk result (whole self.new ≡ restored_whole (whole self.old) copy.now) }
        ensures logs { OnOk result (log self.new ≡ logged (log self.old) (whole self.old).machine) }
        ensures err { OnErr result ((whole self.new ≡ whole self.old) × (log self.new ≡ log self.old)) };

    /// The state of its machine.
    fn state(&self) -> &State<A>
        ensures { result.now.flat ≡ (whole self.now).machine.flat };

    /// The story that it plays.
    fn story(&self) -> &Story
        ensures { result.now ≡ (whole self.now).machine.flat.story };

    /// How many copies it keeps for undo.
    fn undo_len(&self) -> usize
        ensures { result ≡ length (whole self.now).machine.undo.copies };
}

//! The instructions of the class Game (Glulx 3.1.2, "Miscellaneous", "Random Number Generator", "Game
//! State", "Output" and "Accelerated Functions").
//!
//! `act` does the row of a plan, by its definition of specs/GameRows; after every fault the state and the
//! copies are as before. Only the rows of specs/Writes may want memory, and only where they have no
//! fault. save and restore ask, with the state and the copies standing, and never want memory.
//! - `chances` has random and setrandom.
//! - `saves` has save and restore.
//! - `undos` has saveundo, restoreundo, hasundo and discardundo; the last two aren't of 3.1.2.
//! - `outputs` has the rows of the string decoding table and the iosystem.
#![tactic(auto)]

ghost use Rattle.std.specs.Prelude.{◌≡◌, Ok, IfOk};
ghost use Rattle.gx_words.specs.Faults.{Does};
ghost use Rattle.gx_state.specs.Flat.{IsHeight};
ghost use Rattle.gx_state.specs.Relations.{Works};
ghost use Rattle.gx_state.specs.Replies.{IsDone};
ghost use Rattle.gx_state.specs.Stores.{IsMemory};
ghost use Rattle.gx_operands.specs.Plans.{instruction_of};
ghost use Rattle.gx_undo.specs.Undo.{AreCopiesFor};
ghost use Rattle.ops_game.specs.GameRows.{gestalt, quit, verify, restart, protect, row_effect};
ghost use Rattle.ops_game.specs.Asks.{IsSaveAtMost};
ghost use Rattle.ops_game.specs.Writes.{IsWriting};

mod chances;
mod outputs;
mod saves;
mod undos;

use chances::{random, setrandom};
use gx_operands::{Plan, goes, stores};
use gx_rows::{by_row, gestalt as answer_to};
use gx_state::{Effect, State};
use gx_undo::Undo;
use gx_words::Fault;
use outputs::{getiosys, getstringtbl, setiosys, setstringtbl};
use saves::{restore, save};
use std::alloc::Allocator;
use undos::{discardundo, hasundo, restoreundo, saveundo};

/// gestalt
#[tactic(auto, unfolding(crate::specs::GameRows::gestalt))]
fn gestalt<A: Allocator + Clone>(state: &mut State<A>, plan: &Plan) -> Result<Effect, Fault>
    requires { IsHeight state.old.flat plan.now.sp }
    ensures value { Works (IsMemory plan.now.dest) result state.old.flat state.new.flat
        (gestalt state.old.flat (instruction_of plan.now)) }
    ensures done { IfOk result IsDone }
{
    let start = state.heap().start();
    stores(state, plan, answer_to(plan.load(0), plan.load(1), start))
}

/// quit
#[tactic(auto, unfolding(crate::specs::GameRows::quit))]
fn quit<A: Allocator + Clone>(state: &mut State<A>, plan: &Plan) -> Effect
    requires { IsHeight state.old.flat plan.now.sp }
    ensures value { quit state.old.flat (instruction_of plan.now) ≡ Ok (state.new.flat, result) }
    ensures done { IsDone result }
    ensures story { state.new.flat.story ≡ state.old.flat.story }
{
    state.cut_stack(plan.sp);
    state.set_pc(plan.next);
    Effect::Quit
}

/// verify
#[tactic(auto, unfolding(crate::specs::GameRows::verify))]
fn verify<A: Allocator + Clone>(state: &mut State<A>, plan: &Plan) -> Result<Effect, Fault>
    requires { IsHeight state.old.flat plan.now.sp }
    ensures value { Works (IsMemory plan.now.dest) result state.old.flat state.new.flat
        (verify state.old.flat (instruction_of plan.now)) }
    ensures done { IfOk result IsDone }
{
    let value = u32::from(!state.checksum_ok());
    stores(state, plan, value)
}

/// restart
#[tactic(auto, unfolding(crate::specs::GameRows::restart))]
fn restart<A: Allocator + Clone>(state: &mut State<A>) -> Result<Effect, Fault>
    ensures value { Works (Unit {0}) result state.old.flat state.new.flat (restart state.old.flat) }
    ensures done { IfOk result IsDone }
{
    state.restart()?;
    Ok(Effect::Went)
}

/// protect
#[tactic(auto, unfolding(crate::specs::GameRows::protect))]
fn protect<A: Allocator + Clone>(state: &mut State<A>, plan: &Plan) -> Effect
    requires { IsHeight state.old.flat plan.now.sp }
    ensures value { protect state.old.flat (instruction_of plan.now) ≡ Ok (state.new.flat, result) }
    ensures done { IsDone result }
    ensures story { state.new.flat.story ≡ state.old.flat.story }
{
    state.set_protected(plan.load(0), plan.load(1));
    goes(state, plan)
}

/// Does the row of a plan that `decode` made of this state. `word` is the random word from outside
/// that the step may use.
#[tactic(auto, unfolding(crate::specs::GameRows::row_effect), using(crate::proofs::Asks::asks))]
pub fn act<A: Allocator + Clone>(
    state: &mut State<A>,
    plan: &Plan,
    undo: &mut Undo<A>,
    word: u32,
) -> Result<Effect, Fault>
    requires sp { IsHeight state.old.flat plan.now.sp }
    requires copies { AreCopiesFor state.old.flat.story undo.old.copies }
    ensures value { Does (IsWriting undo.old (instruction_of plan.now)) (λ effect. effect) result
        (state.old.flat, undo.old) (state.new.flat, undo.new)
        (row_effect state.old.flat undo.old word (instruction_of plan.now)) }
    ensures asks { IfOk result (IsSaveAtMost (state.old.flat, undo.old) (state.new.flat, undo.new)
        (instruction_of plan.now)) }
    ensures story { state.new.flat.story ≡ state.old.flat.story }
    ensures copies { AreCopiesFor state.old.flat.story undo.new.copies }
{
    by_row!(Game, plan.row().number;
        GESTALT => gestalt(state, plan),
        DEBUGTRAP => Err(Fault::DebugTrap),
        RANDOM => random(state, plan, word),
        SETRANDOM => Ok(setrandom(state, plan)),
        QUIT => Ok(quit(state, plan)),
        VERIFY => verify(state, plan),
        RESTART => restart(state),
        SAVE => save(state, plan),
        RESTORE => restore(state, plan),
        SAVEUNDO => saveundo(state, plan, undo),
        RESTOREUNDO => restoreundo(state, plan, undo),
        PROTECT => Ok(protect(state, plan)),
        HASUNDO => hasundo(state, plan, undo),
        DISCARDUNDO => Ok(discardundo(state, plan, undo)),
        GETSTRINGTBL => getstringtbl(state, plan),
        SETSTRINGTBL => Ok(setstringtbl(state, plan)),
        GETIOSYS => getiosys(state, plan),
        SETIOSYS => Ok(setiosys(state, plan)),
        ACCELFUNC => Ok(goes(state, plan)),
        ACCELPARAM => Ok(goes(state, plan));
        Err(Fault::BadOpcode))
}

//! save and restore (Glulx 3.1.2, "Game State").
//!
//! Both only look for their faults, and ask: the state stands until the answer is there, or a copy to go back to.
ghost use Rattle.std.specs.Prelude.{IfOk};
ghost use Rattle.gx_words.specs.Faults.{Reads};
ghost use Rattle.gx_state.specs.Flat.{IsHeight};
ghost use Rattle.gx_operands.specs.Plans.{instruction_of};
ghost use Rattle.gx_undo.specs.Undo.{FlatUndo};
ghost use Rattle.ops_game.specs.GameRows.{restore, save};
ghost use Rattle.ops_game.specs.Asks.{IsSaveAtMost};

use gx_operands::{Plan, can_store};
use gx_state::{Effect, State};
use gx_words::Fault;
use std::alloc::Allocator;

/// save
#[tactic(auto, unfolding(crate::specs::GameRows::save))]
pub fn save<A: Allocator + Clone>(state: &State<A>, plan: &Plan) -> Result<Effect, Fault>
    requires { IsHeight state.now.flat plan.now.sp }
    ensures value { Reads (λ effect. (state.now.flat, effect)) result (save state.now.flat (instruction_of plan.now)) }
    ensures asks { (u : FlatUndo) → IfOk result
        (IsSaveAtMost (state.now.flat, u) (state.now.flat, u) (instruction_of plan.now)) }
{
    let limit = state.stack().limit();
    if limit - plan.sp < 16 {
        return Err(Fault::Overflow);
    }
    can_store(state, &plan.dest, 4, plan.sp)?;
    Ok(Effect::Save(plan.load(0)))
}

/// restore
#[tactic(auto, unfolding(crate::specs::GameRows::restore))]
pub fn restore<A: Allocator + Clone>(state: &State<A>, plan: &Plan) -> Result<Effect, Fault>
    requires { IsHeight state.now.flat plan.now.sp }
    ensures value { Reads (λ effect. (state.now.flat, effect)) result
        (restore state.now.flat (instruction_of plan.now)) }
    ensures asks { (u : FlatUndo) → IfOk result
        (IsSaveAtMost (state.now.flat, u) (state.now.flat, u) (instruction_of plan.now)) }
{
    let _stack = state.stack(); // a state is sound
    can_store(state, &plan.dest, 4, plan.sp)?;
    Ok(Effect::Restore(plan.load(0)))
}

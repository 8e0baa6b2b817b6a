//! saveundo and restoreundo (Glulx 3.1.2, "Game State"), hasundo and discardundo (not of 3.1.2).
//!
//! A saveundo that is refused keeps no copy, and a restoreundo that is refused drops none.
ghost use Rattle.std.specs.Prelude.{◌≡◌, ◌<◌, ◌⊎◌, length, Ok, IfOk};
ghost use Rattle.gx_words.specs.Faults.{Does};
ghost use Rattle.gx_state.specs.Flat.{IsHeight};
ghost use Rattle.gx_state.specs.Relations.{Works};
ghost use Rattle.gx_state.specs.Replies.{IsDone};
ghost use Rattle.gx_state.specs.Stores.{IsMemory};
ghost use Rattle.gx_operands.specs.Plans.{instruction_of};
ghost use Rattle.gx_undo.specs.Undo.{AreCopiesFor};
ghost use Rattle.ops_game.specs.GameRows.{discardundo, hasundo, restoreundo, saveundo};

use gx_operands::{Plan, can_store, goes, settle, stores};
use gx_state::{Effect, State};
use gx_undo::Undo;
use gx_words::Fault;
use std::alloc::Allocator;

/// saveundo
#[tactic(auto, unfolding(crate::proofs::Opened::saving), using(crate::proofs::Copies::copies))]
pub fn saveundo<A: Allocator + Clone>(
    state: &mut State<A>,
    plan: &Plan,
    undo: &mut Undo<A>,
) -> Result<Effect, Fault>
    requires sp { IsHeight state.old.flat plan.now.sp }
    requires copies { AreCopiesFor state.old.flat.story undo.old.copies }
    ensures value { Does (Unit {0}) (λ effect. effect) result (state.old.flat, undo.old) (state.new.flat, undo.new)
        (saveundo state.old.flat undo.old (instruction_of plan.now)) }
    ensures done { IfOk result IsDone }
    ensures story { state.new.flat.story ≡ state.old.flat.story }
    ensures copies { AreCopiesFor state.old.flat.story undo.new.copies }
{
    let size = state.stack().size();
    let limit = state.stack().limit();
    if limit - size < 16 {
        return Err(Fault::Overflow);
    }
    can_store(state, &plan.dest, 4, plan.sp)?;
    let copy = state.keep(&plan.dest, plan.next)?;
    settle(state, plan.sp, &plan.dest, 4, 0)?;
    state.set_pc(plan.next);
    undo.push(copy);
    Ok(Effect::Went)
}

/// restoreundo
#[tactic(auto, unfolding(crate::specs::GameRows::restoreundo), using(crate::proofs::Copies::copies))]
pub fn restoreundo<A: Allocator + Clone>(
    state: &mut State<A>,
    plan: &Plan,
    undo: &mut Undo<A>,
) -> Result<Effect, Fault>
    requires sp { IsHeight state.old.flat plan.now.sp }
    requires copies { AreCopiesFor state.old.flat.story undo.old.copies }
    ensures value { Does (IsMemory plan.now.dest ⊎ (0 < length undo.old.copies)) (λ effect. effect) result
        (state.old.flat, undo.old) (state.new.flat, undo.new)
        (restoreundo state.old.flat undo.old (instruction_of plan.now)) }
    ensures done { IfOk result IsDone }
    ensures story { state.new.flat.story ≡ state.old.flat.story }
    ensures copies { AreCopiesFor state.old.flat.story undo.new.copies }
{
    let _kept = undo.len(); // at most the depth
    let Some(copy) = undo.pop() else {
        return stores(state, plan, 1);
    };
    match state.put_back(&copy) {
        Ok(()) => Ok(Effect::Went),
        Err(_) => {
            undo.push(copy);
            Err(Fault::NoMemory)
        }
    }
}

/// hasundo
#[tactic(auto, unfolding(crate::specs::GameRows::hasundo))]
pub fn hasundo<A: Allocator + Clone>(
    state: &mut State<A>,
    plan: &Plan,
    undo: &Undo<A>,
) -> Result<Effect, Fault>
    requires { IsHeight state.old.flat plan.now.sp }
    ensures value { Works (IsMemory plan.now.dest) result state.old.flat state.new.flat
        (hasundo state.old.flat undo.now (instruction_of plan.now)) }
    ensures done { IfOk result IsDone }
{
    let value = u32::from(undo.is_empty());
    stores(state, plan, value)
}

/// discardundo
#[tactic(auto, unfolding(crate::specs::GameRows::discardundo))]
pub fn discardundo<A: Allocator + Clone>(
    state: &mut State<A>,
    plan: &Plan,
    undo: &mut Undo<A>,
) -> Effect
    requires sp { IsHeight state.old.flat plan.now.sp }
    requires copies { AreCopiesFor state.old.flat.story undo.old.copies }
    ensures value { discardundo state.old.flat undo.old (instruction_of plan.now)
        ≡ Ok ((state.new.flat, undo.new), result) }
    ensures done { IsDone result }
    ensures story { state.new.flat.story ≡ state.old.flat.story }
    ensures copies { AreCopiesFor state.old.flat.story undo.new.copies }
{
    let _newest = undo.pop(); // dropped, where there is one
    goes(state, plan)
}

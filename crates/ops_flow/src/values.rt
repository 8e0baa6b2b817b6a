//! The rows of Stack (Glulx 3.1.2, "The Stack").
//!
//! Each looks for its fault before its operands are popped.
ghost use Rattle.std.specs.Prelude.{IfOk};
ghost use Rattle.gx_state.specs.Flat.{IsHeight};
ghost use Rattle.gx_state.specs.Relations.{Goes, Works};
ghost use Rattle.gx_state.specs.Replies.{IsDone};
ghost use Rattle.gx_state.specs.Stores.{IsMemory};
ghost use Rattle.gx_operands.specs.Plans.{instruction_of};
ghost use Rattle.ops_flow.specs.FlowRows.{stkcount, stkpeek, stkswap, stkroll, stkcopy};

use gx_operands::{Plan, stores, values_to};
use gx_state::{Effect, State};
use gx_words::{Fault, signed, word_at};
use std::alloc::Allocator;

/// stkcount: how many values the frame has.
#[tactic(auto, unfolding(crate::specs::FlowRows::stkcount))]
pub fn stkcount<A: Allocator + Clone>(state: &mut State<A>, plan: &Plan) -> Result<Effect, Fault>
    requires { IsHeight state.old.flat plan.now.sp }
    ensures value { Works (IsMemory plan.now.dest) result state.old.flat state.new.flat
        (stkcount state.old.flat (instruction_of plan.now)) }
    ensures done { IfOk result IsDone }
{
    let count = values_to(state, plan.sp);
    stores(state, plan, count)
}

/// stkpeek: a value by its number from the top.
#[tactic(auto, unfolding(crate::specs::FlowRows::stkpeek))]
pub fn stkpeek<A: Allocator + Clone>(state: &mut State<A>, plan: &Plan) -> Result<Effect, Fault>
    requires { IsHeight state.old.flat plan.now.sp }
    ensures value { Works (IsMemory plan.now.dest) result state.old.flat state.new.flat
        (stkpeek state.old.flat (instruction_of plan.now)) }
    ensures done { IfOk result IsDone }
{
    let n = plan.load(0);
    if n >= values_to(state, plan.sp) {
        return Err(Fault::Underflow);
    }
    let value = word_at(state.stack().bytes(), (plan.sp - 4 * (n + 1)) as usize);
    stores(state, plan, value)
}

/// stkswap: exchanges the top two values.
#[tactic(auto, unfolding(crate::specs::FlowRows::stkswap, gx_state::proofs::Opened::swapping))]
pub fn stkswap<A: Allocator + Clone>(state: &mut State<A>, plan: &Plan) -> Result<Effect, Fault>
    requires { IsHeight state.old.flat plan.now.sp }
    ensures value { Goes result state.old.flat state.new.flat (stkswap state.old.flat (instruction_of plan.now)) }
    ensures done { IfOk result IsDone }
{
    if values_to(state, plan.sp) < 2 {
        return Err(Fault::Underflow);
    }
    state.cut_stack(plan.sp);
    match state.swap() {
        Ok(()) => {}
        Err(_) => unreachable!(),
    }
    state.set_pc(plan.next);
    Ok(Effect::Went)
}

/// stkroll: moves the top values round.
#[tactic(auto, unfolding(crate::specs::FlowRows::stkroll, gx_state::specs::Flat::rolled, gx_stack::specs::Values::rolled))]
pub fn stkroll<A: Allocator + Clone>(state: &mut State<A>, plan: &Plan) -> Result<Effect, Fault>
    requires { IsHeight state.old.flat plan.now.sp }
    ensures value { Goes result state.old.flat state.new.flat (stkroll state.old.flat (instruction_of plan.now)) }
    ensures done { IfOk result IsDone }
{
    let n = plan.load(0);
    if n > values_to(state, plan.sp) {
        return Err(Fault::Underflow);
    }
    state.cut_stack(plan.sp);
    match state.roll(n, signed(plan.load(1))) {
        Ok(()) => {}
        Err(_) => unreachable!(),
    }
    state.set_pc(plan.next);
    Ok(Effect::Went)
}

/// stkcopy: pushes the top values again.
#[tactic(auto, unfolding(crate::specs::FlowRows::stkcopy, gx_state::specs::Flat::copied, gx_stack::specs::Values::copied))]
pub fn stkcopy<A: Allocator + Clone>(state: &mut State<A>, plan: &Plan) -> Result<Effect, Fault>
    requires { IsHeight state.old.flat plan.now.sp }
    ensures value { Goes result state.old.flat state.new.flat (stkcopy state.old.flat (instruction_of plan.now)) }
    ensures done { IfOk result IsDone }
{
    let n = plan.load(0);
    if n > values_to(state, plan.sp) {
        return Err(Fault::Underflow);
    }
    let limit = state.stack().limit();
    if plan.sp + 4 * n > limit {
        return Err(Fault::Overflow);
    }
    state.cut_stack(plan.sp);
    match state.copy_top(n) {
        Ok(()) => {}
        Err(_) => unreachable!(),
    }
    state.set_pc(plan.next);
    Ok(Effect::Went)
}

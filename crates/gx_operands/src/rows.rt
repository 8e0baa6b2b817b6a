//! What the rows of all classes share: a result, and the next instruction.
ghost use Rattle.std.specs.Prelude.{◌≡◌, Ok, IfOk};
ghost use Rattle.gx_state.specs.Flat.{IsHeight};
ghost use Rattle.gx_state.specs.Relations.{Works};
ghost use Rattle.gx_state.specs.Replies.{IsDone};
ghost use Rattle.gx_state.specs.Stores.{IsMemory};
ghost use Rattle.gx_operands.specs.Plans.{instruction_of};
ghost use Rattle.gx_operands.specs.Stores.{stores, goes};

use crate::Plan;
use crate::storing::settle;
use gx_state::{Effect, State};
use gx_words::Fault;
use std::alloc::Allocator;

/// Stores a result, and goes on with the next instruction.
pub fn stores<A: Allocator + Clone>(
    state: &mut State<A>,
    plan: &Plan,
    value: u32,
) -> Result<Effect, Fault>
    requires { IsHeight state.old.flat plan.now.sp }
    ensures value { Works (IsMemory plan.now.dest) result state.old.flat state.new.flat
        (stores state.old.flat (instruction_of plan.now) value) }
    ensures done { IfOk result IsDone }
{
    settle(state, plan.sp, &plan.dest, 4, value)?;
    state.set_pc(plan.next);
    Ok(Effect::Went)
}

/// Goes on with the next instruction, once the pops are made.
#[inline(always)]
pub fn goes<A: Allocator + Clone>(state: &mut State<A>, plan: &Plan) -> Effect
    requires { IsHeight state.old.flat plan.now.sp }
    ensures value { goes state.old.flat (instruction_of plan.now) ≡ Ok (state.new.flat, result) }
    ensures done { IsDone result }
    ensures story { state.new.flat.story ≡ state.old.flat.story }
{
    state.cut_stack(plan.sp);
    state.set_pc(plan.next);
    Effect::Went
}

//! The rows of Calc (Glulx 3.1.2, "Integer Math" and "Moving Data").
ghost use Rattle.std.specs.Prelude.{◌≡◌, IfOk};
ghost use Rattle.gx_state.specs.Flat.{IsHeight};
ghost use Rattle.gx_state.specs.Relations.{Works};
ghost use Rattle.gx_state.specs.Replies.{IsDone};
ghost use Rattle.gx_state.specs.Stores.{IsMemory};
ghost use Rattle.gx_operands.specs.Plans.{instruction_of};
ghost use Rattle.ops_flow.specs.FlowRows.{computes};

use gx_operands::{Plan, stores};
use gx_rows::Class;
use gx_state::{Effect, State};
use gx_words::Fault;
use ops_calc::calc;
use std::alloc::Allocator;

/// A row of Calc: arithmetic, bits, sign extensions.
#[tactic(auto, unfolding(crate::specs::FlowRows::computes), using(crate::proofs::Acts::acts))]
pub fn computes<A: Allocator + Clone>(state: &mut State<A>, plan: &Plan) -> Result<Effect, Fault>
    requires sp { IsHeight state.old.flat plan.now.sp }
    requires class { (instruction_of plan.now).row.class ≡ Class.Calc }
    ensures value { Works (IsMemory plan.now.dest) result state.old.flat state.new.flat
        (computes state.old.flat (instruction_of plan.now)) }
    ensures done { IfOk result IsDone }
{
    match calc(plan.row().act, plan.load(0), plan.load(1)) {
        Some(value) => stores(state, plan, value),
        None => Err(Fault::Divide),
    }
}

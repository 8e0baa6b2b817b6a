//! The instructions that compute, branch, call and rearrange the stack: the classes Calc, Branch, Flow
//! and Stack (Glulx 3.1.2, "Integer Math", "Branches", "Functions", "Continuations" and "The Stack").
//!
//! `act` does the row of a plan, by its definition of specs/FlowRows; after every fault the state is as
//! before. Only the rows of specs/Writes may want memory, and only where they have no fault.
//! - `computing` has the rows of Calc.
//! - `branches` has those of Branch, and the return from a function.
//! - `calls` and `continuations` have those of Flow.
//! - `values` has those of Stack.
#![tactic(auto)]

ghost use Rattle.std.specs.Prelude.{◌≡◌, Ok, IfOk};
ghost use Rattle.gx_state.specs.Flat.{cut, IsHeight};
ghost use Rattle.gx_state.specs.Relations.{Works};
ghost use Rattle.gx_state.specs.Replies.{IsDone};
ghost use Rattle.gx_state.specs.Stores.{IsMemory};
ghost use Rattle.gx_operands.specs.Plans.{instruction_of};
ghost use Rattle.gx_operands.specs.Stores.{goes_to};
ghost use Rattle.ops_flow.specs.FlowRows.{flow, stack, row_effect};
ghost use Rattle.ops_flow.specs.Writes.{IsWriting};

mod branches;
mod calls;
mod computing;
mod continuations;
mod values;

pub use branches::deliver;
use branches::{jumps, leave};
use calls::{call, callf, tailcall};
use computing::computes;
use continuations::{catch, throw};
use gx_operands::{Plan, goes};
use gx_rows::{Class, by_row};
use gx_state::{Effect, State};
use gx_words::Fault;
use std::alloc::Allocator;
use values::{stkcopy, stkcount, stkpeek, stkroll, stkswap};

/// Goes on at an address, once the pops are made.
fn goes_to<A: Allocator + Clone>(state: &mut State<A>, sp: u32, pc: u32) -> Effect
    requires { IsHeight state.old.flat sp }
    ensures value { goes_to (cut state.old.flat sp) pc ≡ Ok (state.new.flat, result) }
    ensures done { IsDone result }
    ensures story { state.new.flat.story ≡ state.old.flat.story }
{
    state.cut_stack(sp);
    state.set_pc(pc);
    Effect::Went
}

/// A row of Flow.
#[tactic(auto, unfolding(crate::specs::FlowRows::flow), using(crate::proofs::Relations::relations))]
fn flow<A: Allocator + Clone>(state: &mut State<A>, plan: &Plan) -> Result<Effect, Fault>
    requires { IsHeight state.old.flat plan.now.sp }
    ensures value { Works (IsWriting Class.Flow state.old.flat (instruction_of plan.now)) result state.old.flat
        state.new.flat (flow state.old.flat (instruction_of plan.now)) }
    ensures done { IfOk result IsDone }
{
    by_row!(Flow, plan.row().number;
        NOP => Ok(goes(state, plan)),
        CALL => call(state, plan),
        RETURN => leave(state, plan.load(0), plan.next),
        CATCH => catch(state, plan),
        THROW => throw(state, plan),
        TAILCALL => tailcall(state, plan),
        JUMPABS => Ok(goes_to(state, plan.sp, plan.load(0))),
        CALLF => callf(state, plan),
        CALLFI => callf(state, plan),
        CALLFII => callf(state, plan),
        CALLFIII => callf(state, plan);
        Err(Fault::BadOpcode))
}

/// A row of Stack.
#[tactic(auto, unfolding(crate::specs::FlowRows::stack), using(crate::proofs::Relations::relations))]
fn stack<A: Allocator + Clone>(state: &mut State<A>, plan: &Plan) -> Result<Effect, Fault>
    requires { IsHeight state.old.flat plan.now.sp }
    ensures value { Works (IsMemory plan.now.dest) result state.old.flat state.new.flat
        (stack state.old.flat (instruction_of plan.now)) }
    ensures done { IfOk result IsDone }
{
    by_row!(Stack, plan.row().number;
        STKCOUNT => stkcount(state, plan),
        STKPEEK => stkpeek(state, plan),
        STKSWAP => stkswap(state, plan),
        STKROLL => stkroll(state, plan),
        STKCOPY => stkcopy(state, plan);
        Err(Fault::BadOpcode))
}

/// Does the row of a plan that `decode` made of this state.
pub fn act<A: Allocator + Clone>(state: &mut State<A>, plan: &Plan) -> Result<Effect, Fault>
    requires { IsHeight state.old.flat plan.now.sp }
    ensures value { Works (IsWriting (instruction_of plan.now).row.class state.old.flat (instruction_of plan.now))
        result state.old.flat state.new.flat
        (row_effect (instruction_of plan.now).row.class state.old.flat (instruction_of plan.now)) }
    ensures done { IfOk result IsDone }
{
    match plan.row().class {
        Class::Calc => computes(state, plan),
        Class::Branch => jumps(state, plan),
        Class::Flow => flow(state, plan),
        Class::Stack => stack(state, plan),
        _ => Err(Fault::BadOpcode),
    }
}

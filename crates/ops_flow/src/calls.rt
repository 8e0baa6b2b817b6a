//! Calls of functions (Glulx 3.1.2, "Functions").
ghost use Rattle.std.specs.Prelude.{IfOk};
ghost use Rattle.gx_state.specs.Flat.{IsHeight};
ghost use Rattle.gx_state.specs.Relations.{Goes};
ghost use Rattle.gx_state.specs.Replies.{IsDone};
ghost use Rattle.gx_operands.specs.Plans.{instruction_of};
ghost use Rattle.ops_flow.specs.FlowRows.{calls, call, callf, tailcall};

use arrayvec::ArrayVec;
use gx_operands::{Plan, arguments};
use gx_state::{Effect, State};
use gx_words::Fault;
use std::alloc::Allocator;

/// Calls the function of the first operand, whose result goes to the store operand.
fn calls<A: Allocator + Clone>(
    state: &mut State<A>,
    plan: &Plan,
    sp: u32,
    args: &[u32],
) -> Result<Effect, Fault>
    requires { IsHeight state.old.flat sp }
    ensures value { Goes result state.old.flat state.new.flat
        (calls state.old.flat (instruction_of plan.now) sp args.now) }
    ensures done { IfOk result IsDone }
{
    let stub = state.stub(&plan.dest, plan.next);
    state.enter(sp, &[stub], plan.load(0), args)?;
    Ok(Effect::Went)
}

/// call: the arguments are popped.
#[tactic(auto, unfolding(crate::specs::FlowRows::call))]
pub fn call<A: Allocator + Clone>(state: &mut State<A>, plan: &Plan) -> Result<Effect, Fault>
    requires { IsHeight state.old.flat plan.now.sp }
    ensures value { Goes result state.old.flat state.new.flat (call state.old.flat (instruction_of plan.now)) }
    ensures done { IfOk result IsDone }
{
    let count = plan.load(1);
    let args: ArrayVec<u32, 256> = arguments(state, plan.sp, count)?;
    calls(state, plan, plan.sp - 4 * count, args.as_slice())
}

/// callf, callfi, callfii and callfiii: the arguments are operands.
#[tactic(auto, unfolding(crate::specs::FlowRows::callf))]
pub fn callf<A: Allocator + Clone>(state: &mut State<A>, plan: &Plan) -> Result<Effect, Fault>
    requires { IsHeight state.old.flat plan.now.sp }
    ensures value { Goes result state.old.flat state.new.flat (callf state.old.flat (instruction_of plan.now)) }
    ensures done { IfOk result IsDone }
{
    let args = plan.loads.as_slice().get(1..).unwrap_or(&[]);
    calls(state, plan, plan.sp, args)
}

/// tailcall: the called function takes the place of the present one.
#[tactic(auto, unfolding(crate::specs::FlowRows::tailcall))]
pub fn tailcall<A: Allocator + Clone>(state: &mut State<A>, plan: &Plan) -> Result<Effect, Fault>
    requires { IsHeight state.old.flat plan.now.sp }
    ensures value { Goes result state.old.flat state.new.flat (tailcall state.old.flat (instruction_of plan.now)) }
    ensures done { IfOk result IsDone }
{
    let args: ArrayVec<u32, 256> = arguments(state, plan.sp, plan.load(1))?;
    let frame = state.frame();
    state.enter(frame.fp, &[], plan.load(0), args.as_slice())?;
    Ok(Effect::Went)
}

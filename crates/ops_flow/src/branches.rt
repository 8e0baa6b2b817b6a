//! The rows of Branch, and the return from a function (Glulx 3.1.2, "Branches").
ghost use Rattle.std.specs.Prelude.{◌≡◌, ◌⊎◌, ◌%◌, ◌<◌, ◌≤◌, ◌==◌, if◌then◌else◌, IfOk, IsSome};
ghost use Rattle.gx_state.specs.Flat.{cut, sp_of, IsHeight};
ghost use Rattle.gx_state.specs.Relations.{Works};
ghost use Rattle.gx_state.specs.Replies.{IsDone};
ghost use Rattle.gx_state.specs.Returns.{IsReturnWriting, returned};
ghost use Rattle.gx_state.specs.Calls.{with_word};
ghost use Rattle.gx_state.specs.Allowed.{IsWordInRam};
ghost use Rattle.gx_operands.specs.Instructions.{going_to};
ghost use Rattle.gx_operands.specs.Plans.{instruction_of};
ghost use Rattle.ops_flow.specs.FlowRows.{returns, branches, jumps};
ghost use Rattle.ops_flow.specs.Writes.{IsBranchWriting, IsWriting};

use crate::goes_to;
use gx_operands::{Plan, goes};
use gx_rows::Class;
use gx_state::{Effect, State};
use gx_words::Fault;
use ops_calc::test;
use std::alloc::Allocator;

/// What follows a return: that of the start function ends the program.
pub fn after_return(ended: bool) -> Effect
    ensures value { result ≡ (if ended then Effect.Quit else Effect.Went) }
    ensures done { IsDone result }
{
    if ended { Effect::Quit } else { Effect::Went }
}

/// Makes the return of a value to the stub that ends at `sp`, with PC at the next instruction where
/// nothing else takes it away.
pub fn deliver<A: Allocator + Clone>(
    state: &mut State<A>,
    next: u32,
    sp: u32,
    value: u32,
    before: Option<(u32, u32)>,
) -> Result<bool, Fault>
    requires there { sp ≤ sp_of state.old.flat }
    requires aligned { sp % 4 ≡ 0 }
    requires before { IsWordInRam state.old.flat before }
    ensures value { Works (IsSome before ⊎ IsReturnWriting state.old.flat sp) result state.old.flat state.new.flat
        (returned (with_word (going_to state.old.flat next) before) sp value) }
    ensures ended { IfOk result (λ ended. ended ≡ (sp == 0)) }
{
    let pc = state.pc();
    state.set_pc(next);
    match state.deliver(sp, value, before) {
        Ok(ended) => Ok(ended),
        Err(fault) => {
            state.set_pc(pc);
            Err(fault)
        }
    }
}

/// Returns a value from the present function.
pub fn leave<A: Allocator + Clone>(
    state: &mut State<A>,
    value: u32,
    next: u32,
) -> Result<Effect, Fault>
    requires { 0 < sp_of state.old.flat }
    ensures value { Works (IsReturnWriting state.old.flat state.old.flat.fp) result state.old.flat state.new.flat
        (returns state.old.flat next value) }
    ensures done { IfOk result IsDone }
{
    let frame = state.frame();
    let ended = deliver(state, next, frame.fp, value, None)?;
    Ok(after_return(ended))
}

/// Branches by an offset, once the pops are made.
#[tactic(auto, using(crate::proofs::Cuts::cuts))]
fn branch<A: Allocator + Clone>(
    state: &mut State<A>,
    plan: &Plan,
    offset: u32,
) -> Result<Effect, Fault>
    requires { IsHeight state.old.flat plan.now.sp }
    ensures value { Works (IsBranchWriting state.old.flat offset) result state.old.flat state.new.flat
        (branches (cut state.old.flat plan.now.sp) plan.now.next offset) }
    ensures done { IfOk result IsDone }
{
    if offset < 2 {
        return leave(state, offset, plan.next);
    }
    Ok(goes_to(state, plan.sp, plan.next.wrapping_add(offset - 2)))
}

/// A row of Branch.
#[tactic(auto, unfolding(crate::specs::FlowRows::jumps), using(crate::proofs::Acts::acts))]
pub fn jumps<A: Allocator + Clone>(state: &mut State<A>, plan: &Plan) -> Result<Effect, Fault>
    requires sp { IsHeight state.old.flat plan.now.sp }
    requires class { (instruction_of plan.now).row.class ≡ Class.Branch }
    ensures value { Works (IsWriting Class.Branch state.old.flat (instruction_of plan.now)) result state.old.flat
        state.new.flat (jumps state.old.flat (instruction_of plan.now)) }
    ensures done { IfOk result IsDone }
{
    let row = plan.row();
    if test(row.act, plan.load(0), plan.load(1)) {
        let last = usize::from(row.loads).saturating_sub(1);
        branch(state, plan, plan.load(last))
    } else {
        Ok(goes(state, plan))
    }
}

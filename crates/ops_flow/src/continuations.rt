//! catch and throw (Glulx 3.1.2, "Continuations").
ghost use Rattle.std.specs.Prelude.{◌≡◌, ◌⊎◌, ◌<◌, ◌≤◌, ◌+◌, Ok, IfOk};
ghost use Rattle.gx_words.specs.Faults.{Reads};
ghost use Rattle.gx_state.specs.Flat.{sp_of, IsHeight};
ghost use Rattle.gx_state.specs.Relations.{Stores, Works};
ghost use Rattle.gx_state.specs.Replies.{IsDone};
ghost use Rattle.gx_state.specs.Returns.{IsReturnWriting};
ghost use Rattle.gx_state.specs.Stores.{IsMemory, store_fault, with_value};
ghost use Rattle.gx_operands.specs.Instructions.{L1, L2};
ghost use Rattle.gx_operands.specs.Plans.{instruction_of};
ghost use Rattle.ops_flow.specs.FlowRows.{catch, throw};
ghost use Rattle.ops_flow.specs.Catches.{with_stub, lasting};
ghost use Rattle.ops_flow.specs.Writes.{IsBranchWriting};

use crate::branches::{after_return, deliver};
use gx_operands::{Plan, can_store, store};
use gx_state::{Dest, Effect, State};
use gx_words::{Fault, word_bytes};
use std::alloc::Allocator;

/// Looks whether the token of a catch can be stored once its stub is pushed.
#[tactic(auto, unfolding(gx_state::specs::Stores::store_fault))]
fn can_catch<A: Allocator + Clone>(state: &State<A>, plan: &Plan) -> Result<(), Fault>
    requires height { IsHeight state.now.flat plan.now.sp }
    requires room { plan.now.sp + 16 ≤ state.now.flat.stack.limit }
    ensures { Reads (λ v. v) result (store_fault state.now.flat 4 plan.now.dest (plan.now.sp + 16)) }
{
    if plan.dest == Dest::Push {
        let limit = state.stack().limit();
        if plan.sp + 20 > limit {
            return Err(Fault::Overflow);
        }
        return Ok(());
    }
    can_store(state, &plan.dest, 4, plan.sp)
}

/// The word of a catch that outlasts a return from its function.
fn lasting(dest: &Dest, token: u32) -> Option<(u32, u32)>
    ensures { result ≡ lasting dest.now token }
{
    match *dest {
        Dest::Memory(at) => Some((at, token)),
        _ => None,
    }
}

/// Pushes the stub of a catch.
#[tactic(auto, unfolding(crate::proofs::Opened::pushing_stub), using(crate::proofs::Cuts::stubs))]
fn push_stub<A: Allocator + Clone>(state: &mut State<A>, plan: &Plan)
    requires height { IsHeight state.old.flat plan.now.sp }
    requires room { plan.now.sp + 16 ≤ state.old.flat.stack.limit }
    ensures value { state.new ≡ record state.old { flat = with_stub state.old.flat (instruction_of plan.now) } }
    ensures story { state.new.flat.story ≡ state.old.flat.story }
    ensures live { 0 < sp_of state.new.flat }
{
    let stub = state.stub(&plan.dest, plan.next);
    state.cut_stack(plan.sp);
    match state.push_stubs(&[stub]) {
        Ok(()) => {}
        Err(_) => unreachable!(),
    }
}

/// Pushes the stub of a catch and stores its token, which was found to have no fault.
#[tactic(auto, using(crate::proofs::Cuts::stubs))]
fn store_token<A: Allocator + Clone>(
    state: &mut State<A>,
    plan: &Plan,
    token: u32,
) -> Result<(), Fault>
    requires height { IsHeight state.old.flat plan.now.sp }
    requires room { plan.now.sp + 16 ≤ state.old.flat.stack.limit }
    requires stores { store_fault state.old.flat 4 plan.now.dest (plan.now.sp + 16) ≡ Ok tt }
    ensures { Stores (IsMemory plan.now.dest) result state.old state.new
        (Ok (with_value (with_stub state.old.flat (instruction_of plan.now)) 4 plan.now.dest token)) }
{
    let _frame = state.frame(); // a good one
    match plan.dest {
        Dest::Memory(at) => {
            state.write(at, &word_bytes(token))?;
            push_stub(state, plan);
            Ok(())
        }
        _ => {
            push_stub(state, plan);
            match store(state, &plan.dest, 4, token) {
                Ok(()) => Ok(()),
                Err(_) => unreachable!(),
            }
        }
    }
}

/// catch: all faults come first, then the stub and the token, then the branch. A return by the offset
/// 0 or 1 forgets all of it but a token in memory.
#[tactic(auto, using(crate::proofs::Cuts::catches))]
pub fn catch<A: Allocator + Clone>(state: &mut State<A>, plan: &Plan) -> Result<Effect, Fault>
    requires { IsHeight state.old.flat plan.now.sp }
    ensures value { Works (IsMemory plan.now.dest ⊎ IsBranchWriting state.old.flat (L1 (instruction_of plan.now)))
        result state.old.flat state.new.flat (catch state.old.flat (instruction_of plan.now)) }
    ensures done { IfOk result IsDone }
{
    let offset = plan.load(0);
    let limit = state.stack().limit();
    let token = plan.sp + 16;
    if token > limit {
        return Err(Fault::Overflow);
    }
    can_catch(state, plan)?;
    let frame = state.frame();
    if offset < 2 {
        let word = lasting(&plan.dest, token);
        let ended = deliver(state, plan.next, frame.fp, offset, word)?;
        return Ok(after_return(ended));
    }
    store_token(state, plan, token)?;
    state.set_pc(plan.next.wrapping_add(offset - 2));
    Ok(Effect::Went)
}

/// throw: the token is looked at on the stack that the pops leave.
#[tactic(auto, unfolding(crate::specs::FlowRows::throw))]
pub fn throw<A: Allocator + Clone>(state: &mut State<A>, plan: &Plan) -> Result<Effect, Fault>
    requires { IsHeight state.old.flat plan.now.sp }
    ensures value { Works (IsReturnWriting state.old.flat (L2 (instruction_of plan.now))) result state.old.flat
        state.new.flat (throw state.old.flat (instruction_of plan.now)) }
    ensures done { IfOk result IsDone }
{
    let token = plan.load(1);
    if token < 16 || token > plan.sp || token % 4 != 0 {
        return Err(Fault::BadToken);
    }
    deliver(state, plan.next, token, plan.load(0), None)?;
    Ok(Effect::Went)
}

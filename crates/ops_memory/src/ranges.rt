//! mzero and mcopy (Glulx 3.1.2, "Block Copy and Clear").
ghost use Rattle.std.specs.Prelude.{◌<◌, IfOk, OnOk};
ghost use Rattle.gx_words.specs.Faults.{Reads};
ghost use Rattle.gx_state.specs.Flat.{IsHeight, IsInRam};
ghost use Rattle.gx_state.specs.Relations.{Works};
ghost use Rattle.gx_state.specs.Replies.{IsDone};
ghost use Rattle.gx_state.specs.Allowed.{IsInMemory};
ghost use Rattle.gx_operands.specs.Instructions.{L1};
ghost use Rattle.gx_operands.specs.Plans.{instruction_of};
ghost use Rattle.ops_memory.specs.Space.{source_fault, target_fault, mzero, mcopy};

use gx_operands::{Plan, goes};
use gx_state::{Effect, State};
use gx_words::Fault;
use std::alloc::Allocator;

/// Looks whether a range can be read.
#[tactic(auto, unfolding(crate::specs::Space::source_fault))]
fn can_read<A: Allocator + Clone>(state: &State<A>, at: u32, count: u32) -> Result<(), Fault>
    ensures value { Reads (λ v. v) result (source_fault state.now.flat at count) }
    ensures there { OnOk result (IsInMemory state.now.flat at count) }
{
    if count == 0 {
        return Ok(());
    }
    if u64::from(at) + u64::from(count) > u64::from(state.memory().size()) {
        return Err(Fault::BadAddress);
    }
    Ok(())
}

/// Looks whether a range can be written.
#[tactic(auto, unfolding(crate::specs::Space::target_fault))]
fn can_write<A: Allocator + Clone>(state: &State<A>, at: u32, count: u32) -> Result<(), Fault>
    ensures value { Reads (λ v. v) result (target_fault state.now.flat at count) }
    ensures there { OnOk result (IsInRam state.now.flat at count) }
{
    if count == 0 {
        return Ok(());
    }
    state.can_write(at, count)
}

/// mzero
#[tactic(auto, unfolding(crate::specs::Space::mzero))]
pub fn mzero<A: Allocator + Clone>(state: &mut State<A>, plan: &Plan) -> Result<Effect, Fault>
    requires { IsHeight state.old.flat plan.now.sp }
    ensures value { Works (0 < L1 (instruction_of plan.now)) result state.old.flat state.new.flat
        (mzero state.old.flat (instruction_of plan.now)) }
    ensures done { IfOk result IsDone }
{
    let count = plan.load(0);
    let at = plan.load(1);
    can_write(state, at, count)?;
    state.fill_zero(at, count)?;
    Ok(goes(state, plan))
}

/// mcopy
#[tactic(auto, unfolding(crate::specs::Space::mcopy))]
pub fn mcopy<A: Allocator + Clone>(state: &mut State<A>, plan: &Plan) -> Result<Effect, Fault>
    requires { IsHeight state.old.flat plan.now.sp }
    ensures value { Works (0 < L1 (instruction_of plan.now)) result state.old.flat state.new.flat
        (mcopy state.old.flat (instruction_of plan.now)) }
    ensures done { IfOk result IsDone }
{
    let count = plan.load(0);
    let from = plan.load(1);
    let to = plan.load(2);
    can_read(state, from, count)?;
    can_write(state, to, count)?;
    state.copy_within(from, to, count)?;
    Ok(goes(state, plan))
}

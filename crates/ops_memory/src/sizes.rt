//! setmemsize, and how memory gets another size (Glulx 3.1.2, "Memory Map").
//!
//! A result is stored in memory of the new size, and after a refusal memory has its size before. Faults are
//! looked for first.
ghost use Rattle.std.specs.Prelude.{◌≡◌, ◌⊎◌, ◌<◌, ◌≤◌, Ok, length, IfOk, IsFalse};
ghost use Rattle.gx_words.specs.Faults.{Reads};
ghost use Rattle.gx_pages.specs.Memory.{IsSize};
ghost use Rattle.heap_blocks.specs.Heap.{IsHeapBelow};
ghost use Rattle.gx_state.specs.Flat.{IsHeight};
ghost use Rattle.gx_state.specs.Relations.{Stores, Works};
ghost use Rattle.gx_state.specs.Replies.{IsDone};
ghost use Rattle.gx_state.specs.Space.{with_size};
ghost use Rattle.gx_state.specs.Allowed.{IsGrowth, IsShrinking};
ghost use Rattle.gx_state.specs.Stores.{IsMemory, store_fault};
ghost use Rattle.gx_operands.specs.Instructions.{L1};
ghost use Rattle.gx_operands.specs.Plans.{instruction_of};
ghost use Rattle.gx_operands.specs.Stores.{settled};
ghost use Rattle.ops_memory.specs.Space.{getmemsize, is_size_refused, setmemsize};

use gx_operands::{Plan, can_store, settle, stores};
use gx_state::{Dest, Effect, State};
use gx_words::{CEILING, Fault};
use std::alloc::Allocator;

/// Looks whether a result could be stored in memory of another size.
#[tactic(auto, using(crate::proofs::Spaces::sizes))]
pub fn can_store_in<A: Allocator + Clone>(
    state: &State<A>,
    dest: &Dest,
    sp: u32,
    size: u32,
) -> Result<(), Fault>
    requires { IsHeight state.now.flat sp }
    ensures { Reads (λ v. v) result (store_fault (with_size state.now.flat size) 4 dest.now sp) }
{
    match *dest {
        Dest::Memory(at) => {
            if u64::from(at) + 4 > u64::from(size) {
                return Err(Fault::BadAddress);
            }
            if at < state.ramstart() {
                return Err(Fault::ReadOnly);
            }
            Ok(())
        }
        _ => can_store(state, dest, 4, sp),
    }
}

/// Makes memory larger, and stores a result in it that was found to have no fault.
#[tactic(auto, using(crate::proofs::Spaces::grows))]
pub fn grow_with<A: Allocator + Clone>(
    state: &mut State<A>,
    plan: &Plan,
    size: u32,
    value: u32,
) -> Result<(), Fault>
    requires sp { IsHeight state.old.flat plan.now.sp }
    requires size { IsGrowth state.old.flat size }
    requires fits { store_fault (with_size state.old.flat size) 4 plan.now.dest plan.now.sp ≡ Ok tt }
    ensures { Stores (IsMemory plan.now.dest ⊎ (length state.old.flat.memory < size)) result state.old state.new
        (settled (with_size state.old.flat size) plan.now.sp 4 plan.now.dest value) }
{
    let before = state.memory().size();
    state.grow(size)?;
    match settle(state, plan.sp, &plan.dest, 4, value) {
        Ok(()) => Ok(()),
        Err(fault) => {
            state.shrink(before);
            Err(fault)
        }
    }
}

/// Stores a result that was found to have no fault, and makes memory smaller.
#[tactic(auto, using(crate::proofs::Spaces::shrinks))]
fn shrink_with<A: Allocator + Clone>(
    state: &mut State<A>,
    plan: &Plan,
    size: u32,
    value: u32,
) -> Result<(), Fault>
    requires sp { IsHeight state.old.flat plan.now.sp }
    requires size { IsShrinking state.old.flat size }
    requires fits { store_fault (with_size state.old.flat size) 4 plan.now.dest plan.now.sp ≡ Ok tt }
    ensures { Stores (IsMemory plan.now.dest) result state.old state.new
        (settled (with_size state.old.flat size) plan.now.sp 4 plan.now.dest value) }
{
    settle(state, plan.sp, &plan.dest, 4, value)?;
    state.shrink(size);
    Ok(())
}

/// Sets the size of memory, and stores a result in it.
#[tactic(auto, unfolding(gx_operands::specs::Stores::settled))]
fn resize_with<A: Allocator + Clone>(
    state: &mut State<A>,
    plan: &Plan,
    size: u32,
    value: u32,
) -> Result<(), Fault>
    requires sp { IsHeight state.old.flat plan.now.sp }
    requires size { IsSize size }
    requires endmem { state.old.flat.story.header.endmem ≤ size }
    requires heap { IsHeapBelow size state.old.flat.heap }
    ensures { Stores (IsMemory plan.now.dest ⊎ (length state.old.flat.memory < size)) result state.old state.new
        (settled (with_size state.old.flat size) plan.now.sp 4 plan.now.dest value) }
{
    can_store_in(state, &plan.dest, plan.sp, size)?;
    if size < state.memory().size() {
        shrink_with(state, plan, size, value)
    } else {
        grow_with(state, plan, size, value)
    }
}

/// setmemsize
#[tactic(auto, unfolding(crate::specs::Space::setmemsize), using(crate::proofs::Spaces::none_below))]
pub fn setmemsize<A: Allocator + Clone>(state: &mut State<A>, plan: &Plan) -> Result<Effect, Fault>
    requires { IsHeight state.old.flat plan.now.sp }
    ensures value { Works (IsMemory plan.now.dest
        ⊎ (IsFalse (is_size_refused state.old.flat (L1 (instruction_of plan.now)))
        × (length state.old.flat.memory < L1 (instruction_of plan.now)))) result state.old.flat state.new.flat
        (setmemsize state.old.flat (instruction_of plan.now)) }
    ensures done { IfOk result IsDone }
{
    let size = plan.load(0);
    if size < state.endmem() || size % 256 != 0 {
        return Err(Fault::MemSize);
    }
    if size > CEILING || !state.heap().blocks().is_empty() {
        return stores(state, plan, 1);
    }
    resize_with(state, plan, size, 0)?;
    state.set_pc(plan.next);
    Ok(Effect::Went)
}

/// getmemsize
#[tactic(auto, unfolding(crate::specs::Space::getmemsize))]
pub fn getmemsize<A: Allocator + Clone>(state: &mut State<A>, plan: &Plan) -> Result<Effect, Fault>
    requires { IsHeight state.old.flat plan.now.sp }
    ensures value { Works (IsMemory plan.now.dest) result state.old.flat state.new.flat
        (getmemsize state.old.flat (instruction_of plan.now)) }
    ensures done { IfOk result IsDone }
{
    let size = state.memory().size();
    stores(state, plan, size)
}

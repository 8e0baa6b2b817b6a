//! malloc and mfree (Glulx 3.1.2, "Memory Allocation Heap").
//!
//! malloc looks for faults first, and then asks for room in the list of blocks, for memory, and for the page of
//! its result.
ghost use Rattle.std.specs.Prelude.{◌≡◌, ◌⊎◌, ◌+◌, ◌<◌, ◌≤◌, length, max, Some, IsSome, IfOk};
ghost use Rattle.gx_words.specs.Constants.{ceiling};
ghost use Rattle.gx_words.specs.Numbers.{rounded_up};
ghost use Rattle.gx_pages.specs.Memory.{IsSize};
ghost use Rattle.heap_blocks.specs.Heap.{block_address};
ghost use Rattle.heap_blocks.specs.Relations.{IsFreePlace};
ghost use Rattle.gx_state.specs.Flat.{IsHeight};
ghost use Rattle.gx_state.specs.Relations.{Goes, Works};
ghost use Rattle.gx_state.specs.Replies.{IsDone};
ghost use Rattle.gx_state.specs.Stores.{IsMemory};
ghost use Rattle.gx_operands.specs.Instructions.{L1};
ghost use Rattle.gx_operands.specs.Plans.{instruction_of};
ghost use Rattle.ops_memory.specs.Space.{allocated, malloc, mfree};

use crate::sizes::{can_store_in, grow_with};
use gx_operands::{Plan, goes, stores};
use gx_state::{Effect, State};
use gx_words::{CEILING, Fault, round_up_256};
use std::alloc::Allocator;

/// The size of memory that covers all below an address.
fn covering(size: u32, end: u32) -> u32
    requires size { IsSize size }
    requires end { end ≤ ceiling }
    ensures value { result ≡ max size (rounded_up end) }
    ensures whole { IsSize result }
    ensures above { size ≤ result }
    ensures covers { end ≤ result }
{
    size.max(round_up_256(end).unwrap())
}

/// Enters a block at its place, and stores its address as the result.
#[tactic(auto, unfolding(gx_operands::specs::Stores::settled), using(crate::proofs::Spaces::may_enter))]
fn allocate<A: Allocator + Clone>(
    state: &mut State<A>,
    plan: &Plan,
    at: u32,
) -> Result<Effect, Fault>
    requires sp { IsHeight state.old.flat plan.now.sp }
    requires some { 0 < L1 (instruction_of plan.now) }
    requires place { IsFreePlace state.old.flat.heap (length state.old.flat.memory)
        (L1 (instruction_of plan.now)) ceiling at }
    ensures value { Works (Unit {0}) result state.old.flat state.new.flat
        (allocated state.old.flat (instruction_of plan.now) (Some at)) }
    ensures done { IfOk result IsDone }
{
    let count = plan.load(0);
    let end = state.memory().size();
    let size = covering(end, at + count);
    can_store_in(state, &plan.dest, plan.sp, size)?;
    state.reserve_block()?;
    grow_with(state, plan, size, at)?;
    state.add_block(end, at, count);
    state.set_pc(plan.next);
    Ok(Effect::Went)
}

/// malloc
#[tactic(auto, unfolding(crate::specs::Space::malloc))]
pub fn malloc<A: Allocator + Clone>(state: &mut State<A>, plan: &Plan) -> Result<Effect, Fault>
    requires { IsHeight state.old.flat plan.now.sp }
    ensures value { Works (IsMemory plan.now.dest ⊎ IsSome (block_address state.old.flat.heap
        (length state.old.flat.memory) (L1 (instruction_of plan.now)) ceiling)) result state.old.flat state.new.flat
        (malloc state.old.flat (instruction_of plan.now)) }
    ensures done { IfOk result IsDone }
{
    let count = plan.load(0);
    if count == 0 {
        return Err(Fault::HeapUse);
    }
    let end = state.memory().size();
    match state.heap().place(end, count, CEILING) {
        Some(at) => allocate(state, plan, at),
        None => stores(state, plan, 0),
    }
}

/// mfree
#[tactic(auto, unfolding(crate::specs::Space::mfree))]
pub fn mfree<A: Allocator + Clone>(state: &mut State<A>, plan: &Plan) -> Result<Effect, Fault>
    requires { IsHeight state.old.flat plan.now.sp }
    ensures value { Goes result state.old.flat state.new.flat (mfree state.old.flat (instruction_of plan.now)) }
    ensures done { IfOk result IsDone }
{
    if !state.free_block(plan.load(0)) {
        return Err(Fault::HeapUse);
    }
    Ok(goes(state, plan))
}

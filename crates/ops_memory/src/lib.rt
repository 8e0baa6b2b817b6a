//! The instructions of the classes Copy and Memory (Glulx 3.1.2, "Moving Data", "Array Data", "Memory
//! Map", "Searching", "Block Copy and Clear" and "Memory Allocation Heap").
//!
//! `act` does the row of a plan, by its definition of specs/MemoryRows, at the cost of specs/Costs; after
//! every fault the state and the budget are as before. Only the rows of specs/Writes may want memory, and
//! only where they have no fault.
//! - `arrays` and `bits` have the rows of arrays.
//! - `searches` has the searches, the only rows that cost more than their step.
//! - `ranges` has mzero and mcopy.
//! - `sizes` has setmemsize, and `heap` has malloc and mfree.
#![tactic(auto)]

ghost use Rattle.std.specs.Prelude.{◌≡◌, IfErr, IfOk};
ghost use Rattle.gx_words.specs.Faults.{Does};
ghost use Rattle.gx_state.specs.Flat.{IsHeight};
ghost use Rattle.gx_state.specs.Relations.{Works};
ghost use Rattle.gx_state.specs.Replies.{IsDone};
ghost use Rattle.gx_state.specs.Stores.{IsMemory};
ghost use Rattle.gx_operands.specs.Plans.{instruction_of};
ghost use Rattle.ops_memory.specs.MemoryRows.{copy, memory};
ghost use Rattle.ops_memory.specs.Costs.{probes_of};
ghost use Rattle.ops_memory.specs.Charges.{charged, acted, EndsWithin, IsAfforded};
ghost use Rattle.ops_memory.specs.Writes.{IsWriting};

mod arrays;
mod bits;
mod heap;
mod ranges;
mod searches;
mod sizes;

use arrays::{element, loads, puts};
use bits::{aloadbit, astorebit};
use gx_operands::{Plan, settle};
use gx_rows::{Class, by_row};
use gx_state::{Effect, State};
use gx_words::Fault;
use heap::{malloc, mfree};
use ranges::{mcopy, mzero};
use searches::{Method, searches};
use sizes::{getmemsize, setmemsize};
use std::alloc::Allocator;

/// A row of Copy.
#[tactic(auto, unfolding(crate::specs::MemoryRows::copy))]
fn copy<A: Allocator + Clone>(state: &mut State<A>, plan: &Plan) -> Result<Effect, Fault>
    requires { IsHeight state.old.flat plan.now.sp }
    ensures value { Works (IsMemory plan.now.dest) result state.old.flat state.new.flat
        (copy state.old.flat (instruction_of plan.now)) }
    ensures done { IfOk result IsDone }
{
    let width = u32::from(plan.row().width);
    settle(state, plan.sp, &plan.dest, width, plan.load(0))?;
    state.set_pc(plan.next);
    Ok(Effect::Went)
}

/// A row of Memory.
#[tactic(auto, unfolding(crate::proofs::Opened::rows), using(crate::proofs::Charges::done_within))]
fn memory<A: Allocator + Clone>(
    state: &mut State<A>,
    plan: &Plan,
    left: &mut u64,
) -> Result<Effect, Fault>
    requires { IsHeight state.old.flat plan.now.sp }
    ensures value { Does (IsWriting Class.Memory state.old.flat (instruction_of plan.now)) (λ effect. effect) result
        (state.old.flat, left.old) (state.new.flat, left.new)
        (charged left.old (probes_of Class.Memory state.old.flat (instruction_of plan.now)) state.old.flat
        (memory state.old.flat (instruction_of plan.now))) }
    ensures done { IfOk result (EndsWithin left.old
        (probes_of Class.Memory state.old.flat (instruction_of plan.now))) }
    ensures affords { IfErr result (IsAfforded left.old
        (probes_of Class.Memory state.old.flat (instruction_of plan.now))) }
    ensures story { state.new.flat.story ≡ state.old.flat.story }
{
    by_row!(Memory, plan.row().number;
        ALOAD => loads(state, plan, 4, element(plan, 4)),
        ALOADS => loads(state, plan, 2, element(plan, 2)),
        ALOADB => loads(state, plan, 1, element(plan, 1)),
        ALOADBIT => aloadbit(state, plan),
        ASTORE => puts(state, plan, 4, element(plan, 4), plan.load(2)),
        ASTORES => puts(state, plan, 2, element(plan, 2), plan.load(2)),
        ASTOREB => puts(state, plan, 1, element(plan, 1), plan.load(2)),
        ASTOREBIT => astorebit(state, plan),
        GETMEMSIZE => getmemsize(state, plan),
        SETMEMSIZE => setmemsize(state, plan),
        LINEARSEARCH => searches(state, plan, left, Method::Linear),
        BINARYSEARCH => searches(state, plan, left, Method::Binary),
        LINKEDSEARCH => searches(state, plan, left, Method::Linked),
        MZERO => mzero(state, plan),
        MCOPY => mcopy(state, plan),
        MALLOC => malloc(state, plan),
        MFREE => mfree(state, plan);
        Err(Fault::BadOpcode))
}

/// Does the row of a plan that `decode` made of this state.
///
/// `left` is the budget after the instruction's own step. A search lowers it by the probes that it
/// begins; where they are more, it answers `Spent` and nothing changes.
#[tactic(auto, unfolding(crate::specs::Charges::acted), using(crate::proofs::Charges::done_within))]
pub fn act<A: Allocator + Clone>(
    state: &mut State<A>,
    plan: &Plan,
    left: &mut u64,
) -> Result<Effect, Fault>
    requires { IsHeight state.old.flat plan.now.sp }
    ensures value { Does (IsWriting (instruction_of plan.now).row.class state.old.flat (instruction_of plan.now))
        (λ effect. effect) result (state.old.flat, left.old) (state.new.flat, left.new)
        (acted (instruction_of plan.now).row.class state.old.flat (instruction_of plan.now) left.old) }
    ensures done { IfOk result (EndsWithin left.old
        (probes_of (instruction_of plan.now).row.class state.old.flat (instruction_of plan.now))) }
    ensures affords { IfErr result (IsAfforded left.old
        (probes_of (instruction_of plan.now).row.class state.old.flat (instruction_of plan.now))) }
    ensures story { state.new.flat.story ≡ state.old.flat.story }
{
    match plan.row().class {
        Class::Copy => copy(state, plan),
        Class::Memory => memory(state, plan, left),
        _ => Err(Fault::BadOpcode),
    }
}

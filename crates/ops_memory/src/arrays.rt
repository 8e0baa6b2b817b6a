//! The rows of arrays of words, half words and bytes (Glulx 3.1.2, "Array Data").
ghost use Rattle.std.specs.Prelude.{◌≡◌, IfOk};
ghost use Rattle.gx_words.specs.Numbers.{IsWidth};
ghost use Rattle.gx_state.specs.Flat.{IsHeight};
ghost use Rattle.gx_state.specs.Relations.{Works};
ghost use Rattle.gx_state.specs.Replies.{IsDone};
ghost use Rattle.gx_state.specs.Stores.{IsMemory};
ghost use Rattle.gx_operands.specs.Plans.{instruction_of};
ghost use Rattle.ops_memory.specs.MemoryRows.{element, loads, puts};

use gx_operands::{Plan, settle, stores};
use gx_state::{Dest, Effect, State};
use gx_words::Fault;
use std::alloc::Allocator;

/// The address of an element of an array whose elements have so many bytes.
pub fn element(plan: &Plan, width: u32) -> u32
    requires { IsWidth width }
    ensures { result ≡ element (instruction_of plan.now) width }
{
    let index = plan.load(1);
    let offset = match width {
        1 => index,
        2 => index.wrapping_mul(2),
        _ => index.wrapping_mul(4),
    };
    plan.load(0).wrapping_add(offset)
}

/// Stores the number of so many bytes at an address as the result.
pub fn loads<A: Allocator + Clone>(
    state: &mut State<A>,
    plan: &Plan,
    width: u32,
    at: u32,
) -> Result<Effect, Fault>
    requires width { IsWidth width }
    requires sp { IsHeight state.old.flat plan.now.sp }
    ensures value { Works (IsMemory plan.now.dest) result state.old.flat state.new.flat
        (loads state.old.flat (instruction_of plan.now) width at) }
    ensures done { IfOk result IsDone }
{
    let value = state.memory().try_number(width, at)?;
    stores(state, plan, value)
}

/// Writes the low bytes of a number at an address.
pub fn puts<A: Allocator + Clone>(
    state: &mut State<A>,
    plan: &Plan,
    width: u32,
    at: u32,
    value: u32,
) -> Result<Effect, Fault>
    requires width { IsWidth width }
    requires sp { IsHeight state.old.flat plan.now.sp }
    ensures value { Works (Unit {0}) result state.old.flat state.new.flat
        (puts state.old.flat (instruction_of plan.now) width at value) }
    ensures done { IfOk result IsDone }
{
    settle(state, plan.sp, &Dest::Memory(at), width, value)?;
    state.set_pc(plan.next);
    Ok(Effect::Went)
}

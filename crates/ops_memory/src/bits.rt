//! The rows of arrays of bits (Glulx 3.1.2, "Array Data").
ghost use Rattle.std.specs.Prelude.{◌≡◌, ◌<◌, ◌-◌, ◌/◌, ◌%◌, ◌^◌, ◌==◌, if◌then◌else◌, bit_and, bit_or, IfOk};
ghost use Rattle.gx_state.specs.Flat.{IsHeight};
ghost use Rattle.gx_state.specs.Relations.{Works};
ghost use Rattle.gx_state.specs.Replies.{IsDone};
ghost use Rattle.gx_state.specs.Stores.{IsMemory};
ghost use Rattle.gx_operands.specs.Plans.{instruction_of};
ghost use Rattle.ops_memory.specs.MemoryRows.{aloadbit, astorebit, byte_of_bit, bit_in_byte};

use crate::arrays::puts;
use gx_operands::{Plan, stores};
use gx_state::{Effect, State};
use gx_words::{Fault, signed};
use std::alloc::Allocator;

/// The address of the byte that has a bit.
fn byte_of_bit(plan: &Plan) -> u32
    ensures { result ≡ byte_of_bit (instruction_of plan.now) }
{
    let offset = signed(plan.load(1)).div_euclid(8);
    plan.load(0).wrapping_add(offset.cast_unsigned())
}

/// The number of a bit in its byte.
fn bit_in_byte(plan: &Plan) -> u32
    ensures value { result ≡ bit_in_byte (instruction_of plan.now) }
    ensures fits { result < 8 }
{
    signed(plan.load(1)).rem_euclid(8) as u32
}

/// A bit of a byte.
fn bit_of(byte: u32, k: u32) -> u32
    requires { k < 8 }
    ensures { result ≡ byte / 2 ^ k % 2 }
{
    (byte >> k) % 2
}

/// A byte with one of its bits set or, for a value of 0, cleared.
fn with_bit(byte: u32, k: u32, value: u32) -> u32
    requires { k < 8 }
    ensures { result ≡ (if value == 0 then bit_and byte (0xFFFFFFFF - 2 ^ k) else bit_or byte (2 ^ k)) }
{
    let mask = 1u32 << k;
    if value == 0 {
        byte & !mask
    } else {
        byte | mask
    }
}

/// aloadbit
#[tactic(auto, unfolding(crate::specs::MemoryRows::aloadbit))]
pub fn aloadbit<A: Allocator + Clone>(state: &mut State<A>, plan: &Plan) -> Result<Effect, Fault>
    requires { IsHeight state.old.flat plan.now.sp }
    ensures value { Works (IsMemory plan.now.dest) result state.old.flat state.new.flat
        (aloadbit state.old.flat (instruction_of plan.now)) }
    ensures done { IfOk result IsDone }
{
    let byte = state.memory().try_number(1, byte_of_bit(plan))?;
    stores(state, plan, bit_of(byte, bit_in_byte(plan)))
}

/// astorebit
#[tactic(auto, unfolding(crate::specs::MemoryRows::astorebit))]
pub fn astorebit<A: Allocator + Clone>(state: &mut State<A>, plan: &Plan) -> Result<Effect, Fault>
    requires { IsHeight state.old.flat plan.now.sp }
    ensures value { Works (Unit {0}) result state.old.flat state.new.flat
        (astorebit state.old.flat (instruction_of plan.now)) }
    ensures done { IfOk result IsDone }
{
    let at = byte_of_bit(plan);
    let byte = state.memory().try_number(1, at)?;
    let value = with_bit(byte, bit_in_byte(plan), plan.load(2));
    puts(state, plan, 1, at, value)
}

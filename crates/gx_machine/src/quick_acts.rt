//! What the rows of the quick way do, once their operands are read.
ghost use Rattle.std.specs.Prelude.{◌≡◌, ◌<◌, ◌+◌, ◌*◌, ◌/◌, ◌%◌, ◌^◌, pos, unsigned_abs};
ghost use Rattle.std.specs.Prelude.{if◌then◌else◌, Ok, IsTrue, [], ◌∷◌};
ghost use Rattle.std.specs.Int.{w32, cast_signed, cast_unsigned, int_div_euclid, int_rem_euclid};
ghost use Rattle.gx_words.specs.Numbers.{IsWidth};
ghost use Rattle.gx_state.specs.declared.effects.Effect.TheVariants.{Went};
ghost use Rattle.gx_state.specs.Flat.{cut, sp_of};
ghost use Rattle.gx_state.specs.Returns.{IsReturnWriting};
ghost use Rattle.gx_state.specs.Stores.{IsMemory};
ghost use Rattle.gx_operands.specs.Plans.{HasValues};
ghost use Rattle.ops_flow.specs.FlowRows.{branches, returns};
ghost use Rattle.gx_machine.specs.Quick.{Tries, read_effect, IsReadWriting};
ghost use Rattle.gx_machine.specs.Quick.{sp_after, stored_on, computed_on, fetched_on, called_on, jumped_on};
ghost use Rattle.ops_calc.specs.Acts as acts;

use arrayvec::ArrayVec;
use gx_operands::{Cursor, arguments, settle, stack_pointer};
use gx_rows::{CALL, Class, Row};
use gx_state::{Dest, State};
use gx_words::{Fault, signed};
use ops_calc::calc;
use ops_flow::deliver;
use std::alloc::Allocator;

/// Stores a result once the pops are made, and goes on behind the operands.
#[inline(always)]
#[tactic(auto, using(crate::proofs::Pops::none_popped))]
pub(crate) fn store_on<A: Allocator + Clone>(
    state: &mut State<A>,
    width: u32,
    dest: Dest,
    value: u32,
    cursor: &Cursor,
) -> Result<bool, Fault>
    requires live { 0 < sp_of state.old.flat }
    requires width { IsWidth width }
    requires popped { HasValues state.old.flat cursor.now.popped }
    ensures value { Tries (IsMemory dest) result state.old.flat state.new.flat
        (stored_on state.old.flat width dest value cursor.now) }
    ensures story { state.new.flat.story ≡ state.old.flat.story }
{
    match dest {
        Dest::Local(at) if cursor.popped == 0 => state.set_local(at, width, value)?,
        _ => {
            let sp = stack_pointer(state, cursor.popped);
            settle(state, sp, &dest, width, value)?;
        }
    }
    state.set_pc(cursor.at);
    Ok(true)
}

/// Goes on at an address, once the pops are made.
#[inline(always)]
#[tactic(auto, using(crate::proofs::Pops::none_popped))]
pub(crate) fn go_on<A: Allocator + Clone>(state: &mut State<A>, pc: u32, cursor: &Cursor)
    requires live { 0 < sp_of state.old.flat }
    requires popped { HasValues state.old.flat cursor.now.popped }
    ensures value { jumped_on state.old.flat pc cursor.now ≡ Ok (state.new.flat, Went) }
    ensures story { state.new.flat.story ≡ state.old.flat.story }
{
    if cursor.popped > 0 {
        let sp = stack_pointer(state, cursor.popped);
        state.cut_stack(sp);
    }
    state.set_pc(pc);
}

/// Branches by an offset, but for those that return.
#[inline(always)]
pub(crate) fn branch<A: Allocator + Clone>(
    state: &mut State<A>,
    offset: u32,
    cursor: &Cursor,
) -> bool
    requires live { 0 < sp_of state.old.flat }
    requires popped { HasValues state.old.flat cursor.now.popped }
    ensures value { Tries ⊥ (Ok result) state.old.flat state.new.flat
        (branches (cut state.old.flat (sp_after state.old.flat cursor.now)) cursor.now.at offset) }
    ensures story { state.new.flat.story ≡ state.old.flat.story }
{
    if offset < 2 {
        return false;
    }
    go_on(state, cursor.at.wrapping_add(offset - 2), cursor);
    true
}

/// Branches by an offset where a test holds, and goes on where it doesn't.
#[inline(always)]
pub(crate) fn jump<A: Allocator + Clone>(
    state: &mut State<A>,
    holds: bool,
    offset: u32,
    cursor: &Cursor,
) -> bool
    requires live { 0 < sp_of state.old.flat }
    requires popped { HasValues state.old.flat cursor.now.popped }
    ensures value { Tries ⊥ (Ok result) state.old.flat state.new.flat
        (if holds then branches (cut state.old.flat (sp_after state.old.flat cursor.now)) cursor.now.at offset
        else jumped_on state.old.flat cursor.now.at cursor.now) }
    ensures story { state.new.flat.story ≡ state.old.flat.story }
{
    if holds {
        return branch(state, offset, cursor);
    }
    go_on(state, cursor.at, cursor);
    true
}

/// Stores what arithmetic makes of two operands.
#[inline(always)]
pub(crate) fn compute<A: Allocator + Clone>(
    state: &mut State<A>,
    act: u8,
    a: u32,
    b: u32,
    dest: Dest,
    cursor: &Cursor,
) -> Result<bool, Fault>
    requires live { 0 < sp_of state.old.flat }
    requires act { IsTrue (acts.is_calc act) }
    requires popped { HasValues state.old.flat cursor.now.popped }
    ensures value { Tries (IsMemory dest) result state.old.flat state.new.flat
        (computed_on state.old.flat act a b dest cursor.now) }
    ensures story { state.new.flat.story ≡ state.old.flat.story }
{
    match calc(act, a, b) {
        Some(value) => store_on(state, 4, dest, value, cursor),
        None => Err(Fault::Divide),
    }
}

/// Stores the number of so many bytes at an address.
#[inline(always)]
pub(crate) fn fetch<A: Allocator + Clone>(
    state: &mut State<A>,
    width: u32,
    at: u32,
    dest: Dest,
    cursor: &Cursor,
) -> Result<bool, Fault>
    requires live { 0 < sp_of state.old.flat }
    requires width { IsWidth width }
    requires popped { HasValues state.old.flat cursor.now.popped }
    ensures value { Tries (IsMemory dest) result state.old.flat state.new.flat
        (fetched_on state.old.flat width at dest cursor.now) }
    ensures story { state.new.flat.story ≡ state.old.flat.story }
{
    let value = state.memory().try_number(width, at)?;
    store_on(state, 4, dest, value, cursor)
}

/// The address of an element of an array whose elements have so many bytes.
#[inline(always)]
pub(crate) fn element(array: u32, index: u32, width: u32) -> u32
    requires { IsWidth width }
    ensures { result ≡ (array + width * index) % 2 ^ 32 }
{
    let offset = match width {
        1 => index,
        2 => index.wrapping_mul(2),
        _ => index.wrapping_mul(4),
    };
    array.wrapping_add(offset)
}

/// Calls a function with arguments, whose result goes where the store operand points.
#[inline(always)]
pub(crate) fn call<A: Allocator + Clone>(
    state: &mut State<A>,
    at: u32,
    args: &[u32],
    dest: Dest,
    cursor: &Cursor,
) -> Result<bool, Fault>
    requires live { 0 < sp_of state.old.flat }
    requires popped { HasValues state.old.flat cursor.now.popped }
    ensures value { Tries ⊥ result state.old.flat state.new.flat
        (called_on state.old.flat at args.now dest cursor.now) }
    ensures story { state.new.flat.story ≡ state.old.flat.story }
{
    let sp = stack_pointer(state, cursor.popped);
    let stub = state.stub(&dest, cursor.at);
    state.enter(sp, &[stub], at, args)?;
    Ok(true)
}

/// call: the arguments are popped. It stands apart, since it has a list of them.
#[inline(never)]
#[tactic(auto, unfolding(ops_flow::specs::FlowRows::flow, ops_flow::specs::FlowRows::call))]
pub(crate) fn call_popped<A: Allocator + Clone>(
    state: &mut State<A>,
    row: &Row,
    a: u32,
    b: u32,
    dest: Dest,
    cursor: Cursor,
) -> Result<bool, Fault>
    requires live { 0 < sp_of state.old.flat }
    requires class { row.now.class ≡ Class.Flow }
    requires number { row.now.number ≡ CALL }
    requires popped { HasValues state.old.flat cursor.popped }
    ensures value { Tries (IsReadWriting state.old.flat row.now (a ∷ b ∷ []) dest cursor) result
        state.old.flat state.new.flat (read_effect state.old.flat row.now (a ∷ b ∷ []) dest cursor) }
    ensures story { state.new.flat.story ≡ state.old.flat.story }
{
    let sp = stack_pointer(state, cursor.popped);
    let args: ArrayVec<u32, 256> = arguments(state, sp, b)?;
    let stub = state.stub(&dest, cursor.at);
    state.enter(sp - 4 * b, &[stub], a, args.as_slice())?;
    Ok(true)
}

/// The address of the byte that has a bit of an array of bits, by the bit's signed number.
#[inline(always)]
pub(crate) fn byte_of_bit(array: u32, index: u32) -> u32
    ensures { result ≡ (array + cast_unsigned w32 (int_div_euclid (cast_signed w32 index) (pos 8))) % 2 ^ 32 }
{
    let offset = signed(index).div_euclid(8);
    array.wrapping_add(offset.cast_unsigned())
}

/// The number of that bit in its byte.
#[inline(always)]
pub(crate) fn bit_in_byte(index: u32) -> u32
    ensures value { result ≡ unsigned_abs (int_rem_euclid (cast_signed w32 index) (pos 8)) }
    ensures fits { result < 8 }
{
    signed(index).rem_euclid(8) as u32
}

/// A bit of a byte.
#[inline(always)]
pub(crate) fn bit_of(byte: u32, k: u32) -> u32
    requires { k < 8 }
    ensures { result ≡ byte / 2 ^ k % 2 }
{
    (byte >> k) % 2
}

/// Returns a value from the present function, but for the start function.
#[inline(always)]
pub(crate) fn give_back<A: Allocator + Clone>(
    state: &mut State<A>,
    value: u32,
    cursor: &Cursor,
) -> Result<bool, Fault>
    requires live { 0 < sp_of state.old.flat }
    ensures value { Tries (IsReturnWriting state.old.flat state.old.flat.fp) result state.old.flat state.new.flat
        (returns state.old.flat cursor.now.at value) }
    ensures story { state.new.flat.story ≡ state.old.flat.story }
{
    let frame = state.frame();
    if frame.fp == 0 {
        return Ok(false);
    }
    deliver(state, cursor.at, frame.fp, value, None)?;
    Ok(true)
}

//! Reading the instruction at PC.
//!
//! Operands are read from left to right; nothing is changed, and no memory is taken.
ghost use Rattle.std.specs.Prelude.{◌≡◌, ◌+◌, ◌-◌, ◌*◌, ◌≤◌, ◌<◌, ◌%◌, ◌^◌, ◌/◌, [], length, Ok, Err};
ghost use Rattle.std.specs.Prelude.{None, OnOk, IfOk, IfSome};
ghost use Rattle.std.specs.Option.{ok_or};
ghost use Rattle.arrayvec.specs.ArrayVec.{array_vec_len};
ghost use Rattle.gx_words.specs.declared.faults.Fault.TheVariants.{BadAddress, BadOpcode};
ghost use Rattle.gx_words.specs.Numbers.{IsWidth, extended};
ghost use Rattle.gx_words.specs.Faults.{Reads};
ghost use Rattle.gx_pages.specs.Memory.{number_in};
ghost use Rattle.gx_rows.specs.Table.{row_count, row_of, row_at, RowFits};
ghost use Rattle.gx_state.specs.Flat.{sp_of, IsHeight};
ghost use Rattle.gx_operands.specs.Instructions.{opcode, datum, load_by, load, destination_by, destination};
ghost use Rattle.gx_operands.specs.Instructions.{with_operand, nibble, operand, operands, all_operands, instruction};
ghost use Rattle.gx_operands.specs.Plans.{HasValues, operands_of, instruction_of};
ghost use Rattle.gx_operands.specs.Code.{IsInRom};

use crate::Plan;
use crate::code_bytes::code;
use crate::cursor::Cursor;
use gx_rows::modes::{
    ADDRESS_BYTE, ADDRESS_SHORT, ADDRESS_WORD, Addressing, CONSTANT_BYTE, CONSTANT_SHORT,
    CONSTANT_WORD, CONSTANT_ZERO, Kind, LOCAL_BYTE, LOCAL_SHORT, LOCAL_WORD, RAM_BYTE, RAM_SHORT,
    RAM_WORD, STACK_TOP, kind_of,
};
use gx_rows::{Row, place_of, row_at};
use gx_state::{Dest, State};
use gx_words::{Fault, low, word_at};
use std::alloc::Allocator;

/// The nibbles that are no mode.
const UNUSED_LOW: u32 = 0x4;

const UNUSED_HIGH: u32 = 0xC;

/// The number of the instruction at PC; `modes` becomes the address of its operands' modes.
#[inline(always)]
#[tactic(auto, unfolding(crate::specs::Instructions::opcode, gx_pages::specs::Memory::number_in))]
pub fn opcode<A: Allocator + Clone, const ROM: bool>(
    state: &State<A>,
    modes: &mut u32,
) -> Result<u32, Fault>
    requires rom { IsInRom ROM state.now.flat (state.now.flat.pc + 4) }
    ensures value { Reads (λ number. (number, modes.new)) result (opcode state.now.flat) }
    ensures next { OnOk result (modes.new ≤ state.now.flat.pc + 4) }
{
    let pc = state.pc();
    let first = code::<A, ROM>(state, 1, pc)?;
    if first < 0x80 {
        *modes = pc + 1;
        Ok(first)
    } else if first < 0xC0 {
        let number = code::<A, ROM>(state, 2, pc)?;
        *modes = pc + 2;
        Ok(number - 0x8000)
    } else {
        let number = code::<A, ROM>(state, 4, pc)?;
        *modes = pc + 4;
        Ok(number - 0xC000_0000)
    }
}

/// A constant of 1, 2 or 4 bytes as 32 bits, by its sign.
#[inline(always)]
fn extended(width: u32, v: u32) -> u32
    requires width { IsWidth width }
    requires fits { v < 256 ^ width }
    ensures { result ≡ extended width v }
{
    match width {
        1 if v >= 0x80 => v + 0xFFFF_FF00,
        2 if v >= 0x8000 => v + 0xFFFF_0000,
        _ => v,
    }
}

/// The number of the data at a cursor, which goes behind it.
#[inline(always)]
#[tactic(auto, unfolding(crate::specs::Instructions::datum))]
fn data<A: Allocator + Clone, const ROM: bool>(
    state: &State<A>,
    cursor: &mut Cursor,
    n: u32,
) -> Result<u32, Fault>
    requires bytes { IsWidth n }
    requires rom { IsInRom ROM state.now.flat (cursor.old.at + 4) }
    ensures value { Reads (λ v. (v, cursor.new)) result (datum state.now.flat.memory cursor.old n) }
    ensures fits { IfOk result (λ v. v < 256 ^ n) }
    ensures popped { cursor.new.popped ≡ cursor.old.popped }
    ensures next { OnOk result (cursor.new.at ≤ cursor.old.at + 4) }
{
    let v = code::<A, ROM>(state, n, cursor.at)?;
    cursor.at += n;
    Ok(v)
}

/// A constant of so many bytes.
#[inline(always)]
#[tactic(auto, unfolding(crate::specs::Instructions::load_by))]
fn constant<A: Allocator + Clone, const ROM: bool>(
    state: &State<A>,
    width: u32,
    n: u32,
    cursor: &mut Cursor,
) -> Result<u32, Fault>
    requires width { IsWidth width }
    requires bytes { IsWidth n }
    requires popped { HasValues state.now.flat cursor.old.popped }
    requires rom { IsInRom ROM state.now.flat (cursor.old.at + 4) }
    ensures value { Reads (λ v. (v, cursor.new)) result
        (load_by state.now.flat width (Addressing.Constant n) cursor.old) }
    ensures popped { OnOk result (HasValues state.now.flat cursor.new.popped) }
    ensures next { OnOk result (cursor.new.at ≤ cursor.old.at + 4) }
{
    let v = data::<A, ROM>(state, cursor, n)?;
    Ok(low(extended(n, v), width))
}

/// The number of so many bytes at an address; None where one of them isn't in memory. It stands apart, so that `load`
/// stays small enough to be copied to where it is called.
#[inline(never)]
#[tactic(auto, unfolding(gx_pages::specs::Memory::number_in))]
fn number<A: Allocator + Clone>(state: &State<A>, width: u32, at: u32) -> Option<u32>
    requires { IsWidth width }
    ensures value { IfSome result (λ v. number_in width state.now.flat.memory at ≡ Ok v) }
    ensures none { result ≡ None → number_in width state.now.flat.memory at ≡ Err BadAddress }
{
    let memory = state.memory();
    if u64::from(at) + u64::from(width) <= u64::from(memory.size()) {
        Some(memory.number(width, at))
    } else {
        None
    }
}

/// The word at an address. One inside a page, as most are, is read with no look at the next page.
#[inline(never)]
#[tactic(auto, unfolding(gx_pages::specs::Memory::number_in))]
fn word<A: Allocator + Clone>(state: &State<A>, at: u32) -> Option<u32>
    ensures value { IfSome result (λ v. number_in 4 state.now.flat.memory at ≡ Ok v) }
    ensures none { result ≡ None → number_in 4 state.now.flat.memory at ≡ Err BadAddress }
{
    let memory = state.memory();
    if u64::from(at) + 4 <= u64::from(memory.size()) {
        let bytes = memory.bytes_in_page(at);
        if bytes.len() >= 4 {
            return Some(word_at(bytes, 0));
        }
    }
    number(state, 4, at)
}

/// The number of so many bytes at an address: a word most often.
#[inline(always)]
fn stored<A: Allocator + Clone>(state: &State<A>, width: u32, at: u32) -> Result<u32, Fault>
    requires { IsWidth width }
    ensures { Reads (λ v. v) result (number_in width state.now.flat.memory at) }
{
    let found = match width {
        4 => word(state, at),
        _ => number(state, width, at),
    };
    match found {
        Some(v) => Ok(v),
        None => Err(Fault::BadAddress),
    }
}

/// The contents of memory at an address of so many bytes.
#[inline(always)]
#[tactic(auto, unfolding(crate::specs::Instructions::load_by))]
fn contents<A: Allocator + Clone, const ROM: bool>(
    state: &State<A>,
    width: u32,
    n: u32,
    cursor: &mut Cursor,
) -> Result<u32, Fault>
    requires width { IsWidth width }
    requires bytes { IsWidth n }
    requires popped { HasValues state.now.flat cursor.old.popped }
    requires rom { IsInRom ROM state.now.flat (cursor.old.at + 4) }
    ensures value { Reads (λ v. (v, cursor.new)) result
        (load_by state.now.flat width (Addressing.Memory n) cursor.old) }
    ensures popped { OnOk result (HasValues state.now.flat cursor.new.popped) }
    ensures next { OnOk result (cursor.new.at ≤ cursor.old.at + 4) }
{
    let at = data::<A, ROM>(state, cursor, n)?;
    stored(state, width, at)
}

/// The contents of the RAM address of so many bytes.
#[inline(always)]
#[tactic(auto, unfolding(crate::specs::Instructions::load_by))]
fn ram_contents<A: Allocator + Clone, const ROM: bool>(
    state: &State<A>,
    width: u32,
    n: u32,
    cursor: &mut Cursor,
) -> Result<u32, Fault>
    requires width { IsWidth width }
    requires bytes { IsWidth n }
    requires popped { HasValues state.now.flat cursor.old.popped }
    requires rom { IsInRom ROM state.now.flat (cursor.old.at + 4) }
    ensures value { Reads (λ v. (v, cursor.new)) result (load_by state.now.flat width (Addressing.Ram n) cursor.old) }
    ensures popped { OnOk result (HasValues state.now.flat cursor.new.popped) }
    ensures next { OnOk result (cursor.new.at ≤ cursor.old.at + 4) }
{
    let offset = data::<A, ROM>(state, cursor, n)?;
    let at = state.ramstart().wrapping_add(offset);
    stored(state, width, at)
}

/// The local at an offset of so many bytes.
#[inline(always)]
#[tactic(auto, unfolding(crate::specs::Instructions::load_by))]
fn local<A: Allocator + Clone, const ROM: bool>(
    state: &State<A>,
    width: u32,
    n: u32,
    cursor: &mut Cursor,
) -> Result<u32, Fault>
    requires live { 0 < sp_of state.now.flat }
    requires width { IsWidth width }
    requires bytes { IsWidth n }
    requires popped { HasValues state.now.flat cursor.old.popped }
    requires rom { IsInRom ROM state.now.flat (cursor.old.at + 4) }
    ensures value { Reads (λ v. (v, cursor.new)) result (load_by state.now.flat width (Addressing.Local n) cursor.old) }
    ensures popped { OnOk result (HasValues state.now.flat cursor.new.popped) }
    ensures next { OnOk result (cursor.new.at ≤ cursor.old.at + 4) }
{
    let at = data::<A, ROM>(state, cursor, n)?;
    Ok(state.stack().local(&state.frame(), at, width)?)
}

/// The local at an offset of more than one byte, which is rare, and the cursor after it.
///
/// It takes and gives the cursor by value, so that the caller can keep its own in registers.
#[inline(never)]
#[tactic(auto, unfolding(crate::specs::Instructions::load_by))]
fn far_local<A: Allocator + Clone, const ROM: bool>(
    state: &State<A>,
    width: u32,
    n: u32,
    cursor: Cursor,
) -> Result<(u32, Cursor), Fault>
    requires live { 0 < sp_of state.now.flat }
    requires width { IsWidth width }
    requires bytes { IsWidth n }
    requires popped { HasValues state.now.flat cursor.popped }
    requires rom { IsInRom ROM state.now.flat (cursor.at + 4) }
    ensures value { Reads (λ r. (r.0, r.1)) result (load_by state.now.flat width (Addressing.Local n) cursor) }
    ensures popped { IfOk result (λ r. HasValues state.now.flat r.1.popped) }
    ensures next { IfOk result (λ r. r.1.at ≤ cursor.at + 4) }
{
    let mut after = cursor;
    let v = local::<A, ROM>(state, width, n, &mut after)?;
    Ok((v, after))
}

/// The same, where the cursor goes behind it.
#[inline(always)]
fn take_far_local<A: Allocator + Clone, const ROM: bool>(
    state: &State<A>,
    width: u32,
    n: u32,
    cursor: &mut Cursor,
) -> Result<u32, Fault>
    requires live { 0 < sp_of state.now.flat }
    requires width { IsWidth width }
    requires bytes { IsWidth n }
    requires popped { HasValues state.now.flat cursor.old.popped }
    requires rom { IsInRom ROM state.now.flat (cursor.old.at + 4) }
    ensures value { Reads (λ v. (v, cursor.new)) result (load_by state.now.flat width (Addressing.Local n) cursor.old) }
    ensures popped { OnOk result (HasValues state.now.flat cursor.new.popped) }
    ensures next { OnOk result (cursor.new.at ≤ cursor.old.at + 4) }
{
    let (v, after) = far_local::<A, ROM>(state, width, n, *cursor)?;
    *cursor = after;
    Ok(v)
}

/// The value on top of the stack, below those that were popped.
#[inline(always)]
#[tactic(auto, unfolding(crate::specs::Instructions::load_by, gx_stack::specs::Values::peeked))]
fn top<A: Allocator + Clone>(
    state: &State<A>,
    width: u32,
    cursor: &mut Cursor,
) -> Result<u32, Fault>
    requires live { 0 < sp_of state.now.flat }
    requires width { IsWidth width }
    requires popped { HasValues state.now.flat cursor.old.popped }
    ensures value { Reads (λ v. (v, cursor.new)) result (load_by state.now.flat width Addressing.Top cursor.old) }
    ensures popped { OnOk result (HasValues state.now.flat cursor.new.popped) }
    ensures next { OnOk result (cursor.new.at ≤ cursor.old.at + 4) }
{
    let v = state.stack().peek(&state.frame(), cursor.popped)?;
    cursor.popped += 1;
    Ok(low(v, width))
}

/// What a load operand gives by its mode's nibble; the cursor goes behind it.
#[inline(always)]
#[tactic(auto, unfolding(crate::proofs::Opened::loading))]
pub fn load<A: Allocator + Clone, const ROM: bool>(
    state: &State<A>,
    width: u32,
    nibble: u32,
    cursor: &mut Cursor,
) -> Result<u32, Fault>
    requires live { 0 < sp_of state.now.flat }
    requires width { IsWidth width }
    requires nibble { nibble < 16 }
    requires popped { HasValues state.now.flat cursor.old.popped }
    requires rom { IsInRom ROM state.now.flat (cursor.old.at + 4) }
    ensures value { Reads (λ v. (v, cursor.new)) result (load state.now.flat width nibble cursor.old) }
    ensures popped { OnOk result (HasValues state.now.flat cursor.new.popped) }
    ensures next { OnOk result (cursor.new.at ≤ cursor.old.at + 4) }
{
    match nibble {
        CONSTANT_ZERO => Ok(0),
        CONSTANT_BYTE => constant::<A, ROM>(state, width, 1, cursor),
        CONSTANT_SHORT => constant::<A, ROM>(state, width, 2, cursor),
        CONSTANT_WORD => constant::<A, ROM>(state, width, 4, cursor),
        ADDRESS_BYTE => contents::<A, ROM>(state, width, 1, cursor),
        ADDRESS_SHORT => contents::<A, ROM>(state, width, 2, cursor),
        ADDRESS_WORD => contents::<A, ROM>(state, width, 4, cursor),
        STACK_TOP => top(state, width, cursor),
        LOCAL_BYTE => local::<A, ROM>(state, width, 1, cursor),
        LOCAL_SHORT => take_far_local::<A, ROM>(state, width, 2, cursor),
        LOCAL_WORD => take_far_local::<A, ROM>(state, width, 4, cursor),
        RAM_BYTE => ram_contents::<A, ROM>(state, width, 1, cursor),
        RAM_SHORT => ram_contents::<A, ROM>(state, width, 2, cursor),
        RAM_WORD => ram_contents::<A, ROM>(state, width, 4, cursor),
        UNUSED_LOW | UNUSED_HIGH => Err(Fault::BadMode),
        _ => unreachable!(),
    }
}

/// A store to memory at an address of so many bytes.
#[inline(always)]
#[tactic(auto, unfolding(crate::specs::Instructions::destination_by))]
fn to_memory<A: Allocator + Clone, const ROM: bool>(
    state: &State<A>,
    n: u32,
    cursor: &mut Cursor,
) -> Result<Dest, Fault>
    requires bytes { IsWidth n }
    requires rom { IsInRom ROM state.now.flat (cursor.old.at + 4) }
    ensures value { Reads (λ dest. (dest, cursor.new)) result
        (destination_by state.now.flat (Addressing.Memory n) cursor.old) }
    ensures popped { cursor.new.popped ≡ cursor.old.popped }
    ensures next { OnOk result (cursor.new.at ≤ cursor.old.at + 4) }
{
    Ok(Dest::Memory(data::<A, ROM>(state, cursor, n)?))
}

/// A store to the RAM address of so many bytes.
#[inline(always)]
#[tactic(auto, unfolding(crate::specs::Instructions::destination_by))]
fn to_ram<A: Allocator + Clone, const ROM: bool>(
    state: &State<A>,
    n: u32,
    cursor: &mut Cursor,
) -> Result<Dest, Fault>
    requires bytes { IsWidth n }
    requires rom { IsInRom ROM state.now.flat (cursor.old.at + 4) }
    ensures value { Reads (λ dest. (dest, cursor.new)) result
        (destination_by state.now.flat (Addressing.Ram n) cursor.old) }
    ensures popped { cursor.new.popped ≡ cursor.old.popped }
    ensures next { OnOk result (cursor.new.at ≤ cursor.old.at + 4) }
{
    let offset = data::<A, ROM>(state, cursor, n)?;
    Ok(Dest::Memory(state.ramstart().wrapping_add(offset)))
}

/// A store to the local at an offset of so many bytes.
#[inline(always)]
#[tactic(auto, unfolding(crate::specs::Instructions::destination_by))]
fn to_local<A: Allocator + Clone, const ROM: bool>(
    state: &State<A>,
    n: u32,
    cursor: &mut Cursor,
) -> Result<Dest, Fault>
    requires bytes { IsWidth n }
    requires rom { IsInRom ROM state.now.flat (cursor.old.at + 4) }
    ensures value { Reads (λ dest. (dest, cursor.new)) result
        (destination_by state.now.flat (Addressing.Local n) cursor.old) }
    ensures popped { cursor.new.popped ≡ cursor.old.popped }
    ensures next { OnOk result (cursor.new.at ≤ cursor.old.at + 4) }
{
    Ok(Dest::Local(data::<A, ROM>(state, cursor, n)?))
}

/// Where a store operand points by its mode's nibble; the cursor goes behind it.
#[inline(always)]
#[tactic(auto, unfolding(crate::proofs::Opened::pointing))]
pub fn destination<A: Allocator + Clone, const ROM: bool>(
    state: &State<A>,
    nibble: u32,
    cursor: &mut Cursor,
) -> Result<Dest, Fault>
    requires nibble { nibble < 16 }
    requires rom { IsInRom ROM state.now.flat (cursor.old.at + 4) }
    ensures value { Reads (λ dest. (dest, cursor.new)) result (destination state.now.flat nibble cursor.old) }
    ensures popped { cursor.new.popped ≡ cursor.old.popped }
    ensures next { OnOk result (cursor.new.at ≤ cursor.old.at + 4) }
{
    match nibble {
        CONSTANT_ZERO => Ok(Dest::Nowhere),
        ADDRESS_BYTE => to_memory::<A, ROM>(state, 1, cursor),
        ADDRESS_SHORT => to_memory::<A, ROM>(state, 2, cursor),
        ADDRESS_WORD => to_memory::<A, ROM>(state, 4, cursor),
        STACK_TOP => Ok(Dest::Push),
        LOCAL_BYTE => to_local::<A, ROM>(state, 1, cursor),
        LOCAL_SHORT => to_local::<A, ROM>(state, 2, cursor),
        LOCAL_WORD => to_local::<A, ROM>(state, 4, cursor),
        RAM_BYTE => to_ram::<A, ROM>(state, 1, cursor),
        RAM_SHORT => to_ram::<A, ROM>(state, 2, cursor),
        RAM_WORD => to_ram::<A, ROM>(state, 4, cursor),
        CONSTANT_BYTE | CONSTANT_SHORT | CONSTANT_WORD | UNUSED_LOW | UNUSED_HIGH => {
            Err(Fault::BadMode)
        }
        _ => unreachable!(),
    }
}

/// Takes one operand more.
#[tactic(auto, unfolding(crate::specs::Instructions::with_operand))]
fn take<A: Allocator + Clone>(
    state: &State<A>,
    width: u32,
    kind: Kind,
    nibble: u32,
    plan: &mut Plan,
) -> Result<(), Fault>
    requires live { 0 < sp_of state.now.flat }
    requires width { IsWidth width }
    requires nibble { nibble < 16 }
    requires popped { HasValues state.now.flat plan.old.popped }
    requires room { array_vec_len plan.old.loads < 8 }
    ensures value { Reads (λ done. operands_of plan.new) result
        (with_operand state.now.flat width kind nibble (operands_of plan.old)) }
    ensures popped { OnOk result (HasValues state.now.flat plan.new.popped) }
    ensures room { OnOk result (array_vec_len plan.new.loads ≤ array_vec_len plan.old.loads + 1) }
    ensures row { plan.new.row ≡ plan.old.row }
{
    let mut cursor = plan.cursor();
    match kind {
        Kind::Load => {
            let v = load::<A, false>(state, width, nibble, &mut cursor)?;
            plan.take_load(v, cursor);
        }
        Kind::Store => {
            let dest = destination::<A, false>(state, nibble, &mut cursor)?;
            plan.take_destination(dest, cursor);
        }
    }
    Ok(())
}

/// The nibble of an operand's mode.
fn nibble<A: Allocator + Clone>(state: &State<A>, modes: u32, i: u32) -> u32
    requires { modes + i / 2 < length state.now.flat.memory }
    ensures value { result ≡ nibble state.now.flat.memory modes i }
    ensures fits { result < 16 }
{
    let _memory = state.memory(); // a state is sound
    let pair = state.code_byte(modes + i / 2);
    if i % 2 == 0 { pair % 16 } else { pair / 16 }
}

/// Takes the operand of an index.
#[tactic(auto, unfolding(crate::specs::Instructions::operand))]
fn operand<A: Allocator + Clone>(
    state: &State<A>,
    row: &Row,
    modes: u32,
    i: u32,
    plan: &mut Plan,
) -> Result<(), Fault>
    requires live { 0 < sp_of state.now.flat }
    requires width { IsWidth row.now.width }
    requires modes { modes + i / 2 < length state.now.flat.memory }
    requires popped { HasValues state.now.flat plan.old.popped }
    requires room { array_vec_len plan.old.loads < 8 }
    ensures value { Reads (λ done. operands_of plan.new) result
        (operand state.now.flat row.now modes i (operands_of plan.old)) }
    ensures popped { OnOk result (HasValues state.now.flat plan.new.popped) }
    ensures room { OnOk result (array_vec_len plan.new.loads ≤ array_vec_len plan.old.loads + 1) }
    ensures row { plan.new.row ≡ plan.old.row }
{
    let mode = nibble(state, modes, i);
    take(state, u32::from(row.width), kind_of(row, i), mode, plan)
}

/// Takes the operands of a row from left to right.
#[tactic(auto, using(crate::proofs::Steps::steps))]
#[inline(never)]
fn operands<A: Allocator + Clone>(
    state: &State<A>,
    row: &Row,
    modes: u32,
    count: u32,
    plan: &mut Plan,
) -> Result<(), Fault>
    requires live { 0 < sp_of state.now.flat }
    requires width { IsWidth row.now.width }
    requires count { count ≤ 8 }
    requires modes { modes + (count + 1) / 2 ≤ length state.now.flat.memory }
    requires none { plan.old.loads.items ≡ [] }
    requires popped { HasValues state.now.flat plan.old.popped }
    ensures value { Reads (λ done. operands_of plan.new) result
        (operands state.now.flat row.now modes count 0 (operands_of plan.old)) }
    ensures popped { OnOk result (HasValues state.now.flat plan.new.popped) }
    ensures row { plan.new.row ≡ plan.old.row }
{
    for i in 0..count {
        operand(state, row, modes, i, plan)?;
    }
    Ok(())
}

/// All operands of a row, one after the other.
#[inline(never)]
#[tactic(auto, unfolding(crate::specs::Instructions::all_operands))]
fn all_operands<A: Allocator + Clone>(
    state: &State<A>,
    row: &Row,
    modes: u32,
    plan: &mut Plan,
) -> Result<(), Fault>
    requires live { 0 < sp_of state.now.flat }
    requires row { RowFits row.now }
    ensures value { Reads (λ done. operands_of plan.new) result (all_operands state.now.flat row.now modes) }
    ensures popped { OnOk result (HasValues state.now.flat plan.new.popped) }
    ensures row { plan.new.row ≡ plan.old.row }
{
    let count = u32::from(row.loads) + u32::from(row.stores);
    let size = state.memory().size();
    if u64::from(modes) + (u64::from(count) + 1) / 2 > u64::from(size) {
        return Err(Fault::BadAddress);
    }
    plan.begin(modes + (count + 1) / 2);
    operands(state, row, modes, count, plan)
}

/// The place of a number's row in the table.
#[inline(always)]
pub fn find_row(number: u32) -> Result<usize, Fault>
    ensures row { Reads row_at result (ok_or (row_of number) BadOpcode) }
    ensures place { IfOk result (λ place. place < row_count) }
    ensures fits { IfOk result (λ place. RowFits (row_at place)) }
{
    match place_of(number) {
        None => Err(Fault::BadOpcode),
        Some(place) => Ok(place),
    }
}

/// The stack pointer that so many pops leave.
#[inline(always)]
#[tactic(auto, using(crate::proofs::Steps::height_left))]
pub fn stack_pointer<A: Allocator + Clone>(state: &State<A>, popped: u32) -> u32
    requires live { 0 < sp_of state.now.flat }
    requires popped { HasValues state.now.flat popped }
    ensures value { result ≡ sp_of state.now.flat - 4 * popped }
    ensures height { IsHeight state.now.flat result }
{
    state.stack().size() - 4 * popped
}

/// The instruction at PC.
pub fn decode<A: Allocator + Clone>(state: &State<A>) -> Result<Plan, Fault>
    requires { 0 < sp_of state.now.flat }
    ensures value { Reads instruction_of result (instruction state.now.flat) }
    ensures sp { IfOk result (λ plan. IsHeight state.now.flat plan.sp) }
{
    let mut plan = Plan::new();
    decode_into(state, &mut plan)?;
    Ok(plan)
}

/// The same, read into a plan, whatever it stood for before. After a fault it stands for no instruction.
#[tactic(auto, unfolding(crate::specs::Instructions::instruction))]
#[inline(always)]
pub fn decode_into<A: Allocator + Clone>(state: &State<A>, plan: &mut Plan) -> Result<(), Fault>
    requires { 0 < sp_of state.now.flat }
    ensures value { Reads (λ done. instruction_of plan.new) result (instruction state.now.flat) }
    ensures sp { OnOk result (IsHeight state.now.flat plan.new.sp) }
{
    let mut modes = 0;
    let number = opcode::<A, false>(state, &mut modes)?;
    plan.row = find_row(number)?;
    all_operands(state, row_at(plan.row), modes, plan)?;
    plan.sp = stack_pointer(state, plan.popped);
    Ok(())
}

//! Instructions as bytes of a code, and the text of a code.
//!
//! `list` is `listed` of specs/Codes, so that it gives a text exactly where it spells the code. The code is read once;
//! where memory runs out the rest is read all the same, since a bad instruction comes before want of memory.
ghost use Rattle.std.specs.Prelude.{◌≡◌, ◌≤◌, ◌<◌, ◌+◌, ◌*◌, ◌/◌, ◌^◌, ◌&&◌, ◌++◌, ◌↔◌, ℕ, true, if◌then◌else◌, List};
ghost use Rattle.std.specs.Prelude.{Ok, Err, IfOk, OnOk, All, length, map, drop, slice_index};
ghost use Rattle.gx_words.specs.Results.{Is, Gives};
ghost use Rattle.gx_rows.specs.Opcodes.{shortest, spelled};
ghost use Rattle.gx_rows.specs.Table.{row_count, RowFits};
ghost use Rattle.gx_asm.specs.declared.faults.ListFault.{ListFault};
ghost use Rattle.gx_asm.specs.Codes.{front, instruction_at, ends_listing, listed, mode_in, modes_from, modes_len};
ghost use Rattle.gx_asm.specs.Codes.{nibbles};
ghost use Rattle.gx_asm.specs.Codes.{text_from};
ghost use Rattle.gx_asm.specs.Instructions.{AreModes, IsWritten, Spells, all_data_len, by_width, bytes_of};
ghost use Rattle.gx_asm.specs.Instructions.{instruction_line};
ghost use Rattle.gx_asm.specs.Instructions.{nibble_of, operand_count, packed_nibbles};
ghost use Rattle.gx_asm.specs.Views.{seen_instruction};

use crate::faults::ListFault;
use crate::instruction::{Instruction, data_len, fits_kind};
use arrayvec::ArrayVec;
use gx_rows::modes::{
    ADDRESS_BYTE, ADDRESS_SHORT, ADDRESS_WORD, Addressing, CONSTANT_BYTE, CONSTANT_SHORT,
    CONSTANT_WORD, CONSTANT_ZERO, Kind, LOCAL_BYTE, LOCAL_SHORT, LOCAL_WORD, RAM_BYTE, RAM_SHORT,
    RAM_WORD, STACK_TOP, kind_of, read_mode,
};
use gx_rows::{QUIT, RETURN, Row, place_of, read_opcode, row_at};
use gx_words::{Bytes, word_bytes};
use std::alloc::{AllocError, Global};

/// The text of a code, one instruction in each line. The code is shorter than 2^32 bytes.
#[tactic(auto, using(crate::proofs::CodesText::listing), unfolding(crate::specs::Codes::listed))]
pub fn list(alloc: Global, code: &[u8]) -> Result<Bytes, ListFault>
    requires { length code.now < 2 ^ 32 }
    ensures value { Gives ListFault.NoMemory (λ text. text) result (listed code.now) }
    ensures memory { result ≡ Err ListFault.NoMemory → 0 < length code.now }
    ensures spelled { (text : List ℕ) → (listed code.now ≡ Ok text) ↔ Spells text code.now }
{
    are_bytes(code);
    list_from(alloc, code, 0, false)
}

/// Each byte is a number below 256.
fn are_bytes(_code: &[u8])
    ensures { All (λ b. b < 256) _code.now }
{}

/// The text of the instructions from a place on: of all of them, or up to the first quit or return.
#[tactic(auto, using(crate::proofs::CodesLoops::listing_turns))]
pub(crate) fn list_from(
    alloc: Global,
    code: &[u8],
    at: usize,
    ends: bool,
) -> Result<Bytes, ListFault>
    requires short { length code.now < 2 ^ 32 }
    requires within { at ≤ length code.now }
    ensures value { Gives ListFault.NoMemory (λ text. text) result
        (text_from (length code.now) ends at (drop at code.now)) }
    ensures memory { result ≡ Err ListFault.NoMemory → at < length code.now }
{
    are_bytes(code);
    let mut text = Bytes::new(alloc);
    let mut whole = true;
    let mut here = at;
    while here < code.len() {
        let instruction = read_code(&code[here..], here as u32)?;
        whole = add_line(&instruction, &mut text, whole);
        if instruction.is_last(ends) {
            return text_in_memory(text, whole);
        }
        here += instruction.len();
    }
    if ends {
        return Err(ListFault::Cut { at: here as u32 });
    }
    text_in_memory(text, whole)
}

/// Adds the line of an instruction to a text that is whole so far. The answer says whether it is whole then.
fn add_line(instruction: &Instruction, text: &mut Bytes, whole: bool) -> bool
    requires { IsWritten (seen_instruction instruction.now) }
    ensures { result ≡ true
        → (whole ≡ true) × (text.new ≡ text.old ++ instruction_line (seen_instruction instruction.now)) }
{
    whole && instruction.push_line(text).is_ok()
}

/// A text that is whole; want of memory where it isn't.
fn text_in_memory(text: Bytes, whole: bool) -> Result<Bytes, ListFault>
    ensures { result ≡ (if whole then Ok text else Err ListFault.NoMemory) }
{
    if !whole {
        return Err(ListFault::NoMemory);
    }
    Ok(text)
}

/// The instruction at the head of a code, whose place is `at`.
fn read_code(code: &[u8], at: u32) -> Result<Instruction, ListFault>
    ensures value { Is seen_instruction result (instruction_at at code.now) }
    ensures whole { IfOk result (λ i. IsWritten (seen_instruction i)) }
{
    are_bytes(code);
    read_parts(code, at)
}

/// The same, part by part.
#[tactic(auto, using(crate::proofs::CodesLoops::reading), unfolding(crate::specs::Codes::instruction_at))]
fn read_parts(code: &[u8], at: u32) -> Result<Instruction, ListFault>
    ensures { Is seen_instruction result (instruction_at at code.now) }
{
    let (number, size) = read_opcode(code).ok_or(ListFault::Cut { at })?;
    if size != shortest(number) {
        return Err(ListFault::Spelling { at });
    }
    let place = place_of(number).ok_or(ListFault::BadOpcode { at })?;
    let row = row_at(place);
    let modes_at = usize::from(size);
    let data_at = modes_at + modes_len(row);
    let modes = read_modes(row, front(&code[modes_at..], modes_len(row), at)?, at)?;
    let operand_data = front(&code[data_at..], all_data_len(&modes), at)?;
    Ok(Instruction {
        place,
        modes,
        operand_data: copied(operand_data),
    })
}

/// How many bytes the shortest form of a number has.
fn shortest(number: u32) -> u8
    ensures { result ≡ shortest number }
{
    if number < 0x80 {
        1
    } else if number < 0x4000 {
        2
    } else {
        4
    }
}

/// How many bytes the modes of a row's operands have.
fn modes_len(row: &Row) -> usize
    requires { RowFits row.now }
    ensures { result ≡ modes_len (operand_count row.now) }
{
    (usize::from(row.loads) + usize::from(row.stores)).div_ceil(2)
}

/// So many bytes at the head of others.
fn front(bytes: &[u8], n: usize, at: u32) -> Result<&[u8], ListFault>
    ensures { Is (λ front. front.now) result (front at n bytes.now) }
{
    if bytes.len() < n {
        return Err(ListFault::Cut { at });
    }
    Ok(&bytes[..n])
}

/// The modes of a row's operands, two in a byte.
#[tactic(auto, using(crate::proofs::CodesLoops::mode_turns))]
fn read_modes(row: &Row, pairs: &[u8], at: u32) -> Result<ArrayVec<Addressing, 8>, ListFault>
    requires fits { RowFits row.now }
    requires paired { length pairs.now ≡ modes_len (operand_count row.now) }
    ensures value { Is (λ modes. modes.items) result (modes_from at row.now 0 (nibbles pairs.now)) }
    ensures small { IfOk result (λ modes. all_data_len modes.items ≤ 32) }
{
    let count = u32::from(row.loads) + u32::from(row.stores);
    let mut modes = ArrayVec::new();
    for i in 0..2 * pairs.len() as u32 {
        let nibble = nibble(pairs, i);
        if i < count {
            modes.push(mode_in(kind_of(row, i), nibble, at)?);
        } else if nibble != 0 {
            return Err(ListFault::BadMode { at });
        }
    }
    Ok(modes)
}

/// A nibble of bytes, the low one of each first.
#[tactic(auto, using(crate::proofs::CodesLoops::nibble_at))]
fn nibble(pairs: &[u8], i: u32) -> u32
    requires { i / 2 < length pairs.now }
    ensures { result ≡ slice_index (nibbles pairs.now) i }
{
    let pair = u32::from(pairs[i as usize / 2]);
    if i % 2 == 0 { pair % 16 } else { pair / 16 }
}

/// The mode of a nibble, for an operand of a kind.
#[tactic(auto, unfolding(crate::specs::Codes::mode_in))]
fn mode_in(kind: Kind, nibble: u32, at: u32) -> Result<Addressing, ListFault>
    ensures { Is (λ mode. mode) result (mode_in at kind nibble) }
{
    let mode = read_mode(nibble).ok_or(ListFault::BadMode { at })?;
    if !fits_kind(kind, mode) {
        return Err(ListFault::BadMode { at });
    }
    Ok(mode)
}

/// How many bytes of data operands have by their modes.
#[tactic(auto, using(crate::proofs::CodesLoops::data_turns))]
fn all_data_len(modes: &[Addressing]) -> usize
    requires { length modes.now ≤ 8 }
    ensures { result ≡ all_data_len modes.now }
{
    let mut len = 0;
    for i in 0..modes.len() {
        len += data_len(modes[i]);
    }
    len
}

/// The data of an instruction's operands, which fit.
fn copied(bytes: &[u8]) -> ArrayVec<u8, 32>
    requires { length bytes.now ≤ 32 }
    ensures { result.items ≡ bytes.now }
{
    let mut copy = ArrayVec::new();
    let _fits = copy.try_extend_from_slice(bytes); // they have room, as is required
    copy
}

impl Instruction {
    /// Whether a listing that ends does so here.
    fn is_last(&self, ends: bool) -> bool
        requires { self.now.place < row_count }
        ensures { result ≡ (ends && ends_listing (seen_instruction self.now)) }
    {
        let number = row_at(self.place).number;
        ends && (number == QUIT || number == RETURN)
    }

    /// How many bytes it has.
    #[tactic(auto, using(crate::proofs::CodesLoops::length_bytes))]
    pub fn len(&self) -> usize
        requires { self.now.place < row_count }
        ensures { result ≡ length (bytes_of (seen_instruction self.now)) }
    {
        let number = row_at(self.place).number;
        usize::from(shortest(number)) + self.modes.len().div_ceil(2) + self.operand_data.len()
    }

    /// Adds its bytes to a code.
    #[tactic(auto, using(crate::proofs::BytesOpcodes::number_small), unfolding(crate::specs::Instructions::bytes_of))]
    pub fn push_bytes(&self, code: &mut Bytes) -> Result<(), AllocError>
        requires { IsWritten (seen_instruction self.now) }
        ensures { OnOk result (code.new ≡ code.old ++ bytes_of (seen_instruction self.now)) }
    {
        push_opcode(row_at(self.place).number, code)?;
        push_modes(&self.modes, code)?;
        code.extend_from_slice(&self.operand_data)
    }
}

/// Adds the shortest form of a number.
fn push_opcode(number: u32, code: &mut Bytes) -> Result<(), AllocError>
    requires { number < 0x10000000 }
    ensures { OnOk result (code.new ≡ code.old ++ spelled number (shortest number)) }
{
    if number < 0x80 {
        code.push(number as u8)
    } else if number < 0x4000 {
        code.extend_from_slice(&word_bytes(number + 0x8000)[2..])
    } else {
        code.extend_from_slice(&word_bytes(number + 0xC000_0000))
    }
}

/// Adds the modes of operands, two in a byte.
#[tactic(auto, using(crate::proofs::CodesLoops::pair_turns))]
fn push_modes(modes: &[Addressing], code: &mut Bytes) -> Result<(), AllocError>
    requires { length modes.now ≤ 8 }
    ensures { OnOk result (code.new ≡ code.old ++ packed_nibbles (map nibble_of modes.now)) }
{
    for i in 0..modes.len().div_ceil(2) {
        code.push(pair_at(modes, i))?;
    }
    Ok(())
}

/// The modes of two operands in a byte, the first in its low nibble; 0 stands for one that isn't there.
#[tactic(auto, using(crate::proofs::CodesLoops::pair_at))]
fn pair_at(modes: &[Addressing], i: usize) -> u8
    requires { 2 * i < length modes.now }
    ensures { result ≡ slice_index (packed_nibbles (map nibble_of modes.now)) i }
{
    let low = nibble_of(modes[2 * i]);
    let high = match modes.get(2 * i + 1) {
        Some(mode) => nibble_of(*mode),
        None => 0,
    };
    (low + 16 * high) as u8
}

/// The nibble of a mode.
fn nibble_of(mode: Addressing) -> u32
    ensures value { result ≡ nibble_of mode }
    ensures fits { result < 16 }
{
    match mode {
        Addressing::Zero => CONSTANT_ZERO,
        Addressing::Constant(n) => by_width(n, CONSTANT_BYTE, CONSTANT_SHORT, CONSTANT_WORD),
        Addressing::Memory(n) => by_width(n, ADDRESS_BYTE, ADDRESS_SHORT, ADDRESS_WORD),
        Addressing::Top => STACK_TOP,
        Addressing::Local(n) => by_width(n, LOCAL_BYTE, LOCAL_SHORT, LOCAL_WORD),
        Addressing::Ram(n) => by_width(n, RAM_BYTE, RAM_SHORT, RAM_WORD),
    }
}

/// One of three numbers by a width of 1, 2 or 4 bytes.
fn by_width(n: u32, one: u32, two: u32, four: u32) -> u32
    ensures { result ≡ by_width n one two four }
{
    match n {
        1 => one,
        2 => two,
        _ => four,
    }
}

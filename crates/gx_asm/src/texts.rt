//! Instructions as lines of a text, and the code of a text.
//!
//! `assemble` is `assembled` of specs/Texts, so that it gives a code exactly where the text spells it. The text is read
//! once, from its head to its end; where memory runs out the rest is read all the same, since a line that isn't
//! understood comes before want of memory. Nothing but the code takes memory.
ghost use Rattle.std.specs.Prelude.{◌≡◌, ◌<◌, ◌≤◌, ◌+◌, ◌^◌, ◌==◌, ◌++◌, ◌↔◌, ℕ, true, List, [], ◌∷◌, Ok, IfOk, IfSome};
ghost use Rattle.std.specs.Prelude.{IfNone, length};
ghost use Rattle.std.specs.List.{count_by, position_or_len, slice_split};
ghost use Rattle.gx_words.specs.Results.{Is, Gives};
ghost use Rattle.gx_rows.specs.Table.{row_at, row_count};
ghost use Rattle.gx_asm.specs.Instructions.{IsWritten, Spells, bytes_of, operand_count};
ghost use Rattle.gx_asm.specs.Texts.{assembled, bytes_spelled, data_in, digit_value, instruction_in, is_blank};
ghost use Rattle.gx_asm.specs.Texts.{lacks_line_feed};
ghost use Rattle.gx_asm.specs.Texts.{mode_with, operand_in, operands_in, place_in};
ghost use Rattle.gx_asm.specs.Views.{seen_instruction};

use crate::faults::{AsmFault, LineFault};
use crate::instruction::{Instruction, fits_kind};
use crate::names::place_named;
use arrayvec::ArrayVec;
use gx_rows::modes::{Addressing, Kind, kind_of};
use gx_rows::row_at;
use gx_words::Bytes;
use std::alloc::Global;

/// What stands before each operand.
const BLANK: u8 = b' ';

/// What ends a line.
const LINE_FEED: u8 = b'\n';

/// The sign of a constant.
const CONSTANT_SIGN: u8 = b'#';

/// The sign of an address.
const MEMORY_SIGN: u8 = b'@';

/// The sign of a local.
const LOCAL_SIGN: u8 = b'%';

/// The sign of a RAM address.
const RAM_SIGN: u8 = b'!';

/// The code of a text of instructions, one in each line. The text is shorter than 2^32 bytes.
pub fn assemble(alloc: Global, text: &[u8]) -> Result<Bytes, AsmFault>
    requires { length text.now < 2 ^ 32 }
    ensures value { Gives AsmFault.NoMemory (λ code. code) result (assembled text.now) }
    ensures memory { result ≡ Err AsmFault.NoMemory → 0 < length text.now }
    ensures spelled { (code : List ℕ) → (assembled text.now ≡ Ok code) ↔ Spells text.now code }
{
    if lacks_line_feed(text) {
        return Err(AsmFault::Cut);
    }
    let mut code = Bytes::new(alloc);
    let mut whole = true;
    let mut number = 0u32;
    let mut rest = text;
    while let Some((line, after)) = split_once(rest, LINE_FEED) {
        number += 1;
        match read_line(line) {
            Ok(instruction) => whole = add_bytes(&instruction, &mut code, whole),
            Err(fault) => return Err(fault.in_line(number)),
        }
        rest = after;
    }
    if whole {
        Ok(code)
    } else {
        Err(AsmFault::NoMemory)
    }
}

/// Adds the bytes of an instruction to a code that is whole so far. The answer says whether it is whole then.
fn add_bytes(instruction: &Instruction, code: &mut Bytes, whole: bool) -> bool
    requires { IsWritten (seen_instruction instruction.now) }
    ensures { result ≡ true → (whole ≡ true) × (code.new ≡ code.old ++ bytes_of (seen_instruction instruction.now)) }
{
    whole && instruction.push_bytes(code).is_ok()
}

/// Whether the last byte isn't the end of a line.
fn lacks_line_feed(text: &[u8]) -> bool
    ensures { result ≡ lacks_line_feed text.now }
{
    !text.is_empty() && text[text.len() - 1] != LINE_FEED
}

/// The instruction of a line.
pub(crate) fn read_line(line: &[u8]) -> Result<Instruction, LineFault>
    ensures value { Is seen_instruction result (instruction_in line.now) }
    ensures whole { IfOk result (λ i. IsWritten (seen_instruction i)) }
{
    match split_once(line, BLANK) {
        Some((name, words)) => {
            let place = read_name(name, count_blanks(words) + 1)?;
            read_operands(place, words)
        }
        None => {
            let place = read_name(line, 0)?;
            Ok(Instruction {
                place,
                modes: ArrayVec::new(),
                operand_data: ArrayVec::new(),
            })
        }
    }
}

/// The place of the instruction that has a name and so many operands.
#[tactic(auto, using(crate::proofs::ReadingTurns::name_cases))]
fn read_name(name: &[u8], count: usize) -> Result<usize, LineFault>
    ensures value { Is (λ place. place) result (place_in name.now count) }
    ensures within { IfOk result (λ place. place < row_count) }
{
    let Some(place) = place_named(name) else {
        return Err(LineFault::BadName);
    };
    let row = row_at(place);
    if count == usize::from(row.loads + row.stores) {
        Ok(place)
    } else {
        Err(LineFault::Count)
    }
}

/// The instruction at a place of the table, by the words of its operands, which stand between blanks.
fn read_operands(place: usize, words: &[u8]) -> Result<Instruction, LineFault>
    requires place { place < row_count }
    requires count { length (slice_split is_blank words.now) ≡ operand_count (row_at place) }
    ensures value { Is (λ i. (i.modes.items, i.operand_data.items)) result
        (operands_in (row_at place) 0 (slice_split is_blank words.now)) }
    ensures place { IfOk result (λ i. i.place ≡ place) }
{
    let row = row_at(place);
    let mut modes = ArrayVec::new();
    let mut operand_data = ArrayVec::new();
    let mut rest = words;
    while let Some((word, after)) = split_once(rest, BLANK) {
        let (mode, bytes) = read_operand(kind_of(row, modes.len() as u32), word)?;
        modes.push(mode);
        push_all(&mut operand_data, bytes.as_slice());
        rest = after;
    }
    let (mode, bytes) = read_operand(kind_of(row, modes.len() as u32), rest)?;
    modes.push(mode);
    push_all(&mut operand_data, bytes.as_slice());
    Ok(Instruction {
        place,
        modes,
        operand_data,
    })
}

/// The mode and the data of an operand by its word.
#[tactic(auto, using(crate::proofs::ReadingTurns::word_cases))]
fn read_operand(kind: Kind, word: &[u8]) -> Result<(Addressing, ArrayVec<u8, 4>), LineFault>
    ensures { Is (λ operand. (operand.0, operand.1.items)) result (operand_in kind word.now) }
{
    if word == "z".as_bytes() {
        return Ok((Addressing::Zero, ArrayVec::new()));
    }
    if word == "sp".as_bytes() {
        return Ok((Addressing::Top, ArrayVec::new()));
    }
    let Some((sign, digits)) = word.split_first() else {
        return Err(LineFault::BadOperand);
    };
    read_data(kind, *sign, digits)
}

/// The mode and the data of a sign and digits.
#[tactic(auto, using(crate::proofs::ReadingTurns::data_cases))]
fn read_data(
    kind: Kind,
    sign: u8,
    digits: &[u8],
) -> Result<(Addressing, ArrayVec<u8, 4>), LineFault>
    ensures { Is (λ operand. (operand.0, operand.1.items)) result (data_in kind (sign ∷ digits.now)) }
{
    if digits.len() > 8 {
        return Err(LineFault::BadOperand);
    }
    let bytes = read_bytes(digits)?;
    let mode = mode_with(sign, bytes.len() as u32)?;
    if fits_kind(kind, mode) {
        Ok((mode, bytes))
    } else {
        Err(LineFault::BadOperand)
    }
}

/// The bytes that at most eight digits spell, by two.
#[tactic(auto, using(crate::proofs::ReadingTurns::digit_turns))]
fn read_bytes(digits: &[u8]) -> Result<ArrayVec<u8, 4>, LineFault>
    requires { length digits.now ≤ 8 }
    ensures { Is (λ bytes. bytes.items) result (bytes_spelled digits.now) }
{
    let mut bytes = ArrayVec::new();
    let mut rest = digits;
    while let Some((high, after)) = rest.split_first() {
        let Some((low, after)) = after.split_first() else {
            return Err(LineFault::BadOperand);
        };
        let high = digit_value(*high)?;
        let low = digit_value(*low)?;
        bytes.push(16 * high + low);
        rest = after;
    }
    Ok(bytes)
}

/// What a hexadecimal digit is worth.
fn digit_value(digit: u8) -> Result<u8, LineFault>
    ensures value { result ≡ digit_value digit }
    ensures range { IfOk result (λ value. value < 16) }
{
    match digit {
        b'0'..=b'9' => Ok(digit - b'0'),
        b'a'..=b'f' => Ok(digit - b'a' + 10),
        _ => Err(LineFault::BadOperand),
    }
}

/// The mode of a sign and so many bytes of data.
fn mode_with(sign: u8, width: u32) -> Result<Addressing, LineFault>
    ensures { result ≡ mode_with sign width }
{
    if !matches!(width, 1 | 2 | 4) {
        return Err(LineFault::BadOperand);
    }
    match sign {
        CONSTANT_SIGN => Ok(Addressing::Constant(width)),
        MEMORY_SIGN => Ok(Addressing::Memory(width)),
        LOCAL_SIGN => Ok(Addressing::Local(width)),
        RAM_SIGN => Ok(Addressing::Ram(width)),
        _ => Err(LineFault::BadOperand),
    }
}

/// Adds bytes at the end of data.
fn push_all(operand_data: &mut ArrayVec<u8, 32>, bytes: &[u8])
    requires { length operand_data.old.items + length bytes.now ≤ 32 }
    ensures { operand_data.new.items ≡ operand_data.old.items ++ bytes.now }
{
    for b in bytes {
        operand_data.push(*b);
    }
}

/// What stands before a byte and what behind it, where it first stands.
#[tactic(auto, using(crate::proofs::ReadingTurns::parts))]
fn split_once(bytes: &[u8], mark: u8) -> Option<(&[u8], &[u8])>
    ensures found { IfSome result (λ parts. slice_split (λ b. b == mark) bytes.now
        ≡ parts.0.now ∷ slice_split (λ b. b == mark) parts.1.now) }
    ensures shorter { IfSome result (λ parts. length parts.0.now + length parts.1.now + 1 ≡ length bytes.now) }
    ensures missing { IfNone result (slice_split (λ b. b == mark) bytes.now ≡ bytes.now ∷ []) }
{
    let (before, from) = bytes.split_at(position_or_len(bytes, mark));
    match from.split_first() {
        Some((_, after)) => Some((before, after)),
        None => None,
    }
}

/// Where a byte first stands; the length where it doesn't.
fn position_or_len(bytes: &[u8], mark: u8) -> usize
    ensures { result ≡ position_or_len (λ b. b == mark) bytes.now }
{
    for (i, b) in bytes.iter().enumerate() {
        if *b == mark {
            return i;
        }
    }
    bytes.len()
}

/// How many blanks a line has.
fn count_blanks(line: &[u8]) -> usize
    ensures { result ≡ count_by is_blank line.now }
{
    let mut count = 0;
    for b in line {
        if *b == BLANK {
            count += 1;
        }
    }
    count
}

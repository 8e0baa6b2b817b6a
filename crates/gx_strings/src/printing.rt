//! The next item of a string or number.
ghost use Rattle.std.specs.Prelude.{◌≡◌, ◌+◌, ◌<◌, ◌^◌, take, length, slice_get, IsTrue, IfOk};
ghost use Rattle.std.specs.Prelude.{IfSome};
ghost use Rattle.std.specs.Int.{w32, cast_signed};
ghost use Rattle.std.specs.Fmt.{signed_decimal};
ghost use Rattle.gx_words.specs.Numbers.{is_bit};
ghost use Rattle.gx_words.specs.Faults.{Reads};
ghost use Rattle.gx_words.specs.declared.strings.PrintKind.TheVariants.{Number};
ghost use Rattle.gx_strings.specs.Items.{plain_item, compressed_item, number_item, next_item};
ghost use Rattle.gx_strings.specs.Held.{HasBit, HasBits, Tells};

use crate::nodes::{node_char, node_item, walk};
use crate::{CharOrEnd, Item, rom};
use gx_pages::Pages;
use gx_words::{Fault, PrintKind, Printing};
use itoa::Buffer;
use std::alloc::Allocator;

/// The byte at the place, where a zero byte is the end.
#[inline(always)]
#[tactic(auto, unfolding(crate::specs::Items::plain_item))]
fn byte_item<A: Allocator + Clone>(
    rom: &[u8],
    memory: &Pages<A>,
    printing: &Printing,
) -> Result<Item, Fault>
    requires rom { rom.now ≡ take (length rom.now) memory.now }
    requires bit { HasBit printing.now }
    ensures value { Reads (λ item. item) result (plain_item 1 memory.now printing.now) }
    ensures bits { IfOk result HasBits }
{
    let value = rom::number(rom, memory, 1, printing.at)?;
    if value == 0 {
        return Ok(Item::End);
    }
    let next = Printing {
        at: printing.at + 1,
        ..*printing
    };
    Ok(Item::Char { value, next })
}

/// What the node gives to which the bits lead from the root of the table.
#[inline(always)]
#[tactic(auto, unfolding(crate::specs::Items::compressed_item))]
fn compressed_item<A: Allocator + Clone>(
    rom: &[u8],
    memory: &Pages<A>,
    table: u32,
    printing: &Printing,
) -> Result<Item, Fault>
    requires rom { rom.now ≡ take (length rom.now) memory.now }
    requires bit { IsTrue (is_bit printing.now.bit) }
    ensures value { Reads (λ item. item) result (compressed_item memory.now table printing.now) }
    ensures bits { IfOk result HasBits }
{
    if table == 0 {
        return Err(Fault::BadString);
    }
    let root = rom::number(rom, memory, 4, table.wrapping_add(8))?;
    let from = 8 * u64::from(printing.at) + u64::from(printing.bit);
    let end = walk(rom, memory, root, from)?;
    let place = from + end.used;
    let next = Printing {
        at: (place / 8) as u32,
        bit: (place % 8) as u32,
        ..*printing
    };
    node_item(memory, end.node, next)
}

/// The word at the place, where a zero word is the end.
#[inline(always)]
#[tactic(auto, unfolding(crate::specs::Items::plain_item))]
fn word_item<A: Allocator + Clone>(
    rom: &[u8],
    memory: &Pages<A>,
    printing: &Printing,
) -> Result<Item, Fault>
    requires rom { rom.now ≡ take (length rom.now) memory.now }
    requires bit { HasBit printing.now }
    ensures value { Reads (λ item. item) result (plain_item 4 memory.now printing.now) }
    ensures bits { IfOk result HasBits }
{
    let value = rom::number(rom, memory, 4, printing.at)?;
    if value == 0 {
        return Ok(Item::End);
    }
    let next = Printing {
        at: printing.at + 4,
        ..*printing
    };
    Ok(Item::Char { value, next })
}

/// The character of the number's decimal text at the index, None past the text.
#[inline(always)]
fn digit(printing: &Printing) -> Option<u32>
    ensures value { result ≡ slice_get (signed_decimal (cast_signed w32 printing.now.at)) printing.now.bit }
    ensures fits { IfSome result (λ c. printing.now.bit + 1 < 2 ^ 32) }
{
    let mut buffer = Buffer::new();
    let text = buffer.format(printing.at.cast_signed()).as_bytes();
    match text.get(printing.bit as usize) {
        None => None,
        Some(digit) => Some(u32::from(*digit)),
    }
}

/// The character of the number's decimal text at the index; past the text is the end.
#[tactic(auto, unfolding(crate::specs::Items::number_item))]
fn number_item(printing: &Printing) -> Item
    requires { printing.now.kind ≡ Number }
    ensures value { result ≡ number_item printing.now }
    ensures bits { HasBits result }
{
    match digit(printing) {
        None => Item::End,
        Some(value) => Item::Char {
            value,
            next: Printing {
                bit: printing.bit + 1,
                ..*printing
            },
        },
    }
}

/// The next item of what is printed, under the decoding table at `table`. `rom` is the first bytes of memory, as many
/// of them as lie in one slice.
///
/// `BadAddress` where a byte that is looked at isn't in memory, or where a compressed string has no
/// bit left; `BadFunction` where a reference is to a function of no known type; `BadString` where
/// it is to neither a string nor a function, or the table is 0 or has a node of no known type.
#[inline(always)]
#[tactic(auto, unfolding(crate::specs::Items::next_item))]
pub fn next_item<A: Allocator + Clone>(
    rom: &[u8],
    memory: &Pages<A>,
    table: u32,
    printing: &Printing,
) -> Result<Item, Fault>
    requires rom { rom.now ≡ take (length rom.now) memory.now }
    requires bit { HasBit printing.now }
    ensures value { Reads (λ item. item) result (next_item memory.now table printing.now) }
    ensures bits { IfOk result HasBits }
{
    match printing.kind {
        PrintKind::E0 => byte_item(rom, memory, printing),
        PrintKind::E1 => compressed_item(rom, memory, table, printing),
        PrintKind::E2 => word_item(rom, memory, printing),
        PrintKind::Number => Ok(number_item(printing)),
    }
}

/// The character that a compressed string has next, or its end.
#[inline(always)]
#[tactic(auto, unfolding(crate::specs::Items::compressed_item))]
fn compressed_char<A: Allocator + Clone>(
    rom: &[u8],
    memory: &Pages<A>,
    table: u32,
    printing: &Printing,
) -> CharOrEnd
    requires rom { rom.now ≡ take (length rom.now) memory.now }
    requires bit { IsTrue (is_bit printing.now.bit) }
    ensures { Tells result printing.now (compressed_item memory.now table printing.now) }
{
    if table == 0 {
        return CharOrEnd::Neither;
    }
    let Ok(root) = rom::number(rom, memory, 4, table.wrapping_add(8)) else {
        return CharOrEnd::Neither;
    };
    let from = 8 * u64::from(printing.at) + u64::from(printing.bit);
    match walk(rom, memory, root, from) {
        Ok(end) => node_char(rom, memory, end.node, from + end.used),
        Err(_) => CharOrEnd::Neither,
    }
}

/// The next character of what is printed, or its end.
#[inline(always)]
#[tactic(auto, unfolding(crate::proofs::Opened::each_item))]
pub fn next_char<A: Allocator + Clone>(
    rom: &[u8],
    memory: &Pages<A>,
    table: u32,
    printing: &Printing,
) -> CharOrEnd
    requires rom { rom.now ≡ take (length rom.now) memory.now }
    requires bit { HasBit printing.now }
    ensures { Tells result printing.now (next_item memory.now table printing.now) }
{
    match printing.kind {
        PrintKind::E0 => match rom::number(rom, memory, 1, printing.at) {
            Ok(0) => CharOrEnd::End,
            Ok(value) => CharOrEnd::Char {
                value,
                at: printing.at + 1,
                bit: printing.bit,
            },
            Err(_) => CharOrEnd::Neither,
        },
        PrintKind::E1 => compressed_char(rom, memory, table, printing),
        PrintKind::E2 => match rom::number(rom, memory, 4, printing.at) {
            Ok(0) => CharOrEnd::End,
            Ok(value) => CharOrEnd::Char {
                value,
                at: printing.at + 4,
                bit: printing.bit,
            },
            Err(_) => CharOrEnd::Neither,
        },
        PrintKind::Number => match digit(printing) {
            Some(value) => CharOrEnd::Char {
                value,
                at: printing.at,
                bit: printing.bit + 1,
            },
            None => CharOrEnd::End,
        },
    }
}

//! The nodes of a decoding table.
ghost use Rattle.std.specs.Prelude.{◌≡◌, ◌⊎◌, ◌+◌, ◌-◌, ◌*◌, ◌%◌, ◌<◌, ◌≤◌, ◌^◌, take, drop, length, slice_index};
ghost use Rattle.std.specs.Prelude.{if◌then◌else◌, Ok, IsTrue, IfOk, OnOk};
ghost use Rattle.gx_pages.specs.Memory.{number_in};
ghost use Rattle.gx_words.specs.Numbers.{is_bit};
ghost use Rattle.gx_words.specs.Faults.{Reads};
ghost use Rattle.gx_words.specs.Constants.{ceiling};
ghost use Rattle.gx_words.specs.declared.strings.Printing.{Printing as APrinting};
ghost use Rattle.gx_strings.specs.Bits.{bit, bits, with_index};
ghost use Rattle.gx_strings.specs.Nodes.{walk, direct, indirect, node_item};
ghost use Rattle.gx_strings.specs.Held.{HasBit, HasBits, Tells};

use crate::node_types::{
    BRANCH, C_STYLE_STRING, C_STYLE_UNICODE_STRING, DOUBLE_INDIRECT_REFERENCE,
    DOUBLE_INDIRECT_REFERENCE_WITH_ARGUMENTS, INDIRECT_REFERENCE,
    INDIRECT_REFERENCE_WITH_ARGUMENTS, SINGLE_CHARACTER, SINGLE_UNICODE_CHARACTER,
    STRING_TERMINATOR,
};
use crate::objects::{as_inner, from_start, reference};
use crate::{CharOrEnd, Item, rom};
use gx_pages::Pages;
use gx_words::{Fault, PrintKind, Printing, word_at};
use std::alloc::Allocator;

/// A bit of a byte, bit 0 being the lowest.
#[inline(always)]
pub fn bit(byte: u32, i: u32) -> bool
    requires { IsTrue (is_bit i) }
    ensures { result ≡ bit byte i }
{
    (byte >> i) % 2 == 1
}

/// The bytes of a node's page from the node on, so that one look-up serves for all of the node that lies in it.
#[inline(always)]
#[tactic(auto, unfolding(gx_pages::specs::Memory::number_in))]
fn node_bytes<A: Allocator + Clone>(memory: &Pages<A>, node: u32) -> Result<&[u8], Fault>
    ensures value { Reads (λ bytes. slice_index bytes.now 0) result (number_in 1 memory.now node) }
    ensures bytes { IfOk result (λ bytes. bytes.now ≡ take (256 - node % 256) (drop node memory.now)) }
    ensures some { IfOk result (λ bytes. 0 < length bytes.now) }
    ensures low { OnOk result (node < ceiling) }
{
    if node >= memory.size() {
        return Err(Fault::BadAddress);
    }
    Ok(memory.bytes_in_page(node))
}

/// The node to which a bit leads from a branch.
#[inline(always)]
#[tactic(auto, unfolding(gx_pages::specs::Memory::number_in))]
fn child<A: Allocator + Clone>(
    memory: &Pages<A>,
    node: u32,
    bytes: &[u8],
    one: bool,
) -> Result<u32, Fault>
    requires bytes { bytes.now ≡ take (256 - node % 256) (drop node memory.now) }
    requires low { node < ceiling }
    ensures { Reads (λ v. v) result (number_in 4 memory.now (if one then node + 5 else node + 1)) }
{
    let at = if one { 5 } else { 1 };
    if at + 4 <= bytes.len() {
        Ok(word_at(bytes, at))
    } else {
        memory.try_number(4, if one { node + 5 } else { node + 1 })
    }
}

/// Where a walk ends, and how many bits it used.
#[derive(Clone, Copy)]
pub struct Ending {
    pub node: u32,
    pub used: u64,
}

/// Walks from the root, a bit at each branch, to the first node that is no branch.
///
/// `from` is the index of the first bit among those of memory. It is `BadAddress` where a node or
/// an address that is taken isn't in memory, or where the bits run out.
#[inline(never)]
#[tactic(auto, using(crate::proofs::Walks::turns))]
fn walk_in_memory<A: Allocator + Clone>(
    memory: &Pages<A>,
    root: u32,
    from: u64,
) -> Result<Ending, Fault>
    requires { from < 2 ^ 35 }
    ensures value { Reads (λ e. (e.node, e.used)) result (walk memory.now root 0 (drop from (bits memory.now))) }
    ensures used { IfOk result (λ e. (e.used ≡ 0) ⊎ (from + e.used ≤ 8 * ceiling)) }
{
    let size = u64::from(memory.size());
    let mut node = root;
    let mut used = 0;
    'bits: loop {
        let bytes = node_bytes(memory, node)?;
        if u32::from(bytes[0]) != BRANCH {
            return Ok(Ending { node, used });
        }
        let place = from + used;
        if place / 8 >= size {
            return Err(Fault::BadAddress);
        }
        let one = bit(memory.byte((place / 8) as u32), (place % 8) as u32);
        node = child(memory, node, bytes, one)?;
        used += 1;
    }
}

/// The same, in ROM where all that is read lies there.
#[inline(always)]
#[tactic(auto, using(crate::proofs::Roms::in_rom))]
pub fn walk<A: Allocator + Clone>(
    rom: &[u8],
    memory: &Pages<A>,
    root: u32,
    from: u64,
) -> Result<Ending, Fault>
    requires rom { rom.now ≡ take (length rom.now) memory.now }
    requires from { from < 2 ^ 35 }
    ensures value { Reads (λ e. (e.node, e.used)) result (walk memory.now root 0 (drop from (bits memory.now))) }
    ensures used { IfOk result (λ e. (e.used ≡ 0) ⊎ (from + e.used ≤ 8 * ceiling)) }
{
    let _size = memory.size(); // at most the largest memory, and ROM is no larger
    match rom::walk(rom, root, from) {
        Some(end) => Ok(end),
        None => walk_in_memory(memory, root, from),
    }
}

/// The address in a node.
fn direct<A: Allocator + Clone>(memory: &Pages<A>, node: u32) -> Result<u32, Fault>
    requires { node ≤ ceiling }
    ensures { Reads (λ v. v) result (direct memory.now node) }
{
    memory.try_number(4, node + 1)
}

/// The address that stands at the address in a node.
fn indirect<A: Allocator + Clone>(memory: &Pages<A>, node: u32) -> Result<u32, Fault>
    requires { node ≤ ceiling }
    ensures { Reads (λ v. v) result (indirect memory.now node) }
{
    let at = direct(memory, node)?;
    memory.try_number(4, at)
}

/// What a node that is no branch gives; `next` is the place after the bits that led there.
#[inline(always)]
#[tactic(auto, unfolding(crate::specs::Nodes::node_item))]
pub fn node_item<A: Allocator + Clone>(
    memory: &Pages<A>,
    node: u32,
    next: Printing,
) -> Result<Item, Fault>
    requires { HasBit next }
    ensures value { Reads (λ item. item) result (node_item memory.now node next) }
    ensures bits { IfOk result HasBits }
{
    let type_byte = memory.try_number(1, node)?;
    match type_byte {
        STRING_TERMINATOR => Ok(Item::End),
        SINGLE_CHARACTER => {
            let value = memory.try_number(1, node + 1)?;
            Ok(Item::Char { value, next })
        }
        C_STYLE_STRING => Ok(Item::Sub {
            back: next,
            inner: as_inner(from_start(PrintKind::E0, node + 1)),
        }),
        SINGLE_UNICODE_CHARACTER => {
            let value = memory.try_number(4, node + 1)?;
            Ok(Item::Char { value, next })
        }
        C_STYLE_UNICODE_STRING => Ok(Item::Sub {
            back: next,
            inner: as_inner(from_start(PrintKind::E2, node + 1)),
        }),
        INDIRECT_REFERENCE => {
            let object = direct(memory, node)?;
            reference(memory, next, object, None)
        }
        DOUBLE_INDIRECT_REFERENCE => {
            let object = indirect(memory, node)?;
            reference(memory, next, object, None)
        }
        INDIRECT_REFERENCE_WITH_ARGUMENTS => {
            let object = direct(memory, node)?;
            reference(memory, next, object, Some(node + 5))
        }
        DOUBLE_INDIRECT_REFERENCE_WITH_ARGUMENTS => {
            let object = indirect(memory, node)?;
            reference(memory, next, object, Some(node + 5))
        }
        _ => Err(Fault::BadString),
    }
}

/// What a node that is no branch gives, where it is a character or the end. The bits that led there end at a place.
#[inline(always)]
#[tactic(auto, using(crate::proofs::Chars::other_node), unfolding(crate::specs::Nodes::node_item))]
pub fn node_char<A: Allocator + Clone>(
    rom: &[u8],
    memory: &Pages<A>,
    node: u32,
    place: u64,
) -> CharOrEnd
    requires rom { rom.now ≡ take (length rom.now) memory.now }
    requires place { place < 2 ^ 35 }
    ensures { (p : APrinting) → Tells result p (node_item memory.now node (with_index p place)) }
{
    let Ok(type_byte) = rom::number(rom, memory, 1, node) else {
        return CharOrEnd::Neither;
    };
    let value = match type_byte {
        STRING_TERMINATOR => return CharOrEnd::End,
        SINGLE_CHARACTER => rom::number(rom, memory, 1, node + 1),
        SINGLE_UNICODE_CHARACTER => rom::number(rom, memory, 4, node + 1),
        _ => return CharOrEnd::Neither,
    };
    match value {
        Ok(value) => CharOrEnd::Char {
            value,
            at: (place / 8) as u32,
            bit: (place % 8) as u32,
        },
        Err(_) => CharOrEnd::Neither,
    }
}

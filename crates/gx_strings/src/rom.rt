//! Reads of ROM: the first bytes of memory, which lie in one slice, so that each takes one comparison.
//!
//! Decoding tables and strings nearly always lie there. `number` reads memory where a number doesn't lie in ROM; `walk`
//! takes ROM for the whole of memory, and answers None where something that it reads isn't there.
ghost use Rattle.std.specs.Prelude.{◌≡◌, ◌↔◌, ◌⊎◌, ◌+◌, ◌-◌, ◌*◌, ◌/◌, ◌%◌, ◌<◌, ◌≤◌, ◌^◌, take, drop, length, Ok};
ghost use Rattle.std.specs.Prelude.{if◌then◌else◌, Err, None, true, IfSome, IsSome, OnOk};
ghost use Rattle.gx_pages.specs.Memory.{number_in};
ghost use Rattle.gx_words.specs.Numbers.{IsWidth, byte};
ghost use Rattle.gx_words.specs.Constants.{ceiling};
ghost use Rattle.gx_words.specs.Faults.{Reads};
ghost use Rattle.gx_words.specs.declared.faults.Fault.TheVariants.{BadAddress};
ghost use Rattle.gx_strings.specs.Bits.{bits};
ghost use Rattle.gx_strings.specs.Nodes.{walk};

use crate::node_types::BRANCH;
use crate::nodes::Ending;
use gx_pages::Pages;
use gx_words::{Fault, number_at, word_at};
use std::alloc::Allocator;

/// The bytes of a branch, as many as any node has that is read here: its type and two addresses.
const NODE_LEN: usize = 9;

/// Whether a node lies in ROM, of whatever type it is that is read here.
#[inline(always)]
fn has_node(rom: &[u8], node: u32) -> bool
    ensures { result ≡ true → node + 9 ≤ length rom.now }
{
    node as usize + NODE_LEN <= rom.len()
}

/// The type of a node.
#[inline(always)]
#[tactic(auto, unfolding(gx_pages::specs::Memory::number_in))]
fn type_of(rom: &[u8], node: u32) -> u32
    requires { node + 9 ≤ length rom.now }
    ensures { number_in 1 rom.now node ≡ Ok result }
{
    u32::from(rom[node as usize])
}

/// The node to which a bit leads from a branch.
#[inline(always)]
#[tactic(auto, unfolding(gx_pages::specs::Memory::number_in))]
fn child(rom: &[u8], node: u32, one: bool) -> u32
    requires { node + 9 ≤ length rom.now }
    ensures { number_in 4 rom.now (if one then node + 5 else node + 1) ≡ Ok result }
{
    let at = node as usize;
    word_at(rom, if one { at + 5 } else { at + 1 })
}

/// The byte of a bit by its index, shifted so that the bit is its lowest; None where it isn't in ROM.
#[inline(always)]
fn bits_from(rom: &[u8], place: u64) -> Option<u32>
    ensures value { IfSome result (λ v. v ≡ byte rom.now (place / 8) / 2 ^ (place % 8)) }
    ensures there { IsSome result ↔ (place / 8 < length rom.now) }
{
    let at = place / 8;
    if at >= rom.len() as u64 {
        return None;
    }
    Some(u32::from(rom[at as usize]) >> (place % 8) as u32)
}

/// The same for the next bit, where the byte of the one before is this.
#[inline(always)]
#[tactic(auto, using(crate::proofs::Walks::shifted))]
fn next_bits(rom: &[u8], bits: u32, place: u64) -> Option<u32>
    requires place { (0 < place) × (place < 2 ^ 36) }
    requires bits { bits ≡ byte rom.now ((place - 1) / 8) / 2 ^ ((place - 1) % 8) }
    requires there { (place - 1) / 8 < length rom.now }
    ensures value { IfSome result (λ v. v ≡ byte rom.now (place / 8) / 2 ^ (place % 8)) }
    ensures there { IsSome result ↔ (place / 8 < length rom.now) }
{
    if place % 8 == 0 {
        bits_from(rom, place)
    } else {
        Some(bits / 2)
    }
}

/// Walks from the root, a bit at each branch, to the first node that is no branch.
///
/// `from` is the index of the first bit among those of memory.
#[inline(always)]
#[tactic(auto, using(crate::proofs::Walks::turns))]
pub fn walk(rom: &[u8], root: u32, from: u64) -> Option<Ending>
    requires from { from < 2 ^ 35 }
    requires size { length rom.now ≤ ceiling }
    ensures value { IfSome result (λ e. walk rom.now root 0 (drop from (bits rom.now)) ≡ Ok (e.node, e.used)) }
    ensures node { IfSome result (λ e. e.node + 9 ≤ length rom.now) }
    ensures used { IfSome result (λ e. (e.used ≡ 0) ⊎ (from + e.used ≤ 8 * ceiling)) }
{
    let mut node = root;
    let mut place = from;
    let mut left = bits_from(rom, from)?;
    'bits: loop {
        if !has_node(rom, node) {
            return None;
        }
        if type_of(rom, node) != BRANCH {
            return Some(Ending {
                node,
                used: place - from,
            });
        }
        node = child(rom, node, left % 2 == 1);
        place += 1;
        left = next_bits(rom, left, place)?;
    }
}

/// The number of 1 or 4 bytes at an address of memory; `BadAddress` where one of them isn't there.
#[inline(always)]
#[tactic(auto, using(crate::proofs::Roms::numbers))]
pub fn number<A: Allocator + Clone>(
    rom: &[u8],
    memory: &Pages<A>,
    width: u32,
    at: u32,
) -> Result<u32, Fault>
    requires rom { rom.now ≡ take (length rom.now) memory.now }
    requires width { IsWidth width }
    ensures value { Reads (λ v. v) result (number_in width memory.now at) }
    ensures low { OnOk result (at + width ≤ ceiling) }
{
    let _size = memory.size(); // at most the largest memory
    if u64::from(at) + u64::from(width) <= rom.len() as u64 {
        return Ok(number_at(rom, width, at as usize));
    }
    match number_in_memory(memory, width, at) {
        Some(v) => Ok(v),
        None => Err(Fault::BadAddress),
    }
}

/// The same wherever it lies; None where one of the bytes isn't in memory.
#[tactic(auto, unfolding(gx_pages::specs::Memory::number_in))]
fn number_in_memory<A: Allocator + Clone>(memory: &Pages<A>, width: u32, at: u32) -> Option<u32>
    requires { IsWidth width }
    ensures value { IfSome result (λ v. number_in width memory.now at ≡ Ok v) }
    ensures none { result ≡ None → number_in width memory.now at ≡ Err BadAddress }
    ensures low { IfSome result (λ v. at + width ≤ ceiling) }
{
    if u64::from(at) + u64::from(width) <= u64::from(memory.size()) {
        Some(memory.number(width, at))
    } else {
        None
    }
}

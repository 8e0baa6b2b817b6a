//! One probe: the comparison of the key with that of one struct.
//!
//! No byte is copied; where the key has no bytes, none is looked at.
ghost use Rattle.std.specs.Prelude.{◌≡◌, ◌+◌, ◌<◌, IsTrue, length, slice_index, ◌==◌};
ghost use Rattle.std.specs.List.{list_all};
ghost use Rattle.std.specs.Str.{bytes_eq};
ghost use Rattle.std.specs.Ordering.{nat_cmp};
ghost use Rattle.std.specs.Cmp.Lexicographic.{slice_cmp};
ghost use Rattle.gx_words.specs.Faults.{Reads};
ghost use Rattle.gx_words.specs.Numbers.{byte};
ghost use Rattle.gx_search.specs.Constants.{key_indirect, zero_key_terminates};
ghost use Rattle.gx_search.specs.Keys.{has_option, has_size, is_inside, sought_key, key_at, can_probe};
ghost use Rattle.gx_search.specs.Keys.{probe, compared};

use crate::{Ask, KEY_INDIRECT, ZERO_KEY_TERMINATES};
use gx_pages::Pages;
use gx_words::{Fault, word_bytes};
use std::alloc::Allocator;
use std::cmp::Ordering;

/// What a probe sees.
#[derive(Clone, Copy, Debug, PartialEq, Eq)]
pub enum Seen {
    /// The key.
    Match,
    /// Zeros that end the search.
    Zero,
    /// Another key.
    Other,
}

/// Whether the key is at an address.
#[inline(always)]
fn is_indirect(ask: &Ask) -> bool
    ensures { result ≡ has_option ask.now key_indirect }
{
    ask.has(KEY_INDIRECT)
}

/// Whether zeros end the search.
#[inline(always)]
fn stops_at_zero(ask: &Ask) -> bool
    ensures { result ≡ has_option ask.now zero_key_terminates }
{
    ask.has(ZERO_KEY_TERMINATES)
}

/// Whether the key has a size that it may have.
pub fn has_size(ask: &Ask) -> bool
    ensures { result ≡ has_size ask.now }
{
    is_indirect(ask) || matches!(ask.key_size, 1 | 2 | 4)
}

/// Whether so many bytes from an address on are in memory.
#[inline(always)]
fn is_inside<A: Allocator + Clone>(memory: &Pages<A>, at: u32, count: u32) -> bool
    ensures { result ≡ is_inside memory.now at count }
{
    count == 0 || u64::from(at) + u64::from(count) <= u64::from(memory.size())
}

/// Whether all bytes are in memory that the probe of a struct looks at.
#[inline(always)]
fn can_probe<A: Allocator + Clone>(memory: &Pages<A>, ask: &Ask, at: u32) -> bool
    ensures { result ≡ can_probe memory.now ask.now at }
{
    (!is_indirect(ask) || is_inside(memory, ask.key, ask.key_size))
        && is_inside(memory, at.wrapping_add(ask.key_offset), ask.key_size)
}

/// The byte so many places after an address.
#[inline(always)]
fn byte_after<A: Allocator + Clone>(memory: &Pages<A>, at: u32, i: u32) -> u32
    requires { at + i < length memory.now }
    ensures { result ≡ byte memory.now (at + i) }
{
    let _size = memory.size(); // memory ends below 2^32
    memory.byte(at + i)
}

/// A byte of the key.
#[inline(always)]
fn sought_byte<A: Allocator + Clone>(memory: &Pages<A>, ask: &Ask, at: u32, i: u32) -> u32
    requires there { IsTrue (can_probe memory.now ask.now at) }
    requires sized { IsTrue (has_size ask.now) }
    requires inside { i < ask.now.key_size }
    ensures { result ≡ slice_index (sought_key memory.now ask.now) i }
{
    if is_indirect(ask) {
        byte_after(memory, ask.key, i)
    } else {
        u32::from(word_bytes(ask.key)[(4 - ask.key_size + i) as usize])
    }
}

/// A byte of the key of a struct.
#[inline(always)]
fn key_byte<A: Allocator + Clone>(memory: &Pages<A>, ask: &Ask, at: u32, i: u32) -> u32
    requires there { IsTrue (can_probe memory.now ask.now at) }
    requires inside { i < ask.now.key_size }
    ensures { result ≡ slice_index (key_at memory.now ask.now at) i }
{
    byte_after(memory, at.wrapping_add(ask.key_offset), i)
}

/// The order of the key and that of a struct.
#[inline(always)]
fn order<A: Allocator + Clone>(memory: &Pages<A>, ask: &Ask, at: u32) -> Ordering
    requires there { IsTrue (can_probe memory.now ask.now at) }
    requires sized { IsTrue (has_size ask.now) }
    ensures { result ≡ slice_cmp nat_cmp (sought_key memory.now ask.now) (key_at memory.now ask.now at) }
{
    for i in 0..ask.key_size {
        let key = sought_byte(memory, ask, at, i);
        let there = key_byte(memory, ask, at, i);
        if key != there {
            return key.cmp(&there);
        }
    }
    Ordering::Equal
}

/// Whether a struct has the key's last byte. Most keys that differ do so there.
#[inline(always)]
#[tactic(auto, using(crate::proofs::Comparing::last_is))]
fn has_last<A: Allocator + Clone>(memory: &Pages<A>, ask: &Ask, at: u32) -> bool
    requires there { IsTrue (can_probe memory.now ask.now at) }
    requires sized { IsTrue (has_size ask.now) }
    ensures { IsTrue (bytes_eq (sought_key memory.now ask.now) (key_at memory.now ask.now at)) → IsTrue result }
{
    if ask.key_size == 0 {
        return true;
    }
    let last = ask.key_size - 1;
    sought_byte(memory, ask, at, last) == key_byte(memory, ask, at, last)
}

/// Whether a struct has the key.
#[tactic(auto, using(crate::proofs::Comparing::equal_is))]
#[inline(always)]
fn is_match<A: Allocator + Clone>(memory: &Pages<A>, ask: &Ask, at: u32) -> bool
    requires there { IsTrue (can_probe memory.now ask.now at) }
    requires sized { IsTrue (has_size ask.now) }
    ensures { result ≡ bytes_eq (sought_key memory.now ask.now) (key_at memory.now ask.now at) }
{
    has_last(memory, ask, at) && order(memory, ask, at).is_eq()
}

/// Whether the key of a struct is zeros.
fn is_zero<A: Allocator + Clone>(memory: &Pages<A>, ask: &Ask, at: u32) -> bool
    requires { IsTrue (can_probe memory.now ask.now at) }
    ensures { result ≡ list_all (λ b. b == 0) (key_at memory.now ask.now at) }
{
    for i in 0..ask.key_size {
        if key_byte(memory, ask, at, i) != 0 {
            return false;
        }
    }
    true
}

/// The probe of the struct at an address.
#[tactic(auto, unfolding(crate::specs::Keys::probe))]
#[inline(always)]
pub fn probe<A: Allocator + Clone>(memory: &Pages<A>, ask: &Ask, at: u32) -> Result<Seen, Fault>
    requires { IsTrue (has_size ask.now) }
    ensures { Reads (λ seen. seen) result (probe memory.now ask.now at) }
{
    if !can_probe(memory, ask, at) {
        return Err(Fault::BadAddress);
    }
    if is_match(memory, ask, at) {
        Ok(Seen::Match)
    } else if stops_at_zero(ask) && is_zero(memory, ask, at) {
        Ok(Seen::Zero)
    } else {
        Ok(Seen::Other)
    }
}

/// The order of the key and that of the struct at an address.
#[tactic(auto, unfolding(crate::specs::Keys::compared))]
pub fn compared<A: Allocator + Clone>(
    memory: &Pages<A>,
    ask: &Ask,
    at: u32,
) -> Result<Ordering, Fault>
    requires { IsTrue (has_size ask.now) }
    ensures { Reads (λ order. order) result (compared memory.now ask.now at) }
{
    if can_probe(memory, ask, at) {
        Ok(order(memory, ask, at))
    } else {
        Err(Fault::BadAddress)
    }
}

//! The search of a row of rising keys, which halves it each time.
ghost use Rattle.std.specs.Prelude.{◌≡◌, ◌≢◌, ◌≤◌, ◌+◌, ◌/◌, IsTrue, Ok};
ghost use Rattle.gx_words.specs.Faults.{Reads};
ghost use Rattle.gx_search.specs.Keys.{has_size};
ghost use Rattle.gx_search.specs.Finding.{found_within, IsFoundInRow};
ghost use Rattle.gx_search.specs.Halving.{has_all_keys, struct_at, halving, binary};
ghost use Rattle.gx_search.specs.declared.asks.Found.TheVariants.{More};

use crate::keys::{compared, has_size};
use crate::{Ask, Found};
use gx_pages::Pages;
use gx_words::Fault;
use std::alloc::Allocator;
use std::cmp::Ordering;

/// Whether the keys of all structs are in memory.
fn has_all_keys<A: Allocator + Clone>(memory: &Pages<A>, ask: &Ask) -> bool
    ensures { result ≡ has_all_keys memory.now ask.now }
{
    if ask.count == 0 || ask.key_size == 0 {
        return true;
    }
    let last = u128::from(ask.start) + u128::from(ask.count - 1) * u128::from(ask.struct_size);
    last + u128::from(ask.key_offset) + u128::from(ask.key_size) <= u128::from(memory.size())
}

/// The address of the struct of an index.
fn struct_at(ask: &Ask, i: u32) -> u32
    ensures { result ≡ struct_at ask.now i }
{
    ask.start.wrapping_add(i.wrapping_mul(ask.struct_size))
}

/// The index in the middle of those from `low` to below `high`.
fn middle(low: u32, high: u32) -> u32
    requires { low ≤ high }
    ensures { result ≡ (low + high) / 2 }
{
    low + (high - low) / 2
}

/// Looks at the middle of what is left of the row.
#[tactic(auto, using(crate::proofs::Halvings::halvings))]
fn search_half<A: Allocator + Clone>(
    memory: &Pages<A>,
    ask: &Ask,
    bound: u64,
) -> Result<Found, Fault>
    requires { IsTrue (has_size ask.now) }
    ensures value { Reads (λ found. found) result
        (found_within bound (halving memory.now ask.now ask.now.count 0 ask.now.count)) }
    ensures found { IsFoundInRow memory.now ask.now result }
    ensures enough { 32 ≤ bound → result ≢ Ok More }
{
    let mut low = 0;
    let mut high = ask.count;
    let mut made = 0;
    while low < high {
        if made == bound {
            return Ok(Found::More);
        }
        let index = middle(low, high);
        match compared(memory, ask, struct_at(ask, index))? {
            Ordering::Less => high = index,
            Ordering::Equal => {
                return Ok(Found::At {
                    address: struct_at(ask, index),
                    index,
                    probes: made + 1,
                });
            }
            Ordering::Greater => low = index + 1,
        }
        made += 1;
    }
    Ok(Found::Nothing { probes: made })
}

/// The instruction binarysearch: a struct with the key, where the keys rise; `BadMode` for a key
/// size that isn't allowed, and `BadAddress` where not all keys of the row, or not the bytes of
/// the key, are in memory.
///
/// It is `More` exactly where more than `bound` probes would begin.
#[tactic(auto, unfolding(crate::proofs::Halvings::halving_row))]
pub fn binary<A: Allocator + Clone>(
    memory: &Pages<A>,
    ask: &Ask,
    bound: u64,
) -> Result<Found, Fault>
    ensures value { Reads (λ found. found) result (found_within bound (binary memory.now ask.now)) }
    ensures found { IsFoundInRow memory.now ask.now result }
    ensures enough { 32 ≤ bound → result ≢ Ok More }
{
    if !has_size(ask) {
        return Err(Fault::BadMode);
    }
    if !has_all_keys(memory, ask) {
        return Err(Fault::BadAddress);
    }
    search_half(memory, ask, bound)
}

//! The searches that look at one struct after another, in a row or in a list.
ghost use Rattle.std.specs.Prelude.{◌≡◌, IsTrue};
ghost use Rattle.gx_words.specs.Faults.{Reads, TakesNone};
ghost use Rattle.gx_search.specs.Keys.{has_size};
ghost use Rattle.gx_search.specs.Searches.{next_address, is_past, search_of};
ghost use Rattle.gx_search.specs.Finding.{found_within, IsFound};

use crate::keys::{Seen, has_size, probe};
use crate::{Ask, Found};
use gx_pages::Pages;
use gx_words::Fault;
use std::alloc::Allocator;

/// How structs follow each other.
#[derive(Clone, Copy)]
pub enum Layout {
    /// Each lies behind the one before it.
    Row,
    /// Each holds the address of the next one.
    List,
}

/// Whether the structs end before an index, whose struct would be at an address.
#[tactic(auto, unfolding(crate::specs::Searches::is_past))]
#[inline(always)]
fn is_past(ask: &Ask, layout: Layout, i: u64, at: u32) -> bool
    ensures { result ≡ is_past layout ask.now i at }
{
    match layout {
        Layout::Row => ask.count != u32::MAX && u64::from(ask.count) <= i,
        Layout::List => at == 0,
    }
}

/// The address after that of a struct.
#[tactic(auto, unfolding(crate::specs::Searches::next_address))]
#[inline(always)]
fn next<A: Allocator + Clone>(
    memory: &Pages<A>,
    ask: &Ask,
    layout: Layout,
    at: u32,
) -> Result<u32, Fault>
    ensures { Reads (λ next. next) result (next_address layout memory.now ask.now at) }
{
    match layout {
        Layout::Row => Ok(at.wrapping_add(ask.struct_size)),
        Layout::List => memory.try_number(4, at.wrapping_add(ask.next_offset)),
    }
}

/// Looks at index 0, 1 and so on.
#[tactic(auto, using(crate::proofs::Finding::finding))]
fn search<A: Allocator + Clone>(
    memory: &Pages<A>,
    ask: &Ask,
    layout: Layout,
    bound: u64,
) -> Result<Found, Fault>
    requires { IsTrue (has_size ask.now) }
    ensures found { IsFound layout memory.now ask.now bound result }
    ensures memory { TakesNone result }
{
    let mut at = ask.start;
    let mut i = 0;
    while !is_past(ask, layout, i, at) {
        if i == bound {
            return Ok(Found::More);
        }
        match probe(memory, ask, at)? {
            Seen::Match => {
                return Ok(Found::At {
                    address: at,
                    index: (i % 0x1_0000_0000) as u32,
                    probes: i + 1,
                });
            }
            Seen::Zero => return Ok(Found::Nothing { probes: i + 1 }),
            Seen::Other => at = next(memory, ask, layout, at)?,
        }
        i += 1;
    }
    Ok(Found::Nothing { probes: i })
}

/// The instruction linearsearch: the least index whose struct has the key, `BadMode` for a key
/// size that isn't allowed, and `BadAddress` where a probe looks at a byte that isn't in memory.
///
/// It is `More` exactly where more than `bound` probes would begin.
#[tactic(auto, unfolding(crate::proofs::Finding::searching), using(crate::proofs::Finding::searched_is))]
pub fn linear<A: Allocator + Clone>(
    memory: &Pages<A>,
    ask: &Ask,
    bound: u64,
) -> Result<Found, Fault>
    ensures value { Reads (λ found. found) result (found_within bound (search_of Layout.Row memory.now ask.now)) }
    ensures found { IsTrue (has_size ask.now) → IsFound Layout.Row memory.now ask.now bound result }
{
    if has_size(ask) {
        search(memory, ask, Layout::Row, bound)
    } else {
        Err(Fault::BadMode)
    }
}

/// The instruction linkedsearch: the first struct of the list that has the key, `BadMode` for a
/// key size that isn't allowed, and `BadAddress` where a probe or a link looks at a byte that
/// isn't in memory.
///
/// It is `More` exactly where more than `bound` probes would begin.
#[tactic(auto, unfolding(crate::proofs::Finding::searching), using(crate::proofs::Finding::searched_is))]
pub fn linked<A: Allocator + Clone>(
    memory: &Pages<A>,
    ask: &Ask,
    bound: u64,
) -> Result<Found, Fault>
    ensures value { Reads (λ found. found) result (found_within bound (search_of Layout.List memory.now ask.now)) }
    ensures found { IsTrue (has_size ask.now) → IsFound Layout.List memory.now ask.now bound result }
{
    if has_size(ask) {
        search(memory, ask, Layout::List, bound)
    } else {
        Err(Fault::BadMode)
    }
}

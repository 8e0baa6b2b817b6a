//! The heap of a save: its blocks come in any order, and are put in order by their addresses.
//!
//! Blocks are counted and each is looked at before memory is taken for them. Whether two of them meet is seen once they
//! are sorted: where there is no memory for that, it isn't seen.
ghost use Rattle.std.specs.Prelude.{◌≡◌, ◌+◌, ◌-◌, ◌*◌, ◌≤◌, ◌<◌, length, Ok, IfOk, IfErr, IsTrue};
ghost use Rattle.std.specs.List.{list_all};
ghost use Rattle.gx_words.specs.Numbers.{word};
ghost use Rattle.quetzal.specs.Relations.{MaySort};
ghost use Rattle.quetzal.specs.Constants.{block_len};
ghost use Rattle.quetzal.specs.Blocks.{blocks_in, count_in, has_count, has_no_heap, heap_of, rises};
ghost use Rattle.quetzal.specs.Memory.{is_memory_size};
ghost use Rattle.quetzal.specs.Laws.{IsSortedFrom, is_block, may_meet, ordered};
ghost use Rattle.gx_words.specs.Constants.{ceiling};
ghost use Rattle.gx_state.specs.Sound.{IsHeapWithin};
ghost use Rattle.quetzal.specs.Views.{heap_from};

use crate::SaveFault;
use gx_story::Story;
use gx_words::{Blocks, word_at};
use std::alloc::{AllocError, Global};

/// The length of the start and the count.
pub(crate) const HEAP_HEADER_LEN: usize = 8;

/// The length of a block: its address and its length.
pub(crate) const BLOCK_LEN: usize = 8;

/// The start and the blocks of a heap, 0 and none where there is no heap. Memory is taken for blocks alone.
pub(crate) fn heap_of(
    alloc: Global,
    story: &Story,
    size: u32,
    body: &[u8],
) -> Result<(u32, Blocks), SaveFault>
    ensures value { MaySort (IsTrue (may_meet story.now size body.now)) heap_from result
        (heap_of story.now size body.now) }
    ensures within { size ≤ ceiling → IfOk result (λ heap. IsHeapWithin story.now.header.endmem size (heap_from heap)) }
    ensures memory { IfErr result (λ fault. fault ≡ SaveFault.NoMemory → IsTrue (has_count body.now)) }
{
    if has_no_heap(body) {
        return Ok((0, Blocks::new(alloc)));
    }
    if !has_count(body) {
        return Err(SaveFault::Blocks);
    }
    let start = word_at(body, 0);
    if !is_start(story, size, start) {
        return Err(SaveFault::Blocks);
    }
    if !are_within(body, start, size) {
        return Err(SaveFault::Blocks);
    }
    let blocks = ordered(alloc, body, start, size)?;
    Ok((start, blocks))
}

/// Whether a chunk says that there is no heap: it is empty, or its start and its count are 0.
fn has_no_heap(body: &[u8]) -> bool
    ensures { result ≡ has_no_heap body.now }
{
    if body.is_empty() {
        return true;
    }
    if body.len() != HEAP_HEADER_LEN {
        return false;
    }
    let start = word_at(body, 0);
    let count = word_at(body, 4);
    start == 0 && count == 0
}

/// Whether a chunk has as many blocks as it counts, and one at least.
#[tactic(auto, using(crate::proofs::Listing::uncounted))]
fn has_count(body: &[u8]) -> bool
    ensures { result ≡ has_count body.now }
{
    if body.len() < HEAP_HEADER_LEN {
        return false;
    }
    let count = word_at(body, 4) as usize;
    body.len() == HEAP_HEADER_LEN + BLOCK_LEN * count && 0 < count
}

/// Whether a heap may begin at an address.
fn is_start(story: &Story, size: u32, start: u32) -> bool
    ensures { result ≡ is_memory_size size story.now start }
{
    start % 256 == 0 && story.endmem() <= start && start <= size
}

/// Whether each block of a chunk isn't empty, and lies between an address and a size.
#[tactic(auto, using(crate::proofs::Listing::within_turns))]
fn are_within(body: &[u8], start: u32, size: u32) -> bool
    requires { IsTrue (has_count body.now) }
    ensures { result ≡ list_all (is_block start size) (blocks_in body.now) }
{
    let count = word_at(body, 4) as usize;
    for index in 0..count {
        let block = block_at(body, HEAP_HEADER_LEN + BLOCK_LEN * index);
        if !is_block(start, size, block) {
            return false;
        }
    }
    true
}

/// Whether a block isn't empty, and lies between an address and a size.
fn is_block(start: u32, size: u32, block: (u32, u32)) -> bool
    ensures { result ≡ is_block start size block }
{
    0 < block.1 && start <= block.0 && u64::from(block.0) + u64::from(block.1) <= u64::from(size)
}

/// The blocks of a chunk in rising order, where no two of them meet.
fn ordered(alloc: Global, body: &[u8], start: u32, size: u32) -> Result<Blocks, SaveFault>
    requires count { IsTrue (has_count body.now) }
    requires start { start ≤ size }
    requires within { IsTrue (list_all (is_block start size) (blocks_in body.now)) }
    ensures { MaySort (1 < count_in body.now) (λ blocks. blocks) result (ordered start size (blocks_in body.now)) }
{
    let all = sorted_blocks(alloc, body)?;
    let sorted = all.as_slice();
    if !rises(start, size, sorted) {
        return Err(SaveFault::Blocks);
    }
    let blocks = listed(alloc, sorted)?;
    Ok(blocks)
}

/// The blocks of a chunk, sorted by their addresses.
fn sorted_blocks(alloc: Global, body: &[u8]) -> Result<Vec<(u32, u32)>, AllocError>
    requires { IsTrue (has_count body.now) }
    ensures { IfOk result (λ all. IsSortedFrom (blocks_in body.now) all.items) }
{
    let mut all = gathered(alloc, body)?;
    sort(&mut all);
    Ok(all)
}

/// The block at a place of a chunk.
fn block_at(body: &[u8], at: usize) -> (u32, u32)
    requires { at + block_len ≤ length body.now }
    ensures { result ≡ (word body.now at, word body.now (at + 4)) }
{
    (word_at(body, at), word_at(body, at + 4))
}

/// The blocks of a chunk as they come.
#[tactic(auto, using(crate::proofs::Listing::gather_turns))]
fn gathered(alloc: Global, body: &[u8]) -> Result<Vec<(u32, u32)>, AllocError>
    requires { IsTrue (has_count body.now) }
    ensures { IfOk result (λ all. all.items ≡ blocks_in body.now) }
{
    let count = word_at(body, 4) as usize;
    let mut all = Vec::with_capacity(alloc, count)?;
    for index in 0..count {
        all.push(block_at(body, HEAP_HEADER_LEN + BLOCK_LEN * index))?;
    }
    Ok(all)
}

/// Sorts blocks by their addresses.
fn sort(all: &mut [(u32, u32)])
    ensures { IsSortedFrom all.old all.new }
{
    all.sort_unstable_by_key(|block| block.0);
}

/// Blocks as a list of their own, which is asked for once.
fn listed(alloc: Global, all: &[(u32, u32)]) -> Result<Blocks, AllocError>
    ensures { IfOk result (λ blocks. blocks ≡ all.now) }
{
    let mut blocks = Blocks::with_capacity(alloc, all.len())?;
    for block in all {
        blocks.push(*block)?;
    }
    Ok(blocks)
}

/// Whether blocks rise from an address on, with none empty or past a size and no two that meet.
#[tactic(auto, using(crate::proofs::Listing::rise_turns))]
fn rises(start: u32, size: u32, blocks: &[(u32, u32)]) -> bool
    ensures { result ≡ rises start size blocks.now }
{
    let mut at = u64::from(start);
    for block in blocks {
        if u64::from(block.0) < at || block.1 == 0 {
            return false;
        }
        at = u64::from(block.0) + u64::from(block.1);
    }
    at <= u64::from(size)
}

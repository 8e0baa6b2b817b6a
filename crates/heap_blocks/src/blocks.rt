//! The blocks of a heap in rising order, each an address and a length.
//!
//! `place` looks for a block's address, `reserve` makes room in the list, and `add` enters the
//! block, so that what may be refused comes before what changes.
//!
//! A heap keeps how many of its first blocks leave no gap from its start, since no block can be placed
//! among them. `place` goes over the blocks behind these, up to the place that it finds, and only where
//! a block comes right behind them does `add` go on over those that now join them; so the two look at
//! each block at most once. `add` and `free` find a block by its address and move those behind it.
//!
//! A story that only allocates, or frees blocks near the end, goes over few blocks at each call. One
//! that keeps a gap before many blocks, too small for what it asks for, goes over all of them each time;
//! and so does one that frees a block before many others and fills its place again.
ghost use Rattle.std.specs.Prelude.{◌≡◌, ℕ, ◌+◌, ◌<◌, ◌≤◌, ◌^◌, length, slice_index_or, IfOk, OnOk, OnErr, IfSome};
ghost use Rattle.std.specs.List.{remove};
ghost use Rattle.std.specs.Option.{option_map};
ghost use Rattle.heap_blocks.specs.Heap.{IsSound, IsHeapBelow, IsRising, inactive, first_address, free_place};
ghost use Rattle.heap_blocks.specs.Heap.{block_address, with_block};
ghost use Rattle.heap_blocks.specs.Heap.{freed, other_blocks};
ghost use Rattle.heap_blocks.specs.Relations.{Frees, AreApart, IsFree, IsLeast};
ghost use Rattle.heap_blocks.specs.Gapless.{gapless, last_end};

use std::alloc::{AllocError, Global};
use std::marker::Model;

/// A heap.
#[derive(Drop)]
pub struct Heap {
    start: u32,
    blocks: Vec<(u32, u32)>,
    /// How many of the first blocks leave no gap from the start.
    gapless: usize,
}

impl Model for Heap {
    ghost use Rattle.heap_blocks.specs.Heap.{HeldHeap};

    ghost Value = { HeldHeap };

    ghost use Rattle.heap_blocks.specs.Sound.{held_of, HeapInvariant};

    ghost view = { held_of };

    ghost invariant = { HeapInvariant };
}

impl Heap {
    /// An inactive heap.
    pub fn new(alloc: Global) -> Heap
        ensures { result ≡ record { heap = inactive; spare = 0 } }
    {
        Heap {
            start: 0,
            blocks: Vec::new(alloc),
            gapless: 0,
        }
    }

    /// The heap with this start and these blocks. No memory is asked for where there is no block.
    pub fn from_blocks(alloc: Global, start: u32, blocks: &[(u32, u32)]) -> Result<Heap, AllocError>
        requires { IsSound (record { start = start; blocks = blocks.now }) }
        ensures value { IfOk result (λ made. made.heap ≡ record { start = start; blocks = blocks.now }) }
        ensures memory { OnErr result (0 < length blocks.now) }
    {
        Heap::with_gapless(alloc, start, blocks, gapless(blocks, 0, start))
    }

    /// The same, where it is known how many of the first blocks leave no gap.
    fn with_gapless(
        alloc: Global,
        start: u32,
        blocks: &[(u32, u32)],
        known: usize,
    ) -> Result<Heap, AllocError>
        requires sound { IsSound (record { start = start; blocks = blocks.now }) }
        requires known { known ≡ gapless start blocks.now }
        ensures value { IfOk result (λ made. made.heap ≡ record { start = start; blocks = blocks.now }) }
        ensures memory { OnErr result (0 < length blocks.now) }
    {
        if blocks.is_empty() {
            return Ok(Heap::new(alloc));
        }
        Ok(Heap {
            start,
            blocks: Vec::from_slice(alloc, blocks)?,
            gapless: known,
        })
    }

    /// The address at which the heap begins; 0 where it is inactive.
    pub fn start(&self) -> u32
        ensures { result ≡ self.now.heap.start }
    {
        self.start
    }

    /// The address and the length of each block, in rising order of address.
    pub fn blocks(&self) -> &[(u32, u32)]
        ensures value { result.now ≡ self.now.heap.blocks }
        ensures sound { IsSound self.now.heap }
        ensures apart { AreApart self.now.heap }
    {
        &self.blocks
    }

    /// The least address of a free block of `size` bytes that ends at or below `ceiling`.
    ///
    /// `end` is the size of memory, at which an inactive heap would begin.
    #[tactic(auto, using(crate::proofs::Gaps::additions))]
    pub fn place(&self, end: u32, size: u32, ceiling: u32) -> Option<u32>
        requires { 0 < size }
        ensures value { result ≡ block_address self.now.heap end size ceiling }
        ensures least { IsLeast self.now.heap end size ceiling result }
    {
        let at = free_place(&self.blocks, self.gapless, self.first_address(end), size);
        if at + u64::from(size) <= u64::from(ceiling) {
            Some(at as u32)
        } else {
            None
        }
    }

    /// Where the heap begins, or would begin with its first block.
    fn first_address(&self, end: u32) -> u32
        ensures { result ≡ first_address self.now.heap end }
    {
        if self.blocks.is_empty() {
            end
        } else {
            self.start
        }
    }

    /// Makes room for one more block, and takes memory only where there is none. The blocks stay,
    /// whatever the answer.
    pub fn reserve(&mut self) -> Result<(), AllocError>
        ensures heap { self.new.heap ≡ self.old.heap }
        ensures room { self.old.spare ≤ self.new.spare }
        ensures ok { OnOk result (0 < self.new.spare) }
        ensures full { OnErr result (self.old.spare ≡ 0) }
        ensures err { OnErr result (self.new ≡ self.old) }
    {
        self.blocks.reserve(1)
    }

    /// Enters a block at a free place, for which there is room.
    ///
    /// `end` is the size of memory, at which an inactive heap begins.
    #[tactic(auto, using(crate::proofs::Changing::add_facts, crate::proofs::Gaps::additions))]
    pub fn add(&mut self, end: u32, at: u32, size: u32)
        requires room { 0 < self.old.spare }
        requires size { 0 < size }
        requires ends { at + size < 2 ^ 32 }
        requires start { first_address self.old.heap end ≤ at }
        requires free { IsFree self.old.heap.blocks at size }
        ensures heap { self.new.heap ≡ with_block self.old.heap end (at, size) }
        ensures spare { self.old.spare ≤ self.new.spare + 1 }
        ensures sound { IsSound self.new.heap }
        ensures within { (limit : ℕ) → IsHeapBelow limit self.old.heap → at + size ≤ limit
            → IsHeapBelow limit self.new.heap }
    {
        self.start = self.first_address(end);
        let i = count_below(&self.blocks, at);
        match self.blocks.insert(i, (at, size)) {
            Ok(()) => {}
            Err(_) => unreachable!(),
        }
        self.gapless = gapless(&self.blocks, self.gapless, self.start);
    }

    /// Takes away the block that begins at `at`, and says whether it was the last; `None` where no
    /// block begins there.
    #[tactic(auto, using(crate::proofs::Changing::free_facts))]
    pub fn free(&mut self, at: u32) -> Option<bool>
        ensures change { Frees self.old self.new (freed self.old.heap at) result }
        ensures sound { IsSound self.new.heap }
        ensures within { (limit : ℕ) → IsHeapBelow limit self.old.heap → IsHeapBelow limit self.new.heap }
    {
        let i = index_of(&self.blocks, at)?;
        self.blocks.remove(i);
        self.gapless = self.gapless.min(i);
        let last = self.blocks.is_empty();
        if last {
            self.start = 0;
        }
        Some(last)
    }

    /// A heap with the same start and blocks. No memory is asked for where there is no block.
    pub fn copy(&self, alloc: Global) -> Result<Heap, AllocError>
        ensures value { IfOk result (λ copy. copy.heap ≡ self.now.heap) }
        ensures memory { OnErr result (0 < length self.now.heap.blocks) }
    {
        Heap::with_gapless(alloc, self.start, &self.blocks, self.gapless)
    }
}

/// The end of the last block, or the address itself where there is none.
#[tactic(auto, using(crate::proofs::Gaps::last_ends))]
fn last_end(blocks: &[(u32, u32)], from: u32) -> u64
    ensures value { result ≡ last_end from blocks.now }
    ensures bound { result < 2 ^ 33 }
{
    match blocks {
        [.., last] => u64::from(last.0) + u64::from(last.1),
        [] => u64::from(from),
    }
}

/// How many of the first blocks leave no gap from an address on. So many are known to leave none.
#[tactic(auto, using(crate::proofs::Gaps::counts))]
fn gapless(blocks: &[(u32, u32)], known: usize, from: u32) -> usize
    requires { known ≤ gapless from blocks.now }
    ensures value { result ≡ gapless from blocks.now }
    ensures bound { result ≤ length blocks.now }
{
    let (front, rest) = blocks.split_at(known);
    let mut at = last_end(front, from);
    let mut count = known;
    for block in rest {
        if u64::from(block.0) != at {
            return count;
        }
        at = u64::from(block.0) + u64::from(block.1);
        count += 1;
    }
    count
}

/// The first free place of `size` bytes from an address on, from which so many of the first blocks leave
/// no gap. It may be past 2^32.
#[tactic(auto, using(crate::proofs::Gaps::behind))]
fn free_place(blocks: &[(u32, u32)], known: usize, from: u32, size: u32) -> u64
    requires some { 0 < size }
    requires known { known ≤ gapless from blocks.now }
    ensures value { result ≡ free_place size from blocks.now }
    ensures bound { result < 2 ^ 33 }
{
    let (front, rest) = blocks.split_at(known);
    first_place(rest, last_end(front, from), size)
}

/// The first free place of `size` bytes from an address on. It may be past 2^32.
#[tactic(auto, using(crate::proofs::Placing::place_turns))]
fn first_place(blocks: &[(u32, u32)], from: u64, size: u32) -> u64
    requires { from < 2 ^ 33 }
    ensures value { result ≡ free_place size from blocks.now }
    ensures bound { result < 2 ^ 33 }
{
    let size = u64::from(size);
    let mut at = from;
    for block in blocks {
        if at + size <= u64::from(block.0) {
            return at;
        }
        at = u64::from(block.0) + u64::from(block.1);
    }
    at
}

/// How many blocks begin below `at`.
fn count_below(blocks: &[(u32, u32)], at: u32) -> usize
    requires { IsRising 0 blocks.now }
    ensures bound { result ≤ length blocks.now }
    ensures below { (k : ℕ) → k < result → (slice_index_or blocks.now k (0, 0)).0 < at }
    ensures above { result < length blocks.now → at ≤ (slice_index_or blocks.now result (0, 0)).0 }
{
    blocks.partition_point(|block| block.0 < at)
}

/// The index of the block that begins at `at`.
#[tactic(auto, using(crate::proofs::Changing::without_facts))]
fn index_of(blocks: &[(u32, u32)], at: u32) -> Option<usize>
    requires { IsRising 0 blocks.now }
    ensures bound { IfSome result (λ i. i < length blocks.now) }
    ensures value { other_blocks at blocks.now ≡ option_map (λ i. remove blocks.now i) result }
{
    let i = count_below(blocks, at);
    if i < blocks.len() && blocks[i].0 == at {
        Some(i)
    } else {
        None
    }
}

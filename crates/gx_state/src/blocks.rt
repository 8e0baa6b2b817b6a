//! The blocks of the memory allocation heap.
ghost use Rattle.std.specs.Prelude.{◌≡◌, ◌+◌, ◌<◌, ◌≤◌, OnOk, OnErr};
ghost use Rattle.gx_state.specs.Space.{with_block, without_block};
ghost use Rattle.gx_state.specs.Relations.{FreesBlock};
ghost use Rattle.gx_state.specs.Allowed.{IsNewBlock};

use crate::State;
use std::alloc::{AllocError, Allocator};

impl<A: Allocator + Clone> State<A> {
    /// Makes room for one more block, where there is none. The state stays, whatever the answer.
    pub fn reserve_block(&mut self) -> Result<(), AllocError>
        ensures flat { self.new.flat ≡ self.old.flat }
        ensures room { self.old.spare ≤ self.new.spare }
        ensures ok { OnOk result (0 < self.new.spare) }
        ensures err { OnErr result (self.new ≡ self.old) }
        ensures memory { OnErr result (self.old.spare ≡ 0) }
    {
        self.heap.reserve()
    }

    /// Enters a block at a free place in memory, for which there is room.
    ///
    /// `end` is the size of memory at which an inactive heap begins.
    pub fn add_block(&mut self, end: u32, at: u32, size: u32)
        requires room { 0 < self.old.spare }
        requires block { IsNewBlock self.old.flat end at size }
        ensures value { self.new.flat ≡ with_block self.old.flat end at size }
        ensures spare { self.old.spare ≤ self.new.spare + 1 }
    {
        self.heap.add(end, at, size);
    }

    /// Takes away the block that begins at `at`; false exactly where none does.
    ///
    /// With its last block the heap ends, and memory goes back to the size at which the heap began.
    pub fn free_block(&mut self, at: u32) -> bool
        ensures value { FreesBlock self.old self.new (without_block self.old.flat at) result }
        ensures story { self.new.flat.story ≡ self.old.flat.story }
    {
        let start = self.heap.start();
        match self.heap.free(at) {
            Some(last) => {
                if last {
                    self.memory.cut(start);
                }
                true
            }
            None => false,
        }
    }
}

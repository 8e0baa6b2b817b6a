//! Copies of the state as lists of bytes, as they are written to a file and read from it (Glulx 3.1.2, "Saved
//! Games"), and the way back to them.
//!
//! Contracts see such a copy as they see a `Moment`: as memory, the stack with the stub of a store operand on top,
//! and the heap. What may be refused comes first, so that the state is as before after every refusal.
ghost use Rattle.std.specs.Prelude.{◌≡◌, ◌+◌, ◌<◌, ◌≤◌, length, IfOk, OnOk, OnErr};
ghost use Rattle.gx_state.specs.Flat.{cut, sp_of, IsHeight};
ghost use Rattle.gx_state.specs.Copies.{IsCopyFor, copy_of, restored_to};
ghost use Rattle.gx_state.specs.Allowed.{HasPlaceFor};

use crate::copies::Copied;
use crate::{Dest, State};
use gx_pages::Pages;
use gx_words::{Blocks, Bytes};
use heap_blocks::Heap;
use std::alloc::{AllocError, Allocator, Global};
use std::marker::Model;

/// A copy whose memory, stack and blocks are lists: memory whole, the stack with a stub on top, the heap's start, and
/// the address and the length of each of its blocks. The start is 0 where there is no block.
#[derive(Drop)]
pub struct FlatCopy {
    pub memory: Bytes,
    pub stack: Bytes,
    pub heap: u32,
    pub blocks: Blocks,
}

impl Model for FlatCopy {
    ghost use Rattle.gx_state.specs.Copies.{Copy};

    ghost Value = { Copy };

    ghost use Rattle.gx_state.specs.FlatCopies.{copy_in};

    ghost view = { copy_in };
}

impl<A: Allocator + Clone> Copied<A> for FlatCopy {
    ghost copy = { λ copy. copy };

    fn stack(&self) -> &[u8] {
        self.stack.as_slice()
    }

    #[tactic(auto, using(crate::proofs::FlatCopies::whole))]
    fn memory(&self, present: &Pages<A>, protected: (u32, u32)) -> Result<Pages<A>, AllocError> {
        let bytes = self.memory.as_slice();
        present.begin_again(bytes, bytes.len() as u32, protected)
    }

    fn heap(&self, alloc: Global) -> Result<Heap, AllocError> {
        Heap::from_blocks(alloc, self.heap, self.blocks.as_slice())
    }
}

impl<A: Allocator + Clone> State<A> {
    /// A copy of the state after its stack was cut to `sp`, with the stub of a store operand on top; `next` is the
    /// address at which the machine goes on. It is fit for the story where the operand takes a word.
    #[tactic(auto, using(crate::proofs::FlatCopies::stub_cut))]
    pub fn flat(
        &self,
        alloc: Global,
        dest: &Dest,
        next: u32,
        sp: u32,
    ) -> Result<FlatCopy, AllocError>
        requires height { IsHeight self.now.flat sp }
        requires room { sp + 16 ≤ self.now.flat.stack.limit }
        ensures value { IfOk result (λ copy. copy ≡ copy_of (cut self.now.flat sp) dest.now next) }
        ensures fit { HasPlaceFor self.now.flat dest.now → IfOk result (λ copy. IsCopyFor self.now.flat.story copy) }
    {
        let memory = self.memory.bytes(alloc)?;
        let stack = self.stack.copy_with(alloc, sp, &self.stub(dest, next))?;
        let blocks = self.heap_list(alloc)?;
        Ok(FlatCopy {
            memory,
            stack,
            heap: self.heap.start(),
            blocks,
        })
    }

    /// The blocks of the heap, as a list that is asked for once. No memory is asked for where there is none.
    fn heap_list(&self, alloc: Global) -> Result<Blocks, AllocError>
        ensures value { IfOk result (λ blocks. blocks ≡ self.now.flat.heap.blocks) }
        ensures memory { OnErr result (0 < length self.now.flat.heap.blocks) }
    {
        let all = self.heap.blocks();
        let mut blocks = Blocks::with_capacity(alloc, all.len())?;
        for block in all {
            blocks.push(*block)?;
        }
        Ok(blocks)
    }

    /// Goes back to a copy, and delivers -1 to its stub. The protected range keeps its bytes, and the
    /// decoding table, the iosystem and the generator stay.
    pub fn with_bytes(&mut self, copy: &FlatCopy) -> Result<(), AllocError>
        requires { IsCopyFor self.old.flat.story copy.now }
        ensures ok { OnOk result (self.new.flat ≡ restored_to self.old.flat copy.now) }
        ensures err { OnErr result (self.new ≡ self.old) }
        ensures story { self.new.flat.story ≡ self.old.flat.story }
        ensures live { OnOk result (0 < sp_of self.new.flat) }
    {
        self.back_to(copy)
    }
}

//! An allocator for small blocks, of which no more than a set number are out at a time.
//!
//! A pool hands each request that it doesn't refuse, and each block that comes back, on to the
//! allocator that it keeps; its blocks are that allocator's. It refuses a request above
//! `MOST_SIZE` bytes or of an alignment above `MOST_ALIGN`, and each request while as many blocks
//! are out as may be. A block of no bytes counts too.
//!
//! A pool counts through a shared reference, so no contract sees its count: tests show it.
#![tactic(auto)]

ghost use mir.Syntax.{Ty};
ghost use types.Logic.{sem};
ghost use Rattle.std.specs.Allocator.{HasLayout, block_if_ok};
ghost use Rattle.std.specs.Prelude.{◌≡◌, ◌<◌, ◌≤◌, IsErr};
ghost use Rattle.gx_pool.specs.Pool.{most_out};

mod tally;

use std::alloc::{AllocError, Allocator, Global};
use tally::Tally;
pub use tally::{MOST_ALIGN, MOST_SIZE};

/// A pool over another allocator. Use it by reference: a `&Pool` is an allocator.
#[derive(Drop)]
pub struct Pool<B: Allocator> {
    alloc: B,
    tally: Tally,
}

/// A pool over the heap of the process.
pub type PagePool = Pool<Global>;

impl<B: Allocator> Pool<B> {
    /// A pool that hands out at most `most` blocks. It takes no memory.
    pub fn new(alloc: B, most: usize) -> Self
        ensures { most_out result ≡ most }
    {
        Pool {
            alloc,
            tally: Tally::new(most),
        }
    }

    /// How many blocks are out.
    pub fn out(&self) -> usize
        ensures { result ≤ most_out self.now }
    {
        self.tally.out()
    }
}

unsafe impl<B: Allocator> Allocator for Pool<B> {
    ghost dealloc_token = { λ pool ty ptr. B.dealloc_token pool.alloc ty ptr };

    fn allocate(&self, size: usize, align: usize) -> Result<*mut u8, AllocError>
        ghost ty: { Ty }
        requires { HasLayout ty size align }
        ensures* block { sem 𝓛 (block_if_ok (B.dealloc_token self.now.alloc) ty result) }
        ensures large { MOST_SIZE < size → IsErr result }
        ensures aligned { MOST_ALIGN < align → IsErr result }
    {
        if self.tally.refuses(size, align) {
            return Err(AllocError);
        }
        match self.alloc.allocate(size, align) {
            Ok(block) => {
                self.tally.lend();
                Ok(block)
            }
            Err(error) => Err(error),
        }
    }

    unsafe fn deallocate(&self, ptr: *mut u8, size: usize, align: usize) {
        self.tally.take_back();
        self.alloc.deallocate(ptr, size, align);
    }
}

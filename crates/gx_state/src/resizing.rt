//! Ranges of memory, and its size.
ghost use Rattle.std.specs.Prelude.{◌≡◌, ◌<◌, length, take, drop, replicate, OnOk, OnErr};
ghost use Rattle.gx_state.specs.Flat.{IsInRam, written};
ghost use Rattle.gx_state.specs.Space.{with_size};
ghost use Rattle.gx_state.specs.Allowed.{IsInMemory, IsGrowth, IsShrinking};

use crate::State;
use std::alloc::{AllocError, Allocator};

impl<A: Allocator + Clone> State<A> {
    /// Puts zeros over `count` bytes of RAM. A `count` of 0 may have any address.
    #[tactic(auto, using(crate::proofs::Kept::rom_written, crate::proofs::Kept::heap_again))]
    pub fn fill_zero(&mut self, at: u32, count: u32) -> Result<(), AllocError>
        requires { IsInRam self.old.flat at count }
        ensures ok { OnOk result (self.new ≡ record self.old { flat = written self.old.flat at (replicate count 0) }) }
        ensures err { OnErr result (self.new ≡ self.old) }
        ensures size { length self.new.flat.memory ≡ length self.old.flat.memory }
        ensures memory { OnErr result (0 < count) }
    {
        self.memory.fill_zero(at, count)
    }

    /// Puts the `count` bytes from `from` on over those of RAM from `to` on; the two ranges may
    /// overlap. A `count` of 0 may have any addresses.
    #[tactic(auto, using(crate::proofs::Kept::rom_written, crate::proofs::Kept::heap_again))]
    pub fn copy_within(&mut self, from: u32, to: u32, count: u32) -> Result<(), AllocError>
        requires source { IsInMemory self.old.flat from count }
        requires target { IsInRam self.old.flat to count }
        ensures ok { OnOk result (self.new ≡ record self.old {
          flat = written self.old.flat to (take count (drop from self.old.flat.memory));
        }) }
        ensures err { OnErr result (self.new ≡ self.old) }
        ensures size { length self.new.flat.memory ≡ length self.old.flat.memory }
        ensures memory { OnErr result (0 < count) }
    {
        self.memory.copy_within(from, to, count)
    }

    /// Adds zeros to memory up to `size`.
    #[tactic(auto, using(crate::proofs::Space::sizes))]
    pub fn grow(&mut self, size: u32) -> Result<(), AllocError>
        requires { IsGrowth self.old.flat size }
        ensures ok { OnOk result (self.new ≡ record self.old { flat = with_size self.old.flat size }) }
        ensures err { OnErr result (self.new ≡ self.old) }
        ensures size { OnOk result (length self.new.flat.memory ≡ size) }
        ensures memory { OnErr result (length self.old.flat.memory < size) }
    {
        self.memory.resize(size)?;
        Ok(())
    }

    /// Drops the bytes of memory from `size` on.
    #[tactic(auto, using(crate::proofs::Space::sizes))]
    pub fn shrink(&mut self, size: u32)
        requires { IsShrinking self.old.flat size }
        ensures value { self.new ≡ record self.old { flat = with_size self.old.flat size } }
        ensures size { length self.new.flat.memory ≡ size }
    {
        self.memory.cut(size);
    }
}

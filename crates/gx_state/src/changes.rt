//! Writes to memory, and changes of the present frame.
ghost use Rattle.std.specs.Prelude.{◌≡◌, ◌⊎◌, ◌+◌, ◌*◌, ◌<◌, length, OnOk, OnErr};
ghost use Rattle.gx_words.specs.Numbers.{IsWidth};
ghost use Rattle.gx_words.specs.Faults.{Reads};
ghost use Rattle.gx_pages.specs.Memory.{HasBytes, all_spliced};
ghost use Rattle.gx_state.specs.Flat.{write_fault, cut, frame_of, sp_of, written, IsHeight, IsInRam, swapped, rolled};
ghost use Rattle.gx_state.specs.Flat.{copied};
ghost use Rattle.gx_state.specs.Calls.{pushed, pushed_all, with_local};
ghost use Rattle.gx_state.specs.Relations.{Acts};
ghost use Rattle.gx_state.specs.Replies.{AreInRam};

use crate::State;
use gx_words::{Fault, Writes};
use std::alloc::{AllocError, Allocator};

impl<A: Allocator + Clone> State<A> {
    /// Looks whether a write of `count` bytes, one at least, would have a fault: `BadAddress` where one of
    /// them isn't in memory, else `ReadOnly` where one lies below RAMSTART.
    #[inline(always)]
    pub fn can_write(&self, at: u32, count: u32) -> Result<(), Fault>
        ensures value { Reads (λ v. v) result (write_fault self.now.flat at count) }
        ensures there { OnOk result (IsInRam self.now.flat at count) }
    {
        if u64::from(at) + u64::from(count) > u64::from(self.memory.size()) {
            return Err(Fault::BadAddress);
        }
        if at < self.story.ramstart() {
            return Err(Fault::ReadOnly);
        }
        Ok(())
    }

    /// Writes bytes to RAM. No bytes may be written at any address.
    #[tactic(auto, using(crate::proofs::Kept::rom_written, crate::proofs::Kept::heap_again))]
    #[inline(always)]
    pub fn write(&mut self, at: u32, bytes: &[u8]) -> Result<(), AllocError>
        requires { IsInRam self.old.flat at (length bytes.now) }
        ensures ok { OnOk result (self.new ≡ record self.old { flat = written self.old.flat at bytes.now }) }
        ensures err { OnErr result (self.new ≡ self.old) }
        ensures size { length self.new.flat.memory ≡ length self.old.flat.memory }
        ensures memory { OnErr result (0 < length bytes.now) }
    {
        self.memory.write(at, bytes)
    }

    /// Makes each write to RAM, the first of them first, or none.
    #[tactic(auto, using(crate::proofs::Kept::writes))]
    pub fn write_all(&mut self, writes: &Writes) -> Result<(), AllocError>
        requires { AreInRam self.old.flat writes.now }
        ensures ok { OnOk result (self.new
            ≡ record self.old {
              flat = record self.old.flat { memory = all_spliced self.old.flat.memory writes.now };
            }) }
        ensures err { OnErr result (self.new ≡ self.old) }
        ensures size { length self.new.flat.memory ≡ length self.old.flat.memory }
        ensures memory { OnErr result (HasBytes writes.now) }
    {
        self.memory.write_all(writes)
    }

    /// Makes each write to RAM, the first of them first, and then one more; all of them or none.
    #[tactic(auto, using(crate::proofs::Kept::writes))]
    pub fn write_all_and(
        &mut self,
        writes: &Writes,
        at: u32,
        bytes: &[u8],
    ) -> Result<(), AllocError>
        requires writes { AreInRam self.old.flat writes.now }
        requires last { IsInRam self.old.flat at (length bytes.now) }
        ensures ok { OnOk result (self.new
            ≡ record self.old {
              flat = written
                  (record self.old.flat { memory = all_spliced self.old.flat.memory writes.now }) at bytes.now;
            }) }
        ensures err { OnErr result (self.new ≡ self.old) }
        ensures size { length self.new.flat.memory ≡ length self.old.flat.memory }
        ensures memory { OnErr result (HasBytes writes.now ⊎ (0 < length bytes.now)) }
    {
        self.memory.write_all_and(writes, at, bytes)
    }

    /// Pushes values, the first deepest; `Overflow` exactly where they don't all fit.
    #[tactic(auto, unfolding(crate::proofs::Opened::pushing_all), using(crate::proofs::Kept::framed))]
    pub fn push_all(&mut self, values: &[u32]) -> Result<(), Fault>
        requires { 0 < sp_of self.old.flat }
        ensures value { Acts result self.old self.new (pushed_all self.old.flat values.now) }
        ensures size { OnOk result (sp_of self.new.flat ≡ sp_of self.old.flat + 4 * length values.now) }
        ensures limit { self.new.flat.stack.limit ≡ self.old.flat.stack.limit }
    {
        self.stack.push_all(values)?;
        Ok(())
    }

    /// Pushes a value; `Overflow` exactly where it doesn't fit.
    #[tactic(auto, unfolding(crate::proofs::Opened::pushing), using(crate::proofs::Kept::framed))]
    #[inline(always)]
    pub fn push(&mut self, v: u32) -> Result<(), Fault>
        requires { 0 < sp_of self.old.flat }
        ensures value { Acts result self.old self.new (pushed self.old.flat v) }
    {
        self.stack.push(v)?;
        Ok(())
    }

    /// Cuts the stack, which keeps its frame.
    #[tactic(auto, using(crate::proofs::Kept::framed))]
    #[inline(always)]
    pub fn cut_stack(&mut self, sp: u32)
        requires { IsHeight self.old.flat sp }
        ensures value { self.new ≡ record self.old { flat = cut self.old.flat sp } }
        ensures height { IsHeight self.new.flat sp }
        ensures frame { frame_of self.new.flat ≡ frame_of self.old.flat }
    {
        self.stack.leave_frame(sp);
    }

    /// Exchanges the top two values; `Underflow` exactly where the frame has fewer.
    #[tactic(auto, unfolding(crate::proofs::Opened::swapping), using(crate::proofs::Kept::framed))]
    pub fn swap(&mut self) -> Result<(), Fault>
        requires { 0 < sp_of self.old.flat }
        ensures value { Acts result self.old self.new (swapped self.old.flat) }
    {
        let frame = self.frame();
        self.stack.swap(&frame)?;
        Ok(())
    }

    /// Moves the top n values up by so many places, cyclically, or down where `by` is negative;
    /// `Underflow` exactly where the frame has fewer.
    #[tactic(auto, unfolding(crate::specs::Flat::rolled), using(crate::proofs::Kept::rolling))]
    pub fn roll(&mut self, n: u32, by: i32) -> Result<(), Fault>
        requires { 0 < sp_of self.old.flat }
        ensures value { Acts result self.old self.new (rolled self.old.flat n by) }
    {
        let frame = self.frame;
        self.stack.roll(&frame, n, by)?;
        Ok(())
    }

    /// Pushes the top n values again; `Underflow` exactly where the frame has fewer, else `Overflow`
    /// exactly where they don't fit.
    #[tactic(auto, unfolding(crate::proofs::Opened::copying), using(crate::proofs::Kept::framed))]
    pub fn copy_top(&mut self, n: u32) -> Result<(), Fault>
        requires { 0 < sp_of self.old.flat }
        ensures value { Acts result self.old self.new (copied self.old.flat n) }
    {
        let frame = self.frame();
        self.stack.copy_top(&frame, n)?;
        Ok(())
    }

    /// Puts the low 1, 2 or 4 bytes of a number into the local at an offset; `BadLocal` exactly where
    /// the frame has no such local.
    #[tactic(auto, unfolding(crate::proofs::Opened::setting_local), using(crate::proofs::Kept::framed))]
    #[inline(always)]
    pub fn set_local(&mut self, at: u32, width: u32, v: u32) -> Result<(), Fault>
        requires live { 0 < sp_of self.old.flat }
        requires width { IsWidth width }
        ensures value { Acts result self.old self.new (with_local self.old.flat at width v) }
        ensures frame { frame_of self.new.flat ≡ frame_of self.old.flat }
        ensures height { sp_of self.new.flat ≡ sp_of self.old.flat }
    {
        let frame = self.frame();
        self.stack.set_local(&frame, at, width, v)?;
        Ok(())
    }
}

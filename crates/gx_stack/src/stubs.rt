//! Call stubs on the stack (Glulx 3.1.2, "Call Stubs").
ghost use Rattle.std.specs.Prelude.{◌≡◌, ◌+◌, ◌*◌, ◌%◌, ◌≤◌, length, take, OnOk, IfOk};
ghost use Rattle.gx_words.specs.Results.{Alters, Turns};
ghost use Rattle.gx_stack.specs.Frames.{KeepsFrames};
ghost use Rattle.gx_stack.specs.Stubs.{stub_bytes, pushed_stubs, stub_below};
ghost use Rattle.gx_stack.specs.Calls.{pushed_stub, top_stub, popped_stub};

use crate::room::push_bytes;
use crate::{Stack, StackFault};
use gx_words::{word_at, word_bytes};

/// What a call leaves on the stack for its return.
#[derive(Clone, Copy, Debug, PartialEq, Eq)]
pub struct Stub {
    /// DestType: what is done with the value that is returned, one of `kinds`.
    pub kind: u32,
    /// DestAddr: where it is stored, or the bit or digit that printing goes on at.
    pub addr: u32,
    /// The address that running or printing goes on at.
    pub pc: u32,
    /// The begin of the frame to go back to.
    pub fp: u32,
}

impl Stub {
    /// Its bytes on the stack, FramePtr topmost.
    #[tactic(auto, unfolding(crate::specs::Stubs::stub_bytes), using(crate::proofs::Pieces::digits))]
    #[inline(always)]
    pub fn bytes(&self) -> [u8; 16]
        ensures value { result ≡ stub_bytes self.now }
        ensures read_back { stub_below result 16 ≡ self.now }
    {
        let [a, b, c, d] = word_bytes(self.kind);
        let [e, f, g, h] = word_bytes(self.addr);
        let [i, j, k, l] = word_bytes(self.pc);
        let [m, n, o, p] = word_bytes(self.fp);
        [a, b, c, d, e, f, g, h, i, j, k, l, m, n, o, p]
    }

    /// The stub on top of a stack's bytes.
    #[inline(always)]
    pub fn on_top(stack: &[u8]) -> Stub
        requires { 16 ≤ length stack.now }
        ensures { result ≡ stub_below stack.now (length stack.now) }
    {
        let sp = stack.len();
        Stub {
            kind: word_at(stack, sp - 16),
            addr: word_at(stack, sp - 12),
            pc: word_at(stack, sp - 8),
            fp: word_at(stack, sp - 4),
        }
    }
}

impl Stack {
    /// Pushes a stub.
    #[tactic(auto, unfolding(crate::specs::Calls::pushed_stub), using(crate::proofs::Opened::pushing_stub))]
    #[inline(always)]
    pub fn push_stub(&mut self, stub: &Stub) -> Result<(), StackFault>
        ensures value { Alters result self.old self.new (pushed_stub self.old stub.now) }
        ensures keeps { KeepsFrames self.old.bytes self.new.bytes }
        ensures size { OnOk result (length self.new.bytes ≡ length self.old.bytes + 16) }
        ensures top { OnOk result (stub_below self.new.bytes (length self.new.bytes) ≡ stub.now) }
    {
        if self.bytes.len() + 16 > self.limit as usize {
            return Err(StackFault::Overflow);
        }
        push_bytes(&mut self.bytes, &stub.bytes());
        Ok(())
    }

    /// Pushes stubs, the first deepest, where all of them fit.
    #[tactic(auto, unfolding(crate::specs::Stubs::pushed_stubs), using(crate::proofs::Opened::pushing_stubs))]
    #[inline(always)]
    pub fn push_stubs(&mut self, stubs: &[Stub]) -> Result<(), StackFault>
        ensures value { Alters result self.old self.new (pushed_stubs self.old stubs.now) }
        ensures keeps { KeepsFrames self.old.bytes self.new.bytes }
        ensures size { OnOk result (length self.new.bytes ≡ length self.old.bytes + 16 * length stubs.now) }
    {
        if stubs.len() > (self.limit as usize - self.bytes.len()) / 16 {
            return Err(StackFault::Overflow);
        }
        for stub in stubs {
            push_bytes(&mut self.bytes, &stub.bytes());
        }
        Ok(())
    }

    /// The stub on top of the stack cut to `sp`.
    #[tactic(auto, unfolding(crate::specs::Calls::top_stub), using(crate::proofs::Kept::cuts))]
    #[inline(always)]
    pub fn stub_at(&self, sp: u32) -> Result<Stub, StackFault>
        requires there { sp ≤ length self.now.bytes }
        requires aligned { sp % 4 ≡ 0 }
        ensures value { result ≡ top_stub (take sp self.now.bytes) }
        ensures there { OnOk result (16 ≤ sp) }
        ensures below { IfOk result (λ stub. stub ≡ stub_below self.now.bytes sp) }
    {
        if sp < 16 {
            return Err(StackFault::Underflow);
        }
        Ok(Stub::on_top(&self.bytes[..sp as usize]))
    }

    /// Takes the stub off the top.
    #[tactic(auto, unfolding(crate::proofs::Opened::popping_stub), using(crate::proofs::Kept::cuts))]
    pub fn pop_stub(&mut self) -> Result<Stub, StackFault>
        ensures value { Turns (λ stub. stub) result self.old self.new (popped_stub self.old) }
        ensures size { OnOk result (length self.new.bytes + 16 ≡ length self.old.bytes) }
    {
        let size = self.size();
        let stub = self.stub_at(size)?;
        self.bytes.truncate(size as usize - 16);
        Ok(stub)
    }
}

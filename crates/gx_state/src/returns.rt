//! Call stubs, and returns to them (Glulx 3.1.2, "Call Stubs" and "Calling and Returning Within
//! Glulx").
//!
//! A return looks for all its faults first, then writes memory where its stub says so, and then goes
//! back to the stub's frame. Nothing has changed after a refusal.
ghost use Rattle.std.specs.Prelude.{◌≡◌, ◌⊎◌, ◌+◌, ◌-◌, ◌*◌, ◌%◌, ◌<◌, ◌≤◌, ◌==◌, take, IfOk, OnOk, OnErr};
ghost use Rattle.std.specs.Prelude.{IsSome};
ghost use Rattle.gx_words.specs.Faults.{Reads};
ghost use Rattle.gx_stack.specs.Constants.{to_memory, to_local, to_stack};
ghost use Rattle.gx_stack.specs.Frames.{IsGood, IsFrame};
ghost use Rattle.gx_stack.specs.Stubs.{stub_below};
ghost use Rattle.gx_state.specs.Flat.{cut, sp_of};
ghost use Rattle.gx_state.specs.Relations.{Acts, Goes, Stores, Works};
ghost use Rattle.gx_state.specs.Returns.{IsReturnWriting, stub_of, pushed_stubs, popped_stub, stub_to, back};
ghost use Rattle.gx_state.specs.Returns.{printing_of, printing_on, delivered, returned};
ghost use Rattle.gx_state.specs.Allowed.{IsWordInRam};
ghost use Rattle.gx_state.specs.Calls.{with_word};

use crate::{Dest, Mode, State};
use gx_stack::{
    Frame, RESUME_C_STRING, RESUME_COMPRESSED, RESUME_NUMBER, RESUME_UNICODE, Stub, TO_LOCAL,
    TO_MEMORY, TO_NOWHERE, TO_STACK,
};
use gx_words::{Fault, PrintKind, Printing, word_bytes};
use std::alloc::{AllocError, Allocator};

/// What goes on being printed at a stub; `None` exactly where its type isn't one of strings and
/// numbers, or its bit isn't below 8.
#[tactic(auto, unfolding(crate::specs::Returns::printing_of))]
pub fn printing_of(stub: &Stub) -> Option<Printing>
    ensures { result ≡ printing_of stub.now }
{
    let (kind, bit) = match stub.kind {
        RESUME_COMPRESSED if stub.addr < 8 => (PrintKind::E1, stub.addr),
        RESUME_NUMBER => (PrintKind::Number, stub.addr),
        RESUME_C_STRING => (PrintKind::E0, 0),
        RESUME_UNICODE => (PrintKind::E2, 0),
        _ => return None,
    };
    Some(Printing {
        kind,
        at: stub.pc,
        bit,
        started: true,
    })
}

impl<A: Allocator + Clone> State<A> {
    /// The stub of a store operand, with the address of the next instruction.
    #[inline(always)]
    pub fn stub(&self, dest: &Dest, next: u32) -> Stub
        ensures { result ≡ stub_of self.now.flat dest.now next }
    {
        let (kind, addr) = match *dest {
            Dest::Nowhere => (TO_NOWHERE, 0),
            Dest::Memory(at) => (TO_MEMORY, at),
            Dest::Local(at) => (TO_LOCAL, at),
            Dest::Push => (TO_STACK, 0),
        };
        Stub {
            kind,
            addr,
            pc: next,
            fp: self.frame.fp,
        }
    }

    /// Pushes stubs, the first deepest; `Overflow` exactly where they don't all fit.
    #[tactic(auto, unfolding(crate::proofs::Opened::pushing_stubs), using(crate::proofs::Kept::framed))]
    pub fn push_stubs(&mut self, stubs: &[Stub]) -> Result<(), Fault>
        requires { 0 < sp_of self.old.flat }
        ensures value { Acts result self.old self.new (pushed_stubs self.old.flat stubs.now) }
        ensures live { 0 < sp_of self.new.flat }
    {
        self.stack.push_stubs(stubs)?;
        Ok(())
    }

    /// Takes the stub off the top, and goes back to its frame; `BadFrame` exactly where fewer than 16
    /// bytes are there, or the stub's frame isn't good. PC stays.
    #[tactic(auto, unfolding(crate::specs::Returns::popped_stub))]
    pub fn pop_stub(&mut self) -> Result<Stub, Fault>
        ensures value { Goes result self.old.flat self.new.flat (popped_stub self.old.flat) }
        ensures spare { self.new.spare ≡ self.old.spare }
    {
        let sp = self.stack.size();
        let (stub, _) = self.resumed(sp)?;
        self.go_back(sp, &stub);
        Ok(stub)
    }

    /// Makes the return of a value with `sp` for FramePtr, after a word was written where `before`
    /// gives its address and value. True exactly where `sp` is 0: the program ends, and the stack is
    /// empty. Memory is wanted only for the word before it, and where the stub's type is `TO_MEMORY`.
    ///
    /// PC stays where the program ends, and where a string or number goes on being printed.
    #[tactic(auto, unfolding(crate::proofs::Opened::returning), using(crate::proofs::Kept::below))]
    pub fn deliver(
        &mut self,
        sp: u32,
        value: u32,
        before: Option<(u32, u32)>,
    ) -> Result<bool, Fault>
        requires there { sp ≤ sp_of self.old.flat }
        requires aligned { sp % 4 ≡ 0 }
        requires before { IsWordInRam self.old.flat before }
        ensures value { Works (IsSome before ⊎ IsReturnWriting self.old.flat sp) result self.old.flat self.new.flat
            (returned (with_word self.old.flat before) sp value) }
        ensures ended { IfOk result (λ ended. ended ≡ (sp == 0)) }
        ensures spare { self.new.spare ≡ self.old.spare }
    {
        if sp == 0 {
            self.write_words(before, None)?;
            self.empty();
            return Ok(true);
        }
        let (stub, frame) = self.resumed(sp)?;
        match stub.kind {
            TO_NOWHERE => {
                self.write_words(before, None)?;
                self.resume(sp, &stub);
            }
            TO_MEMORY => self.give_memory(sp, value, before, &stub)?,
            TO_LOCAL => self.give_local(sp, value, before, &stub, &frame)?,
            TO_STACK => self.give_push(sp, value, before, &stub)?,
            _ => self.give_printing(sp, before, &stub)?,
        }
        Ok(false)
    }

    /// Writes up to two words to RAM, both or none.
    #[tactic(auto, using(crate::proofs::Kept::words))]
    #[inline(always)]
    pub fn write_words(
        &mut self,
        first: Option<(u32, u32)>,
        second: Option<(u32, u32)>,
    ) -> Result<(), AllocError>
        requires first { IsWordInRam self.old.flat first }
        requires second { IsWordInRam self.old.flat second }
        ensures ok { OnOk result (self.new
            ≡ record self.old { flat = with_word (with_word self.old.flat first) second }) }
        ensures err { OnErr result (self.new ≡ self.old) }
        ensures memory { OnErr result (IsSome first ⊎ IsSome second) }
    {
        match (first, second) {
            (None, None) => Ok(()),
            (Some((at, v)), None) | (None, Some((at, v))) => self.write(at, &word_bytes(v)),
            (Some((at, v)), Some((then, w))) => {
                self.memory
                    .write_both(at, &word_bytes(v), then, &word_bytes(w))
            }
        }
    }

    /// The stub that ends at `sp`, and its frame.
    #[tactic(auto, unfolding(crate::proofs::Opened::resuming), using(crate::proofs::Kept::below))]
    #[inline(always)]
    fn resumed(&self, sp: u32) -> Result<(Stub, Frame), Fault>
        requires there { sp ≤ sp_of self.now.flat }
        requires aligned { sp % 4 ≡ 0 }
        ensures value { Reads (λ r. r.0) result (stub_to self.now.flat.stack.bytes sp) }
        ensures there { OnOk result (16 ≤ sp) }
        ensures room { OnOk result (sp ≤ self.now.flat.stack.limit) }
        ensures frame { IfOk result (λ r. IsFrame (take (sp - 16) self.now.flat.stack.bytes) r.1) }
        ensures fp { IfOk result (λ r. r.1.fp ≡ r.0.fp) }
        ensures stub { IfOk result (λ r. r.0 ≡ stub_below self.now.flat.stack.bytes sp) }
    {
        let Ok(stub) = self.stack.stub_at(sp) else {
            return Err(Fault::BadFrame);
        };
        let frame = self.stack.frame_at(stub.fp, sp - 16)?;
        Ok((stub, frame))
    }

    /// Goes back to the frame of the stub that ends at `sp`.
    #[tactic(auto, using(crate::proofs::Kept::framed, crate::proofs::Kept::framed_good))]
    #[inline(always)]
    fn go_back(&mut self, sp: u32, stub: &Stub)
        requires there { 16 ≤ sp }
        requires within { sp ≤ sp_of self.old.flat }
        requires aligned { sp % 4 ≡ 0 }
        requires good { IsGood (take (sp - 16) self.old.flat.stack.bytes) stub.now.fp }
        ensures value { self.new ≡ record self.old { flat = back self.old.flat sp stub.now } }
        ensures live { 0 < sp_of self.new.flat }
    {
        self.stack.leave_frame(sp - 16);
        self.frame = self.stack.parts(stub.fp);
    }

    /// The same, and goes on at the stub's PC.
    #[inline(always)]
    fn resume(&mut self, sp: u32, stub: &Stub)
        requires there { 16 ≤ sp }
        requires within { sp ≤ sp_of self.old.flat }
        requires aligned { sp % 4 ≡ 0 }
        requires good { IsGood (take (sp - 16) self.old.flat.stack.bytes) stub.now.fp }
        ensures value { self.new ≡ record self.old
            { flat = record (back self.old.flat sp stub.now) { pc = stub.now.pc } } }
        ensures live { 0 < sp_of self.new.flat }
    {
        self.go_back(sp, stub);
        self.pc = stub.pc;
    }

    /// The start function has returned.
    #[tactic(auto, using(crate::proofs::Kept::framed))]
    fn empty(&mut self)
        ensures { self.new ≡ record self.old { flat = cut self.old.flat 0 } }
    {
        self.stack.leave_frame(0);
    }

    /// Delivers a value that is stored in memory.
    #[tactic(auto, unfolding(crate::proofs::Opened::delivering), using(crate::proofs::Kept::words))]
    fn give_memory(
        &mut self,
        sp: u32,
        value: u32,
        before: Option<(u32, u32)>,
        stub: &Stub,
    ) -> Result<(), Fault>
        requires there { 16 ≤ sp }
        requires within { sp ≤ sp_of self.old.flat }
        requires aligned { sp % 4 ≡ 0 }
        requires before { IsWordInRam self.old.flat before }
        requires good { IsGood (take (sp - 16) self.old.flat.stack.bytes) stub.now.fp }
        requires kind { stub.now.kind ≡ to_memory }
        ensures { Stores (Unit {0}) result self.old self.new
            (delivered (back (with_word self.old.flat before) sp stub.now) stub.now value) }
    {
        self.can_write(stub.addr, 4)?;
        self.write_words(before, Some((stub.addr, value)))?;
        self.resume(sp, stub);
        Ok(())
    }

    /// Delivers a value that is stored in a local.
    #[tactic(auto, unfolding(crate::proofs::Opened::delivering_local), using(crate::proofs::Kept::local_words))]
    fn give_local(
        &mut self,
        sp: u32,
        value: u32,
        before: Option<(u32, u32)>,
        stub: &Stub,
        frame: &Frame,
    ) -> Result<(), Fault>
        requires there { 16 ≤ sp }
        requires within { sp ≤ sp_of self.old.flat }
        requires aligned { sp % 4 ≡ 0 }
        requires before { IsWordInRam self.old.flat before }
        requires frame { IsFrame (take (sp - 16) self.old.flat.stack.bytes) frame.now }
        requires fp { frame.now.fp ≡ stub.now.fp }
        requires kind { stub.now.kind ≡ to_local }
        ensures { Stores (IsSome before) result self.old self.new
            (delivered (back (with_word self.old.flat before) sp stub.now) stub.now value) }
    {
        if u64::from(stub.addr) + 4 > u64::from(frame.values - frame.locals) {
            return Err(Fault::BadLocal);
        }
        self.write_words(before, None)?;
        self.resume(sp, stub);
        match self.set_local(stub.addr, 4, value) {
            Ok(()) => Ok(()),
            Err(_) => unreachable!(),
        }
    }

    /// Delivers a value that is pushed.
    #[tactic(auto, unfolding(crate::proofs::Opened::delivering_push), using(crate::proofs::Kept::words))]
    fn give_push(
        &mut self,
        sp: u32,
        value: u32,
        before: Option<(u32, u32)>,
        stub: &Stub,
    ) -> Result<(), Fault>
        requires there { 16 ≤ sp }
        requires within { sp ≤ sp_of self.old.flat }
        requires room { sp ≤ self.old.flat.stack.limit }
        requires aligned { sp % 4 ≡ 0 }
        requires before { IsWordInRam self.old.flat before }
        requires good { IsGood (take (sp - 16) self.old.flat.stack.bytes) stub.now.fp }
        requires kind { stub.now.kind ≡ to_stack }
        ensures { Stores (IsSome before) result self.old self.new
            (delivered (back (with_word self.old.flat before) sp stub.now) stub.now value) }
    {
        self.write_words(before, None)?;
        self.resume(sp, stub);
        match self.push(value) {
            Ok(()) => Ok(()),
            Err(_) => unreachable!(),
        }
    }

    /// Drops a value, and goes on printing a string or number.
    #[tactic(auto, unfolding(crate::specs::Returns::printing_on), using(crate::proofs::Kept::words))]
    fn give_printing(
        &mut self,
        sp: u32,
        before: Option<(u32, u32)>,
        stub: &Stub,
    ) -> Result<(), Fault>
        requires there { 16 ≤ sp }
        requires within { sp ≤ sp_of self.old.flat }
        requires aligned { sp % 4 ≡ 0 }
        requires before { IsWordInRam self.old.flat before }
        requires good { IsGood (take (sp - 16) self.old.flat.stack.bytes) stub.now.fp }
        ensures { Stores (IsSome before) result self.old self.new
            (printing_on (back (with_word self.old.flat before) sp stub.now) stub.now) }
    {
        let Some(printing) = printing_of(stub) else {
            return Err(Fault::BadFrame);
        };
        self.write_words(before, None)?;
        self.go_back(sp, stub);
        self.mode = Mode::Printing(printing);
        Ok(())
    }
}

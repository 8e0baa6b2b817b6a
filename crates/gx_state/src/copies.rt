//! Copies of the state, the way back to them, forks of both, and the restart of a story (Glulx 3.1.2, "Game State").
//!
//! A copy has memory, the stack with the stub of a store operand on top, and the heap. A fork is an equal state or
//! an equal copy. Copies, forks and the running state share their pages; forks of a state share its story too, and
//! forks of a copy share all of it. What may be refused comes first, so that the state is as before after every
//! refusal.
ghost use Rattle.std.specs.Prelude.{◌≡◌, ◌≢◌, ◌+◌, ◌-◌, ◌<◌, ◌≤◌, ◌==◌, if◌then◌else◌, Some, None, Ok, length, take};
ghost use Rattle.std.specs.Prelude.{IfOk, OnOk, OnErr, IsTrue};
ghost use Rattle.gx_pages.specs.Memory.{IsSize, put_back_of};
ghost use Rattle.gx_stack.specs.Constants.{to_memory, to_local, to_stack};
ghost use Rattle.gx_stack.specs.Frames.{has_local};
ghost use Rattle.gx_stack.specs.Stubs.{stub_below};
ghost use Rattle.heap_blocks.specs.Heap.{IsSound};
ghost use Rattle.gx_state.specs.Flat.{frame_of, sp_of};
ghost use Rattle.gx_state.specs.Copies.{Copy, IsCopyFor, copy_of, restored_to, restarted, stub_in};
ghost use Rattle.gx_state.specs.Allowed.{HasPlaceFor};
ghost use Rattle.gx_state.specs.Relations.{Begins};
ghost use Rattle.gx_state.specs.Returns.{delivered};
ghost use Rattle.gx_state.specs.Calls.{wrote};

use crate::entry::{function_at, push_call};
use crate::readable::Restarted;
use crate::{Dest, Mode, State};
use gx_pages::{Kept, Pages};
use gx_stack::{Stub, TO_LOCAL, TO_MEMORY, TO_STACK, frame_len};
use gx_words::{Bytes, Fault, word_bytes};
use heap_blocks::Heap;
use std::alloc::{AllocError, Allocator, Global};
use std::marker::Model;
use std::rc::Rc;

/// What is delivered to the stub of a copy: -1.
const MINUS_ONE: u32 = 0xFFFF_FFFF;

/// What a copy has.
#[derive(Drop)]
struct Parts<A: Allocator + Clone> {
    memory: Kept<A>,
    stack: Bytes,
    heap: Heap,
}

/// A copy of memory, the stack and the heap, which its forks share.
#[derive(Drop)]
pub struct Moment<A: Allocator + Clone> {
    parts: Rc<Parts<A>>,
}

impl<A: Allocator + Clone> Model for Moment<A> {
    ghost use Rattle.gx_state.specs.Copies.{Copy};

    ghost Value = { Copy };

    ghost use Rattle.gx_state.specs.Moments.{copy_in};

    ghost view = { copy_in };
}

impl<A: Allocator + Clone> Moment<A> {
    /// The same copy once more, which shares all of it.
    pub fn fork(&self) -> Result<Moment<A>, AllocError>
        ensures { IfOk result (λ copy. copy ≡ self.now) }
    {
        Ok(Moment {
            parts: self.parts.clone()?,
        })
    }
}

/// What the way back to a copy takes of it.
pub(crate) trait Copied<A: Allocator + Clone> {
    ghost copy: { Self → Copy };

    /// The stack, with the stub on top.
    fn stack(&self) -> &[u8]
        ensures { result.now ≡ (copy self.now).stack };

    /// The memory, but for the protected range, which keeps the bytes of the present one.
    fn memory(&self, present: &Pages<A>, protected: (u32, u32)) -> Result<Pages<A>, AllocError>
        requires { IsSize (length (copy self.now).memory) }
        ensures { IfOk result (λ all. all
            ≡ put_back_of present.now (copy self.now).memory protected.0 protected.1) };

    /// The heap.
    fn heap(&self, alloc: Global) -> Result<Heap, AllocError>
        requires { IsSound (copy self.now).heap }
        ensures { IfOk result (λ heap. heap.heap ≡ (copy self.now).heap) };
}

impl<A: Allocator + Clone> Copied<A> for Moment<A> {
    ghost copy = { λ moment. moment };

    fn stack(&self) -> &[u8] {
        self.parts.stack.as_slice()
    }

    fn memory(&self, present: &Pages<A>, protected: (u32, u32)) -> Result<Pages<A>, AllocError> {
        present.put_back(&self.parts.memory, protected)
    }

    fn heap(&self, alloc: Global) -> Result<Heap, AllocError> {
        self.parts.heap.copy(alloc)
    }
}

impl<A: Allocator + Clone> State<A> {
    /// The state once more. Memory and the story are shared; the stack and the list of the heap's blocks are copied.
    pub fn fork(&self, alloc: Global) -> Result<State<A>, AllocError>
        ensures { IfOk result (λ state. state.flat ≡ self.now.flat) }
    {
        Ok(State {
            story: self.story.clone()?,
            memory: self.memory.fork()?,
            stack: self.stack.fork(alloc)?,
            frame: self.frame,
            pc: self.pc,
            table: self.table,
            iosys: self.iosys,
            protected: self.protected,
            heap: self.heap.copy(alloc)?,
            generator: self.generator.copy()?,
            mode: self.mode,
        })
    }

    /// A copy of the state, with the stub of a store operand on top of its stack; `next` is the
    /// address at which the machine goes on. It is fit for the story where the operand takes a word.
    #[tactic(auto, using(std::proofs::lemmas::List::take_all))]
    pub fn keep(&self, dest: &Dest, next: u32) -> Result<Moment<A>, AllocError>
        requires live { 0 < sp_of self.now.flat }
        requires room { sp_of self.now.flat + 16 ≤ self.now.flat.stack.limit }
        ensures value { IfOk result (λ copy. copy ≡ copy_of self.now.flat dest.now next) }
        ensures fit { HasPlaceFor self.now.flat dest.now → IfOk result (λ copy. IsCopyFor self.now.flat.story copy) }
    {
        let alloc = self.stack.allocator();
        let memory = self.memory.keep()?;
        let sp = self.stack.size();
        let stack = self.stack.copy_with(alloc, sp, &self.stub(dest, next))?;
        let heap = self.heap.copy(alloc)?;
        let parts = Parts {
            memory,
            stack,
            heap,
        };
        Ok(Moment {
            parts: Rc::new(alloc, parts)?,
        })
    }

    /// Goes back to a copy, and delivers -1 to its stub. The protected range keeps its bytes, and the
    /// decoding table, the iosystem and the generator stay.
    pub fn put_back(&mut self, copy: &Moment<A>) -> Result<(), AllocError>
        requires { IsCopyFor self.old.flat.story copy.now }
        ensures ok { OnOk result (self.new.flat ≡ restored_to self.old.flat copy.now) }
        ensures err { OnErr result (self.new ≡ self.old) }
        ensures story { self.new.flat.story ≡ self.old.flat.story }
        ensures live { OnOk result (0 < sp_of self.new.flat) }
    {
        self.back_to(copy)
    }

    /// The same, for a copy of either kind.
    #[tactic(auto, using(crate::proofs::FlatCopies::backs))]
    pub(crate) fn back_to<C: Copied<A>>(&mut self, copy: &C) -> Result<(), AllocError>
        requires { IsCopyFor self.old.flat.story (C.copy copy.now) }
        ensures ok { OnOk result (self.new.flat ≡ restored_to self.old.flat (C.copy copy.now)) }
        ensures err { OnErr result (self.new ≡ self.old) }
        ensures story { self.new.flat.story ≡ self.old.flat.story }
        ensures live { OnOk result (0 < sp_of self.new.flat) }
    {
        let stack = copy.stack();
        let stub = Stub::on_top(stack);
        let memory = self.memory_of(copy, &stub)?;
        let heap = copy.heap(self.stack.allocator())?;
        self.lay(memory, heap, stack, &stub);
        self.answer(&stub);
        Ok(())
    }

    /// The memory of a copy but for the protected range, with -1 where the stub has its result stored
    /// in memory.
    #[tactic(auto, using(crate::proofs::Backs::memories))]
    fn memory_of<C: Copied<A>>(&self, copy: &C, stub: &Stub) -> Result<Pages<A>, AllocError>
        requires fit { IsCopyFor self.now.flat.story (C.copy copy.now) }
        requires stub { stub.now ≡ stub_in (C.copy copy.now) }
        ensures value { IfOk result (λ all. all
            ≡ wrote
            (put_back_of self.now.flat.memory (C.copy copy.now).memory
            self.now.flat.protected.0 self.now.flat.protected.1)
            (if stub.now.kind == to_memory then Some (stub.now.addr, 0xFFFFFFFF) else None)) }
        ensures size { IfOk result (λ all. length all ≡ length (C.copy copy.now).memory) }
        ensures rom { IfOk result (λ all. take self.now.flat.story.header.ramstart all
            ≡ take self.now.flat.story.header.ramstart self.now.flat.story.bytes) }
    {
        let mut memory = copy.memory(&self.memory, self.protected)?;
        if stub.kind != TO_MEMORY {
            return Ok(memory);
        }
        memory.write(stub.addr, &word_bytes(MINUS_ONE))?;
        Ok(memory)
    }

    /// Lays a memory, a heap and the stack of a copy over the state, and goes back to the frame of its stub.
    #[tactic(auto, using(crate::proofs::Kept::goods))]
    fn lay(&mut self, memory: Pages<A>, heap: Heap, stack: &[u8], stub: &Stub)
        requires fit { IsCopyFor self.old.flat.story (record { memory = memory; stack = stack.now; heap = heap.heap }) }
        requires stub { stub.now ≡ stub_below stack.now (length stack.now) }
        ensures value { self.new.flat ≡ record self.old.flat {
          memory = memory;
          stack = record self.old.flat.stack { bytes = take (length stack.now - 16) stack.now };
          fp = stub.now.fp;
          pc = stub.now.pc;
          heap = heap.heap;
          mode = Mode.Running;
        } }
        ensures live { 0 < sp_of self.new.flat }
        ensures room { sp_of self.new.flat + 16 ≤ self.new.flat.stack.limit }
    {
        self.memory = memory;
        self.stack.put_back(&stack[..stack.len() - 16]);
        self.frame = self.stack.parts(stub.fp);
        self.pc = stub.pc;
        self.heap = heap;
        self.mode = Mode::Running;
    }

    /// Stores -1 in the local or on the stack, where the stub says so.
    #[tactic(auto, unfolding(crate::proofs::Opened::delivering_anywhere))]
    fn answer(&mut self, stub: &Stub)
        requires live { 0 < sp_of self.old.flat }
        requires kind { stub.now.kind ≤ to_stack }
        requires pc { self.old.flat.pc ≡ stub.now.pc }
        requires local { stub.now.kind ≡ to_local → IsTrue (has_local (frame_of self.old.flat) stub.now.addr 4) }
        requires room { sp_of self.old.flat + 4 ≤ self.old.flat.stack.limit }
        ensures other { stub.now.kind ≢ to_memory → delivered self.old.flat stub.now 0xFFFFFFFF ≡ Ok self.new.flat }
        ensures memory { stub.now.kind ≡ to_memory → self.new ≡ self.old }
        ensures story { self.new.flat.story ≡ self.old.flat.story }
        ensures live { 0 < sp_of self.new.flat }
    {
        match stub.kind {
            TO_LOCAL => match self.set_local(stub.addr, 4, MINUS_ONE) {
                Ok(()) => {}
                Err(_) => unreachable!(),
            },
            TO_STACK => match self.push(MINUS_ONE) {
                Ok(()) => {}
                Err(_) => unreachable!(),
            },
            _ => {}
        }
    }

    /// Starts the story again: memory as at first but for the protected range, an empty stack, no heap,
    /// and the start function entered. The protected range and the generator stay.
    #[tactic(auto, unfolding(crate::proofs::Opened::restarting), using(crate::proofs::Backs::restarts))]
    pub fn restart(&mut self) -> Result<(), Fault>
        ensures value { Begins (Unit {0}) result self.old.flat self.new.flat (restarted self.old.flat) }
        ensures live { OnOk result (0 < sp_of self.new.flat) }
    {
        let at = self.story.start_function();
        let limit = self.stack.limit();
        let (kind, format) = function_at(&Restarted(self), at, 0, 0, limit)?;
        let memory = self
            .memory
            .begin_again(self.story.bytes(), self.story.endmem(), self.protected)?;
        let format = format.as_slice();
        push_call(
            &mut self.stack,
            0,
            &[],
            kind,
            format,
            frame_len(format),
            &[],
        );
        self.memory = memory;
        self.frame = self.stack.parts(0);
        self.pc = at + 1 + format.len() as u32;
        self.table = self.story.table();
        self.iosys = (0, 0);
        self.heap = Heap::new(self.stack.allocator());
        self.mode = Mode::Running;
        Ok(())
    }
}

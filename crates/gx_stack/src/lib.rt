//! The stack of the machine: frames, call stubs and values on one list of bytes of fixed room.
//!
//! The stack grows upward from 0, and its numbers stand big-endian (Glulx 3.1.2, "The Stack").
//! - `frames` finds, enters and leaves call frames, whose bytes `formats` makes.
//! - `stubs` pushes and pops call stubs, and `kinds` says what one does at a return.
//! - `values` has the values of a frame and its locals.
//!
//! Contracts see a stack as its bytes and its limit. The whole limit is asked for at once, so that
//! only `new`, `fork` and `copy_with` may want memory. After a refusal the stack is as before.
//!
//! A call that is given a frame wants a good one: one that `frame` or an entry answered, as long as
//! the stack wasn't cut below its values since. A format has at most 64 pairs.
#![tactic(auto)]

ghost use Rattle.std.specs.Prelude.{◌≡◌, ◌%◌, ◌<◌, ◌≤◌, ◌++◌, [], length, take, IfOk, OnErr};
ghost use Rattle.gx_words.specs.Constants.{stack_limit};
ghost use Rattle.gx_stack.specs.Stubs.{stub_bytes, stub_below};

mod faults;
mod formats;
mod frames;
mod kinds;
mod room;
mod stubs;
mod values;

pub use faults::StackFault;
pub use formats::frame_len;
pub use frames::Frame;
use gx_words::Bytes;
pub use kinds::{
    RESUME_C_STRING, RESUME_CODE, RESUME_COMPRESSED, RESUME_NUMBER, RESUME_UNICODE, TO_LOCAL,
    TO_MEMORY, TO_NOWHERE, TO_STACK,
};
use room::push_bytes;
use std::alloc::{AllocError, Global};
use std::marker::Model;
pub use stubs::Stub;

/// A stack of bytes. Its size is at every time a multiple of 4.
#[derive(Drop)]
pub struct Stack {
    bytes: Vec<u8>,
    limit: u32,
}

impl Model for Stack {
    ghost use Rattle.gx_stack.specs.Flat.{FlatStack};

    ghost Value = { FlatStack };

    ghost use Rattle.gx_stack.specs.Sound.{flat_of, IsSound};

    ghost view = { flat_of };

    ghost invariant = { IsSound };
}

impl Stack {
    /// An empty stack that has the room for `limit` bytes. No memory is asked for where it is none.
    pub fn new(alloc: Global, limit: u32) -> Result<Stack, AllocError>
        requires { limit ≤ stack_limit }
        ensures value { IfOk result (λ stack. stack ≡ record { bytes = []; limit = limit }) }
        ensures memory { OnErr result (0 < limit) }
    {
        if limit == 0 {
            return Ok(Stack {
                bytes: Vec::new(alloc),
                limit,
            });
        }
        let bytes = Vec::with_capacity(alloc, limit as usize)?;
        Ok(Stack { bytes, limit })
    }

    /// All bytes, the oldest first.
    pub fn bytes(&self) -> &[u8]
        ensures value { result.now ≡ self.now.bytes }
        ensures fits { length result.now ≤ self.now.limit }
        ensures aligned { length result.now % 4 ≡ 0 }
    {
        &self.bytes
    }

    /// How many bytes there are: the stack pointer.
    pub fn size(&self) -> u32
        ensures value { result ≡ length self.now.bytes }
        ensures fits { result ≤ self.now.limit }
        ensures aligned { result % 4 ≡ 0 }
        ensures bound { result ≤ stack_limit }
    {
        self.bytes.len() as u32
    }

    /// How many bytes there may be.
    pub fn limit(&self) -> u32
        ensures value { result ≡ self.now.limit }
        ensures fits { length self.now.bytes ≤ result }
        ensures aligned { length self.now.bytes % 4 ≡ 0 }
        ensures bound { result ≤ stack_limit }
    {
        self.limit
    }

    /// The allocator that gave the stack its room.
    pub fn allocator(&self) -> Global {
        *self.bytes.allocator()
    }

    /// The stack once more, with the same room. No memory is asked for where that is none.
    pub fn fork(&self, alloc: Global) -> Result<Stack, AllocError>
        ensures value { IfOk result (λ stack. stack ≡ self.now) }
        ensures memory { OnErr result (0 < self.now.limit) }
    {
        let mut stack = Stack::new(alloc, self.limit)?;
        stack.put_back(&self.bytes);
        Ok(stack)
    }

    /// The bytes of the stack cut to `sp`, with a stub on top, as a list of their own. It is asked for once.
    #[tactic(auto, using(crate::proofs::Pieces::stub_on_top))]
    pub fn copy_with(&self, alloc: Global, sp: u32, stub: &Stub) -> Result<Bytes, AllocError>
        requires { sp ≤ length self.now.bytes }
        ensures value { IfOk result (λ copy. copy ≡ take sp self.now.bytes ++ stub_bytes stub.now) }
        ensures top { IfOk result (λ copy. stub_below copy (length copy) ≡ stub.now) }
    {
        let below = &self.bytes[..sp as usize];
        let stub = stub.bytes();
        let mut copy = Bytes::with_capacity(alloc, below.len() + stub.len())?;
        copy.extend_from_slice(below)?;
        copy.extend_from_slice(&stub)?;
        Ok(copy)
    }

    /// Makes these the bytes of the stack.
    pub fn put_back(&mut self, bytes: &[u8])
        requires aligned { length bytes.now % 4 ≡ 0 }
        requires fits { length bytes.now ≤ self.old.limit }
        ensures { self.new ≡ record self.old { bytes = bytes.now } }
    {
        self.bytes.clear();
        push_bytes(&mut self.bytes, bytes);
    }
}

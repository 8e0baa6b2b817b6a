//! What a function is read from: memory, or the memory that a start or a restart is going to make.
//!
//! So the faults of an entry are found before memory is asked for.
ghost use Rattle.std.specs.Prelude.{ℕ, ◌<◌, List, length, OnOk};
ghost use Rattle.gx_words.specs.Constants.{ceiling};
ghost use Rattle.gx_words.specs.Faults.{Reads};
ghost use Rattle.gx_pages.specs.Memory.{number_in};
ghost use Rattle.gx_state.specs.Entry.{initial};
ghost use Rattle.gx_state.specs.Copies.{reset};

use crate::State;
use gx_pages::Pages;
use gx_story::Story;
use gx_words::Fault;
use std::alloc::Allocator;

/// Bytes that can be read one by one.
pub trait Readable {
    ghost bytes: { Self → List ℕ };

    /// The byte at an address; `BadAddress` exactly where there is none.
    fn byte(&self, at: u32) -> Result<u8, Fault>
        ensures value { Reads (λ v. v) result (number_in 1 (bytes self.now) at) }
        ensures there { OnOk result (at < length (bytes self.now)) }
        ensures low { OnOk result (at < ceiling) };
}

impl<A: Allocator> Readable for Pages<A> {
    ghost bytes = { λ pages. pages };

    fn byte(&self, at: u32) -> Result<u8, Fault> {
        Ok(self.try_number(1, at)? as u8)
    }
}

/// Memory as code is read from it: below RAMSTART it is the story's own bytes.
#[derive(Drop)]
pub struct Code<'a, A: Allocator + Clone>(pub &'a State<A>);

impl<A: Allocator + Clone> Readable for Code<'_, A> {
    ghost bytes = { λ code. code.0.now.flat.memory };

    #[inline(always)]
    #[tactic(auto, unfolding(gx_pages::specs::Memory::number_in))]
    fn byte(&self, at: u32) -> Result<u8, Fault> {
        Ok(self.0.code(1, at)? as u8)
    }
}

/// The memory that a story starts with.
#[derive(Drop)]
pub struct Started<'a>(pub &'a Story);

impl Readable for Started<'_> {
    ghost bytes = { λ started. (initial started.0.now).memory };

    #[tactic(auto, unfolding(gx_pages::specs::Memory::number_in), using(crate::proofs::Bytes::first_bytes))]
    fn byte(&self, at: u32) -> Result<u8, Fault> {
        if at >= self.0.endmem() {
            return Err(Fault::BadAddress);
        }
        let stored = self.0.bytes();
        let at = at as usize;
        Ok(if at < stored.len() { stored[at] } else { 0 })
    }
}

/// The memory that a restart of a state makes.
#[derive(Drop)]
pub struct Restarted<'a, A: Allocator + Clone>(pub &'a State<A>);

impl<A: Allocator + Clone> Readable for Restarted<'_, A> {
    ghost bytes = { λ restarted. (reset restarted.0.now.flat).memory };

    #[tactic(auto, using(crate::proofs::Bytes::bytes_again))]
    fn byte(&self, at: u32) -> Result<u8, Fault> {
        let state = self.0;
        let (from, count) = state.protected();
        if at < from || at - from >= count || at >= state.endmem() {
            return Started(state.story()).byte(at);
        }
        Ok(state.memory().byte(at) as u8)
    }
}

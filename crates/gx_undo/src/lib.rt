//! The copies that saveundo keeps, restoreundo goes back to and discardundo drops (Glulx 3.1.2, "Game State").
//!
//! Contracts see an `Undo` as its copies, the newest first, and its depth: how many it keeps at most,
//! which the standard leaves to the interpreter. The room for all of them is asked for at once, so that
//! `push` is never refused; where the list is full the oldest copy is dropped. A fork is an equal list, which
//! shares its copies.
//!
//! What holds of each copy goes on to hold: a clause of `push` and one of `pop` say so of copies that
//! are fit for a story.
#![tactic(auto)]

ghost use Rattle.std.specs.Prelude.{◌≡◌, ◌≤◌, ◌==◌, [], length, slice_get, IfOk, IfSome};
ghost use Rattle.gx_story.specs.Stories.{FlatStory};
ghost use Rattle.gx_state.specs.Copies.{IsCopyFor};
ghost use Rattle.gx_undo.specs.Undo.{AreCopiesFor, most_undo, with_newest, without_newest};

use circular_buffer::HeapCircularBuffer;
use gx_state::Moment;
use std::alloc::{AllocError, Allocator, Global};
use std::marker::Model;

/// The greatest depth.
pub const MOST_UNDO: usize = 64;

/// The newest copies.
#[derive(Drop)]
pub struct Undo<A: Allocator + Clone> {
    ring: HeapCircularBuffer<Moment<A>>,
}

impl<A: Allocator + Clone> Model for Undo<A> {
    ghost use Rattle.gx_undo.specs.Undo.{FlatUndo};

    ghost Value = { FlatUndo };

    ghost use Rattle.gx_undo.specs.Sound.{flat_of, IsSound};

    ghost view = { flat_of };

    ghost invariant = { IsSound };
}

impl<A: Allocator + Clone> Undo<A> {
    /// No copies, and the room for `depth` of them.
    pub fn new(alloc: Global, depth: usize) -> Result<Undo<A>, AllocError>
        requires { (1 ≤ depth) × (depth ≤ most_undo) }
        ensures { IfOk result (λ undo. undo ≡ record { copies = []; depth = depth }) }
    {
        let ring = HeapCircularBuffer::with_capacity(alloc, depth)?;
        Ok(Undo { ring })
    }

    /// The same copies once more, and the same depth. Each copy is shared.
    pub fn fork(&self, alloc: Global) -> Result<Undo<A>, AllocError>
        ensures { IfOk result (λ undo. undo ≡ self.now) }
    {
        let mut ring = HeapCircularBuffer::with_capacity(alloc, self.ring.capacity())?;
        for i in 0..self.ring.len() {
            match self.ring.get(i) {
                Some(copy) => {
                    let _none = ring.push_back(copy.fork()?); // there is room for all of them
                }
                None => unreachable!(),
            }
        }
        Ok(Undo { ring })
    }

    /// Puts a copy in front of the others, and drops the oldest where as many are kept as may be.
    pub fn push(&mut self, copy: Moment<A>)
        ensures value { self.new ≡ with_newest self.old copy }
        ensures few { length self.new.copies ≤ self.new.depth }
        ensures fit { (story : FlatStory) → AreCopiesFor story self.old.copies → IsCopyFor story copy
            → AreCopiesFor story self.new.copies }
    {
        let _oldest = self.ring.push_front(copy); // dropped, where as many are kept as may be
    }

    /// Takes the newest copy away; `None` exactly where there is none.
    pub fn pop(&mut self) -> Option<Moment<A>>
        ensures value { result ≡ slice_get self.old.copies 0 }
        ensures rest { self.new ≡ without_newest self.old }
        ensures fit { (story : FlatStory) → AreCopiesFor story self.old.copies → AreCopiesFor story self.new.copies }
        ensures newest { (story : FlatStory) → AreCopiesFor story self.old.copies → IfSome result (IsCopyFor story) }
    {
        self.ring.pop_front()
    }

    /// Whether there is no copy.
    pub fn is_empty(&self) -> bool
        ensures { result ≡ (length self.now.copies == 0) }
    {
        self.ring.is_empty()
    }

    /// How many copies there are.
    pub fn len(&self) -> usize
        ensures value { result ≡ length self.now.copies }
        ensures few { result ≤ self.now.depth }
    {
        self.ring.len()
    }
}

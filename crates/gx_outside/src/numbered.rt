//! The calls of a device in memory: how many there were, and which of them fail.
ghost use Rattle.std.specs.Prelude.{◌≡◌, false, IfOk};
ghost use Rattle.gx_outside.specs.Fakes.{no_calls, fails_next, after_call};
ghost use Rattle.gx_outside.specs.Outside.{HasCause};

use crate::Calls;
use std::alloc::{AllocError, Global};
use std::marker::Model;

/// Calls with numbers from 1 on, and the numbers of those that fail.
#[derive(Drop)]
pub struct NumberedCalls {
    fails: Vec<u64>,
    counts: Calls,
}

impl Model for NumberedCalls {
    ghost use Rattle.gx_outside.specs.Fakes.{HeldCalls};

    ghost Value = { HeldCalls };

    ghost view = { λ c. record { fails = c.fails.items; counts = c.counts } };
}

impl NumberedCalls {
    pub fn new(alloc: Global, fails: &[u64]) -> Result<Self, AllocError>
        ensures { IfOk result (λ calls. calls ≡ no_calls fails.now) }
    {
        Ok(NumberedCalls {
            fails: Vec::from_slice(alloc, fails)?,
            counts: Calls::none(),
        })
    }

    /// Begins the next call, and answers whether it fails.
    pub fn begin(&mut self) -> bool
        ensures fails { result ≡ fails_next self.old }
        ensures after { self.new ≡ after_call self.old false }
        ensures cause { HasCause self.old.counts self.new.counts result false }
    {
        let next = self.counts.made.saturating_add(1);
        let fails = self.fails.contains(&next);
        self.counts.note(fails, false);
        fails
    }

    /// Ends the call, and notes whether memory ran out in it.
    pub fn end(&mut self, wanted: bool)
        ensures { self.new ≡ record self.old { counts = record self.old.counts { wanting = wanted } } }
    {
        self.counts.wanting = wanted;
    }
}

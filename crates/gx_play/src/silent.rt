//! Devices for a run that nothing is to come from: no input, no files, no chance. They never fail.
ghost use Rattle.std.specs.Prelude.{◌≡◌, [], length};
ghost use Rattle.gx_outside.specs.Outside.{raised_by};
ghost use Rattle.gx_outside.specs.Reads.{SourceCall};
ghost use Rattle.gx_outside.specs.Sends.{SinkCall};
ghost use Rattle.gx_outside.specs.Shelves.{ShelfCall};
ghost use Rattle.gx_play.specs.Jobs.{zeros};
ghost use Rattle.gx_play.specs.Silent.{gathered, no_shelf, no_source};

use gx_outside::{Failed, Load, SendFault, Shelf, ShelfFault, Sink, Source};
use gx_words::Bytes;
use rand_core::Rng;
use std::alloc::Global;

/// A source in which nothing is left.
#[derive(Drop)]
pub struct NoInput {
    reads: u64,
    offered: u64,
}

impl NoInput {
    pub fn new() -> NoInput {
        NoInput {
            reads: 0,
            offered: 0,
        }
    }
}

impl Source for NoInput {
    ghost seen = { λ s. no_source s.reads s.offered };

    ghost called = { λ before r now. SourceCall (no_source before.reads before.offered) r
        (no_source now.reads now.offered) };

    ghost called_so = { λ before r now does. does };

    fn read(&mut self, into: &mut [u8]) -> Result<usize, Failed> {
        self.reads = self.reads.saturating_add(1);
        self.offered = self.offered.saturating_add(into.len() as u64);
        Ok(0)
    }
}

/// A shelf without files, and with room for none.
#[derive(Drop)]
pub struct NoFiles {
    calls: u64,
    wanting: bool,
}

impl NoFiles {
    pub fn new() -> NoFiles {
        NoFiles {
            calls: 0,
            wanting: false,
        }
    }

    /// One more call, which wants memory or doesn't.
    fn note(&mut self, wanted: bool)
        ensures calls { self.new.calls ≡ raised_by 1 self.old.calls }
        ensures wanting { self.new.wanting ≡ wanted }
    {
        self.calls = self.calls.saturating_add(1);
        self.wanting = wanted;
    }
}

impl Shelf for NoFiles {
    ghost seen = { λ s. no_shelf s.calls s.wanting };

    ghost called = { λ before c now. ShelfCall (no_shelf before.calls before.wanting) c
        (no_shelf now.calls now.wanting) };

    ghost called_so = { λ before c now does. does };

    fn load(&mut self, _name: &str, _most: usize) -> Result<Load, ShelfFault> {
        self.note(false);
        Ok(Load::Missing)
    }

    fn store(&mut self, _name: &str, _bytes: &[u8]) -> Result<(), ShelfFault> {
        self.note(true);
        Err(ShelfFault::NoMemory)
    }

    fn remove(&mut self, _name: &str) -> Result<bool, ShelfFault> {
        self.note(false);
        Ok(false)
    }

    fn has(&mut self, _name: &str) -> Result<bool, ShelfFault> {
        self.note(false);
        Ok(false)
    }
}

/// A sink that keeps the bytes which it takes.
#[derive(Drop)]
pub struct Gathered {
    text: Bytes,
    sends: u64,
    wanting: bool,
}

impl Gathered {
    pub fn new(alloc: Global) -> Gathered
        ensures { result.text ≡ [] }
    {
        Gathered {
            text: Bytes::new(alloc),
            sends: 0,
            wanting: false,
        }
    }

    /// How many bytes it has taken.
    pub fn len(&self) -> usize
        ensures { result ≡ length self.now.text }
    {
        self.text.len()
    }
}

impl Sink for Gathered {
    ghost seen = { λ s. gathered s.sends s.wanting s.text };

    ghost called = { λ before s now. SinkCall (gathered before.sends before.wanting before.text) s
        (gathered now.sends now.wanting now.text) };

    ghost called_so = { λ before s now does. does };

    fn send(&mut self, bytes: &[u8]) -> Result<(), SendFault> {
        self.sends = self.sends.saturating_add(1);
        let taken = self.text.extend_from_slice(bytes);
        self.wanting = taken.is_err();
        taken?;
        Ok(())
    }
}

/// Random words that are all 0.
#[derive(Drop)]
pub struct Zeros;

impl Rng for Zeros {
    ghost stream = { λ _. zeros };

    #[tactic(auto, unfolding(rand_core::specs::Stream::next_u32))]
    fn next_u32(&mut self) -> u32 {
        0
    }

    #[tactic(auto, unfolding(rand_core::specs::Stream::next_u64))]
    fn next_u64(&mut self) -> u64 {
        0
    }

    #[tactic(auto, unfolding(rand_core::specs::Stream::fill_bytes))]
    fn fill_bytes(&mut self, into: &mut [u8]) {
        into.fill(0);
    }
}

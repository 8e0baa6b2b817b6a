//! The count of the blocks that are out, and which requests are refused.
ghost use Rattle.std.specs.Prelude.{◌≡◌, ◌≤◌, ◌<◌, IsTrue};

use std::cell::Cell;

/// The most bytes that a block may have.
pub const MOST_SIZE: usize = 320;

/// The highest alignment that a block may ask for.
pub const MOST_ALIGN: usize = 16;

#[derive(Drop)]
pub(crate) struct Tally {
    most: usize,
    out: Cell<usize>,
}

impl Tally {
    /// No block is out, and at most so many may be.
    pub(crate) fn new(most: usize) -> Self
        ensures { result.most ≡ most }
    {
        Tally {
            most,
            out: Cell::new(0),
        }
    }

    /// How many blocks are out.
    pub(crate) fn out(&self) -> usize
        ensures { result ≤ self.now.most }
    {
        self.out.get().min(self.most)
    }

    /// Whether a request is refused: it is too large, or as many blocks are out as may be.
    pub(crate) fn refuses(&self, size: usize, align: usize) -> bool
        ensures large { MOST_SIZE < size → IsTrue result }
        ensures aligned { MOST_ALIGN < align → IsTrue result }
    {
        size > MOST_SIZE || align > MOST_ALIGN || self.out() >= self.most
    }

    /// Counts a block that goes out.
    pub(crate) fn lend(&self) {
        self.out.set(self.out.get().saturating_add(1));
    }

    /// Counts a block that has come back.
    pub(crate) fn take_back(&self) {
        self.out.set(self.out.get().saturating_sub(1));
    }
}

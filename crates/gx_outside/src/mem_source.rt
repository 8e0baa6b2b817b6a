//! A source in memory.
ghost use Rattle.std.specs.Prelude.{◌≡◌, ◌≤◌, ◌++◌, min, length, false, take, drop, is_err, IfOk, OnErr};
ghost use Rattle.gx_outside.specs.Fakes.{no_calls, fails_next, after_call, seen_source};
ghost use Rattle.gx_outside.specs.Outside.{raised_by};
ghost use Rattle.gx_outside.specs.Reads.{SourceCall, given};

use crate::numbered::NumberedCalls;
use crate::{Failed, Source};
use gx_words::Bytes;
use std::alloc::{AllocError, Global};
use std::marker::Model;

/// A source that gives its bytes in pieces. Its calls are numbered from 1, and those whose numbers
/// it was given fail and give nothing.
#[derive(Drop)]
pub struct MemSource {
    bytes: Bytes,
    at: usize,
    piece: usize,
    offered: u64,
    calls: NumberedCalls,
}

impl Model for MemSource {
    ghost use Rattle.std.specs.Prelude.{drop, length, ◌≤◌};
    ghost use Rattle.gx_outside.specs.Fakes.{HeldSource};

    ghost Value = { HeldSource };

    ghost view = { λ s. record { left = drop s.at s.bytes; piece = s.piece; offered = s.offered; calls = s.calls } };

    ghost invariant = { λ s. (s.at ≤ length s.bytes) × (1 ≤ s.piece) };
}

impl MemSource {
    /// A source of these bytes, of which a call gives at most `piece`.
    pub fn new(
        alloc: Global,
        bytes: &[u8],
        piece: usize,
        fails: &[u64],
    ) -> Result<MemSource, AllocError>
        requires { 1 ≤ piece }
        ensures { IfOk result (λ source. source
            ≡ record { left = bytes.now; piece = piece; offered = 0; calls = no_calls fails.now }) }
    {
        Ok(MemSource {
            bytes: Bytes::from_slice(alloc, bytes)?,
            at: 0,
            piece,
            offered: 0,
            calls: NumberedCalls::new(alloc, fails)?,
        })
    }
}

impl Source for MemSource {
    ghost seen = { seen_source };

    ghost called = { λ before r now. SourceCall (seen_source before) r (seen_source now) };

    ghost called_so = { λ before r now does. does };

    fn read(&mut self, into: &mut [u8]) -> Result<usize, Failed>
        ensures fails { is_err result ≡ fails_next self.old.calls }
        ensures calls { self.new.calls ≡ after_call self.old.calls false }
        ensures piece { self.new.piece ≡ self.old.piece }
        ensures offered { self.new.offered ≡ raised_by (length into.old) self.old.offered }
        ensures count { IfOk result (λ count. count
            ≡ min (min (length into.old) self.old.piece) (length self.old.left)) }
        ensures given { IfOk result (λ count. into.new ≡ take count self.old.left ++ drop count into.old) }
        ensures left { IfOk result (λ count. self.new.left ≡ drop count self.old.left) }
        ensures err { OnErr result ((self.new.left ≡ self.old.left) × (into.new ≡ into.old)) }
        ensures bound { IfOk result (λ count. count ≤ length into.old) }
        ensures does { SourceCall (seen_source self.old) (length into.old, given into.new result)
            (seen_source self.new) }
    {
        self.offered = self.offered.saturating_add(into.len() as u64);
        if self.calls.begin() {
            return Err(Failed);
        }
        let left = &self.bytes.as_slice()[self.at..];
        let count = into.len().min(self.piece).min(left.len());
        into[..count].copy_from_slice(&left[..count]);
        self.at += count;
        Ok(count)
    }
}

//! The lines of the input: what was read of the source and not taken yet.
//!
//! The source is read only where no whole line is held, and no more once it has ended. So at most
//! PIECE - 1 bytes are held beyond the lines that were taken. What was taken is let go before more is
//! read: fewer than LONGEST + PIECE bytes are kept. They lie in the value itself, so that memory is wanted for the
//! characters of a line alone, and for none where it has none. A line for which memory ran out is still held.
ghost use Rattle.std.specs.Prelude.{◌≡◌, ◌≢◌, ◌+◌, ◌≤◌, ◌<◌, ℕ, [], length, take, drop, Err, OnErr, IfOk, IfErr};
ghost use Rattle.std.specs.Prelude.{false};
ghost use Rattle.std.specs.Prelude.{slice_index};
ghost use Rattle.std.specs.List.{position_or_len};
ghost use Rattle.gx_outside.specs.Outside.{HasCause, raised_by};
ghost use Rattle.gx_session.specs.Constants.{longest_line, piece as one_piece};
ghost use Rattle.gx_session.specs.Input.{is_line_feed};
ghost use Rattle.gx_session.specs.Lines.{chars_of};
ghost use Rattle.gx_session.specs.Reading.{Fed, Takes, HoldsFew, HoldsLineFeed, FillsBy, is_failed};
ghost use Rattle.gx_session.specs.Counts.{Blames};

use arrayvec::ArrayVec;
use bstr::ByteSlice;
use glk_text::printable;
use gx_outside::{Failed, Source};
use gx_words::Numbers;
use std::alloc::{AllocError, Global};
use std::marker::Model;

/// So many bytes with no line feed among them are no line.
pub const LONGEST: usize = 65_536;

/// So many bytes are asked of the source at a time.
pub const PIECE: usize = 4096;

/// So many bytes can be kept.
const ROOM: usize = LONGEST + PIECE;

/// Why no line was taken.
#[derive(Clone, Copy, Debug)]
pub enum NoLine {
    /// Nothing is left.
    Ended,
    /// LONGEST bytes hold no line feed.
    TooLong,
    /// The source failed.
    Failed,
    /// Memory ran out.
    NoMemory,
}

impl From<Failed> for NoLine {
    ghost use Rattle.gx_session.specs.declared.lines.NoLine.TheVariants.{Failed};

    ghost from_gives = { λ _ none. none ≡ Failed };

    fn from(_failed: Failed) -> NoLine {
        NoLine::Failed
    }
}

impl From<AllocError> for NoLine {
    ghost use Rattle.gx_session.specs.declared.lines.NoLine.TheVariants.{NoMemory};

    ghost from_gives = { λ _ none. none ≡ NoMemory };

    fn from(_refused: AllocError) -> NoLine {
        NoLine::NoMemory
    }
}

/// Bytes of the input that were read and not taken.
#[derive(Drop)]
pub struct Lines {
    alloc: Global,
    bytes: ArrayVec<u8, ROOM>,
    /// Where the bytes begin that weren't taken.
    at: usize,
    /// The source has said that nothing is left.
    ended: bool,
}

impl Model for Lines {
    ghost use Rattle.std.specs.Prelude.{drop, length, ◌+◌, ◌≤◌, ◌<◌};
    ghost use Rattle.gx_session.specs.Constants.{longest_line, piece};
    ghost use Rattle.gx_session.specs.Lines.{HeldLines};

    ghost Value = { HeldLines };

    ghost view = { λ l. record { held = drop l.at l.bytes.items; ended = l.ended } };

    ghost invariant = { λ l. (l.at ≤ length l.bytes.items) × (length l.bytes.items < longest_line + piece) };
}

/// The place of the first line feed, or the length where there is none. None stands before `from`.
fn line_end(bytes: &[u8], from: usize) -> usize
    requires within { from ≤ length bytes.now }
    requires before { (k : ℕ) → k < from → is_line_feed (slice_index bytes.now k) ≡ false }
    ensures is { result ≡ position_or_len is_line_feed bytes.now }
    ensures later { from ≤ result }
{
    for i in from..bytes.len() {
        if bytes[i] == b'\n' {
            return i;
        }
    }
    bytes.len()
}

/// The characters of a line, without those that aren't printable.
fn read_chars(alloc: Global, line: &[u8]) -> Result<Numbers, AllocError>
    ensures value { IfOk result (λ chars. chars ≡ chars_of line.now) }
    ensures memory { OnErr result (chars_of line.now ≢ []) }
{
    let mut chars = Numbers::new(alloc);
    for c in line.chars() {
        if printable(u32::from(c)) {
            chars.push(u32::from(c))?;
        }
    }
    Ok(chars)
}

/// Lets go of the bytes before a place.
fn cut_front(bytes: &mut ArrayVec<u8, ROOM>, at: usize)
    requires { at ≤ length bytes.old.items }
    ensures { bytes.new.items ≡ drop at bytes.old.items }
{
    let left = bytes.len() - at;
    bytes.as_mut_slice().rotate_left(at);
    bytes.truncate(left);
}

impl Lines {
    /// Before anything was read.
    pub fn new(alloc: Global) -> Lines
        ensures { result ≡ record { held = []; ended = false } }
    {
        Lines {
            alloc,
            bytes: ArrayVec::new(),
            at: 0,
            ended: false,
        }
    }

    /// What is held.
    fn held(&self) -> &[u8]
        ensures { result.now ≡ self.now.held }
    {
        &self.bytes.as_slice()[self.at..]
    }

    /// Reads one piece of the source, and keeps no more than what is held.
    fn fill<S: Source>(&mut self, source: &mut S) -> Result<(), Failed>
        requires going { self.old.ended ≡ false }
        requires short { length self.old.held < longest_line }
        ensures fills { FillsBy S.called S.seen self.old self.new source.old source.new result }
        ensures count { HasCause (S.seen source.old).calls (S.seen source.new).calls (is_failed result) false }
        ensures offered { (S.seen source.new).offered ≡ raised_by one_piece (S.seen source.old).offered }
        ensures tells { (S.seen source.new).tells ≡ (S.seen source.old).tells }
    {
        let mut piece = [0u8; PIECE];
        let count = source.read(&mut piece)?;
        if count == 0 {
            self.ended = true;
            return Ok(());
        }
        cut_front(&mut self.bytes, self.at);
        self.at = 0;
        let _fits = self.bytes.try_extend_from_slice(&piece[..count]); // less than a line was kept
        Ok(())
    }
}

impl Lines {
    /// Takes the next line of the source: its characters.
    pub fn next<S: Source>(&mut self, source: &mut S) -> Result<Numbers, NoLine>
        ensures takes { Fed S.called S.seen self.old self.new source.old source.new
            (λ coming after. Takes self.old self.new (S.seen source.old) (S.seen source.new) coming after result) }
        ensures few { length self.old.held < one_piece → HoldsFew self.new.held result }
        ensures unread { HoldsLineFeed self.old.held → S.seen source.new ≡ S.seen source.old }
        ensures count { Blames (S.seen source.old).calls (S.seen source.new).calls (result ≡ Err NoLine.Failed) }
        ensures tells { (S.seen source.new).tells ≡ (S.seen source.old).tells }
    {
        let mut searched = 0;
        loop {
            let end = line_end(self.held(), searched);
            if end >= LONGEST {
                return Err(NoLine::TooLong);
            }
            if end < self.held().len() {
                return self.take(end);
            }
            if self.ended {
                return self.take_rest();
            }
            self.fill(source)?;
            searched = end;
        }
    }

    /// Takes the line that ends at a line feed.
    fn take(&mut self, end: usize) -> Result<Numbers, NoLine>
        requires { end < length self.old.held }
        ensures ok { IfOk result (λ chars. (chars ≡ chars_of (take end self.old.held))
            × (self.new ≡ record self.old { held = drop (end + 1) self.old.held })) }
        ensures err { IfErr result (λ none.
            (none ≡ NoLine.NoMemory) × (chars_of (take end self.old.held) ≢ []) × (self.new ≡ self.old)) }
    {
        let chars = read_chars(self.alloc, &self.held()[..end])?;
        self.at += end + 1;
        Ok(chars)
    }

    /// Takes all that is held, the last line.
    fn take_rest(&mut self) -> Result<Numbers, NoLine>
        ensures none { length self.old.held ≡ 0 → (result ≡ Err NoLine.Ended) × (self.new ≡ self.old) }
        ensures ok { IfOk result (λ chars. (chars ≡ chars_of self.old.held)
            × (self.new ≡ record self.old { held = [] })) }
        ensures err { 0 < length self.old.held → IfErr result (λ none.
            (none ≡ NoLine.NoMemory) × (chars_of self.old.held ≢ []) × (self.new ≡ self.old)) }
    {
        if self.held().is_empty() {
            return Err(NoLine::Ended);
        }
        let chars = read_chars(self.alloc, self.held())?;
        self.at = self.bytes.len();
        Ok(chars)
    }
}

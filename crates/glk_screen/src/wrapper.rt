//! Text that is wrapped as it comes: a row is held back until it is full or ends.
//!
//! Contracts see the columns of a row, those of the present row that were let go, and the characters that are held of
//! it. What a character makes of them is `wrapped_char` of specs/Wrapper; `laws` has what holds of it.
ghost use Rattle.std.specs.Prelude.{◌≡◌, ◌≢◌, ◌≤◌, ◌<◌, ◌+◌, ◌^◌, ◌++◌, ◌∷◌, ◌⊎◌, ℕ, [], length, drop, false};
ghost use Rattle.std.specs.Prelude.{string_bytes, Some, IsTrue, OnOk, OnErr};
ghost use Rattle.std.specs.Str.{encode_utf8_all};
ghost use Rattle.glk_screen.specs.Wrapping.{width_of, drawn_columns, last_blank};
ghost use Rattle.gx_words.specs.Constants.{line_feed};
ghost use Rattle.glk_screen.specs.Wrapper.{no_row, has_room, taken_by, fits, row_ended, placed, cut, wrapped_char};
ghost use Rattle.glk_screen.specs.Wrapper.{let_go, restarted};

use crate::wrapping::width_of;
use glk_windows::BLANK;
use gx_words::LINE_FEED;
use std::alloc::{AllocError, Global};
use std::marker::Model;

/// What wraps a text.
#[derive(Drop)]
pub struct Wrapper {
    /// The columns of a row.
    limit: u32,
    /// The columns of the present row that were let go.
    gone: u32,
    /// What is held of it.
    chars: Vec<char>,
    /// Its columns.
    columns: u32,
}

impl Model for Wrapper {
    ghost use Rattle.glk_screen.specs.Wrapper.{FlatWrapper};
    ghost use Rattle.glk_screen.specs.Stored.{wrapper_code};

    ghost Value = { FlatWrapper };

    ghost coded = { wrapper_code };

    ghost use Rattle.glk_screen.specs.HeldRow.{flat_of, WrapperInvariant};

    ghost view = { flat_of };

    ghost invariant = { WrapperInvariant };
}

impl Wrapper {
    /// For rows of so many columns. It takes no memory.
    pub fn new(alloc: Global, limit: u32) -> Wrapper
        requires { limit ≤ 255 }
        ensures { result ≡ no_row limit }
    {
        Wrapper {
            limit,
            gone: 0,
            chars: Vec::new(alloc),
            columns: 0,
        }
    }

    /// Takes a character, and adds to the text what is let go.
    #[inline(always)]
    #[tactic(auto, using(crate::proofs::Flowing::places), unfolding(crate::specs::Wrapper::wrapped_char, crate::specs::Wrapper::placed))]
    pub fn put(&mut self, text: &mut String, c: char) -> Result<(), AllocError>
        ensures new { OnOk result (self.new ≡ (wrapped_char self.old c).1) }
        ensures text { OnOk result
            (string_bytes text.new ≡ string_bytes text.old ++ encode_utf8_all (wrapped_char self.old c).0) }
    {
        let columns = width_of(u32::from(c));
        if u32::from(c) != LINE_FEED && self.has_room(columns) {
            return self.hold(c, columns);
        }
        self.put_apart(text, c, columns)
    }

    /// Takes a line feed, or a character that doesn't fit.
    #[cold]
    #[inline(never)]
    #[tactic(auto, using(crate::proofs::Flowing::places), unfolding(crate::specs::Wrapper::wrapped_char))]
    fn put_apart(&mut self, text: &mut String, c: char, columns: u32) -> Result<(), AllocError>
        requires columns { columns ≡ width_of c }
        requires apart { (c ≡ line_feed) ⊎ (fits self.old c ≡ false) }
        ensures new { OnOk result (self.new ≡ (wrapped_char self.old c).1) }
        ensures text { OnOk result
            (string_bytes text.new ≡ string_bytes text.old ++ encode_utf8_all (wrapped_char self.old c).0) }
    {
        if u32::from(c) == LINE_FEED || u32::from(c) == BLANK {
            return self.end_row(text);
        }
        self.cut(text)?;
        self.place(text, c, columns)
    }

    /// Whether a character of so many columns has room in the row.
    #[tactic(auto, unfolding(crate::specs::Wrapper::has_room))]
    fn has_room(&self, columns: u32) -> bool
        requires { columns ≤ 3 }
        ensures value { result ≡ has_room self.now.limit (taken_by self.now) columns }
        ensures few { IsTrue result → taken_by self.now + columns ≤ self.now.limit + 3 }
    {
        columns == 0 || self.columns == 0 || self.columns + columns <= self.limit
    }

    /// Ends the row.
    #[tactic(auto, using(crate::proofs::Flowing::cuts))]
    fn end_row(&mut self, text: &mut String) -> Result<(), AllocError>
        ensures new { OnOk result (self.new ≡ (row_ended self.old).1) }
        ensures text { OnOk result
            (string_bytes text.new ≡ string_bytes text.old ++ encode_utf8_all (row_ended self.old).0) }
    {
        push_all(text, &self.chars)?;
        text.push('\n')?;
        self.chars.clear();
        self.gone = 0;
        self.columns = 0;
        Ok(())
    }

    /// Cuts the row at its last blank, where it has one.
    #[tactic(auto, using(crate::proofs::Flowing::cuts), unfolding(crate::specs::Wrapper::cut))]
    fn cut(&mut self, text: &mut String) -> Result<(), AllocError>
        ensures new { OnOk result (self.new ≡ (cut self.old).1) }
        ensures text { OnOk result
            (string_bytes text.new ≡ string_bytes text.old ++ encode_utf8_all (cut self.old).0) }
    {
        let Some(at) = last_blank(&self.chars) else {
            return Ok(());
        };
        push_all(text, &self.chars[..at])?;
        text.push('\n')?;
        drop_front(&mut self.chars, at + 1);
        self.gone = 0;
        self.columns = columns_of(&self.chars);
        Ok(())
    }

    /// Puts a character of so many columns into the row where it fits, and else into the next one.
    #[tactic(auto, using(crate::proofs::Flowing::places), unfolding(crate::specs::Wrapper::placed, crate::specs::Wrapper::has_room))]
    fn place(&mut self, text: &mut String, c: char, columns: u32) -> Result<(), AllocError>
        requires { columns ≡ width_of c }
        ensures new { OnOk result (self.new ≡ (placed self.old c).1) }
        ensures text { OnOk result
            (string_bytes text.new ≡ string_bytes text.old ++ encode_utf8_all (placed self.old c).0) }
    {
        if self.has_room(columns) {
            return self.hold(c, columns);
        }
        self.end_row(text)?;
        self.hold(c, columns)
    }

    /// Holds a character of so many columns.
    #[tactic(auto, using(crate::proofs::Flowing::places))]
    fn hold(&mut self, c: char, columns: u32) -> Result<(), AllocError>
        requires columns { columns ≡ width_of c }
        requires few { taken_by self.old + columns ≤ self.old.limit + 3 }
        ensures { OnOk result (self.new ≡ record self.old { row = self.old.row ++ c ∷ [] }) }
    {
        self.chars.push(c)?;
        self.columns += columns;
        Ok(())
    }

    /// Lets go what is held of the row, which goes on.
    pub fn let_go(&mut self, text: &mut String) -> Result<(), AllocError>
        ensures new { OnOk result (self.new ≡ (let_go self.old).1) }
        ensures text { OnOk result
            (string_bytes text.new ≡ string_bytes text.old ++ encode_utf8_all (let_go self.old).0) }
        ensures memory { OnErr result (self.old.row ≢ []) }
    {
        push_all(text, &self.chars)?;
        self.chars.clear();
        self.gone = self.columns;
        Ok(())
    }

    /// Begins a paragraph.
    pub fn restart(&mut self)
        ensures { self.new ≡ restarted self.old }
    {
        self.columns -= self.gone;
        self.gone = 0;
    }
}

/// Adds characters.
#[tactic(auto, using(crate::proofs::Flowing::push_turns))]
fn push_all(text: &mut String, chars: &[char]) -> Result<(), AllocError>
    ensures ok { OnOk result (string_bytes text.new ≡ string_bytes text.old ++ encode_utf8_all chars.now) }
    ensures memory { OnErr result (chars.now ≢ []) }
{
    for c in chars {
        text.push(*c)?;
    }
    Ok(())
}

/// Where the last blank stands.
#[tactic(auto, using(crate::proofs::Flowing::blank_turns))]
fn last_blank(chars: &[char]) -> Option<usize>
    ensures value { result ≡ last_blank chars.now }
    ensures within { (at : ℕ) → result ≡ Some at → at < length chars.now }
{
    let mut blank = None;
    let mut at: usize = 0;
    for c in chars {
        if *c == ' ' {
            blank = Some(at);
        }
        at += 1;
    }
    blank
}

/// The columns of characters.
#[tactic(auto, using(crate::proofs::Flowing::column_turns))]
fn columns_of(chars: &[char]) -> u32
    requires { drawn_columns chars.now < 2 ^ 32 }
    ensures { result ≡ drawn_columns chars.now }
{
    let mut columns = 0;
    for c in chars {
        columns += width_of(u32::from(*c));
    }
    columns
}

/// Drops so many characters.
fn drop_front(chars: &mut Vec<char>, count: usize)
    requires { count ≤ length chars.old.items }
    ensures { chars.new.items ≡ drop count chars.old.items }
{
    chars.copy_within(count.., 0);
    chars.truncate(chars.len() - count);
}

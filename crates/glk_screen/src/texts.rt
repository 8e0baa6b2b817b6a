//! The text of buffer windows.
ghost use Rattle.std.specs.Prelude.{◌≡◌, ◌≤◌, ◌<◌, ◌^◌, [], ◌∷◌, ◌++◌, length, drop, OnOk, OnErr, IsTrue};
ghost use Rattle.glk_screen.specs.Texts.{line_feeds, behind_paragraph, lengthens, text_of, text_index, text_put};
ghost use Rattle.glk_screen.specs.Texts.{text_cleared, screen_put, screen_cleared, screen_gone};

use gx_words::LINE_FEED;
use std::alloc::{AllocError, Global};
use std::marker::Model;

/// So many paragraphs of a window's text are kept at most.
pub const MOST_PARAGRAPHS: usize = 255;

/// A buffer window's text. What stands before `start` was dropped, and goes once it is the larger part or a line feed
/// wants its room.
#[derive(Drop)]
pub(crate) struct Text {
    id: u32,
    chars: Vec<u32>,
    start: usize,
    /// How many line feeds stand from `start` on.
    line_feeds: usize,
}

impl Model for Text {
    ghost use Rattle.glk_screen.specs.Texts.{FlatText};
    ghost use Rattle.glk_screen.specs.Stored.{text_code};

    ghost Value = { FlatText };

    ghost coded = { text_code };

    ghost use Rattle.glk_screen.specs.Held.{flat_of, TextsInvariant};

    ghost view = { flat_of };

    ghost invariant = { TextsInvariant };
}

impl Text {
    /// No text of a window. It takes no memory.
    fn new(alloc: Global, id: u32) -> Text
        ensures id { result.id ≡ id }
        ensures text { result.text ≡ [] }
    {
        Text {
            id,
            chars: Vec::new(alloc),
            start: 0,
            line_feeds: 0,
        }
    }

    fn id(&self) -> u32
        ensures { result ≡ self.now.id }
    {
        self.id
    }

    fn as_slice(&self) -> &[u32]
        ensures value { result.now ≡ self.now.text }
        ensures short { length result.now < 2 ^ 32 }
    {
        &self.chars[self.start..]
    }

    /// Adds a character at the end. Where that makes one paragraph too many, the first one goes, and no memory is
    /// wanted.
    fn push(&mut self, c: u32) -> Result<(), AllocError>
        ensures ok { OnOk result (self.new ≡ text_put self.old c) }
        ensures err { OnErr result (self.new ≡ self.old) }
        ensures memory { OnErr result (IsTrue (lengthens self.old.text c)) }
    {
        if c == LINE_FEED && self.line_feeds + 1 == MOST_PARAGRAPHS {
            self.start = turn_over(&mut self.chars, self.start);
            return Ok(());
        }
        if self.chars.len() - self.start >= u32::MAX as usize {
            return Err(AllocError);
        }
        self.chars.push(c)?;
        if c == LINE_FEED {
            self.line_feeds += 1;
        }
        Ok(())
    }

    /// Drops all characters where it is the text of this window, and keeps the memory.
    fn clear(&mut self, win: u32)
        ensures { self.new ≡ text_cleared win self.old }
    {
        if self.id == win {
            self.chars.clear();
            self.start = 0;
            self.line_feeds = 0;
        }
    }
}

/// Drops the first paragraph of what stands from `start` on, and adds a line feed in its room. Answers where the rest
/// starts.
fn turn_over(chars: &mut Vec<u32>, start: usize) -> usize
    requires start { start ≤ length chars.old.items }
    requires some { 0 < line_feeds (drop start chars.old.items) }
    ensures rest { drop result chars.new.items ≡ behind_paragraph (drop start chars.old.items) ++ 0x0A ∷ [] }
    ensures within { result ≤ length chars.new.items }
{
    let start = start + behind_paragraph(&chars[start..]);
    if start <= chars.len() / 2 && chars.len() < chars.capacity() {
        chars.push_reserved(LINE_FEED);
        return start;
    }
    let end = chars.len() - start;
    chars.copy_within(start.., 0);
    chars.truncate(end + 1);
    chars[end] = LINE_FEED;
    0
}

/// How much of a text its first paragraph takes, with its line feed.
#[tactic(auto, using(crate::proofs::Paragraphs::behind_turns))]
fn behind_paragraph(text: &[u32]) -> usize
    ensures rest { drop result text.now ≡ behind_paragraph text.now }
    ensures within { result ≤ length text.now }
{
    let mut at: usize = 0;
    for c in text {
        at += 1;
        if *c == LINE_FEED {
            return at;
        }
    }
    at
}

/// How many texts stand before that of a window, all of them where it has none.
fn place(texts: &[Text], win: u32) -> usize
    ensures value { result ≡ text_index texts.now win }
    ensures within { result ≤ length texts.now }
{
    match texts {
        [] => 0,
        [text, rest @ ..] => {
            if text.id() == win {
                0
            } else {
                place(rest, win) + 1
            }
        }
    }
}

/// What stands on the screen beside the grids: the texts of buffer windows.
#[derive(Drop)]
pub struct Screen {
    alloc: Global,
    texts: Vec<Text>,
}

impl Model for Screen {
    ghost use Rattle.std.specs.Prelude.{List};
    ghost use Rattle.glk_screen.specs.Texts.{FlatText};
    ghost use Rattle.glk_screen.specs.Stored.{screen_code};

    ghost Value = { List FlatText };

    ghost coded = { screen_code };

    ghost view = { λ screen. screen.texts.items };
}

impl Screen {
    /// No text of any window. It takes no memory.
    pub fn new(alloc: Global) -> Screen
        ensures { result ≡ [] }
    {
        Screen {
            alloc,
            texts: Vec::new(alloc),
        }
    }

    /// The text of a window, none where nothing was put to it.
    #[tactic(auto, using(crate::proofs::Places::reads))]
    pub(crate) fn text(&self, win: u32) -> &[u32]
        ensures value { result.now ≡ text_of self.now win }
        ensures short { length result.now < 2 ^ 32 }
    {
        let at = place(&self.texts, win);
        if at < self.texts.len() {
            self.texts[at].as_slice()
        } else {
            &[]
        }
    }

    /// Puts a character, already as shown, to a buffer window.
    #[tactic(auto, using(crate::proofs::Places::places))]
    pub fn put(&mut self, win: u32, c: u32) -> Result<(), AllocError>
        ensures ok { OnOk result (self.new ≡ screen_put self.old win c) }
        ensures err { OnErr result (self.new ≡ self.old) }
        ensures memory { OnErr result (IsTrue (lengthens (text_of self.old win) c)) }
    {
        let at = place(&self.texts, win);
        if at < self.texts.len() {
            return self.texts[at].push(c);
        }
        let mut text = Text::new(self.alloc, win);
        text.push(c)?;
        self.texts.push(text)?;
        Ok(())
    }

    /// Clears a window. The memory of its text stays with it.
    pub fn clear(&mut self, win: u32)
        ensures { self.new ≡ screen_cleared self.old win }
    {
        clear_all(&mut self.texts, win);
    }

    /// Forgets a window that was closed.
    pub fn gone(&mut self, win: u32)
        ensures { self.new ≡ screen_gone self.old win }
    {
        self.texts.retain(|text| text.id() != win);
    }
}

/// Clears the texts of a window.
#[tactic(auto, using(crate::proofs::Places::clear_turns), unfolding(crate::specs::Texts::screen_cleared))]
fn clear_all(texts: &mut [Text], win: u32)
    ensures { texts.new ≡ screen_cleared texts.old win }
{
    for at in 0..texts.len() {
        texts[at].clear(win);
    }
}

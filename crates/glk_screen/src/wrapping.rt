//! A text is cut into rows.
ghost use Rattle.std.specs.Prelude.{◌≡◌, ◌<◌, ◌≤◌, ◌+◌, ◌^◌, length, take, IfOk};
ghost use Rattle.glk_screen.specs.Wrapping.{width_of, is_replaced, columns_of, paragraph, fitting, last_blank};
ghost use Rattle.glk_screen.specs.Wrapping.{first_row, wrapped};

use glk_text::as_char;
use glk_windows::BLANK;
use gx_words::{LINE_FEED, Numbers};
use std::alloc::{AllocError, Global};
use unicode_width::UnicodeWidthChar;

/// The columns of a character.
#[tactic(auto, unfolding(crate::specs::Wrapping::width_of))]
pub(crate) fn width_of(c: u32) -> u32
    ensures { result ≡ width_of c }
{
    as_char(c).width().unwrap_or(0) as u32
}

/// Whether a question mark stands for a character in a window of so many columns.
pub(crate) fn is_replaced(width: u32, c: u32) -> bool
    ensures { result ≡ is_replaced width c }
{
    let columns = width_of(c);
    columns == 3 || columns == 2 && width == 1
}

/// The columns of a character, or of the question mark that stands for it, in a window of so many columns.
#[tactic(auto, unfolding(crate::specs::Wrapping::columns_of))]
pub(crate) fn columns_of(width: u32, c: u32) -> u32
    ensures { result ≡ columns_of width c }
{
    match width_of(c) {
        3 => 1,
        2 if width == 1 => 1,
        columns => columns,
    }
}

/// How long the longest prefix of the first paragraph is that fits, and where its last blank stands.
#[tactic(auto, using(crate::proofs::Prefixes::prefix_turns))]
fn longest_prefix(width: u32, text: &[u32]) -> (usize, Option<usize>)
    ensures length { result.0 ≡ fitting width width (paragraph text.now) }
    ensures blank { result.1 ≡ last_blank (take result.0 text.now) }
    ensures within { result.0 ≤ length text.now }
{
    let mut room = width;
    let mut at: usize = 0;
    let mut blank = None;
    for c in text {
        let columns = columns_of(width, *c);
        if *c == LINE_FEED || columns > room {
            return (at, blank);
        }
        if *c == BLANK {
            blank = Some(at);
        }
        room -= columns;
        at += 1;
    }
    (at, blank)
}

/// Where the first row of a text ends, and where the next one begins.
#[tactic(auto, using(crate::proofs::Prefixes::first_rows))]
fn first_row(width: u32, text: &[u32]) -> (usize, usize)
    requires { 1 ≤ width }
    ensures value { result ≡ first_row width text.now }
    ensures end { result.0 ≤ length text.now }
    ensures next { result.1 ≤ length text.now + 1 }
    ensures progress { 1 ≤ result.1 }
{
    let (at, blank) = longest_prefix(width, text);
    if at == text.len() || text[at] == LINE_FEED || text[at] == BLANK {
        return (at, at + 1);
    }
    match blank {
        Some(blank) => (blank, blank + 1),
        None => (at, at),
    }
}

/// The rows of a text in a window of so many columns: the start and the end of each in turn.
///
/// A paragraph ends at a line feed. One that is too wide is cut at a blank, which then stands in no row, or where the
/// window's columns end.
#[tactic(auto, using(crate::proofs::Cuts::row_turns))]
pub fn wrap(alloc: Global, text: &[u32], width: u32) -> Result<Numbers, AllocError>
    requires width { 1 ≤ width }
    requires text { length text.now < 2 ^ 32 }
    ensures { IfOk result (λ rows. rows ≡ wrapped width text.now) }
{
    let mut rows = Numbers::new(alloc);
    let mut at: usize = 0;
    while at <= text.len() {
        let (end, next) = first_row(width, &text[at..]);
        rows.push(at as u32)?;
        rows.push((at + end) as u32)?;
        at += next;
    }
    Ok(rows)
}

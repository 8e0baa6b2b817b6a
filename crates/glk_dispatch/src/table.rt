//! The table of the calls (Glk 0.7.5, "The Dispatch Layer").
//!
//! A row says what a call needs of its arguments. `SELECTORS` has the looks of the table of specs/Table, row by row, in
//! rising order of selector; `calls` does what a row says.
ghost use Rattle.std.specs.Prelude.{◌≡◌, IsTrue, IfSome, option_map, map, length};
ghost use Rattle.std.specs.List.{list_all};
ghost use Rattle.gx_rows.specs.Keys.{is_rising};
ghost use Rattle.glk_dispatch.specs.Table.{call_table, row_for, selector_fits, is_dropped};

use glk_replies::selectors::*;
use gx_rows::{Keyed, find_row};

/// What an argument names.
#[derive(Clone, Copy)]
pub enum ObjectClass {
    /// No object.
    Plain,
    Window,
    Stream,
    /// A file reference.
    Reference,
}

/// What a call needs of its arguments.
pub struct Selector {
    pub number: u32,
    /// How many arguments it needs.
    pub arguments: u8,
    /// What the first argument names.
    pub first: ObjectClass,
    /// Whether the call does nothing where the first argument is 0.
    pub needs_first: bool,
    /// What another argument names, and which that is, counted from 0.
    pub other: ObjectClass,
    pub other_place: u8,
    /// How many arguments from the second on are references that are given 0 where nothing is done, and the words of
    /// each.
    pub references: u8,
    pub words: u8,
}

impl Keyed for Selector {
    ghost key_of = { λ row. row.number };

    fn key(&self) -> u32 {
        self.number
    }
}

/// A table from lines of number and needed arguments. `on` stands before the class of a first argument that may
/// not be 0 for the call to do anything, `of` before that of another first argument.
macro_rules! rows {
    ($($number:ident $arguments:literal $(($mark:ident $first:ident))? $(and ($other:ident at $place:literal))?
        $(gives ($references:literal of $words:literal))?;)*) => {
        [$(Selector {
            number: $number,
            arguments: $arguments,
            first: class!($($first)?),
            needs_first: needs_first!($($mark)?),
            other: class!($($other)?),
            other_place: count!($($place)?),
            references: count!($($references)?),
            words: count!($($words)?),
        }),*]
    };
}

macro_rules! class {
    () => { ObjectClass::Plain };
    ($class:ident) => { ObjectClass::$class };
}

macro_rules! needs_first {
    (on) => { true };
    ($($of:ident)?) => { false };
}

macro_rules! count {
    () => { 0 };
    ($count:literal) => { $count };
}

/// The calls in rising order of selector.
pub const SELECTORS: [Selector; 79] = rows! {
    // The program
    EXIT 0;
    TICK 0;
    // What the library can do
    GESTALT 2;
    GESTALT_EXT 4;
    // Windows
    WINDOW_ITERATE 2 (of Window);
    WINDOW_GET_ROCK 1 (on Window);
    WINDOW_GET_ROOT 0;
    WINDOW_OPEN 5 (of Window);
    WINDOW_CLOSE 2 (on Window) gives (1 of 2);
    WINDOW_GET_SIZE 3 (on Window) gives (2 of 1);
    WINDOW_SET_ARRANGEMENT 4 (on Window) and (Window at 3);
    WINDOW_GET_ARRANGEMENT 4 (on Window) gives (3 of 1);
    WINDOW_GET_TYPE 1 (on Window);
    WINDOW_GET_PARENT 1 (on Window);
    WINDOW_CLEAR 1 (on Window);
    WINDOW_MOVE_CURSOR 3 (on Window);
    WINDOW_GET_STREAM 1 (on Window);
    WINDOW_SET_ECHO_STREAM 2 (on Window) and (Stream at 1);
    WINDOW_GET_ECHO_STREAM 1 (on Window);
    SET_WINDOW 1 (of Window);
    WINDOW_GET_SIBLING 1 (on Window);
    // Streams
    STREAM_ITERATE 2 (of Stream);
    STREAM_GET_ROCK 1 (on Stream);
    STREAM_OPEN_FILE 3 (on Reference);
    STREAM_OPEN_MEMORY 4;
    STREAM_CLOSE 2 (on Stream) gives (1 of 2);
    STREAM_SET_POSITION 3 (on Stream);
    STREAM_GET_POSITION 1 (on Stream);
    STREAM_SET_CURRENT 1 (of Stream);
    STREAM_GET_CURRENT 0;
    // File references
    FILEREF_CREATE_TEMP 2;
    FILEREF_CREATE_BY_NAME 3;
    FILEREF_CREATE_BY_PROMPT 3;
    FILEREF_DESTROY 1 (on Reference);
    FILEREF_ITERATE 2 (of Reference);
    FILEREF_GET_ROCK 1 (on Reference);
    FILEREF_DELETE_FILE 1 (on Reference);
    FILEREF_DOES_FILE_EXIST 1 (on Reference);
    FILEREF_CREATE_FROM_FILEREF 3 and (Reference at 1);
    // Output
    PUT_CHAR 1;
    PUT_CHAR_STREAM 2 (on Stream);
    PUT_STRING 1;
    PUT_STRING_STREAM 2 (on Stream);
    PUT_BUFFER 2;
    PUT_BUFFER_STREAM 3 (on Stream);
    SET_STYLE 1;
    SET_STYLE_STREAM 2 (on Stream);
    // Input
    GET_CHAR_STREAM 1 (on Stream);
    GET_LINE_STREAM 3 (on Stream);
    GET_BUFFER_STREAM 3 (on Stream);
    // The case of characters
    CHAR_TO_LOWER 1;
    CHAR_TO_UPPER 1;
    // Styles
    STYLEHINT_SET 4;
    STYLEHINT_CLEAR 3;
    STYLE_DISTINGUISH 3 (on Window);
    STYLE_MEASURE 4 (on Window);
    // Events
    SELECT 1;
    SELECT_POLL 1;
    REQUEST_LINE_EVENT 4 (on Window);
    CANCEL_LINE_EVENT 2 (on Window) gives (1 of 4);
    REQUEST_CHAR_EVENT 1 (on Window);
    CANCEL_CHAR_EVENT 1 (on Window);
    // Unicode: the case of characters
    BUFFER_TO_LOWER_CASE_UNI 3;
    BUFFER_TO_UPPER_CASE_UNI 3;
    BUFFER_TO_TITLE_CASE_UNI 4;
    // Unicode: output
    PUT_CHAR_UNI 1;
    PUT_STRING_UNI 1;
    PUT_BUFFER_UNI 2;
    PUT_CHAR_STREAM_UNI 2 (on Stream);
    PUT_STRING_STREAM_UNI 2 (on Stream);
    PUT_BUFFER_STREAM_UNI 3 (on Stream);
    // Unicode: input
    GET_CHAR_STREAM_UNI 1 (on Stream);
    GET_BUFFER_STREAM_UNI 3 (on Stream);
    GET_LINE_STREAM_UNI 3 (on Stream);
    // Unicode: streams
    STREAM_OPEN_FILE_UNI 3 (on Reference);
    STREAM_OPEN_MEMORY_UNI 4;
    // Unicode: events
    REQUEST_CHAR_EVENT_UNI 1 (on Window);
    REQUEST_LINE_EVENT_UNI 4 (on Window);
    // Echo of line input
    SET_ECHO_LINE_EVENT 2 (on Window);
};

/// The table.
#[tactic(auto, unfolding(crate::proofs::Opened::parts_of_table))]
pub fn selectors() -> &'static [Selector; 79]
    ensures table { result.now ≡ map (λ row. row.looks) call_table }
    ensures count { length call_table ≡ 79 }
    ensures rising { IsTrue (is_rising (λ row. row.number) result.now) }
    ensures fits { IsTrue (list_all selector_fits result.now) }
{
    &SELECTORS
}

/// The row of a selector; None where it has none.
#[tactic(auto, using(crate::proofs::Rows::rows))]
pub fn row_of(number: u32) -> Option<&'static Selector>
    ensures row { option_map (λ row. row.now) result ≡ option_map (λ row. row.looks) (row_for number) }
    ensures fits { IfSome result (λ row. IsTrue (selector_fits row.now)) }
{
    let rows = selectors();
    let place = find_row(rows, number)?;
    Some(&rows[place])
}

/// Whether a selector drops its arguments, and answers 0: calls for images, sound, hyperlinks, the clock and other
/// things that aren't done.
pub fn dropped(number: u32) -> bool
    ensures { result ≡ is_dropped number }
{
    matches!(
        number,
        0x02 | 0x49
            | 0xD4..=0xD6
            | 0xE0..=0x103
            | 0x123..=0x124
            | 0x13A
            | 0x151
            | 0x160..=0x16F
    )
}

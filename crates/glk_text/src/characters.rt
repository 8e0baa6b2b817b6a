//! What a call does with one character.
//!
//! Which characters are printable, and that any other is shown as `?`, is a choice: Glk leaves it
//! to the library (Glk 0.7.5, "Character Encoding").
ghost use Rattle.std.specs.Prelude.{◌≡◌, ◌≢◌};
ghost use Rattle.glk_text.specs.Characters.{is_printable, shown, latin_of, lower_of, upper_of};

use gx_words::LINE_FEED;

/// Whether a character is shown as itself: 20 to 7E, A0 to D7FF and E000 to 10FFFF.
pub fn printable(v: u32) -> bool
    ensures { result ≡ is_printable v }
{
    matches!(v, 0x20..=0x7E | 0xA0..=0xD7FF | 0xE000..=0x10_FFFF)
}

/// The character as it is shown: itself where it is printable or a line feed, else `?`.
pub fn show(v: u32) -> char
    ensures { result ≡ shown v }
{
    match char::from_u32(v) {
        Some(c) if v == LINE_FEED || printable(v) => c,
        _ => '?',
    }
}

/// The byte of a character in Latin-1: `?` for one above FF.
pub fn latin(v: u32) -> u8
    ensures { result ≡ latin_of v }
{
    u8::try_from(v).unwrap_or(b'?')
}

/// The character in lower case: the capitals of Latin-1 alone are changed (Glk 0.7.5, "Upper and Lower Case").
pub fn lower(v: u32) -> u32
    ensures value { result ≡ lower_of v }
    ensures back { result ≢ v → upper_of result ≡ v }
{
    match v {
        0x41..=0x5A | 0xC0..=0xD6 | 0xD8..=0xDE => v + 0x20,
        _ => v,
    }
}

/// The character in upper case: the small letters of Latin-1 that have a capital there alone are
/// changed (Glk 0.7.5, "Upper and Lower Case").
pub fn upper(v: u32) -> u32
    ensures value { result ≡ upper_of v }
    ensures back { result ≢ v → lower_of result ≡ v }
{
    match v {
        0x61..=0x7A | 0xE0..=0xF6 | 0xF8..=0xFE => v - 0x20,
        _ => v,
    }
}

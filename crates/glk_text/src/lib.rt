//! Characters of Glk: which are printable, how they are shown, their case, their forms in bytes.
//!
//! - `characters` has what a call does with one character (Glk 0.7.5, "Character Encoding").
//! - `utf8` writes characters to bytes as UTF-8 and reads them back.
//!
//! A character is any 32-bit number. Each call is its definition of specs/ for every number and
//! every list of bytes; there is no condition. Only `push_utf8` takes memory.
#![tactic(auto)]

mod characters;
mod utf8;

pub use characters::{latin, lower, printable, show, upper};
pub use utf8::{REPLACEMENT, as_char, push_utf8, read_utf8};

//! The base of a file's name and its suffix, by the conventions that Glk proposes (Glk 0.7.5,
//! "File References").
//!
//! That a character which isn't printable is left out, and that a base has 64 characters at most,
//! are choices.
ghost use Rattle.std.specs.Prelude.{◌≡◌, ◌++◌, IfOk};
ghost use Rattle.std.specs.Str.{encode_utf8_all};
ghost use Rattle.glk_files.specs.Names.{base_of, suffix_of, stem_of, allowed_of};

use glk_text::printable;
use gx_words::Name;
use std::alloc::{AllocError, Global};

/// The most characters of a base.
const LONGEST: u32 = 64;

/// What is stored in a file, by the low four bits of its usage; in any other it is data.
pub const SAVED_GAME: u32 = 1;

pub const TRANSCRIPT: u32 = 2;

pub const INPUT_RECORD: u32 = 3;

/// The base of a file's name that a story asks for: without `/ \ < > : " | ? *` and characters
/// that aren't printable, cut at its first period and after 64 characters, and `null` if empty.
pub fn base_name(alloc: Global, chars: &[u32]) -> Result<Name, AllocError>
    ensures { IfOk result (λ name. name ≡ base_of chars.now) }
{
    let name = stem(alloc, chars)?;
    if name.len() == 0 {
        Name::from_str(alloc, "null")
    } else {
        Ok(name)
    }
}

/// The name on the shelf: the base with the suffix for the usage.
pub fn full_name(alloc: Global, base: &Name, usage: u32) -> Result<Name, AllocError>
    ensures { IfOk result (λ name. name ≡ base.now ++ suffix_of usage) }
{
    let mut name = Name::from_str(alloc, base.as_str())?;
    for c in suffix(usage).chars() {
        name.push(c)?;
    }
    Ok(name)
}

/// The characters of a base that is not yet known to have any.
fn stem(alloc: Global, chars: &[u32]) -> Result<Name, AllocError>
    ensures { IfOk result (λ name. name ≡ encode_utf8_all (stem_of chars.now)) }
{
    let mut name = Name::new(alloc);
    let mut room = LONGEST;
    for v in chars {
        if let Some(c) = allowed(*v) {
            if room == 0 || c == '.' {
                return Ok(name);
            }
            name.push(c)?;
            room -= 1;
        }
    }
    Ok(name)
}

/// The character, if a name may have it.
fn allowed(v: u32) -> Option<char>
    ensures { result ≡ allowed_of v }
{
    match char::from_u32(v)? {
        '/' | '\\' | '<' | '>' | ':' | '"' | '|' | '?' | '*' => None,
        c if printable(v) => Some(c),
        _ => None,
    }
}

fn suffix(usage: u32) -> &'static str
    ensures { result.now ≡ suffix_of usage }
{
    match usage % 16 {
        SAVED_GAME => ".glksave",
        TRANSCRIPT | INPUT_RECORD => ".txt",
        _ => ".glkdata",
    }
}

//! The names of files in the folder.
//!
//! A file system takes names of 255 bytes. A file of a story has a name of up to 64 letters, each of
//! up to four bytes in UTF-8, and an ending: where that is longer, the file has a shorter name of its
//! own, made of all its letters. Of `LETTERS.glkdata` it is `FRONT.REST.glkdata`: the first forty
//! letters stand, and those after them are digits, seven for two letters.
//!
//! No other file of a story has that name. Such a file's own name has one period, and this one has two;
//! and the digits say the letters, so that two names have two short ones.
ghost use Rattle.std.specs.Prelude.{◌≡◌, ◌≤◌, length};

use arrayvec::ArrayString;

/// How many bytes a name has at most.
const MOST_BYTES: usize = 255;

/// How many letters of a name that is too long stand as they are.
const FRONT: usize = 40;

/// How many digits two letters have: 64^7 is 2^42, and a letter is below 2^21.
const PAIR_DIGITS: u32 = 7;

/// The digits of 0 to 63.
const DIGITS: &[u8; 64] = b"ABCDEFGHIJKLMNOPQRSTUVWXYZabcdefghijklmnopqrstuvwxyz0123456789-_";

/// A name that isn't too long.
type ShortText = ArrayString<MOST_BYTES>;

/// The name of a file in the folder.
#[derive(Drop)]
pub enum FolderName<'a> {
    /// The name that was asked for.
    Asked(&'a str),
    /// A shorter one in its place.
    Short(ShortText),
}

impl<'a> FolderName<'a> {
    /// The name stands where it fits, and where it has no shorter one: it names another folder, or it
    /// is no name of a story's file.
    pub fn of(name: &'a str) -> FolderName<'a>
        ensures { length name.now ≤ 255 → result ≡ FolderName.Asked name.entry }
    {
        if name.len() <= MOST_BYTES || name.contains('/') {
            return FolderName::Asked(name);
        }
        match name
            .rsplit_once('.')
            .and_then(|(base, ending)| shortened(base, ending))
        {
            Some(short) => FolderName::Short(short),
            None => FolderName::Asked(name),
        }
    }

    pub fn as_str(&self) -> &str
        ensures { (asked : _) → self.now ≡ FolderName.Asked asked → result.now ≡ asked.now }
    {
        match self {
            FolderName::Asked(name) => name,
            FolderName::Short(short) => short.as_str(),
        }
    }
}

/// The short name of a base and its ending. None where that is too long, which it isn't for 64 letters.
fn shortened(base: &str, ending: &str) -> Option<ShortText> {
    let mut short = ShortText::new();
    for letter in base.chars().take(FRONT) {
        short.try_push(letter).ok()?;
    }
    short.try_push('.').ok()?;
    let mut first = None;
    for letter in base.chars().skip(FRONT) {
        first = match first {
            None => Some(letter),
            Some(first) => {
                push_pair(&mut short, first, letter)?;
                None
            }
        };
    }
    if let Some(last) = first {
        // A name has no letter 0.
        push_pair(&mut short, last, '\0')?;
    }
    short.try_push('.').ok()?;
    short.try_push_str(ending).ok()?;
    Some(short)
}

/// Adds the digits of two letters, the lowest first. None where they don't fit.
fn push_pair(short: &mut ShortText, first: char, second: char) -> Option<()> {
    let mut rest = u64::from(u32::from(first)) * 0x20_0000 + u64::from(u32::from(second));
    for _ in 0..PAIR_DIGITS {
        short
            .try_push(char::from(DIGITS[(rest % 64) as usize]))
            .ok()?;
        rest /= 64;
    }
    Some(())
}

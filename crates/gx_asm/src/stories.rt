//! The listing of a story, and the story of a code (Glulx 3.1.2, "The Header" and "Functions").
//!
//! `list_story` is `listed_story` of specs/Stories. `wrap_code` gives exactly `wrapped_code`: a story that is accepted,
//! whose checksum is right, and which is listed as the text of its code up to the first quit or return.
ghost use Rattle.std.specs.Prelude.{◌≡◌, ◌≤◌, ◌++◌, ◌∷◌, [], drop, true, Ok, IfOk, IfSome, length};
ghost use Rattle.gx_words.specs.Constants.{locals_function};
ghost use Rattle.gx_words.specs.Results.{Gives};
ghost use Rattle.gx_story.specs.Stories.{accepted, is_checked};
ghost use Rattle.gx_asm.specs.Stories.{IsListedBack, format_len, head_len, header_of, is_function, is_type};
ghost use Rattle.gx_asm.specs.Stories.{listed_story, story_with_checksum, with_start, wrapped_code, wrapped_story};

use crate::codes::list_from;
use crate::faults::ListFault;
use gx_story::Story;
use gx_words::{
    Bytes, CHECKSUM_AT, ENDMEM_AT, EXTSTART_AT, LOCALS_FUNCTION, RAMSTART_AT, STACK_FUNCTION,
    splice, sum_of_words, word_bytes,
};
use std::alloc::{AllocError, Global};

/// The most pairs of a locals format before its ending pair.
const MOST_PAIRS: usize = 64;

/// What stands before the code, with zeros for the sizes and the checksum.
const HEAD: [u8; 39] = [
    // magic, version, RAMSTART, EXTSTART, ENDMEM, stack size, start function, table, checksum
    0x47, 0x6C, 0x75, 0x6C, 0x00, 0x03, 0x01, 0x02, 0, 0, 0, 0, 0, 0, 0, 0, 0, 0, 0, 0, 0x00, 0x00,
    0x01, 0x00, 0x00, 0x00, 0x00, 0x24, 0, 0, 0, 0, 0, 0, 0, 0,
    // a function without locals
    0xC1, 0x00, 0x00,
];

/// The text of the instructions of a story's start function, up to the first quit or return.
#[tactic(auto, unfolding(crate::specs::Stories::listed_story))]
pub fn list_story(alloc: Global, story: &Story) -> Result<Bytes, ListFault>
    ensures value { Gives ListFault.NoMemory (λ text. text) result (listed_story story.now) }
{
    let at = story.start_function();
    let start = code_start(story.bytes(), at).ok_or(ListFault::BadFunction { at })?;
    list_from(alloc, story.bytes(), start, true)
}

/// Where the first instruction of the function at an address stands.
fn code_start(bytes: &[u8], at: u32) -> Option<usize>
    ensures value { result ≡ with_start at (head_len (drop at bytes.now)) }
    ensures within { IfSome result (λ start. start ≤ length bytes.now) }
{
    let at = at as usize;
    if bytes.len() <= at || !is_function(bytes[at]) {
        return None;
    }
    Some(at + 1 + format_len(&bytes[at + 1..])?)
}

/// Whether functions have this type.
fn is_function(kind: u8) -> bool
    ensures { result ≡ is_function kind }
{
    matches!(u32::from(kind), STACK_FUNCTION | LOCALS_FUNCTION)
}

/// How long the locals format at the head of the bytes is.
fn format_len(bytes: &[u8]) -> Option<usize>
    ensures value { result ≡ format_len 64 bytes.now }
    ensures within { IfSome result (λ len. len ≤ length bytes.now) }
{
    for pairs in 0..=MOST_PAIRS {
        let end = 2 * pairs + 2;
        if bytes.len() < end {
            return None;
        }
        let kind = bytes[2 * pairs];
        if kind == 0 {
            return Some(end);
        }
        if !is_type(kind) {
            return None;
        }
    }
    None
}

/// Whether locals have this type, their length in bytes.
fn is_type(kind: u8) -> bool
    ensures { result ≡ is_type kind }
{
    matches!(kind, 1 | 2 | 4)
}

/// A bare story whose start function has this code and no locals. The code is at most 0x01000000 bytes.
pub fn wrap_code(alloc: Global, code: &[u8]) -> Result<Bytes, AllocError>
    requires { length code.now ≤ 0x01000000 }
    ensures value { IfOk result (λ story. story ≡ wrapped_code code.now) }
    ensures accepted { IfOk result (λ story. accepted story ≡ Ok (wrapped_story code.now)) }
    ensures checked { is_checked (wrapped_story code.now) ≡ true }
    ensures listed { IsListedBack code.now }
{
    let mut story = unsummed_story(alloc, code)?;
    let checksum = sum_of_words(story.as_slice());
    story.splice(CHECKSUM_AT, &word_bytes(checksum))?;
    Ok(story)
}

/// The story with a checksum of 0.
fn unsummed_story(alloc: Global, code: &[u8]) -> Result<Bytes, AllocError>
    requires { length code.now ≤ 0x01000000 }
    ensures { IfOk result (λ story. story ≡ story_with_checksum 0 code.now) }
{
    let size = (HEAD.len() + code.len()).next_multiple_of(256);
    let mut story = Bytes::with_capacity(alloc, size)?;
    story.extend_from_slice(&head(size as u32))?;
    story.extend_from_slice(code)?;
    story.extend_from_slice(&[0; 256][..size - story.len()])?;
    Ok(story)
}

/// What stands before the code in a story of a size, with a checksum of 0.
fn head(size: u32) -> [u8; 39]
    ensures { result ≡ header_of size 0 ++ locals_function ∷ 0 ∷ 0 ∷ [] }
{
    let size = word_bytes(size);
    let mut head = HEAD;
    splice(&mut head, RAMSTART_AT, &size);
    splice(&mut head, EXTSTART_AT, &size);
    splice(&mut head, ENDMEM_AT, &size);
    head
}

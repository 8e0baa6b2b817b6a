//! A file's content: characters by its form at a position (Glk 0.7.5, "File Streams").
ghost use Rattle.std.specs.Prelude.{◌≡◌, ◌≤◌, ◌<◌, ◌+◌, ◌^◌, length, OnErr, OnOk, IfOk, IfSome, IsTrue};
ghost use Rattle.glk_streams.specs.Files.{bytes_of_char, byte_at, positions_in, has_room, with_bytes, bytes_put};
ghost use Rattle.glk_streams.specs.Files.{read_in};
ghost use Rattle.glk_streams.specs.Files.{saved_size};

use crate::FileForm;
use glk_text::{as_char, latin, read_utf8};
use gx_words::{Bytes, word_at, word_bytes};
use std::alloc::AllocError;

/// The most bytes that a file holds.
pub const LARGEST: u32 = 0x0100_0000;

/// The byte where a position stands.
pub fn byte_at(form: FileForm, position: u32) -> usize
    ensures { result ≡ byte_at form position }
{
    match form {
        FileForm::Latin | FileForm::Utf8 => position as usize,
        FileForm::Wide => 4 * position as usize,
    }
}

/// The positions that so many bytes take.
pub fn positions_in(form: FileForm, bytes: u32) -> u32
    ensures { result ≡ positions_in form bytes }
{
    match form {
        FileForm::Latin | FileForm::Utf8 => bytes,
        FileForm::Wide => bytes / 4,
    }
}

/// Puts bytes over those from a place on, if there is room for them; says how many were put.
fn put_bytes(content: &mut Bytes, place: usize, bytes: &[u8]) -> Result<u32, AllocError>
    requires there { place ≤ length content.old }
    requires whole { length content.old ≤ LARGEST }
    requires few { length bytes.now ≤ 4 }
    ensures ok { OnOk result (content.new ≡ with_bytes content.old place bytes.now) }
    ensures count { IfOk result (λ count. count ≡ bytes_put place bytes.now) }
    ensures err { OnErr result (content.new ≡ content.old) }
    ensures room { OnErr result (IsTrue (has_room place bytes.now)) }
    ensures memory { OnErr result (length content.old < place + length bytes.now) }
{
    if place + bytes.len() > LARGEST as usize {
        return Ok(0);
    }
    content.splice(place, bytes)?;
    Ok(bytes.len() as u32)
}

/// Puts a character to a content at a position, if there is room for it; says how many bytes were put.
pub fn put_in(content: &mut Bytes, form: FileForm, position: u32, c: u32) -> Result<u32, AllocError>
    requires there { byte_at form position ≤ length content.old }
    requires whole { length content.old ≤ LARGEST }
    ensures ok { OnOk result (content.new ≡ with_bytes content.old (byte_at form position) (bytes_of_char form c)) }
    ensures count { IfOk result (λ count. count ≡ bytes_put (byte_at form position) (bytes_of_char form c)) }
    ensures err { OnErr result (content.new ≡ content.old) }
    ensures room { OnErr result (IsTrue (has_room (byte_at form position) (bytes_of_char form c))) }
    ensures memory { OnErr result (length content.old < byte_at form position + length (bytes_of_char form c)) }
{
    let place = byte_at(form, position);
    match form {
        FileForm::Latin => put_bytes(content, place, &[latin(c)]),
        FileForm::Wide => put_bytes(content, place, &word_bytes(c)),
        FileForm::Utf8 => put_bytes(
            content,
            place,
            as_char(c).encode_utf8(&mut [0; 4]).as_bytes(),
        ),
    }
}

/// The character at a position and the position behind it; None at the end.
#[tactic(auto, using(crate::proofs::Contents::reading_end))]
pub fn read_in(content: &[u8], form: FileForm, position: u32) -> Option<(u32, u32)>
    requires { length content.now ≤ LARGEST }
    ensures value { result ≡ read_in form content.now position }
    ensures behind { IfSome result (λ got. got.1 ≤ positions_in form (length content.now)) }
{
    let place = byte_at(form, position);
    match form {
        FileForm::Latin => {
            let byte = content.get(place)?;
            Some((u32::from(*byte), position + 1))
        }
        FileForm::Wide => {
            if (position as usize) < content.len() / 4 {
                Some((word_at(content, place), position + 1))
            } else {
                None
            }
        }
        FileForm::Utf8 => {
            let (c, behind) = read_utf8(content, place)?;
            Some((c, behind as u32))
        }
    }
}

/// The bytes that the bytes of a save take, put as characters.
pub fn saved_size(form: FileForm, bytes: &[u8]) -> usize
    requires { length bytes.now < 2 ^ 61 }
    ensures { result ≡ saved_size form bytes.now }
{
    match form {
        FileForm::Latin => bytes.len(),
        FileForm::Wide => 4 * bytes.len(),
        FileForm::Utf8 => bytes.len() + bytes.iter().filter(|byte| **byte >= 0x80).count(),
    }
}

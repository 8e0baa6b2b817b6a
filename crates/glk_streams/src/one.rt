//! One stream: a character is put, or got, or its position moves (Glk 0.7.5, "Streams").
ghost use Rattle.std.specs.Prelude.{ℕ, List, ◌≡◌, ◌≢◌, ◌≤◌, ◌<◌, ◌+◌, ◌^◌, not, length, OnErr, OnOk, IfOk, IfSome};
ghost use Rattle.std.specs.Prelude.{MatchOption, IsTrue, Some, is_some};
ghost use Rattle.std.specs.Option.{option_map};
ghost use Rattle.glk_streams.specs.Stream.{readable, writable, allows_mode, opened, window_of, file_in, without_file};
ghost use Rattle.glk_streams.specs.Stream.{place_count, end_position, after_put, after_puts, takes_bytes, latin_rest};
ghost use Rattle.glk_streams.specs.Stream.{lengthens, read_next, passed, after_get, clamped};
ghost use Rattle.glk_streams.specs.Stream.{positioned};
ghost use Rattle.glk_streams.specs.Stream.{is_stored, stored_file, next_places, fits};
ghost use Rattle.glk_streams.specs.Sound.{IsSoundKind, IsSoundStream};

use crate::content::{byte_at, positions_in, put_in, read_in, saved_size};
use crate::{
    FROM_CURRENT, FROM_END, FROM_START, FileForm, LARGEST, Places, READ, READ_WRITE, Stream,
    StreamKind, WRITE, WRITE_APPEND,
};
use gx_words::{Bytes, Name};
use std::alloc::AllocError;
use std::mem;

pub fn readable(stream: &Stream) -> bool
    ensures { result ≡ readable stream.now }
{
    matches!(stream.mode, READ | READ_WRITE)
}

pub fn writable(stream: &Stream) -> bool
    ensures { result ≡ writable stream.now }
{
    matches!(stream.mode, WRITE | READ_WRITE | WRITE_APPEND)
}

/// A stream as it is opened.
#[tactic(auto, unfolding(crate::specs::Stream::opened))]
pub fn opened(id: u32, kind: StreamKind, mode: u32, rock: u32) -> Stream
    requires mode { IsTrue (allows_mode kind mode) }
    requires kind { IsSoundKind kind }
    ensures value { result ≡ opened id kind mode rock }
    ensures sound { IsSoundStream result }
    ensures id { result.id ≡ id }
{
    let mut stream = Stream {
        id,
        kind,
        mode,
        rock,
        position: 0,
        highest: 0,
        read: 0,
        written: 0,
    };
    if mode == WRITE_APPEND {
        stream.position = end_of(&stream);
    }
    stream
}

/// The window of a stream, 0 for none.
pub fn window_of(stream: &Stream) -> u32
    ensures { result ≡ window_of stream.now }
{
    match stream.kind {
        StreamKind::Window(win) => win,
        _ => 0,
    }
}

/// The full name and the content of a file stream.
pub fn file_in(stream: &Stream) -> Option<(&str, &[u8])>
    ensures value { MatchOption result (file_in stream.now.kind ≡ None)
        (λ file. file_in stream.now.kind ≡ Some (file.0.now, file.1.now)) }
    ensures fits { IsSoundStream stream.now → IfSome result (λ file. length file.1.now ≤ LARGEST) }
{
    match &stream.kind {
        StreamKind::File { name, content, .. } => Some((name.as_str(), content.as_slice())),
        _ => None,
    }
}

/// Takes the full name and the content of a file out of its stream, which goes nowhere then.
#[tactic(auto, using(crate::proofs::Sounds::sound_taken))]
pub fn take_file(stream: &mut Stream) -> (Name, Bytes)
    requires sound { IsSoundStream stream.old }
    requires file { IsTrue (is_some (file_in stream.old.kind)) }
    ensures value { file_in stream.old.kind ≡ Some result }
    ensures fits { length result.1 ≤ LARGEST }
    ensures new { stream.new ≡ without_file stream.old }
    ensures sound { IsSoundStream stream.new }
    ensures id { stream.new.id ≡ stream.old.id }
{
    stream.position = 0;
    let nowhere = StreamKind::Memory {
        at: 0,
        len: 0,
        wide: false,
    };
    match mem::replace(&mut stream.kind, nowhere) {
        StreamKind::File { name, content, .. } => (name, content),
        _ => unreachable!(),
    }
}

/// Whether a stream is a file that has to be stored when it is closed.
pub fn is_stored(stream: &Stream) -> bool
    ensures { result ≡ is_stored stream.now.kind stream.now }
{
    matches!(stream.kind, StreamKind::File { .. }) && writable(stream)
}

/// The full name and the content of a file that has to be stored when it is closed.
pub fn stored_file(stream: &Stream) -> Option<(&str, &[u8])>
    ensures { MatchOption result (stored_file stream.now ≡ None)
        (λ file. stored_file stream.now ≡ Some (file.0.now, file.1.now)) }
{
    if is_stored(stream) {
        file_in(stream)
    } else {
        None
    }
}

/// How many places a memory stream has.
fn places_of(at: u32, len: u32) -> u32
    ensures { result ≡ place_count at len }
{
    if at == 0 { 0 } else { len }
}

/// The position behind the last character.
pub fn end_of(stream: &Stream) -> u32
    requires { IsSoundStream stream.now }
    ensures { result ≡ end_position stream.now }
{
    match &stream.kind {
        StreamKind::Window(_) => 0,
        StreamKind::Memory { .. } if stream.mode == WRITE => stream.highest,
        StreamKind::Memory { at, len, .. } => places_of(*at, *len),
        StreamKind::File { content, form, .. } => positions_in(*form, content.len() as u32),
    }
}

/// Counts and puts a character, where the stream is open for writing.
#[tactic(auto, using(crate::proofs::Sounds::sound_put), unfolding(crate::specs::Stream::after_put))]
pub fn put(stream: &mut Stream, c: u32) -> Result<(), AllocError>
    requires { IsSoundStream stream.old }
    ensures ok { OnOk result (stream.new ≡ after_put stream.old c) }
    ensures err { OnErr result (stream.new ≡ stream.old) }
    ensures memory { OnErr result (IsTrue (lengthens stream.old.kind stream.old c)) }
    ensures sound { IsSoundStream stream.new }
    ensures id { stream.new.id ≡ stream.old.id }
{
    if !writable(stream) {
        return Ok(());
    }
    match &mut stream.kind {
        StreamKind::Window(_) => {}
        StreamKind::Memory { at, len, .. } => {
            if stream.position < places_of(*at, *len) {
                stream.position += 1;
                stream.highest = stream.highest.max(stream.position);
            }
        }
        StreamKind::File { content, form, .. } => {
            let count = put_in(content, *form, stream.position, c)?;
            stream.position += positions_in(*form, count);
        }
    }
    stream.written = stream.written.wrapping_add(1);
    Ok(())
}

/// Counts so many characters that are put to the stream of a window, which has them then.
#[tactic(auto, using(crate::proofs::Sounds::window_count))]
pub fn count(stream: &mut Stream, count: u32)
    requires sound { IsSoundStream stream.old }
    requires window { window_of stream.old ≢ 0 }
    ensures new { (cs : List ℕ) → length cs ≡ count → stream.new ≡ after_puts stream.old cs }
    ensures sound { IsSoundStream stream.new }
    ensures id { stream.new.id ≡ stream.old.id }
{
    if writable(stream) {
        stream.written = stream.written.wrapping_add(count);
    }
}

/// Puts the bytes of a slice as characters to a stream that takes them at once: one of memory, or a file in Latin-1
/// with room for them. Says whether it did.
#[tactic(auto, using(crate::proofs::Filling::bytes_rules), unfolding(crate::specs::Stream::takes_bytes))]
pub fn put_bytes(stream: &mut Stream, bytes: &[u8]) -> Result<bool, AllocError>
    requires { IsSoundStream stream.old }
    ensures value { IfOk result (λ put. put ≡ takes_bytes stream.old (length bytes.now)) }
    ensures put { IfOk result (λ put. IsTrue put → stream.new ≡ after_puts stream.old bytes.now) }
    ensures other { IfOk result (λ put. IsTrue (not put) → stream.new ≡ stream.old) }
    ensures err { OnErr result (stream.new ≡ stream.old) }
    ensures memory { OnErr result (IsTrue (takes_bytes stream.old (length bytes.now))) }
    ensures longer { OnErr result (end_position stream.old < stream.old.position + length bytes.now) }
    ensures some { OnErr result (0 < length bytes.now) }
    ensures sound { IsSoundStream stream.new }
    ensures id { stream.new.id ≡ stream.old.id }
{
    if !writable(stream) {
        return Ok(false);
    }
    match &mut stream.kind {
        StreamKind::Memory { at, len, .. } => {
            if bytes.len() > u32::MAX as usize {
                return Ok(false);
            }
            let room = places_of(*at, *len).saturating_sub(stream.position);
            let count = room.min(bytes.len() as u32);
            if count > 0 {
                stream.position += count;
                stream.highest = stream.position.max(stream.highest);
            }
            stream.written = stream.written.wrapping_add(bytes.len() as u32);
            Ok(true)
        }
        StreamKind::File {
            content,
            form: FileForm::Latin,
            ..
        } => {
            if bytes.len() > (LARGEST - stream.position) as usize {
                return Ok(false);
            }
            content.splice(stream.position as usize, bytes)?;
            stream.position += bytes.len() as u32;
            stream.written = stream.written.wrapping_add(bytes.len() as u32);
            Ok(true)
        }
        _ => Ok(false),
    }
}

/// The character at a position and the position behind it, None at the end; `found` stands at the place of memory.
#[tactic(auto, unfolding(crate::specs::Stream::read_next))]
pub fn next_from(stream: &Stream, position: u32, found: u32) -> Option<(u32, u32)>
    requires { IsSoundStream stream.now }
    ensures value { result ≡ read_next (record stream.now { position = position }) found }
    ensures behind { IfSome result (λ got. got.1 ≤ end_position stream.now) }
{
    if !readable(stream) {
        return None;
    }
    match &stream.kind {
        StreamKind::Window(_) => None,
        StreamKind::Memory { at, len, .. } => {
            if position < places_of(*at, *len) {
                Some((found, position + 1))
            } else {
                None
            }
        }
        StreamKind::File { content, form, .. } => { read_in(content.as_slice(), *form, position) }
    }
}

/// The bytes that are left of a file in Latin-1 that is open for reading.
#[tactic(auto, unfolding(crate::specs::Stream::latin_rest))]
pub fn latin_rest(stream: &Stream) -> Option<&[u8]>
    requires { IsSoundStream stream.now }
    ensures { MatchOption result (latin_rest stream.now ≡ None) (λ rest. latin_rest stream.now ≡ Some rest.now) }
{
    if !readable(stream) {
        return None;
    }
    match &stream.kind {
        StreamKind::File {
            content,
            form: FileForm::Latin,
            ..
        } => Some(&content.as_slice()[stream.position as usize..]),
        _ => None,
    }
}

/// Counts so many characters as read, and moves to the position behind them.
#[tactic(auto, using(crate::proofs::Sounds::sound_get))]
pub fn pass(stream: &mut Stream, position: u32, count: u32)
    requires sound { IsSoundStream stream.old }
    requires within { position ≤ end_position stream.old }
    ensures new { stream.new ≡ passed stream.old position count }
    ensures sound { IsSoundStream stream.new }
    ensures id { stream.new.id ≡ stream.old.id }
{
    stream.position = position;
    stream.read = stream.read.wrapping_add(count);
}

/// Counts and gets the next character; None where the stream isn't open for reading or is at its end.
#[tactic(auto, using(crate::proofs::Sounds::sound_get))]
pub fn get(stream: &mut Stream, found: u32) -> Option<u32>
    requires { IsSoundStream stream.old }
    ensures value { result ≡ option_map (λ (got : ℕ × ℕ). got.0) (read_next stream.old found) }
    ensures new { stream.new ≡ after_get stream.old (read_next stream.old found) }
    ensures sound { IsSoundStream stream.new }
    ensures id { stream.new.id ≡ stream.old.id }
{
    let (c, behind) = next_from(stream, stream.position, found)?;
    stream.position = behind;
    stream.read = stream.read.wrapping_add(1);
    Some(c)
}

/// So far from a place as a signed number says, within the end.
fn clamped(base: u32, by: u32, end: u32) -> u32
    ensures value { result ≡ clamped base by end }
    ensures within { result ≤ end }
{
    if by < 0x8000_0000 {
        base.saturating_add(by).min(end)
    } else {
        base.saturating_sub(by.wrapping_neg()).min(end)
    }
}

/// Sets the position, counted from the start, the position or the end.
#[tactic(auto, using(crate::proofs::Sounds::sound_move), unfolding(crate::specs::Stream::positioned))]
pub fn move_to(stream: &mut Stream, pos: u32, seek: u32)
    requires { IsSoundStream stream.old }
    ensures new { stream.new ≡ positioned stream.old pos seek }
    ensures sound { IsSoundStream stream.new }
    ensures id { stream.new.id ≡ stream.old.id }
{
    let end = end_of(stream);
    match seek {
        FROM_START => stream.position = clamped(0, pos, end),
        FROM_CURRENT => stream.position = clamped(stream.position, pos, end),
        FROM_END => stream.position = clamped(end, pos, end),
        _ => {}
    }
}

/// The places of memory that so many characters use next.
#[tactic(auto, unfolding(crate::specs::Stream::next_places))]
pub fn places(stream: &Stream, count: u32) -> Places
    ensures value { result ≡ next_places stream.now count }
    ensures at { result.at < 2 ^ 40 }
    ensures width { result.width ≤ 4 }
    ensures count { result.count ≤ count }
{
    match stream.kind {
        StreamKind::Memory { at, len, wide } => {
            let width = if wide { 4 } else { 1 };
            Places {
                at: u64::from(at) + u64::from(stream.position) * u64::from(width),
                width,
                count: count.min(places_of(at, len).saturating_sub(stream.position)),
            }
        }
        _ => Places {
            at: 0,
            width: 1,
            count: 0,
        },
    }
}

/// Whether there is room for the bytes of a save.
#[tactic(auto, using(crate::proofs::Sizes::length_saved), unfolding(crate::specs::Stream::fits))]
pub fn fits(stream: &Stream, bytes: &[u8]) -> bool
    ensures value { result ≡ fits stream.now bytes.now }
    ensures few { IsTrue result → length bytes.now < 2 ^ 32 }
{
    match &stream.kind {
        StreamKind::Window(_) => false,
        StreamKind::Memory { at, len, .. } => {
            bytes.len() <= places_of(*at, *len).saturating_sub(stream.position) as usize
        }
        StreamKind::File { form, .. } => {
            bytes.len() <= LARGEST as usize
                && byte_at(*form, stream.position) + saved_size(*form, bytes) <= LARGEST as usize
        }
    }
}

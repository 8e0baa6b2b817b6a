//! Saves as the bytes of a stream (Glulx 3.1.2, "Game State"; specs/PuttingSaves): they are put as characters, and got
//! from where the stream stands to its end.
ghost use Rattle.std.specs.Prelude.{ℕ, ◌≡◌, ◌≢◌, ◌<◌, ◌≤◌, ◌^◌, ◌+◌, ◌⊎◌, List, [], length, take, drop, IfOk, IfSome};
ghost use Rattle.std.specs.Prelude.{OnErr, IsTrue, Ok, Some, None};
ghost use Rattle.gx_state.specs.Replies.{IsReply};
ghost use Rattle.glk_streams.specs.Stream as one;
ghost use Rattle.glk_streams.specs.Streams as streams;
ghost use Rattle.glk_world.specs.World.{silent, MakesCall};
ghost use Rattle.glk_world.specs.Putting.{places_read};
ghost use Rattle.glk_world.specs.Calls.{chars_got};
ghost use Rattle.glk_replies.specs.Parts.{IsCharWidth, reply_filling, MayWant};
ghost use Rattle.glk_text_calls.specs.Putting.{put_all};
ghost use Rattle.glk_text_calls.specs.PuttingSaves.{takes_save, put_save, put_save_grows, rest_len, as_bytes};
ghost use Rattle.glk_text_calls.specs.PuttingSaves.{take_rest};
ghost use Rattle.glk_text_calls.specs.PuttingSaves.{take_rest_grows};

use crate::input::{Reading, read_on};
use glk_replies::{can_lay, lay, reply};
use glk_streams::{Places, Streams};
use glk_world::World;
use gx_pages::Pages;
use gx_state::{Reply, State};
use gx_words::{Bytes, Fault, Numbers};
use std::alloc::{AllocError, Allocator, Global};

/// The last character that is a byte.
const LAST_BYTE: u32 = 0xFF;

/// Whether a stream takes these bytes.
fn takes_save(world: &World, stream: u32, bytes: &[u8]) -> bool
    ensures value { result ≡ takes_save world.now.scene stream bytes.now }
    ensures few { IsTrue result → length bytes.now < 2 ^ 32 }
{
    let streams = world.streams();
    streams.has(stream) && streams.writable(stream) && streams.fits(stream, bytes)
}

/// The reply that writes bytes as characters to places that may be written.
fn filled_bytes(alloc: Global, places: Places, bytes: &[u8]) -> Result<Reply, Fault>
    requires at { 0 < places.count → places.at < 2 ^ 32 }
    requires count { places.count ≤ length bytes.now }
    ensures { MayWant (0 < places.count) (λ reply. reply) result (Ok (reply_filling 0 places bytes.now)) }
{
    let mut reply = reply(alloc, 0);
    lay(alloc, &mut reply.writes, places, bytes)?;
    Ok(reply)
}

/// Puts bytes to a stream.
fn put_bytes<A: Allocator + Clone>(
    world: &mut World,
    state: &State<A>,
    stream: u32,
    bytes: &[u8],
) -> Result<Reply, Fault>
    requires there { IsTrue (streams.has world.old.scene.streams stream) }
    requires few { length bytes.now < 2 ^ 32 }
    ensures value { MakesCall (bytes.now ≢ []) result world.old world.new
        (put_all world.old.scene state.now.flat stream bytes.now) }
    ensures fits { (room : ℕ) → IfOk result (IsReply state.now.flat room) }
{
    let places = world.places(stream, bytes.len() as u32);
    can_lay(state, places)?;
    world.put_bytes(stream, bytes)?;
    filled_bytes(world.alloc(), places, bytes)
}

/// Puts the bytes of a save to a stream that takes them, as characters; None where it doesn't take them.
///
/// The world stands where none is answered, and after a fault but for want of memory.
#[tactic(auto, unfolding(crate::specs::PuttingSaves::put_save))]
pub fn put_save<A: Allocator + Clone>(
    world: &mut World,
    state: &State<A>,
    stream: u32,
    bytes: &[u8],
) -> Result<Option<Reply>, Fault>
    ensures value { MakesCall (IsTrue (put_save_grows world.old.scene stream bytes.now)) result world.old world.new
        (put_save world.old.scene state.now.flat stream bytes.now) }
    ensures fits { IfOk result (λ reply. IfSome reply (IsReply state.now.flat 0)) }
{
    if !takes_save(world, stream, bytes) {
        return Ok(None);
    }
    let reply = put_bytes(world, state, stream, bytes)?;
    Ok(Some(reply))
}

/// A copy of bytes, which takes memory where there are some.
fn copy_of(alloc: Global, bytes: &[u8]) -> Result<Bytes, AllocError>
    ensures value { IfOk result (λ copy. copy ≡ bytes.now) }
    ensures memory { OnErr result (0 < length bytes.now) }
{
    if bytes.is_empty() {
        Ok(Bytes::new(alloc))
    } else {
        Bytes::from_slice(alloc, bytes)
    }
}

/// How many positions are left before a stream's end.
fn rest_len(all: &Streams, stream: u32) -> u32
    requires { IsTrue (streams.has all.now stream) }
    ensures value { result ≡ rest_len (streams.stream all.now stream) }
    ensures within { (streams.stream all.now stream).position ≤ one.end_position (streams.stream all.now stream) }
{
    all.end(stream) - all.position(stream)
}

/// Characters as bytes; None where one isn't a byte.
fn bytes_of(alloc: Global, chars: &[u32]) -> Result<Option<Bytes>, Fault>
    ensures { MayWant (0 < length chars.now) (λ bytes. bytes) result (Ok (as_bytes chars.now)) }
{
    let mut bytes = Bytes::new(alloc);
    for c in chars {
        if *c > LAST_BYTE {
            return Ok(None);
        }
        bytes.push(*c as u8)?;
    }
    Ok(Some(bytes))
}

/// Characters that were read as bytes; None where one isn't a byte.
fn bytes_read(alloc: Global, chars: Option<Numbers>) -> Result<Option<Bytes>, Fault>
    ensures { (cs : List ℕ) → IfSome chars (λ got. got ≡ cs) → MayWant ((chars ≡ None) ⊎ (0 < length cs))
        (λ bytes. bytes) result (Ok (as_bytes cs)) }
{
    let chars = chars.ok_or(Fault::NoMemory)?;
    bytes_of(alloc, chars.as_slice())
}

/// Whether so many characters, some, all stand in memory as one byte each.
fn are_bytes<A: Allocator + Clone>(state: &State<A>, places: Places, count: u32) -> bool
    requires { places.at < 2 ^ 40 }
    ensures some { IsTrue result → 0 < count }
    ensures all { IsTrue result → places.count ≡ count }
    ensures width { IsTrue result → places.width ≡ 1 }
    ensures there { IsTrue result → places.at + count ≤ length state.now.flat.memory }
    ensures low { IsTrue result → places.at + count < 2 ^ 32 }
{
    count > 0
        && places.width == 1
        && places.count == count
        && places.at + u64::from(count) <= u64::from(state.memory().size())
}

/// So many bytes of memory.
fn bytes_at<A: Allocator>(
    alloc: Global,
    memory: &Pages<A>,
    at: u32,
    count: u32,
) -> Result<Bytes, AllocError>
    requires there { at + count ≤ length memory.now }
    requires low { at + count < 2 ^ 32 }
    ensures { IfOk result (λ bytes. bytes ≡ take count (drop at memory.now)) }
{
    let mut bytes = Bytes::new(alloc);
    let mut done = 0;
    while done < count {
        let page = memory.bytes_in_page(at + done);
        let piece = page.len().min((count - done) as usize);
        bytes.extend_from_slice(&page[..piece])?;
        done += piece as u32;
    }
    Ok(bytes)
}

/// Each byte is a character below 256.
fn each_fits(_bytes: &[u8])
    ensures { as_bytes _bytes.now ≡ Some _bytes.now }
{}

/// The bytes that are left of a stream where they are its characters: of a file in Latin-1, or of bytes in memory.
fn bytes_left<A: Allocator + Clone>(
    world: &World,
    state: &State<A>,
    stream: u32,
    places: Places,
    most: u32,
) -> Result<Option<Bytes>, AllocError>
    requires there { IsTrue (streams.has world.now.scene.streams stream) }
    requires reads { IsTrue (one.readable (streams.stream world.now.scene.streams stream)) }
    requires within { (streams.stream world.now.scene.streams stream).position ≤ one.end_position
        (streams.stream world.now.scene.streams stream) }
    requires most { most ≡ rest_len (streams.stream world.now.scene.streams stream) }
    requires places { places ≡ places_read world.now.scene stream most }
    requires at { places.at < 2 ^ 40 }
    ensures value { IfOk result (λ left. IfSome left (λ bytes. take_rest world.now.scene state.now.flat stream ≡ Ok (
      silent (chars_got world.now.scene stream (one.end_position (streams.stream world.now.scene.streams stream))
          (rest_len (streams.stream world.now.scene.streams stream))),
      Some bytes,
    ))) }
    ensures memory { OnErr result (IsTrue (take_rest_grows world.now.scene state.now.flat stream)) }
{
    if let Some(rest) = world.streams().latin_rest(stream) {
        let bytes = copy_of(world.alloc(), rest)?;
        each_fits(bytes.as_slice());
        return Ok(Some(bytes));
    }
    if are_bytes(state, places, most) {
        let bytes = bytes_at(world.alloc(), state.memory(), places.at as u32, most)?;
        each_fits(bytes.as_slice());
        return Ok(Some(bytes));
    }
    Ok(None)
}

/// Takes the bytes from a stream's position to its end, where it then stands; None where a character isn't a byte, or
/// the stream isn't open for reading.
///
/// The world stands where the stream isn't open for reading, and after a fault but for want of memory.
pub fn take_rest<A: Allocator + Clone>(
    world: &mut World,
    state: &State<A>,
    stream: u32,
) -> Result<Option<Bytes>, Fault>
    ensures { MakesCall (IsTrue (take_rest_grows world.old.scene state.now.flat stream)) result world.old world.new
        (take_rest world.old.scene state.now.flat stream) }
{
    let all = world.streams();
    if !all.has(stream) || !all.readable(stream) {
        return Ok(None);
    }
    let most = rest_len(all, stream);
    let places = world.places_read(stream, most);
    if let Some(bytes) = bytes_left(world, state, stream, places, most)? {
        let end = world.streams().end(stream);
        world.pass(stream, end, most);
        return Ok(Some(bytes));
    }
    take_chars(world, state, stream, places, most)
}

/// The same of a stream that is open for reading, one character after another.
fn take_chars<A: Allocator + Clone>(
    world: &mut World,
    state: &State<A>,
    stream: u32,
    places: Places,
    most: u32,
) -> Result<Option<Bytes>, Fault>
    requires there { IsTrue (streams.has world.old.scene.streams stream) }
    requires reads { IsTrue (one.readable (streams.stream world.old.scene.streams stream)) }
    requires most { most ≡ rest_len (streams.stream world.old.scene.streams stream) }
    requires places { places ≡ places_read world.old.scene stream most }
    requires width { IsCharWidth places.width }
    requires at { places.at < 2 ^ 40 }
    ensures { MakesCall (IsTrue (take_rest_grows world.old.scene state.now.flat stream)) result world.old world.new
        (take_rest world.old.scene state.now.flat stream) }
{
    let Reading {
        count,
        position,
        chars,
    } = read_on(
        world.alloc(),
        world.streams(),
        state,
        stream,
        places,
        most,
        false,
    )?;
    world.pass(stream, position, count);
    bytes_read(world.alloc(), chars)
}

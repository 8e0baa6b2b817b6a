//! Putting to streams (Glk 0.7.5, "How To Print"; specs/Output): the places in memory where characters end are looked
//! at first.
//!
//! A character takes no memory but for its place in the text, in a file or in the reply. A string and a buffer are
//! gathered where their stream takes characters, and only there: one that is open for writing, of a window only where
//! that is a text buffer or a grid or has an echo stream. Of any other a character is at most counted.
ghost use Rattle.std.specs.Prelude.{ℕ, ◌≡◌, ◌+◌, ◌*◌, ◌≤◌, ◌<◌, ◌^◌, ◌==◌, ◌&&◌, ◌∷◌, List, [], not, length, Ok, IfOk};
ghost use Rattle.std.specs.Prelude.{IsOk, OnErr, OnOk, IsTrue};
ghost use Rattle.gx_state.specs.Flat.{FlatState};
ghost use Rattle.gx_state.specs.Replies.{IsReply};
ghost use Rattle.glk_streams.specs.Streams as streams;
ghost use Rattle.glk_world.specs.Putting.{is_plain_text, put_chars, takes_chars};
ghost use Rattle.glk_world.specs.Each.{ShowsEach};
ghost use Rattle.glk_world.specs.World.{after, on_world, MakesCall};
ghost use Rattle.glk_replies.specs.Parts.{IsCharWidth, replies, numbers_in};
ghost use Rattle.glk_replies.specs.Strings.{string_length};
ghost use Rattle.glk_text_calls.specs.Putting.{put_all, put_grows_one, put_grows_some};
ghost use Rattle.glk_text_calls.specs.Output.{putting, char_given, put_char, put_string, put_buffer, has_length};

use glk_replies::{can_lay, can_read, filled, numbers_at, reply, string_length};
use glk_world::World;
use gx_pages::Pages;
use gx_state::{Reply, State};
use gx_words::Fault;
use std::alloc::{AllocError, Allocator};

/// A character that is given in so many bytes.
fn char_given(width: u32, c: u32) -> u32
    ensures { result ≡ char_given width c }
{
    if width == 1 { c % 256 } else { c }
}

/// put_char: one character.
#[tactic(auto, unfolding(crate::specs::Output::put_char))]
pub fn put_char<A: Allocator + Clone>(
    world: &mut World,
    state: &State<A>,
    stream: u32,
    width: u32,
    c: u32,
) -> Result<Reply, Fault>
    ensures value { MakesCall (IsTrue (put_grows_one world.old.scene stream (char_given width c))) result world.old
        world.new (put_char world.old.scene state.now.flat stream width c) }
    ensures fits { (room : ℕ) → IfOk result (IsReply state.now.flat room) }
{
    put_one(world, state, stream, char_given(width, c))
}

/// Puts one character to a stream, which mostly is the stream of a text buffer window.
fn put_one<A: Allocator + Clone>(
    world: &mut World,
    state: &State<A>,
    stream: u32,
    c: u32,
) -> Result<Reply, Fault>
    ensures value { MakesCall (IsTrue (put_grows_one world.old.scene stream c)) result world.old world.new
        (put_all world.old.scene state.now.flat stream (c ∷ [])) }
    ensures fits { (room : ℕ) → IfOk result (IsReply state.now.flat room) }
{
    if world.put_text(stream, c)? {
        return Ok(reply(world.alloc(), 0));
    }
    put_placed(world, state, stream, c)
}

/// Puts one character to any stream: its place in memory is looked at first.
fn put_placed<A: Allocator + Clone>(
    world: &mut World,
    state: &State<A>,
    stream: u32,
    c: u32,
) -> Result<Reply, Fault>
    ensures value { MakesCall (IsTrue (put_grows_one world.old.scene stream c)) result world.old world.new
        (put_all world.old.scene state.now.flat stream (c ∷ [])) }
    ensures fits { (room : ℕ) → IfOk result (IsReply state.now.flat room) }
{
    if !world.streams().has(stream) {
        return Ok(reply(world.alloc(), 0));
    }
    let places = world.places(stream, 1);
    can_lay(state, places)?;
    world.put(stream, c)?;
    filled(world.alloc(), 0, places, &[c])
}

/// put_string: the characters of a string.
#[tactic(auto, using(glk_replies::proofs::Counting::length_rules), unfolding(crate::specs::Output::put_string))]
pub fn put_string<A: Allocator + Clone>(
    world: &mut World,
    state: &State<A>,
    stream: u32,
    width: u32,
    at: u32,
) -> Result<Reply, Fault>
    requires { IsCharWidth width }
    ensures value { MakesCall (IsTrue (put_grows_some world.old.scene stream (has_length (string_length state.now.flat
        width at)))) result world.old world.new
        (put_string world.old.scene state.now.flat stream width at) }
    ensures fits { (room : ℕ) → IfOk result (IsReply state.now.flat room) }
{
    let count = string_length(state, width, at)?;
    put_numbers(world, state, stream, width, at + width, count)
}

/// put_buffer: so many bytes or words.
#[tactic(auto, unfolding(crate::specs::Output::put_buffer))]
pub fn put_buffer<A: Allocator + Clone>(
    world: &mut World,
    state: &State<A>,
    stream: u32,
    width: u32,
    at: u32,
    count: u32,
) -> Result<Reply, Fault>
    requires { IsCharWidth width }
    ensures value { MakesCall (IsTrue (put_grows_some world.old.scene stream (not (count == 0)))) result world.old
        world.new (put_buffer world.old.scene state.now.flat stream width at count) }
    ensures fits { (room : ℕ) → IfOk result (IsReply state.now.flat room) }
{
    can_read(state, u64::from(at), u64::from(width) * u64::from(count))?;
    put_numbers(world, state, stream, width, at, count)
}

/// Puts numbers that are there, to a stream that takes no characters, one after another.
#[tactic(auto, using(crate::proofs::Puts::unseen_turns))]
fn put_unseen<A: Allocator>(
    world: &mut World,
    memory: &Pages<A>,
    stream: u32,
    width: u32,
    at: u32,
    count: u32,
) -> Result<(), AllocError>
    requires width { IsCharWidth width }
    requires there { 0 < count → at + width * count ≤ length memory.now }
    requires low { 0 < count → at + width * count < 2 ^ 32 }
    requires unseen { IsTrue (not (takes_chars world.old.scene stream)) }
    ensures calm { IsOk result }
    ensures new { OnOk result (world.new
        ≡ after world.old (put_chars world.old.scene stream (numbers_in width memory.now at count))) }
{
    for i in 0..count {
        world.put(stream, memory.number(width, at + width * i))?;
    }
    Ok(())
}

/// Puts numbers that are there.
fn put_numbers<A: Allocator + Clone>(
    world: &mut World,
    state: &State<A>,
    stream: u32,
    width: u32,
    at: u32,
    count: u32,
) -> Result<Reply, Fault>
    requires width { IsCharWidth width }
    requires there { 0 < count → at + width * count ≤ length state.now.flat.memory }
    requires low { 0 < count → at + width * count < 2 ^ 32 }
    ensures value { MakesCall (IsTrue (put_grows_some world.old.scene stream (not (count == 0)))) result world.old
        world.new (put_all world.old.scene state.now.flat stream (numbers_in width state.now.flat.memory at count)) }
    ensures fits { (room : ℕ) → IfOk result (IsReply state.now.flat room) }
{
    if !world.streams().has(stream) {
        return Ok(reply(world.alloc(), 0));
    }
    let places = world.places(stream, count);
    can_lay(state, places)?;
    if !world.takes(stream) {
        put_unseen(world, state.memory(), stream, width, at, count)?;
        return Ok(reply(world.alloc(), 0));
    }
    let numbers = numbers_at(world.alloc(), state.memory(), width, at, count)?;
    let chars = numbers.as_slice();
    world.puts(stream, chars)?;
    filled(world.alloc(), 0, places, chars)
}

/// Puts a character that the program prints to the current stream.
#[tactic(auto, unfolding(crate::specs::Output::putting))]
pub fn put<A: Allocator + Clone>(
    world: &mut World,
    state: &State<A>,
    value: u32,
) -> Result<Reply, Fault>
    ensures value { MakesCall (IsTrue (put_grows_one world.old.scene world.old.scene.current value)) result world.old
        world.new (putting world.old.scene state.now.flat value) }
    ensures fits { IfOk result (IsReply state.now.flat 0) }
{
    let stream = world.current();
    put_one(world, state, stream, value)
}

/// The same where the current stream is that of a text buffer window without an echo stream, whose reply pushes and
/// writes nothing; says whether it is one, and does nothing where it isn't.
#[inline(always)]
#[tactic(auto, using(crate::proofs::Puts::text_rules), unfolding(crate::specs::Output::putting))]
pub fn put_text(world: &mut World, value: u32) -> Result<bool, AllocError>
    ensures value { IfOk result (λ put. put ≡ is_plain_text world.old.scene world.old.scene.current) }
    ensures put { IfOk result (λ put. IsTrue put → (f : FlatState)
        → on_world world.old (putting world.old.scene f value) ≡ Ok (world.new, replies 0)) }
    ensures other { IfOk result (λ put. IsTrue (not put) → world.new ≡ world.old) }
    ensures fine { OnErr result ((f : FlatState) → IsOk (on_world world.old (putting world.old.scene f value))) }
    ensures memory { OnErr result (IsTrue (put_grows_one world.old.scene world.old.scene.current value)) }
    ensures grows { IfOk result (λ put. IsTrue put
        → IsTrue (put_grows_one world.old.scene world.old.scene.current value)) }
    ensures current { IfOk result (λ put. IsTrue put → world.new.scene.current ≡ world.old.scene.current) }
    ensures shows { IfOk result (λ put. IsTrue put → (chars : List ℕ)
        → ShowsEach world.new world.old.scene.current chars) }
{
    let stream = world.current();
    world.put_text(stream, value)
}

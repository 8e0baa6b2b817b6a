//! Getting from streams (Glk 0.7.5, "How To Read"; specs/Input).
//!
//! Each character is read once, and gathered as it is read. Where memory is wanted for it, it is still read and
//! counted, so that each fault comes before want of memory.
ghost use Rattle.std.specs.Prelude.{ℕ, ◌≡◌, ◌⊎◌, ◌+◌, ◌≤◌, ◌<◌, ◌^◌, ◌∷◌, [], ◌++◌, length, not, ◌==◌, ◌&&◌};
ghost use Rattle.std.specs.Prelude.{if◌then◌else◌, List, IfOk, IfSome, MatchOption, IsTrue, true, Ok, None};
ghost use Rattle.gx_words.specs.Faults.{Reads};
ghost use Rattle.gx_words.specs.Results.{◌>>=◌ as and_then};
ghost use Rattle.gx_state.specs.Replies.{IsReply};
ghost use Rattle.glk_streams.specs.Stream as one;
ghost use Rattle.glk_streams.specs.Streams as streams;
ghost use Rattle.glk_replies.specs.Parts.{IsCharWidth, reply_filling, MayWant};
ghost use Rattle.glk_world.specs.World.{arg, MakesCall};
ghost use Rattle.glk_text_calls.specs.Input.{found_in, read_on, count_read, has_read, reading, get_chars};
ghost use Rattle.glk_text_calls.specs.Input.{get_buffer, get_line, get_buffer_grows, char_answer, get_char};
ghost use Rattle.gx_words.specs.Constants.{line_feed};

use glk_replies::{can_lay, can_read, filled, reply};
use glk_streams::{Places, Streams};
use glk_text::latin;
use glk_world::{World, arg};
use gx_state::{Reply, State};
use gx_words::{Fault, LINE_FEED, Numbers};
use std::alloc::{Allocator, Global};

/// What get_char answers at the end of a stream.
pub const NO_CHARACTER: u32 = 0xFFFF_FFFF;

/// The number at one of the places of a memory stream, which is looked at.
#[tactic(auto, using(crate::proofs::Reading::places_rules))]
fn found_in<A: Allocator + Clone>(state: &State<A>, places: Places, i: u32) -> Result<u32, Fault>
    requires width { IsCharWidth places.width }
    requires at { places.at < 2 ^ 40 }
    ensures { Reads (λ found. found) result (found_in state.now.flat places i) }
{
    if places.count <= i {
        return Ok(0);
    }
    let at = places.at + u64::from(places.width) * u64::from(i);
    can_read(state, at, u64::from(places.width))?;
    Ok(state.memory().number(places.width, at as u32))
}

/// The next character, and the position behind it.
fn next_char<A: Allocator + Clone>(
    all: &Streams,
    state: &State<A>,
    stream: u32,
    places: Places,
    i: u32,
    position: u32,
) -> Result<Option<(u32, u32)>, Fault>
    requires there { IsTrue (streams.has all.now stream) }
    requires width { IsCharWidth places.width }
    requires at { places.at < 2 ^ 40 }
    ensures value { Reads (λ next. next) result
        (and_then (found_in state.now.flat places i)
        (λ found. Ok (one.read_next (record (streams.stream all.now stream) { position = position }) found))) }
    ensures behind { IfOk result (λ next. IfSome next
        (λ got. got.1 ≤ one.end_position (streams.stream all.now stream))) }
{
    let found = found_in(state, places, i)?;
    Ok(all.peek(stream, position, found))
}

/// Whether a character ends what is read.
fn ends_line(stops: bool, c: u32) -> bool
    ensures { result ≡ (stops && c == line_feed) }
{
    stops && c == LINE_FEED
}

/// What was read.
#[derive(Drop)]
pub(crate) struct Reading {
    /// How many characters.
    pub count: u32,
    /// The position behind them.
    pub position: u32,
    /// The characters; None where memory was wanted for them.
    pub chars: Option<Numbers>,
}

/// Characters with one more; None where memory is wanted for it, or was before.
fn kept(chars: Option<Numbers>, c: u32) -> Option<Numbers>
    ensures { IfSome result (λ more. MatchOption chars ⊥ (λ before. more ≡ before ++ c ∷ [])) }
{
    let mut chars = chars?;
    match chars.push(c) {
        Ok(()) => Some(chars),
        Err(_) => None,
    }
}

/// Reads characters, `most` at most, up to the end of a line where that stops.
pub(crate) fn read_on<A: Allocator + Clone>(
    alloc: Global,
    all: &Streams,
    state: &State<A>,
    stream: u32,
    places: Places,
    most: u32,
    stops: bool,
) -> Result<Reading, Fault>
    requires there { IsTrue (streams.has all.now stream) }
    requires width { IsCharWidth places.width }
    requires at { places.at < 2 ^ 40 }
    ensures value { Reads (λ got. (got.count, got.position)) result
        (count_read (read_on most stops state.now.flat places (streams.stream all.now stream) 0
        (streams.stream all.now stream).position)) }
    ensures chars { IfOk result (λ got. IfSome got.chars
        (λ chars. read_on most stops state.now.flat places (streams.stream all.now stream) 0
        (streams.stream all.now stream).position ≡ Ok (chars, got.position))) }
    ensures memory { IfOk result (λ got. got.chars ≡ None → 0 < got.count) }
    ensures few { IfOk result (λ got. got.count ≤ most) }
    ensures within { IfOk result (λ got. got.position ≤ one.end_position (streams.stream all.now stream)) }
{
    let mut chars = Some(Numbers::new(alloc));
    let mut position = all.position(stream);
    for i in 0..most {
        let Some((c, next)) = next_char(all, state, stream, places, i, position)? else {
            return Ok(Reading {
                count: i,
                position,
                chars,
            });
        };
        chars = kept(chars, c);
        position = next;
        if ends_line(stops, c) {
            return Ok(Reading {
                count: i + 1,
                position,
                chars,
            });
        }
    }
    Ok(Reading {
        count: most,
        position,
        chars,
    })
}

/// The reply with characters that were read, and a zero behind them where a line ends.
fn reply_read(
    alloc: Global,
    count: u32,
    buffer: Places,
    chars: Option<Numbers>,
    stops: bool,
) -> Result<Reply, Fault>
    requires at { buffer.at < 2 ^ 32 }
    requires count { buffer.count ≡ count + (if stops then 1 else 0) }
    requires len { IfSome chars (λ cs. length cs ≡ count) }
    requires some { chars ≡ None → 0 < count }
    ensures { (cs : List ℕ) → IfSome chars (λ got. got ≡ cs) → MayWant ((0 < count) ⊎ (stops ≡ true)) (λ reply. reply)
        result (Ok (reply_filling count buffer (cs ++ (if stops then 0 ∷ [] else [])))) }
{
    let mut chars = chars.ok_or(Fault::NoMemory)?;
    if stops {
        chars.push(0)?;
    }
    filled(alloc, count, buffer, chars.as_slice())
}

/// Reads characters into a buffer, and ends a line by a zero.
fn get_chars<A: Allocator + Clone>(
    world: &mut World,
    state: &State<A>,
    stream: u32,
    stops: bool,
    most: u32,
    width: u32,
    at: u32,
) -> Result<Reply, Fault>
    requires there { IsTrue (streams.has world.old.scene.streams stream) }
    requires width { IsCharWidth width }
    requires few { stops ≡ true → most + 1 < 2 ^ 32 }
    ensures value { MakesCall ((stops ≡ true) ⊎ IsTrue
        (has_read (reading world.old.scene state.now.flat stream stops most))) result world.old world.new
        (get_chars world.old.scene state.now.flat stream stops most width at) }
    ensures fits { (room : ℕ) → IfOk result (IsReply state.now.flat room) }
{
    let places = world.places_read(stream, most);
    let Reading {
        count,
        position,
        chars,
    } = read_on(
        world.alloc(),
        world.streams(),
        state,
        stream,
        places,
        most,
        stops,
    )?;
    let buffer = Places {
        at: u64::from(at),
        width,
        count: count + u32::from(stops),
    };
    can_lay(state, buffer)?;
    world.pass(stream, position, count);
    reply_read(world.alloc(), count, buffer, chars, stops)
}

/// get_buffer_stream: characters up to the end of the stream or the buffer.
pub fn get_buffer<A: Allocator + Clone>(
    world: &mut World,
    state: &State<A>,
    width: u32,
    args: &[u32],
) -> Result<Reply, Fault>
    requires there { IsTrue (streams.has world.old.scene.streams (arg args.now 0)) }
    requires width { IsCharWidth width }
    ensures value { MakesCall (IsTrue (get_buffer_grows world.old.scene state.now.flat args.now)) result
        world.old world.new (get_buffer width world.old.scene state.now.flat args.now) }
    ensures fits { (room : ℕ) → IfOk result (IsReply state.now.flat room) }
{
    get_chars(
        world,
        state,
        arg(args, 0),
        false,
        arg(args, 2),
        width,
        arg(args, 1),
    )
}

/// get_line_stream: characters up to a line feed, and a zero behind them.
pub fn get_line<A: Allocator + Clone>(
    world: &mut World,
    state: &State<A>,
    width: u32,
    args: &[u32],
) -> Result<Reply, Fault>
    requires there { IsTrue (streams.has world.old.scene.streams (arg args.now 0)) }
    requires width { IsCharWidth width }
    ensures value { MakesCall (IsTrue (not (arg args.now 2 == 0))) result world.old world.new
        (get_line width world.old.scene state.now.flat args.now) }
    ensures fits { (room : ℕ) → IfOk result (IsReply state.now.flat room) }
{
    let len = arg(args, 2);
    if len == 0 {
        return Ok(reply(world.alloc(), 0));
    }
    get_chars(
        world,
        state,
        arg(args, 0),
        true,
        len - 1,
        width,
        arg(args, 1),
    )
}

/// What stands for a character that was read.
fn char_value(width: u32, c: Option<u32>) -> u32
    ensures { result ≡ char_answer width c }
{
    match c {
        None => NO_CHARACTER,
        Some(c) if width == 1 => u32::from(latin(c)),
        Some(c) => c,
    }
}

/// get_char_stream: one character.
#[tactic(auto, unfolding(crate::specs::Input::get_char))]
pub fn get_char<A: Allocator + Clone>(
    world: &mut World,
    state: &State<A>,
    width: u32,
    args: &[u32],
) -> Result<Reply, Fault>
    requires { IsTrue (streams.has world.old.scene.streams (arg args.now 0)) }
    ensures value { MakesCall ⊥ result world.old world.new (get_char width world.old.scene state.now.flat args.now) }
    ensures fits { (room : ℕ) → IfOk result (IsReply state.now.flat room) }
{
    let stream = arg(args, 0);
    let found = found_in(state, world.places_read(stream, 1), 0)?;
    let c = world.get(stream, found);
    Ok(reply(world.alloc(), char_value(width, c)))
}

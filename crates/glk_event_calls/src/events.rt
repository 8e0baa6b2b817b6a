//! The calls of events (Glk 0.7.5, "Events"): requests, polling, waiting, and what a line gives to the request that it
//! meets.
ghost use Rattle.std.specs.Prelude.{◌≡◌, ℕ, ◌==◌, not, ◌<◌, ◌≤◌, ◌^◌, ◌+◌, ◌*◌, ◌++◌, if◌then◌else◌, true, false};
ghost use Rattle.std.specs.Prelude.{length, map, OnOk, OnErr, IfOk, IsTrue};
ghost use Rattle.gx_words.specs.Constants.{ceiling};
ghost use Rattle.gx_words.specs.Faults.{Reads};
ghost use Rattle.gx_state.specs.Flat.{FlatState};
ghost use Rattle.gx_state.specs.Replies.{IsReply};
ghost use Rattle.glk_replies.specs.Turns.{IsTurnFor};
ghost use Rattle.glk_replies.specs.Parts.{IsCharWidth};
ghost use Rattle.glk_world.specs.World.{arg, MakesCall};
ghost use Rattle.glk_event_calls.specs.Events.{event, may_ask, requested, request_line_event, request_char_event};
ghost use Rattle.glk_event_calls.specs.Events.{is_for, cancel_char_event, cancel_line_event, select_poll, select};
ghost use Rattle.glk_event_calls.specs.Events.{event_of, line_places, echo_for, echoes, echoed, echo_places};
ghost use Rattle.glk_event_calls.specs.Events.{looked_at_line, line_reply, met_grows, met, select_goes_on};
ghost use Rattle.glk_event_calls.specs.Events.{select_goes_on_grow};
ghost use Rattle.glk_text.specs.Characters.{latin_of};

use glk_events::{Request, char_value, line_length};
use glk_replies::selectors::SELECT;
use glk_replies::{Turn, add_given, can_give, can_lay, fitting, give, lay, pushes, reply};
use glk_streams::{NO_PLACES, Places};
use glk_text::latin;
use glk_windows::{TEXT_BUFFER, TEXT_GRID};
use glk_world::{World, arg};
use gx_state::{Reply, State};
use gx_words::{Fault, LINE_FEED, Numbers};
use std::alloc::{AllocError, Allocator, Global};

// The types of events, by the standard's names.
const NO_EVENT: u32 = 0;

const CHAR_EVENT: u32 = 2;

const LINE_EVENT: u32 = 3;

/// An event with one value.
fn event(kind: u32, win: u32, value: u32) -> [u32; 4]
    ensures { result ≡ event kind win value }
{
    [kind, win, value, 0]
}

/// Whether a window has text and no request.
fn may_ask(world: &World, win: u32) -> bool
    ensures { result ≡ may_ask world.now.scene win }
{
    let kind = world.windows().entry_at(win).kind;
    (kind == TEXT_BUFFER || kind == TEXT_GRID) && world.requests().of(win).is_none()
}

/// A window asks, if it may.
fn requested(world: &mut World, request: Request) -> Result<Reply, Fault>
    ensures value { MakesCall (IsTrue (may_ask world.old.scene request.win)) result world.old world.new
        (requested world.old.scene request) }
    ensures fits { (f : FlatState) (room : ℕ) → IfOk result (IsReply f room) }
{
    if may_ask(world, request.win) {
        world.ask(request)?;
    }
    Ok(reply(world.alloc(), 0))
}

/// request_line_event, and request_line_event_uni where `wide`.
#[tactic(auto, unfolding(crate::specs::Events::request_line_event))]
pub fn request_line_event(world: &mut World, wide: bool, args: &[u32]) -> Result<Reply, Fault>
    ensures value { MakesCall (IsTrue (may_ask world.old.scene (arg args.now 0))) result world.old world.new
        (request_line_event wide world.old.scene args.now) }
    ensures fits { (f : FlatState) (room : ℕ) → IfOk result (IsReply f room) }
{
    let request = Request {
        win: arg(args, 0),
        line: true,
        wide,
        buf: arg(args, 1),
        max: arg(args, 2),
    };
    requested(world, request)
}

/// request_char_event, and request_char_event_uni where `wide`.
#[tactic(auto, unfolding(crate::specs::Events::request_char_event))]
pub fn request_char_event(world: &mut World, wide: bool, args: &[u32]) -> Result<Reply, Fault>
    ensures value { MakesCall (IsTrue (may_ask world.old.scene (arg args.now 0))) result world.old world.new
        (request_char_event wide world.old.scene args.now) }
    ensures fits { (f : FlatState) (room : ℕ) → IfOk result (IsReply f room) }
{
    let request = Request {
        win: arg(args, 0),
        line: false,
        wide,
        buf: 0,
        max: 0,
    };
    requested(world, request)
}

/// Whether it is a request for a line.
fn is_line(request: Option<Request>) -> bool
    ensures { result ≡ is_for true request }
{
    match request {
        None => false,
        Some(request) => request.line,
    }
}

/// Whether it is a request for a character.
fn is_char(request: Option<Request>) -> bool
    ensures { result ≡ is_for false request }
{
    match request {
        None => false,
        Some(request) => !request.line,
    }
}

/// cancel_char_event: drops a request for a character.
#[tactic(auto, unfolding(crate::specs::Events::cancel_char_event))]
pub fn cancel_char_event(world: &mut World, args: &[u32]) -> Result<Reply, Fault>
    ensures value { MakesCall ⊥ result world.old world.new (cancel_char_event world.old.scene args.now) }
    ensures fits { (f : FlatState) (room : ℕ) → IfOk result (IsReply f room) }
{
    let win = arg(args, 0);
    if is_char(world.requests().of(win)) {
        world.drop_request(win);
    }
    Ok(reply(world.alloc(), 0))
}

/// cancel_line_event: drops a request for a line and gives an event of no characters; else no event.
#[tactic(auto, unfolding(crate::specs::Events::cancel_line_event))]
pub fn cancel_line_event<A: Allocator + Clone>(
    world: &mut World,
    state: &State<A>,
    room: u32,
    args: &[u32],
) -> Result<Reply, Fault>
    ensures value { MakesCall (IsTrue (not (arg args.now 1 == 0))) result world.old world.new
        (cancel_line_event world.old.scene state.now.flat room args.now) }
    ensures fits { IfOk result (IsReply state.now.flat room) }
{
    let win = arg(args, 0);
    let cancels = is_line(world.requests().of(win));
    let event = if cancels {
        event(LINE_EVENT, win, 0)
    } else {
        event(NO_EVENT, 0, 0)
    };
    let reply = give(world.alloc(), state, room, 0, arg(args, 1), &event)?;
    if cancels {
        world.drop_request(win);
    }
    Ok(reply)
}

/// select_poll: no event.
#[tactic(auto, unfolding(crate::specs::Events::select_poll))]
pub fn select_poll<A: Allocator + Clone>(
    world: &mut World,
    state: &State<A>,
    room: u32,
    args: &[u32],
) -> Result<Reply, Fault>
    ensures value { MakesCall (IsTrue (not (arg args.now 0 == 0))) result world.old world.new
        (select_poll world.old.scene state.now.flat room args.now) }
    ensures fits { IfOk result (IsReply state.now.flat room) }
{
    give(
        world.alloc(),
        state,
        room,
        0,
        arg(args, 0),
        &event(NO_EVENT, 0, 0),
    )
}

/// select: waits for an event, whose place is looked at before.
#[tactic(auto, unfolding(crate::proofs::Opened::selecting))]
pub fn select<A: Allocator + Clone>(
    world: &mut World,
    state: &State<A>,
    room: u32,
    args: &[u32],
) -> Result<Turn, Fault>
    ensures value { MakesCall ⊥ result world.old world.new (select world.old.scene state.now.flat room args.now) }
    ensures fits { IfOk result (IsTurnFor state.now.flat room) }
{
    let at = arg(args, 0);
    can_give(state, at, 4)?;
    fitting(room, pushes(at, 4))?;
    if world.requests().oldest().is_none() {
        return Ok(Turn::Stuck);
    }
    world.wait(SELECT, args);
    Ok(Turn::Wait)
}

/// The event that a line gives to a request.
fn event_of(request: &Request, line: &[u32]) -> [u32; 4]
    ensures { result ≡ event_of request.now line.now }
{
    if request.line {
        event(LINE_EVENT, request.win, line_length(request, line))
    } else {
        event(CHAR_EVENT, request.win, char_value(request, line))
    }
}

/// The places of the characters that a line gives to a request.
fn line_places(request: &Request, line: &[u32]) -> Places
    ensures value { result ≡ line_places request.now line.now }
    ensures at { result.at < 2 ^ 32 }
    ensures width { IsCharWidth result.width }
    ensures count { result.count ≤ length line.now }
{
    Places {
        at: u64::from(request.buf),
        width: if request.wide { 4 } else { 1 },
        count: if request.line {
            line_length(request, line)
        } else {
            0
        },
    }
}

/// The echo stream of a request's window, 0 for none.
fn echo_for(world: &World, request: &Request) -> u32
    ensures { result ≡ echo_for world.now.scene request.now }
{
    world.windows().entry_at(request.win).echo
}

/// Whether a line is put to the window's echo stream.
fn echoes(world: &World, request: &Request) -> bool
    ensures { result ≡ echoes world.now.scene request.now }
{
    request.line && world.streams().has(echo_for(world, request))
}

/// The places of memory that the echo of a line uses, after those of its characters.
#[tactic(auto, using(crate::proofs::Lines::line_rules))]
fn echo_places(world: &World, request: &Request, line: &[u32], given: Places) -> Places
    requires given { given ≡ line_places request.now line.now }
    requires low { 0 < given.count → given.at + given.width * given.count ≤ ceiling }
    ensures value { result ≡ echo_places world.now.scene request.now line.now }
    ensures at { result.at < 2 ^ 40 }
    ensures width { result.width ≤ 4 }
    ensures count { result.count ≤ length (echoed world.now.scene request.now line.now) }
{
    if echoes(world, request) {
        world.places(echo_for(world, request), given.count + 1)
    } else {
        NO_PLACES
    }
}

/// Looks at all that a line would write for a request; answers the places of the echo stream.
#[tactic(auto, unfolding(crate::specs::Events::looked_at_line))]
fn looked_at_line<A: Allocator + Clone>(
    world: &World,
    state: &State<A>,
    room: u32,
    at: u32,
    request: &Request,
    line: &[u32],
) -> Result<Places, Fault>
    ensures value { Reads (λ _. tt) result
        (looked_at_line world.now.scene state.now.flat room at request.now line.now) }
    ensures places { IfOk result (λ places. places ≡ echo_places world.now.scene request.now line.now) }
    ensures low_echo { IfOk result (λ places. 0 < places.count → places.at < 2 ^ 32) }
    ensures few_echo { OnOk result ((echo_places world.now.scene request.now line.now).count ≤ length
        (echoed world.now.scene request.now line.now)) }
{
    let places = line_places(request, line);
    can_lay(state, places)?;
    can_give(state, at, 4)?;
    fitting(room, pushes(at, 4))?;
    let echo = echo_places(world, request, line, places);
    can_lay(state, echo)?;
    Ok(echo)
}

/// A character of a line in its buffer, as a word or as a byte.
fn in_buffer(wide: bool, c: u32) -> u32
    ensures { result ≡ (if wide then c else latin_of c) }
{
    if wide { c } else { u32::from(latin(c)) }
}

/// Adds characters as they are in a buffer.
fn push_in_buffer(out: &mut Numbers, wide: bool, chars: &[u32]) -> Result<(), AllocError>
    ensures { OnOk result (out.new ≡ out.old ++ map (λ c. if wide then c else latin_of c) chars.now) }
{
    for c in chars {
        out.push(in_buffer(wide, *c))?;
    }
    Ok(())
}

/// What is put to the window's echo stream.
fn echoed(world: &World, request: &Request, line: &[u32]) -> Result<Numbers, AllocError>
    ensures value { IfOk result (λ chars. chars ≡ echoed world.now.scene request.now line.now) }
    ensures memory { OnErr result (IsTrue (echoes world.now.scene request.now)) }
{
    let mut chars = Numbers::new(world.alloc());
    if !echoes(world, request) {
        return Ok(chars);
    }
    let count = line_length(request, line) as usize;
    push_in_buffer(&mut chars, request.wide, &line[..count])?;
    chars.push(LINE_FEED)?;
    Ok(chars)
}

/// The reply to a line, where the looks have found no fault and answered the places of the echo stream.
#[tactic(auto, unfolding(crate::specs::Events::met_grows))]
fn line_reply(
    world: &World,
    at: u32,
    request: &Request,
    line: &[u32],
    places: Places,
    chars: &[u32],
) -> Result<Reply, AllocError>
    requires echo { 0 < places.count → places.at < 2 ^ 32 }
    requires places { places ≡ echo_places world.now.scene request.now line.now }
    requires chars { chars.now ≡ echoed world.now.scene request.now line.now }
    requires count { places.count ≤ length chars.now }
    ensures value { IfOk result (λ reply. reply ≡ line_reply world.now.scene at request.now line.now) }
    ensures memory { OnErr result (IsTrue (met_grows world.now.scene at request.now line.now)) }
{
    let alloc = world.alloc();
    let mut reply = reply(alloc, 0);
    lay(alloc, &mut reply.writes, line_places(request, line), line)?;
    add_given(alloc, &mut reply, at, &event_of(request, line))?;
    lay(alloc, &mut reply.writes, places, chars)?;
    Ok(reply)
}

/// A line meets a request.
#[tactic(auto, using(crate::proofs::Lines::reply_rules), unfolding(crate::proofs::Opened::meeting))]
fn met<A: Allocator + Clone>(
    world: &mut World,
    state: &State<A>,
    room: u32,
    at: u32,
    request: &Request,
    line: &[u32],
) -> Result<Reply, Fault>
    ensures value { MakesCall (IsTrue (met_grows world.old.scene at request.now line.now)) result world.old world.new
        (met world.old.scene state.now.flat room at request.now line.now) }
    ensures fits { IfOk result (IsReply state.now.flat room) }
{
    let places = looked_at_line(world, state, room, at, request, line)?;
    let chars = echoed(world, request, line)?;
    let reply = line_reply(world, at, request, line, places, chars.as_slice())?;
    world.puts(echo_for(world, request), chars.as_slice())?;
    world.drop_request(request.win);
    world.line_taken();
    Ok(reply)
}

/// select goes on with a line, which meets the oldest request, whatever its window.
#[tactic(auto, unfolding(crate::specs::Events::select_goes_on, crate::specs::Events::select_goes_on_grow))]
pub fn select_goes_on<A: Allocator + Clone>(
    world: &mut World,
    state: &State<A>,
    room: u32,
    args: &[u32],
    line: &[u32],
) -> Result<Reply, Fault>
    ensures value { MakesCall (IsTrue (select_goes_on_grow world.old.scene state.now.flat args.now line.now)) result
        world.old world.new (select_goes_on world.old.scene state.now.flat room args.now line.now) }
    ensures fits { IfOk result (IsReply state.now.flat room) }
{
    match world.requests().oldest() {
        None => Err(Fault::BadGlk),
        Some(request) => met(world, state, room, arg(args, 0), &request, line),
    }
}

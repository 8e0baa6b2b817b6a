//! The calls of streams (Glk 0.7.5, "Streams"; specs/Streams).
ghost use Rattle.std.specs.Prelude.{◌≡◌, ℕ, ◌+◌, ◌==◌, ◌&&◌, not, if◌then◌else◌, Ok, is_some, length, map};
ghost use Rattle.std.specs.Prelude.{IfOk, IsTrue};
ghost use Rattle.gx_state.specs.Flat.{FlatState};
ghost use Rattle.gx_state.specs.Replies.{IsReply};
ghost use Rattle.glk_objects.specs.Objects.{met_from};
ghost use Rattle.glk_streams.specs.Stream as one;
ghost use Rattle.glk_streams.specs.Streams as streams;
ghost use Rattle.glk_world.specs.World.{after, silent, arg, MakesCall};
ghost use Rattle.glk_world.specs.Calls.{is_identifier, without_stream};
ghost use Rattle.glk_replies.specs.Turns.{IsTurnFor};
ghost use Rattle.glk_object_calls.specs.Streams.{stream_of, stream_iterate, stream_get_rock, memory_kind};
ghost use Rattle.glk_object_calls.specs.Streams.{stream_open_memory, close, file_to_store, stream_close};
ghost use Rattle.glk_object_calls.specs.Streams.{stream_set_position, stream_get_position, stream_set_current};
ghost use Rattle.glk_object_calls.specs.Streams.{stream_get_current};

use glk_replies::selectors::STREAM_CLOSE;
use glk_replies::{Turn, can_give_pair, give, reply};
use glk_streams::{READ, READ_WRITE, StreamKind, WRITE};
use glk_world::{World, arg};
use gx_state::{Reply, State};
use gx_words::Fault;
use std::alloc::Allocator;

/// The rock of a stream, 0 where there is none.
#[tactic(auto, using(crate::proofs::Absent::no_stream_there))]
fn rock_of(world: &World, id: u32) -> u32
    ensures { result ≡ (stream_of world.now.scene id).rock }
{
    if world.streams().has(id) {
        world.streams().rock(id)
    } else {
        0
    }
}

/// stream_iterate: the next stream, and its rock.
#[tactic(auto, unfolding(crate::specs::Streams::stream_iterate))]
pub fn stream_iterate<A: Allocator + Clone>(
    world: &World,
    state: &State<A>,
    room: u32,
    args: &[u32],
) -> Result<Reply, Fault>
    ensures value { MakesCall (IsTrue (not (arg args.now 1 == 0))) result world.now world.now
        (stream_iterate world.now.scene state.now.flat room args.now) }
    ensures fits { IfOk result (IsReply state.now.flat room) }

    // Iterating from 0 up to 0 meets each stream once, in order of creation.
    ensures each { (more : ℕ) → met_from streams.id_of (length world.now.scene.streams + more) world.now.scene.streams 0
        ≡ map streams.id_of world.now.scene.streams }
{
    let next = world.next_stream(arg(args, 0));
    let rock = rock_of(world, next);
    give(world.alloc(), state, room, next, arg(args, 1), &[rock])
}

/// stream_get_rock: what the story gave the stream when it was opened.
#[tactic(auto, unfolding(crate::specs::Streams::stream_get_rock))]
pub fn stream_get_rock(world: &World, args: &[u32]) -> Reply
    ensures value { MakesCall ⊥ (Ok result) world.now world.now (stream_get_rock world.now.scene args.now) }
    ensures fits { (f : FlatState) (room : ℕ) → IsReply f room result }
{
    reply(world.alloc(), rock_of(world, arg(args, 0)))
}

/// stream_open_memory, stream_open_memory_uni: a stream of bytes, or of words where `wide`.
#[tactic(auto, unfolding(crate::specs::Streams::stream_open_memory))]
pub fn stream_open_memory(world: &mut World, args: &[u32], wide: bool) -> Result<Reply, Fault>
    ensures value { MakesCall (IsTrue (one.allows_mode (memory_kind args.now wide) (arg args.now 2) && is_identifier
        world.old.scene.next_id)) result world.old world.new (stream_open_memory world.old.scene args.now wide) }
    ensures fits { (f : FlatState) (room : ℕ) → IfOk result (IsReply f room) }
{
    match arg(args, 2) {
        WRITE | READ | READ_WRITE => {
            let kind = StreamKind::Memory {
                at: arg(args, 0),
                len: arg(args, 1),
                wide,
            };
            let id = world.add_stream(kind, arg(args, 2), arg(args, 3))?;
            Ok(reply(world.alloc(), id))
        }
        _ => Ok(reply(world.alloc(), 0)),
    }
}

/// What stream_close does once the file is stored: gives the counts, and closes the stream.
#[tactic(auto, unfolding(crate::specs::Streams::close))]
pub fn close<A: Allocator + Clone>(
    world: &mut World,
    state: &State<A>,
    room: u32,
    args: &[u32],
) -> Result<Reply, Fault>
    requires { IsTrue (streams.has world.old.scene.streams (arg args.now 0)) }
    ensures value { MakesCall (IsTrue (not (arg args.now 1 == 0))) result world.old world.new
        (close world.old.scene state.now.flat room args.now) }
    ensures fits { IfOk result (IsReply state.now.flat room) }
{
    let id = arg(args, 0);
    let (read, written) = world.streams().counts(id);
    let reply = give(
        world.alloc(),
        state,
        room,
        0,
        arg(args, 1),
        &[read, written],
    )?;
    if world.streams().window(id) == 0 {
        world.remove_stream(id);
    }
    Ok(reply)
}

/// Whether a stream is a file that has to be stored.
fn is_stored(world: &World, id: u32) -> bool
    requires { IsTrue (streams.has world.now.scene.streams id) }
    ensures { result ≡ is_some (file_to_store world.now.scene id) }
{
    world.streams().writable(id) && world.streams().file(id).is_some()
}

/// stream_close: a file that is open for writing is taken out of its stream and stored first.
#[tactic(auto, unfolding(crate::specs::Streams::stream_close))]
pub fn stream_close<A: Allocator + Clone>(
    world: &mut World,
    state: &State<A>,
    room: u32,
    args: &[u32],
) -> Result<Turn, Fault>
    requires { IsTrue (streams.has world.old.scene.streams (arg args.now 0)) }
    ensures value { MakesCall
        (IsTrue (not (arg args.now 1 == 0) && not (is_some (file_to_store world.old.scene (arg args.now 0))))) result
        world.old world.new (stream_close world.old.scene state.now.flat room args.now) }
    ensures fits { IfOk result (IsTurnFor state.now.flat room) }
{
    let id = arg(args, 0);
    if !is_stored(world, id) {
        return close(world, state, room, args).map(Turn::Answer);
    }
    can_give_pair(state, room, arg(args, 1))?;
    let (name, content) = world.take_file(id);
    world.wait(STREAM_CLOSE, args);
    Ok(Turn::Store(name, content))
}

/// stream_set_position: a signed number from the start, the position or the end.
#[tactic(auto, unfolding(crate::specs::Streams::stream_set_position))]
pub fn stream_set_position(world: &mut World, args: &[u32]) -> Result<Reply, Fault>
    requires { IsTrue (streams.has world.old.scene.streams (arg args.now 0)) }
    ensures value { MakesCall ⊥ result world.old world.new (stream_set_position world.old.scene args.now) }
    ensures fits { (f : FlatState) (room : ℕ) → IfOk result (IsReply f room) }
{
    world.set_position(arg(args, 0), arg(args, 1), arg(args, 2));
    Ok(reply(world.alloc(), 0))
}

/// stream_get_position: in characters from the start.
#[tactic(auto, unfolding(crate::specs::Streams::stream_get_position))]
pub fn stream_get_position(world: &World, args: &[u32]) -> Reply
    requires { IsTrue (streams.has world.now.scene.streams (arg args.now 0)) }
    ensures value { MakesCall ⊥ (Ok result) world.now world.now (stream_get_position world.now.scene args.now) }
    ensures fits { (f : FlatState) (room : ℕ) → IsReply f room result }
{
    reply(world.alloc(), world.streams().position(arg(args, 0)))
}

/// stream_set_current: 0 for none.
#[tactic(auto, unfolding(crate::specs::Streams::stream_set_current))]
pub fn stream_set_current(world: &mut World, args: &[u32]) -> Result<Reply, Fault>
    ensures value { MakesCall ⊥ result world.old world.new (stream_set_current world.old.scene args.now) }
    ensures fits { (f : FlatState) (room : ℕ) → IfOk result (IsReply f room) }
{
    world.set_current(arg(args, 0));
    Ok(reply(world.alloc(), 0))
}

/// stream_get_current: 0 for none.
#[tactic(auto, unfolding(crate::specs::Streams::stream_get_current))]
pub fn stream_get_current(world: &World) -> Reply
    ensures value { MakesCall ⊥ (Ok result) world.now world.now (stream_get_current world.now.scene) }
    ensures fits { (f : FlatState) (room : ℕ) → IsReply f room result }
{
    reply(world.alloc(), world.current())
}

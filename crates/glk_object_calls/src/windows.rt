//! The calls of windows (Glk 0.7.5, "Windows"; specs/Windows).
ghost use Rattle.std.specs.Prelude.{◌≡◌, ℕ, ◌+◌, ◌==◌, ◌⊎◌, ◌||◌, not, if◌then◌else◌, length, map, Ok, IfOk, IsTrue};
ghost use Rattle.gx_state.specs.Flat.{FlatState};
ghost use Rattle.gx_state.specs.Replies.{IsReply};
ghost use Rattle.glk_objects.specs.Objects.{met_from};
ghost use Rattle.glk_streams.specs.Streams as streams;
ghost use Rattle.glk_windows.specs.Windows.{entry_id, is_window, parent};
ghost use Rattle.glk_windows.specs.Changes.{closing_grows, arranging_grows};
ghost use Rattle.glk_world.specs.Calls.{can_open};
ghost use Rattle.glk_world.specs.World.{arg, MakesCall};
ghost use Rattle.glk_object_calls.specs.Windows.{first_window, pair_at, window_open, window_close};
ghost use Rattle.glk_object_calls.specs.Windows.{window_get_size, window_set_arrangement, window_get_arrangement};
ghost use Rattle.glk_object_calls.specs.Windows.{window_move_cursor, window_set_echo_stream, window_get_echo_stream};
ghost use Rattle.glk_object_calls.specs.Windows.{window_iterate, window_get_rock, window_get_type, window_get_parent};
ghost use Rattle.glk_object_calls.specs.Windows.{window_get_sibling, window_get_root, window_clear, window_get_stream};
ghost use Rattle.glk_object_calls.specs.Windows.{set_window};

use glk_replies::{can_give_pair, give, give_each, reply};
use glk_windows::{Entry, Pair, Windows};
use glk_world::{World, arg};
use gx_state::{Reply, State};
use gx_words::Fault;
use std::alloc::Allocator;

/// What stands for a pair window that isn't there.
const NO_PAIR: Pair = Pair {
    first: 0,
    second: 0,
    method: 0,
    size: 0,
    key: 0,
};

/// The window of the first argument.
fn first_window(world: &World, args: &[u32]) -> Entry
    ensures { result ≡ first_window world.now.scene args.now }
{
    world.windows().entry_at(arg(args, 0))
}

/// A pair window by its identifier.
fn pair_at(windows: &Windows, win: u32) -> Pair
    ensures { result ≡ pair_at windows.now win }
{
    windows.pair(win).unwrap_or(NO_PAIR)
}

/// window_open: opens a window, where the rules of windows allow it.
#[tactic(auto, unfolding(crate::specs::Windows::window_open))]
pub fn window_open(world: &mut World, args: &[u32]) -> Result<Reply, Fault>
    requires { arg args.now 0 ≡ 0 ⊎ IsTrue (is_window world.old.scene.windows (arg args.now 0)) }
    ensures value { MakesCall (IsTrue (can_open world.old.scene (arg args.now 0) (arg args.now 1) (arg args.now 3)))
        result world.old world.new (window_open world.old.scene args.now) }
    ensures fits { (f : FlatState) (room : ℕ) → IfOk result (IsReply f room) }
{
    let id = world.add_window(
        arg(args, 0),
        arg(args, 1),
        arg(args, 2),
        arg(args, 3),
        arg(args, 4),
    )?;
    Ok(reply(world.alloc(), id))
}

/// window_close: closes a window and gives the counts of its stream.
#[tactic(auto, unfolding(crate::specs::Windows::window_close))]
pub fn window_close<A: Allocator + Clone>(
    world: &mut World,
    state: &State<A>,
    room: u32,
    args: &[u32],
) -> Result<Reply, Fault>
    requires { IsTrue (is_window world.old.scene.windows (arg args.now 0)) }
    ensures value { MakesCall
        (IsTrue (closing_grows world.old.scene.windows (arg args.now 0) || not (arg args.now 1 == 0)))
        result world.old world.new (window_close world.old.scene state.now.flat room args.now) }
    ensures fits { IfOk result (IsReply state.now.flat room) }
{
    let at = arg(args, 1);
    can_give_pair(state, room, at)?;
    let (read, written) = world.remove_window(arg(args, 0))?;
    give(world.alloc(), state, room, 0, at, &[read, written])
}

/// window_get_size: the columns and rows of a window with text.
#[tactic(auto, unfolding(crate::specs::Windows::window_get_size))]
pub fn window_get_size<A: Allocator + Clone>(
    world: &World,
    state: &State<A>,
    room: u32,
    args: &[u32],
) -> Result<Reply, Fault>
    ensures value { MakesCall (IsTrue (not (arg args.now 1 == 0) || not (arg args.now 2 == 0))) result world.now
        world.now (window_get_size world.now.scene state.now.flat room args.now) }
    ensures fits { IfOk result (IsReply state.now.flat room) }
{
    let (columns, rows) = world.windows().text_size(arg(args, 0));
    give_each(
        world.alloc(),
        state,
        room,
        0,
        &[arg(args, 1), arg(args, 2)],
        &[columns, rows],
    )
}

/// window_set_arrangement: gives a pair window another method, size and key, where the rules of windows allow it.
#[tactic(auto, unfolding(crate::specs::Windows::window_set_arrangement))]
pub fn window_set_arrangement(world: &mut World, args: &[u32]) -> Result<Reply, Fault>
    ensures value { MakesCall (IsTrue (arranging_grows world.old.scene.windows (arg args.now 0) (arg args.now 1)
        (arg args.now 2) (arg args.now 3))) result world.old world.new
        (window_set_arrangement world.old.scene args.now) }
    ensures fits { (f : FlatState) (room : ℕ) → IfOk result (IsReply f room) }
{
    world.arrange(arg(args, 0), arg(args, 1), arg(args, 2), arg(args, 3))?;
    Ok(reply(world.alloc(), 0))
}

/// window_get_arrangement: the method, the size and the key of a pair window.
#[tactic(auto, unfolding(crate::specs::Windows::window_get_arrangement))]
pub fn window_get_arrangement<A: Allocator + Clone>(
    world: &World,
    state: &State<A>,
    room: u32,
    args: &[u32],
) -> Result<Reply, Fault>
    ensures value { MakesCall (IsTrue (not (arg args.now 1 == 0) || not (arg args.now 2 == 0) || not
        (arg args.now 3 == 0)))
        result world.now world.now (window_get_arrangement world.now.scene state.now.flat room args.now) }
    ensures fits { IfOk result (IsReply state.now.flat room) }
{
    let pair = pair_at(world.windows(), arg(args, 0));
    give_each(
        world.alloc(),
        state,
        room,
        0,
        &[arg(args, 1), arg(args, 2), arg(args, 3)],
        &[pair.method, pair.size, pair.key],
    )
}

/// window_move_cursor: moves the cursor of a grid.
#[tactic(auto, unfolding(crate::specs::Windows::window_move_cursor))]
pub fn window_move_cursor(world: &mut World, args: &[u32]) -> Result<Reply, Fault>
    ensures value { MakesCall ⊥ result world.old world.new (window_move_cursor world.old.scene args.now) }
    ensures fits { (f : FlatState) (room : ℕ) → IfOk result (IsReply f room) }
{
    world.move_cursor(arg(args, 0), arg(args, 1), arg(args, 2));
    Ok(reply(world.alloc(), 0))
}

/// window_set_echo_stream: 0 for none; nothing changes where it would lead back to the window.
#[tactic(auto, unfolding(crate::specs::Windows::window_set_echo_stream))]
pub fn window_set_echo_stream(world: &mut World, args: &[u32]) -> Result<Reply, Fault>
    requires window { IsTrue (is_window world.old.scene.windows (arg args.now 0)) }
    requires echo { arg args.now 1 ≡ 0 ⊎ IsTrue (streams.has world.old.scene.streams (arg args.now 1)) }
    ensures value { MakesCall ⊥ result world.old world.new (window_set_echo_stream world.old.scene args.now) }
    ensures fits { (f : FlatState) (room : ℕ) → IfOk result (IsReply f room) }
{
    world.set_echo(arg(args, 0), arg(args, 1));
    Ok(reply(world.alloc(), 0))
}

/// window_get_echo_stream: 0 for none.
#[tactic(auto, unfolding(crate::specs::Windows::window_get_echo_stream))]
pub fn window_get_echo_stream(world: &World, args: &[u32]) -> Reply
    ensures value { MakesCall ⊥ (Ok result) world.now world.now (window_get_echo_stream world.now.scene args.now) }
    ensures fits { (f : FlatState) (room : ℕ) → IsReply f room result }
{
    reply(world.alloc(), first_window(world, args).echo)
}

/// window_iterate: the next window, and its rock.
#[tactic(auto, unfolding(crate::specs::Windows::window_iterate))]
pub fn window_iterate<A: Allocator + Clone>(
    world: &World,
    state: &State<A>,
    room: u32,
    args: &[u32],
) -> Result<Reply, Fault>
    ensures value { MakesCall (IsTrue (not (arg args.now 1 == 0))) result world.now world.now
        (window_iterate world.now.scene state.now.flat room args.now) }
    ensures fits { IfOk result (IsReply state.now.flat room) }

    // Iterating from 0 up to 0 meets each window once, in order of creation.
    ensures each { (more : ℕ)
        → met_from entry_id (length world.now.scene.windows.entries + more) world.now.scene.windows.entries 0
        ≡ map entry_id world.now.scene.windows.entries }
{
    let win = world.next_window(arg(args, 0));
    let rock = world.windows().entry_at(win).rock;
    give(world.alloc(), state, room, win, arg(args, 1), &[rock])
}

/// window_get_rock: what the story gave the window when it was opened.
#[tactic(auto, unfolding(crate::specs::Windows::window_get_rock))]
pub fn window_get_rock(world: &World, args: &[u32]) -> Reply
    ensures value { MakesCall ⊥ (Ok result) world.now world.now (window_get_rock world.now.scene args.now) }
    ensures fits { (f : FlatState) (room : ℕ) → IsReply f room result }
{
    reply(world.alloc(), first_window(world, args).rock)
}

/// window_get_type: wintype_Pair and others.
#[tactic(auto, unfolding(crate::specs::Windows::window_get_type))]
pub fn window_get_type(world: &World, args: &[u32]) -> Reply
    ensures value { MakesCall ⊥ (Ok result) world.now world.now (window_get_type world.now.scene args.now) }
    ensures fits { (f : FlatState) (room : ℕ) → IsReply f room result }
{
    reply(world.alloc(), first_window(world, args).kind)
}

/// The pair above a window, 0 for none.
fn parent(windows: &Windows, win: u32) -> u32
    requires { IsTrue (is_window windows.now win) }
    ensures { result ≡ parent windows.now win }
{
    match windows.window(win) {
        None => 0,
        Some(window) => window.parent,
    }
}

/// window_get_parent: the pair above the window, 0 for none.
#[tactic(auto, unfolding(crate::specs::Windows::window_get_parent))]
pub fn window_get_parent(world: &World, args: &[u32]) -> Reply
    requires { IsTrue (is_window world.now.scene.windows (arg args.now 0)) }
    ensures value { MakesCall ⊥ (Ok result) world.now world.now (window_get_parent world.now.scene args.now) }
    ensures fits { (f : FlatState) (room : ℕ) → IsReply f room result }
{
    reply(world.alloc(), parent(world.windows(), arg(args, 0)))
}

/// window_get_sibling: the other child of the pair above the window, 0 for none.
#[tactic(auto, unfolding(crate::specs::Windows::window_get_sibling))]
pub fn window_get_sibling(world: &World, args: &[u32]) -> Reply
    requires { IsTrue (is_window world.now.scene.windows (arg args.now 0)) }
    ensures value { MakesCall ⊥ (Ok result) world.now world.now (window_get_sibling world.now.scene args.now) }
    ensures fits { (f : FlatState) (room : ℕ) → IsReply f room result }
{
    let win = arg(args, 0);
    let above = pair_at(world.windows(), parent(world.windows(), win));
    if above.first == win {
        reply(world.alloc(), above.second)
    } else {
        reply(world.alloc(), above.first)
    }
}

/// window_get_root: 0 where there is no window.
#[tactic(auto, unfolding(crate::specs::Windows::window_get_root))]
pub fn window_get_root(world: &World) -> Reply
    ensures value { MakesCall ⊥ (Ok result) world.now world.now (window_get_root world.now.scene) }
    ensures fits { (f : FlatState) (room : ℕ) → IsReply f room result }
{
    reply(world.alloc(), world.windows().root())
}

/// window_clear: blanks a grid, or the text of a text buffer on the composed screen.
#[tactic(auto, unfolding(crate::specs::Windows::window_clear))]
pub fn window_clear(world: &mut World, args: &[u32]) -> Result<Reply, Fault>
    ensures value { MakesCall ⊥ result world.old world.new (window_clear world.old.scene args.now) }
    ensures fits { (f : FlatState) (room : ℕ) → IfOk result (IsReply f room) }
{
    world.clear_window(arg(args, 0));
    Ok(reply(world.alloc(), 0))
}

/// window_get_stream: the stream that the window was opened with.
#[tactic(auto, unfolding(crate::specs::Windows::window_get_stream))]
pub fn window_get_stream(world: &World, args: &[u32]) -> Reply
    ensures value { MakesCall ⊥ (Ok result) world.now world.now (window_get_stream world.now.scene args.now) }
    ensures fits { (f : FlatState) (room : ℕ) → IsReply f room result }
{
    reply(world.alloc(), first_window(world, args).stream)
}

/// set_window: the current stream becomes the window's; with window 0 there is none.
#[tactic(auto, unfolding(crate::specs::Windows::set_window))]
pub fn set_window(world: &mut World, args: &[u32]) -> Result<Reply, Fault>
    ensures value { MakesCall ⊥ result world.old world.new (set_window world.old.scene args.now) }
    ensures fits { (f : FlatState) (room : ℕ) → IfOk result (IsReply f room) }
{
    let stream = first_window(world, args).stream;
    world.set_current(stream);
    Ok(reply(world.alloc(), 0))
}

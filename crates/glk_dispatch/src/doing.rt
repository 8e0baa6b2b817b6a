//! What the rows of the table do (specs/Table): a line a call, in the order of the table.
//!
//! `do_call` has those that take a turn; those that answer at once stand in the lists of the table, a function each.
ghost use Rattle.std.specs.Prelude.{◌≡◌, ℕ, false, Ok, IfOk, IsTrue};
ghost use Rattle.gx_state.specs.Flat.{FlatState};
ghost use Rattle.gx_state.specs.Replies.{IsReply};
ghost use Rattle.glk_world.specs.World.{MakesCall};
ghost use Rattle.glk_replies.specs.Turns.{IsTurnFor};
ghost use Rattle.glk_object_calls.specs.Answers.{tells};
ghost use Rattle.glk_dispatch.specs.Table.{row_for};
ghost use Rattle.glk_dispatch.specs.Calls.{answer_turn};
ghost use Rattle.glk_dispatch.specs.Ready.{IsReadyBy, takes_turn, answer_by, done_by, wants_by, arranging_row};
ghost use Rattle.glk_dispatch.specs.Ready.{window_call_row, stream_row, reference_row, output_row, input_row};
ghost use Rattle.glk_dispatch.specs.Ready.{event_row};
ghost use Rattle.glk_dispatch.specs.Ready.{unicode_output_row, unicode_input_row};

use glk_event_calls::events::{
    cancel_char_event, cancel_line_event, request_char_event, request_line_event, select,
    select_poll,
};
use glk_object_calls::gestalts::{gestalt, gestalt_ext};
use glk_object_calls::references::{
    fileref_create_by_name, fileref_create_by_prompt, fileref_create_from_fileref,
    fileref_create_temp, fileref_delete_file, fileref_destroy, fileref_does_file_exist,
    fileref_get_rock, fileref_iterate, stream_open_file,
};
use glk_object_calls::streams::{
    stream_close, stream_get_current, stream_get_position, stream_get_rock, stream_iterate,
    stream_open_memory, stream_set_current, stream_set_position,
};
use glk_object_calls::windows::{
    set_window, window_clear, window_close, window_get_arrangement, window_get_echo_stream,
    window_get_parent, window_get_rock, window_get_root, window_get_sibling, window_get_size,
    window_get_stream, window_get_type, window_iterate, window_move_cursor, window_open,
    window_set_arrangement, window_set_echo_stream,
};
use glk_replies::selectors::*;
use glk_replies::{Turn, reply};
use glk_text_calls::characters::{Case, buffer_to_case, char_to_case, rest_of};
use glk_text_calls::input::{get_buffer, get_char, get_line};
use glk_text_calls::output::{put_buffer, put_char, put_string};
use glk_world::{World, arg};
use gx_state::{Reply, State};
use gx_words::Fault;
use std::alloc::Allocator;

/// A call that only answers 0.
fn idle(world: &World) -> Reply
    ensures value { MakesCall ⊥ (Ok result) world.now world.now (tells world.now.scene 0) }
    ensures fits { (f : FlatState) (room : ℕ) → IsReply f room result }
{
    reply(world.alloc(), 0)
}

/// The calls of the program, of what the library can do, and of windows as they are made and arranged.
fn arranging_call<A: Allocator + Clone>(
    selector: u32,
    world: &mut World,
    state: &State<A>,
    room: u32,
    args: &[u32],
) -> Result<Reply, Fault>
    requires { IsReadyBy (arranging_row selector) world.old.scene args.now }
    ensures value { MakesCall (IsTrue (wants_by (arranging_row selector) world.old.scene state.now.flat args.now))
        result world.old world.new (answer_by (arranging_row selector) world.old.scene state.now.flat room args.now) }
    ensures fits { IfOk result (IsReply state.now.flat room) }
{
    match selector {
        TICK => Ok(idle(world)),
        GESTALT => Ok(gestalt(world, args)),
        GESTALT_EXT => gestalt_ext(world, state, args),
        WINDOW_ITERATE => window_iterate(world, state, room, args),
        WINDOW_GET_ROCK => Ok(window_get_rock(world, args)),
        WINDOW_GET_ROOT => Ok(window_get_root(world)),
        WINDOW_OPEN => window_open(world, args),
        WINDOW_CLOSE => window_close(world, state, room, args),
        WINDOW_GET_SIZE => window_get_size(world, state, room, args),
        WINDOW_SET_ARRANGEMENT => window_set_arrangement(world, args),
        WINDOW_GET_ARRANGEMENT => window_get_arrangement(world, state, room, args),
        _ => Err(Fault::BadGlk),
    }
}

/// The calls of what a window has.
fn window_call<A: Allocator + Clone>(
    selector: u32,
    world: &mut World,
    state: &State<A>,
    room: u32,
    args: &[u32],
) -> Result<Reply, Fault>
    requires { IsReadyBy (window_call_row selector) world.old.scene args.now }
    ensures value { MakesCall (IsTrue (wants_by (window_call_row selector) world.old.scene state.now.flat args.now))
        result world.old world.new (answer_by (window_call_row selector) world.old.scene state.now.flat room args.now) }
    ensures fits { IfOk result (IsReply state.now.flat room) }
{
    match selector {
        WINDOW_GET_TYPE => Ok(window_get_type(world, args)),
        WINDOW_GET_PARENT => Ok(window_get_parent(world, args)),
        WINDOW_CLEAR => window_clear(world, args),
        WINDOW_MOVE_CURSOR => window_move_cursor(world, args),
        WINDOW_GET_STREAM => Ok(window_get_stream(world, args)),
        WINDOW_SET_ECHO_STREAM => window_set_echo_stream(world, args),
        WINDOW_GET_ECHO_STREAM => Ok(window_get_echo_stream(world, args)),
        SET_WINDOW => set_window(world, args),
        WINDOW_GET_SIBLING => Ok(window_get_sibling(world, args)),
        _ => Err(Fault::BadGlk),
    }
}

/// The calls of streams.
fn stream_call<A: Allocator + Clone>(
    selector: u32,
    world: &mut World,
    state: &State<A>,
    room: u32,
    args: &[u32],
) -> Result<Reply, Fault>
    requires { IsReadyBy (stream_row selector) world.old.scene args.now }
    ensures value { MakesCall (IsTrue (wants_by (stream_row selector) world.old.scene state.now.flat args.now))
        result world.old world.new (answer_by (stream_row selector) world.old.scene state.now.flat room args.now) }
    ensures fits { IfOk result (IsReply state.now.flat room) }
{
    match selector {
        STREAM_ITERATE => stream_iterate(world, state, room, args),
        STREAM_GET_ROCK => Ok(stream_get_rock(world, args)),
        STREAM_OPEN_MEMORY => stream_open_memory(world, args, false),
        STREAM_SET_POSITION => stream_set_position(world, args),
        STREAM_GET_POSITION => Ok(stream_get_position(world, args)),
        STREAM_SET_CURRENT => stream_set_current(world, args),
        STREAM_GET_CURRENT => Ok(stream_get_current(world)),
        _ => Err(Fault::BadGlk),
    }
}

/// The calls of file references.
fn reference_call<A: Allocator + Clone>(
    selector: u32,
    world: &mut World,
    state: &State<A>,
    room: u32,
    args: &[u32],
) -> Result<Reply, Fault>
    requires { IsReadyBy (reference_row selector) world.old.scene args.now }
    ensures value { MakesCall (IsTrue (wants_by (reference_row selector) world.old.scene state.now.flat args.now))
        result world.old world.new (answer_by (reference_row selector) world.old.scene state.now.flat room args.now) }
    ensures fits { IfOk result (IsReply state.now.flat room) }
{
    match selector {
        FILEREF_CREATE_TEMP => fileref_create_temp(world, args),
        FILEREF_CREATE_BY_NAME => fileref_create_by_name(world, state, args),
        FILEREF_DESTROY => fileref_destroy(world, args),
        FILEREF_ITERATE => fileref_iterate(world, state, room, args),
        FILEREF_GET_ROCK => Ok(fileref_get_rock(world, args)),
        FILEREF_CREATE_FROM_FILEREF => fileref_create_from_fileref(world, args),
        _ => Err(Fault::BadGlk),
    }
}

/// The calls of output.
fn output_call<A: Allocator + Clone>(
    selector: u32,
    world: &mut World,
    state: &State<A>,
    room: u32,
    args: &[u32],
) -> Result<Reply, Fault>
    requires { IsReadyBy (output_row selector) world.old.scene args.now }
    ensures value { MakesCall (IsTrue (wants_by (output_row selector) world.old.scene state.now.flat args.now))
        result world.old world.new (answer_by (output_row selector) world.old.scene state.now.flat room args.now) }
    ensures fits { IfOk result (IsReply state.now.flat room) }
{
    let current = world.current();
    let first = arg(args, 0);
    let second = arg(args, 1);
    match selector {
        PUT_CHAR => put_char(world, state, current, 1, first),
        PUT_CHAR_STREAM => put_char(world, state, first, 1, second),
        PUT_STRING => put_string(world, state, current, 1, first),
        PUT_STRING_STREAM => put_string(world, state, first, 1, second),
        PUT_BUFFER => put_buffer(world, state, current, 1, first, second),
        PUT_BUFFER_STREAM => put_buffer(world, state, first, 1, second, arg(args, 2)),
        SET_STYLE | SET_STYLE_STREAM => Ok(idle(world)),
        _ => Err(Fault::BadGlk),
    }
}

/// The calls of input, the case of characters, styles.
fn input_call<A: Allocator + Clone>(
    selector: u32,
    world: &mut World,
    state: &State<A>,
    room: u32,
    args: &[u32],
) -> Result<Reply, Fault>
    requires { IsReadyBy (input_row selector) world.old.scene args.now }
    ensures value { MakesCall (IsTrue (wants_by (input_row selector) world.old.scene state.now.flat args.now))
        result world.old world.new (answer_by (input_row selector) world.old.scene state.now.flat room args.now) }
    ensures fits { IfOk result (IsReply state.now.flat room) }
{
    match selector {
        GET_CHAR_STREAM => get_char(world, state, 1, args),
        GET_LINE_STREAM => get_line(world, state, 1, args),
        GET_BUFFER_STREAM => get_buffer(world, state, 1, args),
        CHAR_TO_LOWER => char_to_case(world, Case::Lower, args),
        CHAR_TO_UPPER => char_to_case(world, Case::Upper, args),
        STYLEHINT_SET | STYLEHINT_CLEAR | STYLE_DISTINGUISH | STYLE_MEASURE => Ok(idle(world)),
        _ => Err(Fault::BadGlk),
    }
}

/// The calls of events.
fn event_call<A: Allocator + Clone>(
    selector: u32,
    world: &mut World,
    state: &State<A>,
    room: u32,
    args: &[u32],
) -> Result<Reply, Fault>
    requires { IsReadyBy (event_row selector) world.old.scene args.now }
    ensures value { MakesCall (IsTrue (wants_by (event_row selector) world.old.scene state.now.flat args.now))
        result world.old world.new (answer_by (event_row selector) world.old.scene state.now.flat room args.now) }
    ensures fits { IfOk result (IsReply state.now.flat room) }
{
    match selector {
        SELECT_POLL => select_poll(world, state, room, args),
        REQUEST_LINE_EVENT => request_line_event(world, false, args),
        CANCEL_LINE_EVENT => cancel_line_event(world, state, room, args),
        REQUEST_CHAR_EVENT => request_char_event(world, false, args),
        CANCEL_CHAR_EVENT => cancel_char_event(world, args),
        _ => Err(Fault::BadGlk),
    }
}

/// The calls of Unicode of the case of characters, and of output.
fn unicode_output_call<A: Allocator + Clone>(
    selector: u32,
    world: &mut World,
    state: &State<A>,
    room: u32,
    args: &[u32],
) -> Result<Reply, Fault>
    requires { IsReadyBy (unicode_output_row selector) world.old.scene args.now }
    ensures value { MakesCall (IsTrue (wants_by (unicode_output_row selector) world.old.scene state.now.flat args.now))
        result world.old world.new
        (answer_by (unicode_output_row selector) world.old.scene state.now.flat room args.now) }
    ensures fits { IfOk result (IsReply state.now.flat room) }
{
    let current = world.current();
    let first = arg(args, 0);
    let second = arg(args, 1);
    match selector {
        BUFFER_TO_LOWER_CASE_UNI => buffer_to_case(world, state, Case::Lower, Case::Lower, args),
        BUFFER_TO_UPPER_CASE_UNI => buffer_to_case(world, state, Case::Upper, Case::Upper, args),
        BUFFER_TO_TITLE_CASE_UNI => buffer_to_case(world, state, Case::Upper, rest_of(args), args),
        PUT_CHAR_UNI => put_char(world, state, current, 4, first),
        PUT_STRING_UNI => put_string(world, state, current, 4, first),
        PUT_BUFFER_UNI => put_buffer(world, state, current, 4, first, second),
        PUT_CHAR_STREAM_UNI => put_char(world, state, first, 4, second),
        PUT_STRING_STREAM_UNI => put_string(world, state, first, 4, second),
        PUT_BUFFER_STREAM_UNI => put_buffer(world, state, first, 4, second, arg(args, 2)),
        _ => Err(Fault::BadGlk),
    }
}

/// The calls of Unicode of input, streams and events, and of the echo of line input.
fn unicode_input_call<A: Allocator + Clone>(
    selector: u32,
    world: &mut World,
    state: &State<A>,
    room: u32,
    args: &[u32],
) -> Result<Reply, Fault>
    requires { IsReadyBy (unicode_input_row selector) world.old.scene args.now }
    ensures value { MakesCall (IsTrue (wants_by (unicode_input_row selector) world.old.scene state.now.flat args.now))
        result world.old world.new
        (answer_by (unicode_input_row selector) world.old.scene state.now.flat room args.now) }
    ensures fits { IfOk result (IsReply state.now.flat room) }
{
    match selector {
        GET_CHAR_STREAM_UNI => get_char(world, state, 4, args),
        GET_BUFFER_STREAM_UNI => get_buffer(world, state, 4, args),
        GET_LINE_STREAM_UNI => get_line(world, state, 4, args),
        STREAM_OPEN_MEMORY_UNI => stream_open_memory(world, args, true),
        REQUEST_CHAR_EVENT_UNI => request_char_event(world, true, args),
        REQUEST_LINE_EVENT_UNI => request_line_event(world, true, args),
        SET_ECHO_LINE_EVENT => Ok(idle(world)),
        _ => Err(Fault::BadGlk),
    }
}

/// The call of a selector that answers at once.
fn answer_call<A: Allocator + Clone>(
    selector: u32,
    world: &mut World,
    state: &State<A>,
    room: u32,
    args: &[u32],
) -> Result<Reply, Fault>
    requires at_once { takes_turn selector ≡ false }
    requires ready { IsReadyBy (row_for selector) world.old.scene args.now }
    ensures value { MakesCall (IsTrue (wants_by (row_for selector) world.old.scene state.now.flat args.now)) result
        world.old world.new (answer_by (row_for selector) world.old.scene state.now.flat room args.now) }
    ensures fits { IfOk result (IsReply state.now.flat room) }
{
    if selector < WINDOW_GET_TYPE {
        arranging_call(selector, world, state, room, args)
    } else if selector < STREAM_ITERATE {
        window_call(selector, world, state, room, args)
    } else if selector < FILEREF_CREATE_TEMP {
        stream_call(selector, world, state, room, args)
    } else if selector < PUT_CHAR {
        reference_call(selector, world, state, room, args)
    } else if selector < GET_CHAR_STREAM {
        output_call(selector, world, state, room, args)
    } else if selector < SELECT {
        input_call(selector, world, state, room, args)
    } else if selector < BUFFER_TO_LOWER_CASE_UNI {
        event_call(selector, world, state, room, args)
    } else if selector < GET_CHAR_STREAM_UNI {
        unicode_output_call(selector, world, state, room, args)
    } else {
        unicode_input_call(selector, world, state, room, args)
    }
}

/// An answer as a turn.
pub fn answer_turn(answer: Result<Reply, Fault>) -> Result<Turn, Fault>
    ensures { result ≡ answer_turn answer }
{
    Ok(Turn::Answer(answer?))
}

/// Does what the row of a selector says: it takes a turn, or answers at once.
pub fn do_call<A: Allocator + Clone>(
    selector: u32,
    world: &mut World,
    state: &State<A>,
    room: u32,
    args: &[u32],
) -> Result<Turn, Fault>
    requires { IsReadyBy (row_for selector) world.old.scene args.now }
    ensures value { MakesCall (IsTrue (wants_by (row_for selector) world.old.scene state.now.flat args.now)) result
        world.old world.new (done_by (row_for selector) world.old.scene state.now.flat room args.now) }
    ensures fits { IfOk result (IsTurnFor state.now.flat room) }
{
    match selector {
        EXIT => Ok(Turn::Exit),
        STREAM_OPEN_FILE => stream_open_file(world, STREAM_OPEN_FILE, args),
        STREAM_CLOSE => stream_close(world, state, room, args),
        FILEREF_CREATE_BY_PROMPT => fileref_create_by_prompt(world, args),
        FILEREF_DELETE_FILE => fileref_delete_file(world, args),
        FILEREF_DOES_FILE_EXIST => fileref_does_file_exist(world, args),
        SELECT => select(world, state, room, args),
        STREAM_OPEN_FILE_UNI => stream_open_file(world, STREAM_OPEN_FILE_UNI, args),
        _ => answer_turn(answer_call(selector, world, state, room, args)),
    }
}

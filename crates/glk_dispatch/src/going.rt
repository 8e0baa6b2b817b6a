//! A call that waited goes on with what it was given (specs/Going): always to an answer.
ghost use Rattle.std.specs.Prelude.{◌≡◌, ◌==◌, ◌&&◌, if◌then◌else◌, IfOk, IsTrue};
ghost use Rattle.gx_state.specs.Replies.{IsReply};
ghost use Rattle.glk_world.specs.Kept.{flat_call};
ghost use Rattle.glk_world.specs.World.{MakesCall};
ghost use Rattle.glk_replies.specs.Turns.{IsTurnFor, IsAnswered};
ghost use Rattle.glk_dispatch.specs.Turns.{IsAwaited, Awaits, IsOfFile, Looked, MeetsNoFault};
ghost use Rattle.glk_dispatch.specs.Going.{resumed, resumed_grow, glk_go_on, go_grows};
ghost use Rattle.glk_replies.specs.Numbers as selectors;
ghost use Rattle.glk_replies.specs.declared.Given.TheVariants as given;

use glk_event_calls::events::select_goes_on;
use glk_object_calls::references::{open_goes_on, prompt_goes_on};
use glk_object_calls::streams::close;
use glk_replies::selectors::{FILEREF_DOES_FILE_EXIST, SELECT};
use glk_replies::{Given, Turn, reply};
use glk_world::{Waiting, World};
use gx_state::{Reply, State};
use gx_words::Fault;
use std::alloc::Allocator;

/// A line for the call that waits for an event, or for a prompt.
fn with_line<A: Allocator + Clone>(
    world: &mut World,
    state: &State<A>,
    room: u32,
    call: &Waiting,
    line: &[u32],
) -> Result<Reply, Fault>
    requires { IsAwaited world.old.scene (flat_call call.now) (given.Line line.now) }
    ensures value { MakesCall
        (IsTrue (resumed_grow world.old.scene state.now.flat (flat_call call.now) (given.Line line.now))) result
        world.old world.new (resumed world.old.scene state.now.flat room (flat_call call.now) (given.Line line.now)) }
    ensures fits { IfOk result (IsReply state.now.flat room) }
{
    if call.selector == SELECT {
        select_goes_on(world, state, room, call.args.as_slice(), line)
    } else {
        prompt_goes_on(world, call.args.as_slice(), line)
    }
}

/// The answer where a file was removed, or looked for.
fn was_of(selector: u32, was: bool) -> u32
    ensures { result ≡ (if selector == selectors.fileref_does_file_exist && was then 1 else 0) }
{
    u32::from(selector == FILEREF_DOES_FILE_EXIST && was)
}

/// Goes on with a call.
fn resume<A: Allocator + Clone>(
    world: &mut World,
    state: &State<A>,
    room: u32,
    call: &Waiting,
    given: Given,
) -> Result<Reply, Fault>
    requires { IsAwaited world.old.scene (flat_call call.now) given }
    ensures value { MakesCall (IsTrue (resumed_grow world.old.scene state.now.flat (flat_call call.now) given)) result
        world.old world.new (resumed world.old.scene state.now.flat room (flat_call call.now) given) }
    ensures fits { IfOk result (IsReply state.now.flat room) }
{
    match given {
        Given::Line(line) => with_line(world, state, room, call, line.as_slice()),
        Given::Loaded(load) => open_goes_on(world, call.selector, call.args.as_slice(), load),
        Given::Stored => close(world, state, room, call.args.as_slice()),
        Given::Was(was) => Ok(reply(world.alloc(), was_of(call.selector, was))),
    }
}

/// Goes on with the call that waits; after a fault it waits again.
#[tactic(auto, using(crate::proofs::Resuming::going_rules), unfolding(crate::proofs::Opened::going_on))]
fn resume_waiting<A: Allocator + Clone>(
    world: &mut World,
    state: &State<A>,
    room: u32,
    given: Given,
) -> Result<Turn, Fault>
    requires { Awaits world.old.scene given }
    ensures value { MakesCall (IsTrue (go_grows world.old.scene state.now.flat given)) result world.old world.new
        (glk_go_on world.old.scene state.now.flat room given) }
    ensures fits { IfOk result (IsTurnFor state.now.flat room) }
    ensures answers { IfOk result IsAnswered }
{
    let Some(call) = world.take_waiting() else {
        return Err(Fault::BadGlk);
    };
    match resume(world, state, room, &call, given) {
        Ok(reply) => Ok(Turn::Answer(reply)),
        Err(fault) => {
            world.set_waiting(Some(call));
            Err(fault)
        }
    }
}

/// Goes on with the call that waits.
pub fn go_on<A: Allocator + Clone>(
    world: &mut World,
    state: &State<A>,
    room: u32,
    given: Given,
) -> Result<Turn, Fault>
    requires { Awaits world.old.scene given }
    ensures value { MakesCall (IsTrue (go_grows world.old.scene state.now.flat given)) result world.old world.new
        (glk_go_on world.old.scene state.now.flat room given) }
    ensures fits { IfOk result (IsTurnFor state.now.flat room) }
    ensures answers { IfOk result IsAnswered }

    // After a load, a store or a question there is no fault, where the looks were made as `call` makes them.
    ensures calm { IsOfFile given → Looked state.now.flat room world.old.scene given → MeetsNoFault result }
{
    resume_waiting(world, state, room, given)
}

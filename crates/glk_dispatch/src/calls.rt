//! The one way that every call goes (Glk 0.7.5, "The Dispatch Layer"; specs/Calls): its row, the looks at its
//! arguments, and then what the row does.
ghost use Rattle.std.specs.Prelude.{◌≡◌, ◌≤◌, ℕ, if◌then◌else◌, length, replicate, false, Ok, Err, IfOk, IfSome};
ghost use Rattle.std.specs.Prelude.{IsTrue, option_map};
ghost use Rattle.gx_words.specs.Faults.{Reads};
ghost use Rattle.gx_state.specs.Flat.{FlatState};
ghost use Rattle.gx_state.specs.Replies.{IsReply};
ghost use Rattle.glk_world.specs.World.{MakesCall};
ghost use Rattle.glk_replies.specs.Turns.{IsTurnFor, IsGivenFor};
ghost use Rattle.glk_replies.specs.declared.Given.{Given};
ghost use Rattle.glk_dispatch.specs.Turns.{Awaits, Looked};
ghost use Rattle.glk_dispatch.specs.Table.{row_for, selector_fits, is_dropped};
ghost use Rattle.glk_replies.specs.Parts.{replies};
ghost use Rattle.glk_dispatch.specs.Calls.{has_object, named, looked_at, is_on_none, nothing, gives_nothing};
ghost use Rattle.glk_dispatch.specs.Calls.{glk_call, IsGrowing};
ghost use Rattle.gx_words.specs.declared.faults.Fault.TheVariants.{BadGlk, NoMemory};
ghost use Rattle.glk_dispatch.specs.Memory.{is_left_out, TakesMemory};
ghost use Rattle.glk_dispatch.specs.Ready.{done_by, wants_by, call_looked, wants_looked};

use crate::doing::{answer_turn, do_call};
use crate::table::{ObjectClass, Selector, dropped, row_of};
use glk_replies::{Turn, give, give_each, reply};
use glk_world::{World, arg};
use gx_state::{Reply, State};
use gx_words::Fault;
use std::alloc::Allocator;

/// Whether an object of a class has this identifier.
fn is_there(world: &World, class: ObjectClass, id: u32) -> bool
    ensures { result ≡ has_object world.now.scene class id }
{
    match class {
        ObjectClass::Plain => true,
        ObjectClass::Window => world.windows().entry(id).is_some(),
        ObjectClass::Stream => world.streams().has(id),
        ObjectClass::Reference => world.file_ref(id).is_some(),
    }
}

/// Looks at an argument that names an object.
fn named(world: &World, class: ObjectClass, id: u32) -> Result<(), Fault>
    ensures { Reads (λ _. tt) result (named world.now.scene class id) }
{
    if id == 0 || is_there(world, class, id) {
        Ok(())
    } else {
        Err(Fault::BadGlk)
    }
}

/// Looks at the arguments.
#[tactic(auto, unfolding(crate::specs::Calls::looked_at))]
fn looked(world: &World, row: &Selector, args: &[u32]) -> Result<(), Fault>
    ensures { Reads (λ _. tt) result (looked_at world.now.scene row.now args.now) }
{
    if args.len() < usize::from(row.arguments) {
        return Err(Fault::BadGlk);
    }
    named(world, row.first, arg(args, 0))?;
    named(world, row.other, arg(args, usize::from(row.other_place)))
}

/// Whether the call is on the object 0.
fn is_on_none(row: &Selector, args: &[u32]) -> bool
    ensures { result ≡ is_on_none row.now args.now }
{
    row.needs_first && arg(args, 0) == 0
}

/// So many zeros, four at most.
fn zeros(words: u8) -> &'static [u32]
    requires { words ≤ 4 }
    ensures value { result.now ≡ replicate words 0 }
    ensures few { length result.now ≤ 4 }
{
    &[0; 4][..usize::from(words)]
}

/// A call that does nothing.
#[tactic(auto, unfolding(crate::specs::Calls::nothing))]
fn nothing<A: Allocator + Clone>(
    world: &mut World,
    state: &State<A>,
    room: u32,
    row: &Selector,
    args: &[u32],
) -> Result<Reply, Fault>
    requires { row.now.words ≤ 4 }
    ensures value { MakesCall (IsTrue (gives_nothing row.now args.now)) result world.old world.new
        (nothing world.old.scene state.now.flat room row.now args.now) }
    ensures fits { IfOk result (IsReply state.now.flat room) }
{
    match row.references {
        0 => Ok(reply(world.alloc(), 0)),
        1 => give(
            world.alloc(),
            state,
            room,
            0,
            arg(args, 1),
            zeros(row.words),
        ),
        2 => give_each(
            world.alloc(),
            state,
            room,
            0,
            &[arg(args, 1), arg(args, 2)],
            &[0, 0],
        ),
        _ => give_each(
            world.alloc(),
            state,
            room,
            0,
            &[arg(args, 1), arg(args, 2), arg(args, 3)],
            &[0, 0, 0],
        ),
    }
}

/// A selector without a row.
fn call_dropped(world: &World, selector: u32) -> Result<Reply, Fault>
    ensures value { Reads (λ reply. reply) result (if is_dropped selector then Ok (replies 0) else Err BadGlk) }
    ensures fits { (f : FlatState) (room : ℕ) → IfOk result (IsReply f room) }
{
    if dropped(selector) {
        Ok(reply(world.alloc(), 0))
    } else {
        Err(Fault::BadGlk)
    }
}

/// A call by what was found for its selector.
fn call_found<A: Allocator + Clone>(
    found: Option<&Selector>,
    world: &mut World,
    state: &State<A>,
    room: u32,
    selector: u32,
    args: &[u32],
) -> Result<Turn, Fault>
    requires row { option_map (λ row. row.now) found ≡ option_map (λ row. row.looks) (row_for selector) }
    requires fits { IfSome found (λ row. IsTrue (selector_fits row.now)) }
    ensures value { MakesCall (IsTrue (wants_looked (option_map (λ row. row.now) found.entry)
        (wants_by (row_for selector) world.old.scene state.now.flat args.now) args.now)) result world.old world.new
        (call_looked (option_map (λ row. row.now) found.entry)
        (done_by (row_for selector) world.old.scene state.now.flat room args.now) world.old.scene state.now.flat room
        selector args.now) }
    ensures fits { IfOk result (IsTurnFor state.now.flat room) }
{
    let Some(row) = found else {
        return answer_turn(call_dropped(world, selector));
    };
    looked(world, row, args)?;
    if is_on_none(row, args) {
        answer_turn(nothing(world, state, room, row, args))
    } else {
        do_call(selector, world, state, room, args)
    }
}

/// Makes the Glk call of a selector, whose reply may push so many values beside its own store.
pub fn call<A: Allocator + Clone>(
    world: &mut World,
    state: &State<A>,
    room: u32,
    selector: u32,
    args: &[u32],
) -> Result<Turn, Fault>
    ensures value { MakesCall (IsGrowing world.old.scene state.now.flat selector args.now) result world.old world.new
        (glk_call world.old.scene state.now.flat room selector args.now) }
    ensures fits { IfOk result (IsTurnFor state.now.flat room) }
    ensures asks { IfOk result (λ turn. (given : Given) → IsGivenFor turn given → Awaits world.new.scene given) }

    // All that would be a fault once a file is loaded or stored was looked at before it is asked for.
    ensures looked { IfOk result
        (λ turn. (given : Given) → IsGivenFor turn given → Looked state.now.flat room world.new.scene given) }

    // But for characters that are put to a stream that is there, memory is wanted only where the call comes to what
    // takes some: a reply that writes or pushes, text, an object, a request, a larger grid, the name of a file.
    ensures memory { is_left_out world.old.scene selector args.now ≡ false → result ≡ Err NoMemory
        → TakesMemory world.old.scene (glk_call world.old.scene state.now.flat room selector args.now) }
{
    let found = row_of(selector);
    call_found(found, world, state, room, selector, args)
}

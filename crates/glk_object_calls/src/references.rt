//! The calls of file references, and the opening of files (Glk 0.7.5, "File References" and "File Streams";
//! specs/References).
ghost use Rattle.std.specs.Prelude.{ℕ, ◌≡◌, ◌≤◌, ◌+◌, ◌==◌, ◌&&◌, ◌||◌, not, Ok, length};
ghost use Rattle.std.specs.Prelude.{map, codes, decimal, ◌++◌, IfOk, OnOk, IsTrue};
ghost use Rattle.gx_outside.specs.Outside.{IsBounded};
ghost use Rattle.gx_state.specs.Flat.{FlatState};
ghost use Rattle.gx_state.specs.Replies.{IsReply};
ghost use Rattle.glk_files.specs.Names.{base_of};
ghost use Rattle.glk_objects.specs.Objects.{met_from};
ghost use Rattle.glk_streams.specs.Constants.{largest};
ghost use Rattle.glk_world.specs.World.{after, silent, waits, reference_id, is_composed, has_reference, reference_at};
ghost use Rattle.glk_world.specs.World.{arg, MakesCall};
ghost use Rattle.glk_world.specs.Calls.{is_identifier};
ghost use Rattle.glk_replies.specs.Turns.{IsTurnFor};
ghost use Rattle.glk_object_calls.specs.References.{created, fileref_create_temp};
ghost use Rattle.glk_object_calls.specs.References.{fileref_create_by_name, fileref_create_by_prompt, prompt_goes_on};
ghost use Rattle.glk_object_calls.specs.References.{fileref_create_from_fileref, fileref_destroy};
ghost use Rattle.glk_object_calls.specs.References.{fileref_iterate, fileref_get_rock, file_name, fileref_delete_file};
ghost use Rattle.glk_object_calls.specs.References.{fileref_does_file_exist, form_for, open_with, mode_loads};
ghost use Rattle.glk_object_calls.specs.References.{stream_open_file, opening_grows, open_goes_on, open_goes_on_grow};

use glk_files::{base_name, full_name};
use glk_replies::selectors::{
    FILEREF_CREATE_BY_PROMPT, FILEREF_DELETE_FILE, FILEREF_DOES_FILE_EXIST, STREAM_OPEN_FILE,
    STREAM_OPEN_FILE_UNI,
};
use glk_replies::{Turn, give, numbers_at, reply, string_length};
use glk_streams::{FileForm, READ, READ_WRITE, StreamKind, WRITE, WRITE_APPEND};
use glk_world::{LAST_IDENTIFIER, World, arg};
use gx_outside::Load;
use gx_state::{Reply, State};
use gx_words::{Bytes, Fault, Name};
use itoa::Buffer;
use std::alloc::{AllocError, Allocator, Global};

/// The bit of a usage that stands for a text (Glk 0.7.5, "The Types of File References": fileusage_TextMode).
pub const TEXT_MODE: u32 = 0x100;

/// Makes a file reference.
fn create(world: &mut World, base: Name, usage: u32, rock: u32) -> Result<Reply, Fault>
    ensures value { MakesCall (IsTrue (is_identifier world.old.scene.next_id)) result world.old world.new
        (created world.old.scene base usage rock) }
    ensures fits { (f : FlatState) (room : ℕ) → IfOk result (IsReply f room) }
{
    let id = world.add_ref(base, usage, rock)?;
    Ok(reply(world.alloc(), id))
}

/// The name of a file for a time.
fn temporary_name(alloc: Global, id: u32) -> Result<Name, AllocError>
    ensures { IfOk result (λ name. name ≡ codes "gxtemp" ++ decimal id) }
{
    let mut buffer = Buffer::new();
    let mut name = String::from_str(alloc, "gxtemp")?;
    name.push_str(buffer.format(id))?;
    Name::from_str(alloc, name.as_str())
}

/// fileref_create_temp: a file of a name that no other has.
#[tactic(auto, unfolding(crate::specs::References::fileref_create_temp, glk_world::specs::Calls::with_reference))]
pub fn fileref_create_temp(world: &mut World, args: &[u32]) -> Result<Reply, Fault>
    ensures value { MakesCall (IsTrue (is_identifier world.old.scene.next_id)) result world.old world.new
        (fileref_create_temp world.old.scene args.now) }
    ensures fits { (f : FlatState) (room : ℕ) → IfOk result (IsReply f room) }
{
    if world.next_id() > LAST_IDENTIFIER {
        return Ok(reply(world.alloc(), 0));
    }
    let name = temporary_name(world.alloc(), world.next_id())?;
    create(world, name, arg(args, 0), arg(args, 1))
}

/// Makes a file reference of a name as the player or the story gives it; answers 0, and makes no name, where no
/// identifier is left.
#[tactic(auto, unfolding(glk_world::specs::Calls::with_reference))]
fn create_named(world: &mut World, text: &[u32], usage: u32, rock: u32) -> Result<Reply, Fault>
    ensures value { MakesCall (IsTrue (is_identifier world.old.scene.next_id)) result world.old world.new
        (created world.old.scene (base_of text.now) usage rock) }
    ensures fits { (f : FlatState) (room : ℕ) → IfOk result (IsReply f room) }
{
    if world.next_id() > LAST_IDENTIFIER {
        return Ok(reply(world.alloc(), 0));
    }
    let base = base_name(world.alloc(), text)?;
    create(world, base, usage, rock)
}

/// fileref_create_by_name: the name stands in memory.
#[tactic(auto, unfolding(crate::specs::References::fileref_create_by_name, glk_world::specs::Calls::with_reference))]
pub fn fileref_create_by_name<A: Allocator + Clone>(
    world: &mut World,
    state: &State<A>,
    args: &[u32],
) -> Result<Reply, Fault>
    ensures value { MakesCall (IsTrue (is_identifier world.old.scene.next_id)) result world.old world.new
        (fileref_create_by_name world.old.scene state.now.flat args.now) }
    ensures fits { (f : FlatState) (room : ℕ) → IfOk result (IsReply f room) }
{
    let at = arg(args, 1);
    let count = string_length(state, 1, at)?;
    if world.next_id() > LAST_IDENTIFIER {
        return Ok(reply(world.alloc(), 0));
    }
    let text = numbers_at(world.alloc(), state.memory(), 1, at + 1, count)?;
    create_named(world, text.as_slice(), arg(args, 0), arg(args, 2))
}

/// fileref_create_by_prompt: waits for the line that is the name.
#[tactic(auto, unfolding(crate::specs::References::fileref_create_by_prompt))]
pub fn fileref_create_by_prompt(world: &mut World, args: &[u32]) -> Result<Turn, Fault>
    ensures value { MakesCall (IsTrue (not (is_composed world.old.scene))) result world.old world.new
        (fileref_create_by_prompt world.old.scene args.now) }
    ensures fits { (f : FlatState) (room : ℕ) → IfOk result (IsTurnFor f room) }
{
    world.show_prompt()?;
    world.wait(FILEREF_CREATE_BY_PROMPT, args);
    Ok(Turn::Prompt)
}

/// The line of a prompt was taken.
#[tactic(auto, unfolding(crate::specs::References::prompt_goes_on))]
pub fn prompt_goes_on(world: &mut World, args: &[u32], line: &[u32]) -> Result<Reply, Fault>
    ensures value { MakesCall (IsTrue (not (length line.now == 0) && is_identifier world.old.scene.next_id)) result
        world.old world.new (prompt_goes_on world.old.scene args.now line.now) }
    ensures fits { (f : FlatState) (room : ℕ) → IfOk result (IsReply f room) }
{
    world.line_taken();
    match line {
        [] => Ok(reply(world.alloc(), 0)),
        [_, ..] => create_named(world, line, arg(args, 0), arg(args, 2)),
    }
}

/// fileref_create_from_fileref: the same name for another usage.
#[tactic(auto, unfolding(crate::proofs::Opened::creating_from_fileref))]
pub fn fileref_create_from_fileref(world: &mut World, args: &[u32]) -> Result<Reply, Fault>
    ensures value { MakesCall (IsTrue (has_reference world.old.scene (arg args.now 1) && is_identifier
        world.old.scene.next_id)) result world.old world.new (fileref_create_from_fileref world.old.scene args.now) }
    ensures fits { (f : FlatState) (room : ℕ) → IfOk result (IsReply f room) }
{
    if world.next_id() > LAST_IDENTIFIER {
        return Ok(reply(world.alloc(), 0));
    }
    match world.file_ref(arg(args, 1)) {
        None => Ok(reply(world.alloc(), 0)),
        Some((base, _, _)) => {
            let base = Name::from_str(world.alloc(), base)?;
            create(world, base, arg(args, 0), arg(args, 2))
        }
    }
}

/// fileref_destroy: the file stays.
#[tactic(auto, unfolding(crate::specs::References::fileref_destroy))]
pub fn fileref_destroy(world: &mut World, args: &[u32]) -> Result<Reply, Fault>
    requires { IsTrue (has_reference world.old.scene (arg args.now 0)) }
    ensures value { MakesCall ⊥ result world.old world.new (fileref_destroy world.old.scene args.now) }
    ensures fits { (f : FlatState) (room : ℕ) → IfOk result (IsReply f room) }
{
    world.remove_ref(arg(args, 0));
    Ok(reply(world.alloc(), 0))
}

/// The rock of a file reference, 0 where there is none.
#[tactic(auto, using(crate::proofs::Absent::no_reference_there))]
fn rock_of(world: &World, id: u32) -> u32
    ensures { result ≡ (reference_at world.now.scene id).rock }
{
    match world.file_ref(id) {
        None => 0,
        Some((_, _, rock)) => rock,
    }
}

/// fileref_iterate: the next file reference, and its rock.
#[tactic(auto, unfolding(crate::specs::References::fileref_iterate))]
pub fn fileref_iterate<A: Allocator + Clone>(
    world: &World,
    state: &State<A>,
    room: u32,
    args: &[u32],
) -> Result<Reply, Fault>
    ensures value { MakesCall (IsTrue (not (arg args.now 1 == 0))) result world.now world.now
        (fileref_iterate world.now.scene state.now.flat room args.now) }
    ensures fits { IfOk result (IsReply state.now.flat room) }

    // Iterating from 0 up to 0 meets each file reference once, in order of creation.
    ensures each { (more : ℕ)
        → met_from reference_id (length world.now.scene.references + more) world.now.scene.references 0
        ≡ map reference_id world.now.scene.references }
{
    let next = world.next_ref(arg(args, 0));
    let rock = rock_of(world, next);
    give(world.alloc(), state, room, next, arg(args, 1), &[rock])
}

/// fileref_get_rock: what the story gave the file reference when it was made.
#[tactic(auto, unfolding(crate::specs::References::fileref_get_rock))]
pub fn fileref_get_rock(world: &World, args: &[u32]) -> Reply
    ensures value { MakesCall ⊥ (Ok result) world.now world.now (fileref_get_rock world.now.scene args.now) }
    ensures fits { (f : FlatState) (room : ℕ) → IsReply f room result }
{
    reply(world.alloc(), rock_of(world, arg(args, 0)))
}

/// The full name of the file of a file reference.
fn file_name(world: &World, id: u32) -> Result<Name, AllocError>
    requires { IsTrue (has_reference world.now.scene id) }
    ensures { IfOk result (λ name. name ≡ file_name world.now.scene id) }
{
    match world.reference(id) {
        None => Ok(Name::new(world.alloc())),
        Some(reference) => full_name(world.alloc(), &reference.base, reference.usage),
    }
}

/// A call waits for what is done with the file of its reference; answers the file's full name.
fn wait_for_file(world: &mut World, selector: u32, args: &[u32]) -> Result<Name, AllocError>
    requires { IsTrue (has_reference world.old.scene (arg args.now 0)) }
    ensures new { OnOk result (world.new ≡ after world.old (silent (waits world.old.scene selector args.now))) }
    ensures name { IfOk result (λ name. name ≡ file_name world.old.scene (arg args.now 0)) }
{
    let name = file_name(world, arg(args, 0))?;
    world.wait(selector, args);
    Ok(name)
}

/// fileref_delete_file: asks that the file be removed. The question owns the name, so that memory may always be wanted.
#[tactic(auto, unfolding(crate::specs::References::fileref_delete_file))]
pub fn fileref_delete_file(world: &mut World, args: &[u32]) -> Result<Turn, Fault>
    requires { IsTrue (has_reference world.old.scene (arg args.now 0)) }
    ensures value { MakesCall (Unit {0}) result world.old world.new (fileref_delete_file world.old.scene args.now) }
    ensures fits { (f : FlatState) (room : ℕ) → IfOk result (IsTurnFor f room) }
{
    let name = wait_for_file(world, FILEREF_DELETE_FILE, args)?;
    Ok(Turn::Remove(name))
}

/// fileref_does_file_exist: asks whether there is a file, by its name.
#[tactic(auto, unfolding(crate::specs::References::fileref_does_file_exist))]
pub fn fileref_does_file_exist(world: &mut World, args: &[u32]) -> Result<Turn, Fault>
    requires { IsTrue (has_reference world.old.scene (arg args.now 0)) }
    ensures value { MakesCall (Unit {0}) result world.old world.new (fileref_does_file_exist world.old.scene args.now) }
    ensures fits { (f : FlatState) (room : ℕ) → IfOk result (IsTurnFor f room) }
{
    let name = wait_for_file(world, FILEREF_DOES_FILE_EXIST, args)?;
    Ok(Turn::Has(name))
}

/// The form of the characters of a reference's file.
#[tactic(auto, using(crate::proofs::Absent::no_reference_there))]
fn form_of(world: &World, selector: u32, id: u32) -> FileForm
    ensures { result ≡ form_for selector (reference_at world.now.scene id).usage }
{
    if selector != STREAM_OPEN_FILE_UNI {
        return FileForm::Latin;
    }
    match world.file_ref(id) {
        None => FileForm::Wide,
        Some((_, usage, _)) if usage / TEXT_MODE % 2 == 1 => FileForm::Utf8,
        Some(_) => FileForm::Wide,
    }
}

/// Opens a stream of a file with this content; answers 0, and makes no name, where no identifier is left.
#[tactic(auto, unfolding(crate::specs::References::open_with, glk_world::specs::Calls::with_new_stream))]
fn open_with(world: &mut World, selector: u32, args: &[u32], content: Bytes) -> Result<Reply, Fault>
    requires there { IsTrue (has_reference world.old.scene (arg args.now 0)) }
    requires mode { IsTrue (arg args.now 1 == WRITE || mode_loads (arg args.now 1)) }
    requires size { length content ≤ largest }
    ensures value { MakesCall (IsTrue (is_identifier world.old.scene.next_id)) result world.old world.new
        (open_with world.old.scene selector args.now content) }
    ensures fits { (f : FlatState) (room : ℕ) → IfOk result (IsReply f room) }
{
    if world.next_id() > LAST_IDENTIFIER {
        return Ok(reply(world.alloc(), 0));
    }
    let kind = StreamKind::File {
        name: file_name(world, arg(args, 0))?,
        content,
        form: form_of(world, selector, arg(args, 0)),
    };
    let id = world.add_stream(kind, arg(args, 1), arg(args, 2))?;
    Ok(reply(world.alloc(), id))
}

/// stream_open_file, stream_open_file_uni: a file that isn't for writing alone is loaded first. Where no identifier is
/// left nothing is asked, and no name is made.
#[tactic(auto, unfolding(crate::specs::References::stream_open_file))]
pub fn stream_open_file(world: &mut World, selector: u32, args: &[u32]) -> Result<Turn, Fault>
    requires { IsTrue (has_reference world.old.scene (arg args.now 0)) }
    ensures value { MakesCall (IsTrue (opening_grows world.old.scene args.now)) result world.old world.new
        (stream_open_file selector world.old.scene args.now) }
    ensures fits { (f : FlatState) (room : ℕ) → IfOk result (IsTurnFor f room) }
{
    if world.next_id() > LAST_IDENTIFIER {
        return Ok(Turn::Answer(reply(world.alloc(), 0)));
    }
    match arg(args, 1) {
        WRITE => {
            let empty = Bytes::new(world.alloc());
            open_with(world, selector, args, empty).map(Turn::Answer)
        }
        READ | READ_WRITE | WRITE_APPEND => {
            let name = wait_for_file(world, selector, args)?;
            Ok(Turn::Load(name))
        }
        _ => Ok(Turn::Answer(reply(world.alloc(), 0))),
    }
}

/// The file of a stream that is opened was loaded.
pub fn open_goes_on(
    world: &mut World,
    selector: u32,
    args: &[u32],
    load: Load,
) -> Result<Reply, Fault>
    requires there { IsTrue (has_reference world.old.scene (arg args.now 0)) }
    requires mode { IsTrue (mode_loads (arg args.now 1)) }
    requires size { IsBounded largest load }
    ensures value { MakesCall (IsTrue (open_goes_on_grow world.old.scene args.now load)) result world.old world.new
        (open_goes_on world.old.scene selector args.now load) }
    ensures fits { (f : FlatState) (room : ℕ) → IfOk result (IsReply f room) }
{
    match load {
        Load::Missing if arg(args, 1) != READ => {
            let empty = Bytes::new(world.alloc());
            open_with(world, selector, args, empty)
        }
        Load::Found(content) => open_with(world, selector, args, content),
        _ => Ok(reply(world.alloc(), 0)),
    }
}

//! Saves and restores of a machine, which Glk streams take and give back (Glulx 3.1.2, "Game State").
//!
//! One that fails is answered, and is no fault. A save to a stream in memory whose places can't be written is one.
ghost use Rattle.std.specs.Prelude.{◌≡◌, ◌≢◌, ◌≤◌, ◌==◌, ◌&&◌, ℕ, List, Some, Err, IfOk, IfErr, IfSome, IsTrue};
ghost use Rattle.gx_words.specs.Faults.{MayLose};
ghost use Rattle.gx_words.specs.declared.faults.Fault.TheVariants.{NoMemory};
ghost use Rattle.gx_state.specs.Copies.{IsCopyFor};
ghost use Rattle.gx_state.specs.Replies.{IsReply};
ghost use Rattle.gx_state.specs.declared.effects.Effect.TheVariants as effect;
ghost use Rattle.gx_machine.specs.declared.askings.Asking.TheVariants as asking;
ghost use Rattle.gx_machine.specs.Advancing.{left_after};
ghost use Rattle.gx_machine.specs.SavedCopies.{restored};
ghost use Rattle.gx_machine.specs.Step.{asking_of};
ghost use Rattle.gx_machine.specs.WaysBack.{HasWayBack};
ghost use Rattle.glk_streams.specs.Stream as one;
ghost use Rattle.glk_streams.specs.Streams as all;
ghost use Rattle.glk_world.specs.World.{on_world};
ghost use Rattle.glk_replies.specs.Parts.{replies};
ghost use Rattle.gx_session.specs.Constants.{failed as failed_value};
ghost use Rattle.gx_session.specs.Devices.{Devices};
ghost use Rattle.gx_session.specs.Holding.{held_by, Handed, asking_in};
ghost use Rattle.gx_session.specs.Standing.{Follows, GoesBack};
ghost use Rattle.gx_session.specs.Outcomes.{Becomes, MaySave, Refuses};
ghost use Rattle.gx_session.specs.Outcomes.{EventGives};
ghost use Rattle.gx_session.specs.Outcomes.{Leads, Keeps};
ghost use Rattle.gx_session.specs.Saving.{is_save_begun, is_restore_begun, saving, restoring};
ghost use Rattle.gx_session.specs.Saving.{SavesReadBack};
ghost use Rattle.gx_session.specs.Sound.{IsReadBack};
ghost use Rattle.gx_session.specs.Configurations.{Configuration};

use crate::ends::{Halt, Next};
use crate::running::{ENOUGH, Running, answer, faulted, flush};
use glk_replies::reply;
use glk_world::World;
use gx_machine::Engine;
use gx_outside::Sink;
use gx_state::{FlatCopy, Reply, State};
use gx_words::{Fault, GLK_SYSTEM};
use quetzal::SaveFault;
use std::alloc::Allocator;

/// What a save or a restore that fails is answered.
pub const FAILED: u32 = 1;

/// The reply to a save or a restore that fails.
fn failed(world: &World) -> Reply
    ensures { result ≡ replies failed_value }
{
    reply(world.alloc(), FAILED)
}

/// Whether a stream may take a save, whatever its length: it is there, open for writing and no window's.
fn may_take(world: &World, stream: u32) -> bool
    ensures { let s = all.stream world.now.scene.streams stream in
        result ≡ (all.has world.now.scene.streams stream && one.writable s && one.window_of s == 0) }
{
    let streams = world.streams();
    streams.has(stream) && streams.writable(stream) && streams.window(stream) == 0
}

/// Whether a save to a stream is begun: the I/O system is Glk's, and the stream may take one.
fn is_begun<A: Allocator + Clone>(world: &World, state: &State<A>, stream: u32) -> bool
    ensures { result ≡ is_save_begun world.now.scene state.now.flat stream }
{
    state.iosys().0 == GLK_SYSTEM && may_take(world, stream)
}

/// Puts the save of a machine to a stream. Memory is taken only for a save that is begun.
fn save<A: Allocator + Clone, E: Engine<A>>(
    world: &mut World,
    engine: &E,
    stream: u32,
) -> Result<Reply, Fault>
    requires { (E.whole engine.now).asking ≡ Some asking.Save }
    ensures value { MaySave (IsTrue (is_save_begun world.old.scene (E.whole engine.now).machine.flat stream)) result
        world.old world.new (on_world world.old (saving world.old.scene (E.whole engine.now).machine.flat stream)) }
    ensures fits { IfOk result (IsReply (E.whole engine.now).machine.flat 0) }
    ensures read_back { result ≢ Err NoMemory
        → IsTrue (is_save_begun world.old.scene (E.whole engine.now).machine.flat stream)
        → IsReadBack (E.whole engine.now).machine.flat }
{
    if !is_begun(world, engine.state(), stream) {
        return Ok(failed(world));
    }
    let alloc = world.alloc();
    let copy = engine.save_copy(alloc)?;
    let bytes = quetzal::write_save(alloc, &copy, engine.story())?;
    match glk_dispatch::put_save(world, engine.state(), stream, bytes.as_slice())? {
        Some(reply) => Ok(reply),
        None => Ok(failed(world)),
    }
}

/// Saves the game to a stream.
pub fn ask_save<A: Allocator + Clone, E: Engine<A>, K: Sink>(
    run: &mut Running<E>,
    output: &mut K,
    stream: u32,
    left: u64,
) -> Result<Next, Halt>
    requires asks { (E.whole run.old.engine).asking ≡ asking_of (effect.Save stream) }
    requires fewer { left ≤ run.old.left }
    requires room { left ≤ left_after (E.log run.old.engine) (E.whole run.old.engine) }
    ensures plays { (coming : List ℕ) (start : Configuration) (entry d : Handed K.called)
        → Follows start entry (held_by E.whole E.log run.old coming) (record d { sink = output.old }) left
        (effect.Save stream)
        → EventGives start entry (held_by E.whole E.log run.new coming) (asking_in E.whole run.new)
        (record d { sink = output.new }) result }
    ensures leads { Leads E.whole E.log run.old run.new left result }
    ensures keeps { (d : Devices) → Keeps (record d { sink = K.seen output.old })
        (record d { sink = K.seen output.new }) result }
    ensures lines { run.new.lines ≡ run.old.lines }
{
    match save(&mut run.world, &run.engine, stream) {
        Err(fault) => faulted(fault),
        Ok(reply) => answer(run, output, &reply, left),
    }
}

/// A save that is refused holds no copy, unless memory ran out.
fn refused(fault: SaveFault) -> Result<Option<FlatCopy>, Fault>
    ensures { Refuses fault result }
{
    match fault {
        SaveFault::NoMemory => Err(Fault::NoMemory),
        _ => Ok(None),
    }
}

/// Takes the rest of a stream, and the copy that it holds if it is a save of the machine's story.
fn read<A: Allocator + Clone, E: Engine<A>>(
    world: &mut World,
    engine: &E,
    stream: u32,
) -> Result<Option<FlatCopy>, Fault>
    ensures value { MayLose (IsTrue (is_restore_begun world.old.scene (E.whole engine.now).machine.flat stream))
        (λ copy. copy) result world.old world.new
        (on_world world.old (restoring world.old.scene (E.whole engine.now).machine.flat stream)) }
    ensures fits { IfOk result (λ read. IfSome read (IsCopyFor (E.whole engine.now).machine.flat.story)) }
    ensures back { IfOk result (λ read. IfSome read (HasWayBack (E.whole engine.now).machine.flat)) }
{
    if engine.state().iosys().0 != GLK_SYSTEM {
        return Ok(None);
    }
    let Some(bytes) = glk_dispatch::take_rest(world, engine.state(), stream)? else {
        return Ok(None);
    };
    match quetzal::read_save(world.alloc(), bytes.as_slice(), engine.story()) {
        Ok(copy) => {
            let _stack = engine.state().stack(); // a state is sound
            Ok(Some(copy))
        }
        Err(fault) => refused(fault),
    }
}

/// The machine goes back to a copy, and asks nothing any more.
fn go_back<A: Allocator + Clone, E: Engine<A>>(
    run: &mut Running<E>,
    copy: &FlatCopy,
    left: u64,
) -> Result<(), Halt>
    requires asks { (E.whole run.old.engine).asking ≡ Some asking.Restore }
    requires fits { IsCopyFor (E.whole run.old.engine).machine.flat.story copy.now }
    ensures gives { Becomes E.whole E.log run.old run.new
        (restored (E.whole run.old.engine).machine copy.now) left result }
    ensures memory { IfErr result (λ halt. halt ≡ Halt.NoMemory) }
{
    run.engine.restore_copy(copy)?;
    run.left = left;
    Ok(())
}

/// Goes on from a copy, and sends the pending text where it is long enough.
fn resume<A: Allocator + Clone, E: Engine<A>, K: Sink>(
    run: &mut Running<E>,
    output: &mut K,
    copy: &FlatCopy,
    left: u64,
) -> Result<Next, Halt>
    requires asks { (E.whole run.old.engine).asking ≡ Some asking.Restore }
    requires fits { IsCopyFor (E.whole run.old.engine).machine.flat.story copy.now }
    requires fewer { left ≤ run.old.left }
    requires room { left ≤ left_after (E.log run.old.engine) (E.whole run.old.engine) }
    ensures plays { (coming : List ℕ) (start : Configuration) (entry d : Handed K.called)
        → GoesBack start entry (held_by E.whole E.log run.old coming) (asking_in E.whole run.old)
        (record d { sink = output.old }) left copy.now
        → EventGives start entry (held_by E.whole E.log run.new coming) (asking_in E.whole run.new)
        (record d { sink = output.new }) result }
    ensures leads { Leads E.whole E.log run.old run.new left result }
    ensures keeps { (d : Devices) → Keeps (record d { sink = K.seen output.old })
        (record d { sink = K.seen output.new }) result }
    ensures lines { run.new.lines ≡ run.old.lines }
{
    go_back(run, copy, left)?;
    flush(&mut run.world, output, ENOUGH)?;
    Ok(Next::Goes)
}

/// Restores the game from a stream.
pub fn ask_restore<A: Allocator + Clone, E: Engine<A>, K: Sink>(
    run: &mut Running<E>,
    output: &mut K,
    stream: u32,
    left: u64,
) -> Result<Next, Halt>
    requires asks { (E.whole run.old.engine).asking ≡ asking_of (effect.Restore stream) }
    requires fewer { left ≤ run.old.left }
    requires room { left ≤ left_after (E.log run.old.engine) (E.whole run.old.engine) }
    ensures plays { (coming : List ℕ) (start : Configuration) (entry d : Handed K.called)
        → Follows start entry (held_by E.whole E.log run.old coming) (record d { sink = output.old }) left
        (effect.Restore stream)
        → EventGives start entry (held_by E.whole E.log run.new coming) (asking_in E.whole run.new)
        (record d { sink = output.new }) result }
    ensures leads { Leads E.whole E.log run.old run.new left result }
    ensures keeps { (d : Devices) → Keeps (record d { sink = K.seen output.old })
        (record d { sink = K.seen output.new }) result }
    ensures lines { run.new.lines ≡ run.old.lines }
{
    match read(&mut run.world, &run.engine, stream) {
        Err(fault) => faulted(fault),
        Ok(None) => {
            let reply = failed(&run.world);
            answer(run, output, &reply, left)
        }
        Ok(Some(copy)) => resume(run, output, &copy, left),
    }
}

/// What is saved of a machine's story is read back, and saves of a lower ceiling load: laws, which cost nothing.
pub fn saves_read_back<A: Allocator + Clone, E: Engine<A>>(engine: &E)
    ensures { SavesReadBack (E.whole engine.now).machine.flat.story }
{
    quetzal::written_saves_are_read();
    quetzal::old_saves_load();
    let _ramstart = engine.state().ramstart(); // a state's story is one
}

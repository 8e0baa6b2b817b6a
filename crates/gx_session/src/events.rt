//! A run from its first event to its end.
ghost use Rattle.std.specs.Prelude.{◌≡◌, ◌≢◌, ◌≤◌, ◌<◌, ◌⊎◌, ◌++◌, ℕ, List, [], None, Ok, Err, IfOk, IfErr};
ghost use Rattle.std.specs.Prelude.{get_or, length};
ghost use Rattle.std.specs.Option.{option_to_list};
ghost use Rattle.gx_state.specs.declared.effects.Effect.TheVariants.{Spent};
ghost use Rattle.gx_machine.specs.Advancing.{units_left, left_after};
ghost use Rattle.gx_machine.specs.Step.{asking_of};
ghost use Rattle.gx_outside.specs.Chains.{IsCalled};
ghost use Rattle.gx_outside.specs.Shelves.{Trace};
ghost use Rattle.glk_streams.specs.Stream.{stored_file};
ghost use Rattle.glk_streams.specs.Streams.{no_stream};
ghost use Rattle.gx_session.specs.declared.ends.Stop.{Stop};
ghost use Rattle.gx_session.specs.Devices.{Devices, devices};
ghost use Rattle.gx_session.specs.Questions.{AreTold};
ghost use Rattle.gx_session.specs.Reading.{Fed};
ghost use Rattle.gx_session.specs.Configurations.{Configuration};
ghost use Rattle.gx_session.specs.Holding.{held_by, Handed, handed, asking_in};
ghost use Rattle.gx_session.specs.Standing.{Going, Follows, HasStopped};
ghost use Rattle.gx_session.specs.Outcomes.{EventGives};
ghost use Rattle.gx_session.specs.Outcomes.{StopGives};
ghost use Rattle.gx_session.specs.Finishing.{EndingGives};
ghost use Rattle.gx_session.specs.Endings.{stores_of};
ghost use Rattle.gx_session.specs.Finishing.{RunGives, StoresAll};
ghost use Rattle.gx_session.specs.Outcomes.{IsStop, IsNext, Leads, Keeps};

use crate::ends::{Halt, Next, Stop};
use crate::running::{GlkWait, Running, draw, faulted, flush};
use crate::saves::{ask_restore, ask_save};
use crate::turns::{ask_glk, ask_put};
use glk_streams::Streams;
use glk_world::World;
use gx_machine::Engine;
use gx_outside::{Shelf, Sink, Source};
use gx_state::Effect;
use rand_core::Rng;
use std::alloc::Allocator;

/// Follows the effect of a step that leaves so many units.
fn follow<A: Allocator + Clone, E: Engine<A>, S: Source, K: Sink, F: Shelf>(
    run: &mut Running<E>,
    input: &mut S,
    output: &mut K,
    shelf: &mut F,
    effect: Effect,
    left: u64,
) -> Result<Next, Halt>
    requires asks { (E.whole run.old.engine).asking ≡ asking_of effect }
    requires fewer { left ≤ run.old.left }
    requires room { left ≤ left_after (E.log run.old.engine) (E.whole run.old.engine) }
    ensures plays { IsCalled F.called shelf.old shelf.new
        (λ asked. Fed S.called S.seen run.old.lines run.new.lines input.old input.new
        (λ coming after. (start : Configuration) (entry d : Handed K.called)
        → AreTold start.answers d.asked asked
        → Follows start entry (held_by E.whole E.log run.old coming)
        (record d { source = S.seen input.old; sink = output.old; shelf = F.seen shelf.old }) left effect
        → EventGives start entry (held_by E.whole E.log run.new after) (asking_in E.whole run.new)
        (record d {
          source = S.seen input.new;
          sink = output.new;
          shelf = F.seen shelf.new;
          asked = d.asked
              ++ asked;
        }) result)) }
    ensures goes { result ≡ Ok Next.Goes → effect ≢ Spent }
    ensures leads { Leads E.whole E.log run.old run.new left result }
    ensures keeps { (d : Devices) → Keeps
        (record d { source = S.seen input.old; sink = K.seen output.old; shelf = F.seen shelf.old })
        (record d { source = S.seen input.new; sink = K.seen output.new; shelf = F.seen shelf.new }) result }
{
    match effect {
        Effect::Went => {
            run.left = left;
            Ok(Next::Goes)
        }
        Effect::Drew => {
            run.word = None;
            run.left = left;
            Ok(Next::Goes)
        }
        Effect::Put(c) => ask_put(run, output, c, left),
        Effect::Glk {
            selector,
            args,
            room,
        } => ask_glk(
            run,
            input,
            output,
            shelf,
            selector,
            &args,
            GlkWait { room, left },
        ),
        Effect::Save(stream) => ask_save(run, output, stream, left),
        Effect::Restore(stream) => ask_restore(run, output, stream, left),
        Effect::Quit => {
            run.left = left;
            Ok(Next::Stops(Stop::Ended))
        }
        Effect::Spent => {
            run.left = left;
            Ok(Next::Stops(Stop::Spent))
        }
    }
}

/// Steps that ask nothing, and then one event: a step, and the answer to what it asks.
fn play_step<A: Allocator + Clone, E: Engine<A>, S: Source, K: Sink, F: Shelf, R: Rng>(
    run: &mut Running<E>,
    input: &mut S,
    output: &mut K,
    shelf: &mut F,
    dice: &mut R,
) -> Result<Next, Halt>
    requires none { (E.whole run.old.engine).asking ≡ None }
    requires room { run.old.left ≤ units_left (E.log run.old.engine) }
    ensures plays { IsCalled F.called shelf.old shelf.new
        (λ asked. Fed S.called S.seen run.old.lines run.new.lines input.old input.new
        (λ coming after. (start : Configuration) (entry : Handed K.called) (before : Trace)
        → AreTold start.answers before asked
        → Going start entry (held_by E.whole E.log run.old coming)
        (handed (S.seen input.old) output.old (F.seen shelf.old) (R.stream dice.old) before)
        → EventGives start entry (held_by E.whole E.log run.new after) (asking_in E.whole run.new)
        (handed (S.seen input.new) output.new (F.seen shelf.new) (R.stream dice.new) (before ++ asked))
        result)) }
    ensures none { result ≡ Ok Next.Goes → (E.whole run.new.engine).asking ≡ None }
    ensures room { result ≡ Ok Next.Goes → run.new.left ≤ units_left (E.log run.new.engine) }
    ensures nearer { result ≡ Ok Next.Goes → run.new.left < run.old.left }
    ensures no_more { run.new.left ≤ run.old.left }
    ensures stop { IfOk result IsNext }
    ensures keeps { Keeps
        (devices (S.seen input.old) (K.seen output.old) (F.seen shelf.old) (R.stream dice.old) [] [] [])
        (devices (S.seen input.new) (K.seen output.new) (F.seen shelf.new) (R.stream dice.new) [] [] []) result }
{
    let word = draw(&mut run.word, dice);
    let mut left = 0;
    match run.engine.advance(word, &mut run.left, &mut left) {
        Err(fault) => faulted(fault),
        Ok(effect) => follow(run, input, output, shelf, effect, left),
    }
}

/// One event: a character of what is printed, or steps that ask nothing and then one that may.
fn play_event<A: Allocator + Clone, E: Engine<A>, S: Source, K: Sink, F: Shelf, R: Rng>(
    run: &mut Running<E>,
    input: &mut S,
    output: &mut K,
    shelf: &mut F,
    dice: &mut R,
) -> Result<Next, Halt>
    requires none { (E.whole run.old.engine).asking ≡ None }
    requires room { run.old.left ≤ units_left (E.log run.old.engine) }
    ensures plays { IsCalled F.called shelf.old shelf.new
        (λ asked. Fed S.called S.seen run.old.lines run.new.lines input.old input.new
        (λ coming after. (start : Configuration) (entry : Handed K.called) (before : Trace)
        → AreTold start.answers before asked
        → Going start entry (held_by E.whole E.log run.old coming)
        (handed (S.seen input.old) output.old (F.seen shelf.old) (R.stream dice.old) before)
        → EventGives start entry (held_by E.whole E.log run.new after) (asking_in E.whole run.new)
        (handed (S.seen input.new) output.new (F.seen shelf.new) (R.stream dice.new) (before ++ asked))
        result)) }
    ensures none { result ≡ Ok Next.Goes → (E.whole run.new.engine).asking ≡ None }
    ensures room { result ≡ Ok Next.Goes → run.new.left ≤ units_left (E.log run.new.engine) }
    ensures nearer { result ≡ Ok Next.Goes → run.new.left < run.old.left }
    ensures no_more { run.new.left ≤ run.old.left }
    ensures stop { IfOk result IsNext }
    ensures keeps { Keeps
        (devices (S.seen input.old) (K.seen output.old) (F.seen shelf.old) (R.stream dice.old) [] [] [])
        (devices (S.seen input.new) (K.seen output.new) (F.seen shelf.new) (R.stream dice.new) [] [] []) result }
{
    match run.engine.next_put(run.left) {
        Some(c) => {
            draw(&mut run.word, dice);
            let left = run.left - 1;
            ask_put(run, output, c, left)
        }
        None => play_step(run, input, output, shelf, dice),
    }
}

/// Events until the session stops, or the run is cut short.
fn play_events<A: Allocator + Clone, E: Engine<A>, S: Source, K: Sink, F: Shelf, R: Rng>(
    run: &mut Running<E>,
    input: &mut S,
    output: &mut K,
    shelf: &mut F,
    dice: &mut R,
) -> Result<Stop, Halt>
    requires none { (E.whole run.old.engine).asking ≡ None }
    requires room { run.old.left ≤ units_left (E.log run.old.engine) }
    ensures plays { IsCalled F.called shelf.old shelf.new
        (λ asked. Fed S.called S.seen run.old.lines run.new.lines input.old input.new
        (λ coming after. (start : Configuration) (entry : Handed K.called) (before : Trace)
        → AreTold start.answers before asked
        → Going start entry (held_by E.whole E.log run.old coming)
        (handed (S.seen input.old) output.old (F.seen shelf.old) (R.stream dice.old) before)
        → StopGives start entry (held_by E.whole E.log run.new after) (asking_in E.whole run.new)
        (handed (S.seen input.new) output.new (F.seen shelf.new) (R.stream dice.new) (before ++ asked))
        result)) }
    ensures no_more { run.new.left ≤ run.old.left }
    ensures stop { IfOk result IsStop }
    ensures keeps { Keeps
        (devices (S.seen input.old) (K.seen output.old) (F.seen shelf.old) (R.stream dice.old) [] [] [])
        (devices (S.seen input.new) (K.seen output.new) (F.seen shelf.new) (R.stream dice.new) [] [] []) result }
{
    loop {
        match play_event(run, input, output, shelf, dice)? {
            Next::Stops(stop) => return Ok(stop),
            Next::Goes => {}
        }
    }
}

/// Stores the file of the stream at a place, where it is open for writing.
fn store_file<F: Shelf>(streams: &Streams, at: usize, shelf: &mut F) -> Result<(), Halt>
    requires { at < length streams.now }
    ensures stores { IsCalled F.called shelf.old shelf.new
        (λ asked. StoresAll (option_to_list (stored_file (get_or streams.now at no_stream))) asked result) }
    ensures keeps { (d : Devices) → Keeps (record d { shelf = F.seen shelf.old })
        (record d { shelf = F.seen shelf.new }) result }
    ensures only { IfErr result (λ halt. (halt ≡ Halt.Shelf) ⊎ (halt ≡ Halt.NoMemory)) }
{
    match streams.stored_file(at) {
        None => Ok(()),
        Some((name, bytes)) => {
            shelf.store(name, bytes)?;
            Ok(())
        }
    }
}

/// Stores the file of each file stream that is open for writing, in order of creation. The streams are gone over one by
/// one, with no list of those that are stored, so that the stores alone may want memory.
fn store_files<F: Shelf>(world: &World, shelf: &mut F) -> Result<(), Halt>
    ensures stores { IsCalled F.called shelf.old shelf.new
        (λ asked. StoresAll (stores_of world.now.scene) asked result) }
    ensures keeps { (d : Devices) → Keeps (record d { shelf = F.seen shelf.old })
        (record d { shelf = F.seen shelf.new }) result }
    ensures only { IfErr result (λ halt. (halt ≡ Halt.Shelf) ⊎ (halt ≡ Halt.NoMemory)) }
{
    let streams = world.streams();
    for at in 0..streams.len() {
        store_file(streams, at, shelf)?;
    }
    Ok(())
}

/// The ending: the last screen is shown, or what is held of wrapped text; the pending text is sent; and then the open
/// files are stored.
fn end<A: Allocator + Clone, E: Engine<A>, K: Sink, F: Shelf>(
    run: &mut Running<E>,
    output: &mut K,
    shelf: &mut F,
) -> Result<(), Halt>
    ensures plays { IsCalled F.called shelf.old shelf.new
        (λ asked. (coming : List ℕ) (start : Configuration) (entry d : Handed K.called) (stop : Stop)
        → HasStopped start entry (held_by E.whole E.log run.old coming) (asking_in E.whole run.old)
        (record d { sink = output.old; shelf = F.seen shelf.old }) stop
        → EndingGives start entry (held_by E.whole E.log run.new coming) (asking_in E.whole run.new)
        (record d { sink = output.new; shelf = F.seen shelf.new; asked = d.asked ++ asked }) stop result) }
    ensures same { run.new ≡ record run.old { world = run.new.world } }
    ensures keeps { (d : Devices) → Keeps (record d { sink = K.seen output.old; shelf = F.seen shelf.old })
        (record d { sink = K.seen output.new; shelf = F.seen shelf.new }) result }
{
    run.world.end_text()?;
    flush(&mut run.world, output, 1)?;
    store_files(&run.world, shelf)
}

/// A whole run: its events, and its ending.
pub fn play_out<A: Allocator + Clone, E: Engine<A>, S: Source, K: Sink, F: Shelf, R: Rng>(
    run: &mut Running<E>,
    input: &mut S,
    output: &mut K,
    shelf: &mut F,
    dice: &mut R,
) -> Result<Stop, Halt>
    requires none { (E.whole run.old.engine).asking ≡ None }
    requires room { run.old.left ≤ units_left (E.log run.old.engine) }
    ensures plays { IsCalled F.called shelf.old shelf.new
        (λ asked. Fed S.called S.seen run.old.lines run.new.lines input.old input.new
        (λ coming after. (start : Configuration) (entry : Handed K.called) (before : Trace)
        → AreTold start.answers before asked
        → Going start entry (held_by E.whole E.log run.old coming)
        (handed (S.seen input.old) output.old (F.seen shelf.old) (R.stream dice.old) before)
        → RunGives start entry (held_by E.whole E.log run.new after) (asking_in E.whole run.new)
        (handed (S.seen input.new) output.new (F.seen shelf.new) (R.stream dice.new) (before ++ asked))
        result)) }
    ensures no_more { run.new.left ≤ run.old.left }
    ensures stop { IfOk result IsStop }
    ensures keeps { Keeps
        (devices (S.seen input.old) (K.seen output.old) (F.seen shelf.old) (R.stream dice.old) [] [] [])
        (devices (S.seen input.new) (K.seen output.new) (F.seen shelf.new) (R.stream dice.new) [] [] []) result }
{
    let stop = play_events(run, input, output, shelf, dice)?;
    end(run, output, shelf)?;
    Ok(stop)
}

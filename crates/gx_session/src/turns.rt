//! The Glk calls of a machine: their turns, and what these ask of the shelf and of the input.
ghost use Rattle.std.specs.Prelude.{◌≡◌, ◌≤◌, ◌++◌, ℕ, List, Some, IfErr, OnOk, OnErr, true, if◌then◌else◌};
ghost use Rattle.gx_outside.specs.Chains.{IsCalled};
ghost use Rattle.gx_state.specs.declared.effects.Effect.TheVariants.{Put, Glk};
ghost use Rattle.gx_machine.specs.declared.askings.Asking.TheVariants as asking;
ghost use Rattle.gx_machine.specs.Advancing.{left_after};
ghost use Rattle.gx_machine.specs.Step.{asking_of};
ghost use Rattle.glk_world.specs.World.{after};
ghost use Rattle.glk_world.specs.Shown.{show_line};
ghost use Rattle.glk_replies.specs.declared.Given.{Given};
ghost use Rattle.glk_replies.specs.declared.Given.TheVariants as given;
ghost use Rattle.glk_replies.specs.declared.Turn.{Turn};
ghost use Rattle.glk_replies.specs.Turns.{IsTurnFor, IsAnswered, IsGivenFor};
ghost use Rattle.glk_dispatch.specs.Turns.{Awaits};
ghost use Rattle.gx_session.specs.Wants.{IsWait};
ghost use Rattle.gx_session.specs.Devices.{Devices};
ghost use Rattle.gx_session.specs.Questions.{turn_of, AreTold};
ghost use Rattle.gx_session.specs.Reading.{Fed};
ghost use Rattle.gx_session.specs.Configurations.{Configuration, asks, goes_on};
ghost use Rattle.gx_session.specs.Holding.{held_by, Handed, asking_in};
ghost use Rattle.gx_session.specs.Standing.{Follows, IsInCall, TakesTurn, GoesOn, TakesInput};
ghost use Rattle.gx_session.specs.Outcomes.{EventGives};
ghost use Rattle.gx_session.specs.Outcomes.{Leads, Keeps, without_line};

use crate::ends::{Halt, Next, Stop};
use crate::lines::NoLine;
use crate::questions::Question;
use crate::running::{GlkWait, Running, answer, answer_puts, faulted, flush};
use arrayvec::ArrayVec;
use glk_dispatch::{Given, Turn};
use gx_machine::Engine;
use gx_outside::{Shelf, Sink, Source};
use gx_words::Numbers;
use std::alloc::{AllocError, Allocator};

/// Puts a character to Glk: at once where it comes to a text buffer window alone.
#[inline(always)]
pub fn ask_put<A: Allocator + Clone, E: Engine<A>, K: Sink>(
    run: &mut Running<E>,
    output: &mut K,
    c: u32,
    left: u64,
) -> Result<Next, Halt>
    requires asks { (E.whole run.old.engine).asking ≡ asking_of (Put c) }
    requires fewer { left ≤ run.old.left }
    requires room { left ≤ left_after (E.log run.old.engine) (E.whole run.old.engine) }
    ensures plays { (coming : List ℕ) (start : Configuration) (entry d : Handed K.called)
        → Follows start entry (held_by E.whole E.log run.old coming) (record d { sink = output.old }) left (Put c)
        → EventGives start entry (held_by E.whole E.log run.new coming) (asking_in E.whole run.new)
        (record d { sink = output.new }) result }
    ensures leads { Leads E.whole E.log run.old run.new left result }
    ensures keeps { (d : Devices) → Keeps (record d { sink = K.seen output.old })
        (record d { sink = K.seen output.new }) result }
    ensures lines { run.new.lines ≡ run.old.lines }
{
    match glk_dispatch::put_text(&mut run.world, c) {
        Ok(true) => answer_puts(run, output, left),
        Ok(false) => ask_any_put(run, output, c, left),
        Err(AllocError) => Err(Halt::NoMemory),
    }
}

/// Puts a character to Glk, wherever it goes.
#[inline(never)]
fn ask_any_put<A: Allocator + Clone, E: Engine<A>, K: Sink>(
    run: &mut Running<E>,
    output: &mut K,
    c: u32,
    left: u64,
) -> Result<Next, Halt>
    requires asks { (E.whole run.old.engine).asking ≡ asking_of (Put c) }
    requires fewer { left ≤ run.old.left }
    requires room { left ≤ left_after (E.log run.old.engine) (E.whole run.old.engine) }
    ensures plays { (coming : List ℕ) (start : Configuration) (entry d : Handed K.called)
        → Follows start entry (held_by E.whole E.log run.old coming) (record d { sink = output.old }) left (Put c)
        → EventGives start entry (held_by E.whole E.log run.new coming) (asking_in E.whole run.new)
        (record d { sink = output.new }) result }
    ensures leads { Leads E.whole E.log run.old run.new left result }
    ensures keeps { (d : Devices) → Keeps (record d { sink = K.seen output.old })
        (record d { sink = K.seen output.new }) result }
    ensures lines { run.new.lines ≡ run.old.lines }
{
    match glk_dispatch::put(&mut run.world, run.engine.state(), c) {
        Err(fault) => faulted(fault),
        Ok(reply) => answer(run, output, &reply, left),
    }
}

/// Takes the answer of a Glk call that went on.
fn take_answer<A: Allocator + Clone, E: Engine<A>, K: Sink>(
    run: &mut Running<E>,
    output: &mut K,
    turn: Turn,
    wait: GlkWait,
) -> Result<Next, Halt>
    requires asks { (E.whole run.old.engine).asking ≡ Some (asking.Glk wait.room) }
    requires answered { IsAnswered turn }
    requires fits { IsTurnFor (E.whole run.old.engine).machine.flat wait.room turn }
    requires fewer { wait.left ≤ run.old.left }
    requires room { wait.left ≤ left_after (E.log run.old.engine) (E.whole run.old.engine) }
    ensures plays { (coming : List ℕ) (start : Configuration) (entry d : Handed K.called)
        → GoesOn start entry (held_by E.whole E.log run.old coming) (asking_in E.whole run.old)
        (record d { sink = output.old }) wait turn
        → EventGives start entry (held_by E.whole E.log run.new coming) (asking_in E.whole run.new)
        (record d { sink = output.new }) result }
    ensures leads { Leads E.whole E.log run.old run.new wait.left result }
    ensures keeps { (d : Devices) → Keeps (record d { sink = K.seen output.old })
        (record d { sink = K.seen output.new }) result }
    ensures lines { run.new.lines ≡ run.old.lines }
{
    match turn {
        Turn::Answer(reply) => answer(run, output, &reply, wait.left),
        _ => unreachable!(),
    }
}

/// Goes on with a Glk call that waits.
fn go_on<A: Allocator + Clone, E: Engine<A>, K: Sink>(
    run: &mut Running<E>,
    output: &mut K,
    given: Given,
    wait: GlkWait,
) -> Result<Next, Halt>
    requires asks { (E.whole run.old.engine).asking ≡ Some (asking.Glk wait.room) }
    requires awaits { Awaits run.old.world.scene given }
    requires fewer { wait.left ≤ run.old.left }
    requires room { wait.left ≤ left_after (E.log run.old.engine) (E.whole run.old.engine) }
    ensures plays { (coming : List ℕ) (start : Configuration) (entry d : Handed K.called)
        → IsInCall start entry (held_by E.whole E.log run.old coming) (asking_in E.whole run.old)
        (record d { sink = output.old }) (goes_on given wait)
        → EventGives start entry (held_by E.whole E.log run.new coming) (asking_in E.whole run.new)
        (record d { sink = output.new }) result }
    ensures leads { Leads E.whole E.log run.old run.new wait.left result }
    ensures keeps { (d : Devices) → Keeps (record d { sink = K.seen output.old })
        (record d { sink = K.seen output.new }) result }
    ensures lines { run.new.lines ≡ run.old.lines }
{
    match glk_dispatch::go_on(&mut run.world, run.engine.state(), wait.room, given) {
        Err(fault) => faulted(fault),
        Ok(turn) => take_answer(run, output, turn, wait),
    }
}

/// Asks the shelf, once the pending text is sent.
fn consult<A: Allocator + Clone, E: Engine<A>, K: Sink, F: Shelf>(
    run: &mut Running<E>,
    output: &mut K,
    shelf: &mut F,
    question: Question,
    wait: GlkWait,
) -> Result<Next, Halt>
    requires asks { (E.whole run.old.engine).asking ≡ Some (asking.Glk wait.room) }
    requires awaits { (given : Given) → IsGivenFor (turn_of question) given → Awaits run.old.world.scene given }
    requires fewer { wait.left ≤ run.old.left }
    requires room { wait.left ≤ left_after (E.log run.old.engine) (E.whole run.old.engine) }
    ensures plays { IsCalled F.called shelf.old shelf.new
        (λ asked. (coming : List ℕ) (start : Configuration) (entry d : Handed K.called)
        → AreTold start.answers d.asked asked
        → IsInCall start entry (held_by E.whole E.log run.old coming) (asking_in E.whole run.old)
        (record d { sink = output.old; shelf = F.seen shelf.old }) (asks (turn_of question) wait)
        → EventGives start entry (held_by E.whole E.log run.new coming) (asking_in E.whole run.new)
        (record d { sink = output.new; shelf = F.seen shelf.new; asked = d.asked ++ asked }) result) }
    ensures leads { Leads E.whole E.log run.old run.new wait.left result }
    ensures keeps { (d : Devices) → Keeps (record d { sink = K.seen output.old; shelf = F.seen shelf.old })
        (record d { sink = K.seen output.new; shelf = F.seen shelf.new }) result }
    ensures lines { run.new.lines ≡ run.old.lines }
{
    flush(&mut run.world, output, 1)?;
    let given = question.ask(shelf)?;
    go_on(run, output, given, wait)
}

/// Shows a line where lines are shown.
fn show_line<E>(run: &mut Running<E>, line: &Numbers) -> Result<(), Halt>
    ensures shown { OnOk result (run.new
        ≡ record run.old {
          world = if run.old.echo
              then after run.old.world (show_line run.old.world.scene line.now) else run.old.world;
        }) }
    ensures err { OnErr result (run.new ≡ record run.old { world = run.new.world }) }
    ensures memory { IfErr result (λ halt. halt ≡ Halt.NoMemory) }
    ensures echo { OnErr result (run.old.echo ≡ true) }
{
    if run.echo {
        run.world.show_line(line)?;
    }
    Ok(())
}

/// Goes on with a line that was taken.
fn take_line<A: Allocator + Clone, E: Engine<A>, K: Sink>(
    run: &mut Running<E>,
    output: &mut K,
    line: Numbers,
    wait: GlkWait,
) -> Result<Next, Halt>
    requires asks { (E.whole run.old.engine).asking ≡ Some (asking.Glk wait.room) }
    requires awaits { Awaits run.old.world.scene (given.Line line) }
    requires fewer { wait.left ≤ run.old.left }
    requires room { wait.left ≤ left_after (E.log run.old.engine) (E.whole run.old.engine) }
    ensures plays { (coming : List ℕ) (start : Configuration) (entry d : Handed K.called)
        → TakesInput start entry (held_by E.whole E.log run.old coming) (asking_in E.whole run.old)
        (record d { sink = output.old }) line wait
        → EventGives start entry (held_by E.whole E.log run.new coming) (asking_in E.whole run.new)
        (record d { sink = output.new }) result }
    ensures leads { Leads E.whole E.log run.old run.new wait.left result }
    ensures keeps { (d : Devices) → Keeps (record d { sink = K.seen output.old })
        (record d { sink = K.seen output.new }) result }
    ensures lines { run.new.lines ≡ run.old.lines }
{
    show_line(run, &line)?;
    go_on(run, output, Given::Line(line), wait)
}

/// What it is to a run that no line was taken.
fn without_line(none: NoLine) -> Result<Next, Halt>
    ensures { result ≡ without_line none }
{
    match none {
        NoLine::Ended => Ok(Next::Stops(Stop::InputEnded)),
        NoLine::TooLong => Ok(Next::Stops(Stop::LineTooLong)),
        NoLine::Failed => Err(Halt::Input),
        NoLine::NoMemory => Err(Halt::NoMemory),
    }
}

/// Takes the next line of the input, once the pending text is sent.
fn await_line<A: Allocator + Clone, E: Engine<A>, S: Source, K: Sink>(
    run: &mut Running<E>,
    input: &mut S,
    output: &mut K,
    wait: GlkWait,
) -> Result<Next, Halt>
    requires asks { (E.whole run.old.engine).asking ≡ Some (asking.Glk wait.room) }
    requires awaits { (line : List ℕ) → Awaits run.old.world.scene (given.Line line) }
    requires fewer { wait.left ≤ run.old.left }
    requires room { wait.left ≤ left_after (E.log run.old.engine) (E.whole run.old.engine) }
    ensures plays { Fed S.called S.seen run.old.lines run.new.lines input.old input.new
        (λ coming after. (turn : Turn) (start : Configuration) (entry d : Handed K.called)
        → IsWait turn
        → IsInCall start entry (held_by E.whole E.log run.old coming) (asking_in E.whole run.old)
        (record d { source = S.seen input.old; sink = output.old }) (asks turn wait)
        → EventGives start entry (held_by E.whole E.log run.new after) (asking_in E.whole run.new)
        (record d { source = S.seen input.new; sink = output.new }) result) }
    ensures leads { Leads E.whole E.log run.old run.new wait.left result }
    ensures keeps { (d : Devices) → Keeps (record d { source = S.seen input.old; sink = K.seen output.old })
        (record d { source = S.seen input.new; sink = K.seen output.new }) result }
{
    flush(&mut run.world, output, 1)?;
    match run.lines.next(input) {
        Ok(line) => take_line(run, output, line, wait),
        Err(none) => without_line(none),
    }
}

/// Waits for a line: what the view shows then is shown, and then it is taken.
fn wait_for_line<A: Allocator + Clone, E: Engine<A>, S: Source, K: Sink>(
    run: &mut Running<E>,
    input: &mut S,
    output: &mut K,
    wait: GlkWait,
) -> Result<Next, Halt>
    requires asks { (E.whole run.old.engine).asking ≡ Some (asking.Glk wait.room) }
    requires awaits { (line : List ℕ) → Awaits run.old.world.scene (given.Line line) }
    requires fewer { wait.left ≤ run.old.left }
    requires room { wait.left ≤ left_after (E.log run.old.engine) (E.whole run.old.engine) }
    ensures plays { Fed S.called S.seen run.old.lines run.new.lines input.old input.new
        (λ coming after. (turn : Turn) (start : Configuration) (entry d : Handed K.called)
        → IsWait turn
        → TakesTurn start entry (held_by E.whole E.log run.old coming) (asking_in E.whole run.old)
        (record d { source = S.seen input.old; sink = output.old }) wait turn
        → EventGives start entry (held_by E.whole E.log run.new after) (asking_in E.whole run.new)
        (record d { source = S.seen input.new; sink = output.new }) result) }
    ensures leads { Leads E.whole E.log run.old run.new wait.left result }
    ensures keeps { (d : Devices) → Keeps (record d { source = S.seen input.old; sink = K.seen output.old })
        (record d { source = S.seen input.new; sink = K.seen output.new }) result }
{
    run.world.show_grids()?;
    await_line(run, input, output, wait)
}

/// Follows the turn that a Glk call comes to.
fn take_turn<A: Allocator + Clone, E: Engine<A>, S: Source, K: Sink, F: Shelf>(
    run: &mut Running<E>,
    input: &mut S,
    output: &mut K,
    shelf: &mut F,
    turn: Turn,
    wait: GlkWait,
) -> Result<Next, Halt>
    requires asks { (E.whole run.old.engine).asking ≡ Some (asking.Glk wait.room) }
    requires awaits { (given : Given) → IsGivenFor turn given → Awaits run.old.world.scene given }
    requires fits { IsTurnFor (E.whole run.old.engine).machine.flat wait.room turn }
    requires fewer { wait.left ≤ run.old.left }
    requires room { wait.left ≤ left_after (E.log run.old.engine) (E.whole run.old.engine) }
    ensures plays { IsCalled F.called shelf.old shelf.new
        (λ asked. Fed S.called S.seen run.old.lines run.new.lines input.old input.new
        (λ coming after. (start : Configuration) (entry d : Handed K.called)
        → AreTold start.answers d.asked asked
        → TakesTurn start entry (held_by E.whole E.log run.old coming) (asking_in E.whole run.old)
        (record d { source = S.seen input.old; sink = output.old; shelf = F.seen shelf.old }) wait turn
        → EventGives start entry (held_by E.whole E.log run.new after) (asking_in E.whole run.new)
        (record d {
          source = S.seen input.new;
          sink = output.new;
          shelf = F.seen shelf.new;
          asked = d.asked
              ++ asked;
        }) result)) }
    ensures leads { Leads E.whole E.log run.old run.new wait.left result }
    ensures keeps { (d : Devices) → Keeps
        (record d { source = S.seen input.old; sink = K.seen output.old; shelf = F.seen shelf.old })
        (record d { source = S.seen input.new; sink = K.seen output.new; shelf = F.seen shelf.new }) result }
{
    match turn {
        Turn::Answer(reply) => answer(run, output, &reply, wait.left),
        Turn::Wait => wait_for_line(run, input, output, wait),
        Turn::Stuck => Ok(Next::Stops(Stop::Stuck)),
        Turn::Prompt => wait_for_line(run, input, output, wait),
        Turn::Load(name) => consult(run, output, shelf, Question::Load(name), wait),
        Turn::Store(name, bytes) => {
            consult(run, output, shelf, Question::Store(name, bytes), wait)
        }
        Turn::Remove(name) => consult(run, output, shelf, Question::Remove(name), wait),
        Turn::Has(name) => consult(run, output, shelf, Question::Has(name), wait),
        Turn::Exit => {
            run.left = wait.left;
            Ok(Next::Stops(Stop::Exited))
        }
    }
}

/// Makes a Glk call.
pub fn ask_glk<A: Allocator + Clone, E: Engine<A>, S: Source, K: Sink, F: Shelf>(
    run: &mut Running<E>,
    input: &mut S,
    output: &mut K,
    shelf: &mut F,
    selector: u32,
    args: &ArrayVec<u32, 8>,
    wait: GlkWait,
) -> Result<Next, Halt>
    requires asks { (E.whole run.old.engine).asking ≡ asking_of (Glk selector args.now wait.room) }
    requires fewer { wait.left ≤ run.old.left }
    requires room { wait.left ≤ left_after (E.log run.old.engine) (E.whole run.old.engine) }
    ensures plays { IsCalled F.called shelf.old shelf.new
        (λ asked. Fed S.called S.seen run.old.lines run.new.lines input.old input.new
        (λ coming after. (start : Configuration) (entry d : Handed K.called)
        → AreTold start.answers d.asked asked
        → Follows start entry (held_by E.whole E.log run.old coming)
        (record d { source = S.seen input.old; sink = output.old; shelf = F.seen shelf.old }) wait.left
        (Glk selector args.now wait.room)
        → EventGives start entry (held_by E.whole E.log run.new after) (asking_in E.whole run.new)
        (record d {
          source = S.seen input.new;
          sink = output.new;
          shelf = F.seen shelf.new;
          asked = d.asked
              ++ asked;
        }) result)) }
    ensures leads { Leads E.whole E.log run.old run.new wait.left result }
    ensures keeps { (d : Devices) → Keeps
        (record d { source = S.seen input.old; sink = K.seen output.old; shelf = F.seen shelf.old })
        (record d { source = S.seen input.new; sink = K.seen output.new; shelf = F.seen shelf.new }) result }
{
    match glk_dispatch::call(
        &mut run.world,
        run.engine.state(),
        wait.room,
        selector,
        args.as_slice(),
    ) {
        Err(fault) => faulted(fault),
        Ok(turn) => take_turn(run, input, output, shelf, turn, wait),
    }
}

//! A run of a session from its start.
ghost use Rattle.std.specs.Prelude.{◌≡◌, ◌≤◌, [], None, IsSomeAnd};
ghost use Rattle.gx_machine.specs.Advancing.{units_left};
ghost use Rattle.gx_outside.specs.Chains.{IsCalled};
ghost use Rattle.gx_session.specs.Devices.{devices};
ghost use Rattle.gx_session.specs.Configurations.{start_of};
ghost use Rattle.gx_session.specs.Session.{fault_address};
ghost use Rattle.gx_session.specs.Runs.{IsRun, report_on, report_of};

use crate::Ended;
use crate::ends::Stop;
use crate::events::play_out;
use crate::lines::Lines;
use crate::running::Running;
use crate::saves::saves_read_back;
use glk_world::World;
use gx_machine::{Engine, Machine};
use gx_outside::{Shelf, Sink, Source};
use rand_core::Rng;
use std::alloc::{Allocator, Global};

/// How a run of an engine ended.
#[derive(Drop)]
pub struct EndedOn<E> {
    /// ENDED, or one from FAULT on, of `statuses`.
    pub status: u8,
    /// The fault's number at FAULT, else 0.
    pub fault: u8,
    /// The PC before the faulting step at FAULT, else 0.
    pub at: u32,
    /// The units of the budget that were used.
    pub steps: u64,
    /// The engine as the run left it.
    pub engine: E,
}

/// Where a stop's fault was met, and 0 without one.
fn fault_address<A: Allocator + Clone, E: Engine<A>>(engine: &E, stop: Stop) -> u32
    ensures { result ≡ fault_address stop (E.whole engine.now).machine }
{
    match stop {
        Stop::Faulted(_) => engine.state().pc(),
        _ => 0,
    }
}

/// Runs an engine within a budget of units, for which there is room in what it records. Each event is recorded once it
/// has ended, but for one that ends the program by a Glk call. Where the engine keeps no copy at first, each
/// restoreundo goes back to the copy of the newest saveundo that is neither used, nor discarded, nor dropped as the
/// oldest.
///
/// After a fault or a spent budget, and where no line can be taken, the engine stands before the step,
/// which isn't counted; at the program's end the last step is counted. A Glk call that is stopped there,
/// or that ends the program, stays pending. At each of these ends a screen that is composed is shown once more,
/// or what is held of wrapped text is let go, and then all text is sent and the open files are stored. Where the
/// run is cut short, also at its end, the engine stands at a configuration of the session, and nothing more is
/// shown, sent or stored.
///
/// Lines are taken from `alloc`'s memory; with `echo` each line that is taken is shown.
pub fn run_on<A: Allocator + Clone, E: Engine<A>, S: Source, K: Sink, F: Shelf, R: Rng>(
    alloc: Global,
    engine: E,
    world: World,
    echo: bool,
    steps: u64,
    input: &mut S,
    output: &mut K,
    shelf: &mut F,
    dice: &mut R,
) -> EndedOn<E>
    requires asks_nothing { (E.whole engine).asking ≡ None }
    requires room { steps ≤ units_left (E.log engine) }
    requires no_text { world.text ≡ [] }
    ensures { IsCalled S.called input.old input.new (λ reads. IsCalled K.called output.old output.new (λ sends.
        IsCalled F.called shelf.old shelf.new (λ asked.
        let entry = devices (S.seen input.old) (K.seen output.old) (F.seen shelf.old) (R.stream dice.old) [] [] [] in
        let exit = devices (S.seen input.new) (K.seen output.new) (F.seen shelf.new) (R.stream dice.new) reads sends
        asked in
        IsRun (start_of (E.whole engine).machine world entry echo steps (E.log engine)) entry exit
        (report_on E.whole E.log result)))) }
{
    saves_read_back(&engine);
    let mut run = Running {
        engine,
        world,
        lines: Lines::new(alloc),
        echo,
        word: None,
        left: steps,
    };
    let ended = play_out(&mut run, input, output, shelf, dice);
    let Running {
        engine,
        world: _,
        lines: _,
        echo: _,
        word: _,
        left,
    } = run;
    let used = steps - left;
    match ended {
        Ok(stop) => EndedOn {
            status: stop.status(),
            fault: stop.fault(),
            at: fault_address(&engine, stop),
            steps: used,
            engine,
        },
        Err(halt) => EndedOn {
            status: halt.status(),
            fault: 0,
            at: 0,
            steps: used,
            engine,
        },
    }
}

/// Runs a machine within a budget of units, as `run_on` does. The machine is always handed back.
pub fn run<A: Allocator + Clone, S: Source, K: Sink, F: Shelf, R: Rng>(
    alloc: Global,
    machine: Machine<A>,
    world: World,
    echo: bool,
    steps: u64,
    input: &mut S,
    output: &mut K,
    shelf: &mut F,
    dice: &mut R,
) -> Ended<A>
    requires asks_nothing { machine.asking ≡ None }
    requires no_text { world.text ≡ [] }
    ensures { IsCalled S.called input.old input.new (λ reads. IsCalled K.called output.old output.new (λ sends.
        IsCalled F.called shelf.old shelf.new (λ asked.
        let entry = devices (S.seen input.old) (K.seen output.old) (F.seen shelf.old) (R.stream dice.old) [] [] [] in
        let exit = devices (S.seen input.new) (K.seen output.new) (F.seen shelf.new) (R.stream dice.new) reads sends
        asked in
        IsSomeAnd result.machine (λ end.
        IsRun (start_of machine.machine world entry echo steps None) entry exit (report_of result end))))) }
{
    let ended = run_on(
        alloc, machine, world, echo, steps, input, output, shelf, dice,
    );
    Ended {
        status: ended.status,
        fault: ended.fault,
        at: ended.at,
        steps: ended.steps,
        machine: Some(ended.engine),
    }
}

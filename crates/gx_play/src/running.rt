//! A run as a command asks for it: within its budget, in its view and on its screen, and with its random words.
ghost use Rattle.std.specs.Prelude.{◌≡◌, ◌≤◌, None, []};
ghost use Rattle.gx_machine.specs.Advancing.{units_left};
ghost use Rattle.gx_outside.specs.Chains.{IsCalled};
ghost use Rattle.gx_session.specs.Devices.{devices};
ghost use Rattle.gx_session.specs.Runs.{report_on};
ghost use Rattle.gx_play.specs.Outcomes.{start_for};
ghost use Rattle.gx_play.specs.Answers.{IsRunTo};
ghost use Rattle.gx_play.specs.Reading.{command_seen, IsInRange};

use crate::command::Command;
use gx_machine::Engine;
use gx_outside::{Shelf, Sink, Source};
use gx_session::{EndedOn, run_on};
use rand_core::{Rng, SeedableRng};
use rand_pcg::Pcg32;
use std::alloc::{Allocator, Global};

/// Runs an engine with the command's random words: those of its seed, or else those of `dice`.
pub fn run_command<A: Allocator + Clone, E: Engine<A>, S: Source, K: Sink, F: Shelf, R: Rng>(
    alloc: Global,
    engine: E,
    command: Command<'_>,
    input: &mut S,
    output: &mut K,
    shelf: &mut F,
    dice: &mut R,
) -> EndedOn<E>
    requires asks_nothing { (E.whole engine).asking ≡ None }
    requires room { command.steps ≤ units_left (E.log engine) }
    requires range { IsInRange command }
    ensures { IsCalled S.called input.old input.new (λ reads. IsCalled K.called output.old output.new (λ sends.
        IsCalled F.called shelf.old shelf.new (λ asked.
        let entry = devices (S.seen input.old) (K.seen output.old) (F.seen shelf.old) (R.stream dice.old) [] [] [] in
        let exit = devices (S.seen input.new) (K.seen output.new) (F.seen shelf.new) (R.stream dice.new) reads sends
        asked in
        let start = start_for (command_seen command.entry) (E.whole engine) (E.log engine) entry in
        IsRunTo command.entry.seed start entry exit (report_on E.whole E.log result)))) }
{
    let world = command.world(alloc);
    match command.seed {
        None => run_on(
            alloc,
            engine,
            world,
            command.echo,
            command.steps,
            input,
            output,
            shelf,
            dice,
        ),
        Some(seed) => {
            let mut words = Pcg32::seed_from_u64(seed);
            run_on(
                alloc,
                engine,
                world,
                command.echo,
                command.steps,
                input,
                output,
                shelf,
                &mut words,
            )
        }
    }
}

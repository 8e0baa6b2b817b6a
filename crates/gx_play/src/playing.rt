//! The jobs play and rewind: the story is loaded and played within a budget, in the view that the words ask for, with
//! the random words of a seed where there is one. In job rewind it is played on a tape.
ghost use Rattle.std.specs.Prelude.{◌≡◌, ◌≢◌, None, []};
ghost use Rattle.gx_words.specs.declared.faults.Fault.TheVariants.{NoMemory};
ghost use Rattle.gx_words.specs.Faults.{number_of};
ghost use Rattle.gx_machine.specs.Start.{first_machine};
ghost use Rattle.gx_outside.specs.Chains.{IsCalled};
ghost use Rattle.gx_session.specs.Devices.{devices};
ghost use Rattle.gx_session.specs.Constants.{status_bad_words, status_fault, status_no_memory};
ghost use Rattle.gx_play.specs.declared.command.Job.TheVariants.{Play};
ghost use Rattle.gx_play.specs.Outcomes.{outcome_of_start, start_for};
ghost use Rattle.gx_play.specs.Answers.{HasNoMachine, IsRunOf};
ghost use Rattle.gx_play.specs.Statuses.{PlaysStory};
ghost use Rattle.gx_play.specs.Loading.{StoryPlays, HasRunParts, IsJobDone};
ghost use Rattle.gx_play.specs.Reading.{command_seen, IsInRange};
ghost use Rattle.gx_session.specs.Counts.{FailureCounts};

use crate::command::{Command, Job};
use crate::loading::{load_story, without_machine, without_story};
use crate::rewinding::rewind_machine;
use crate::running::run_command;
use gx_machine::Machine;
use gx_outside::{Shelf, Sink, Source};
use gx_session::{Ended, statuses};
use gx_story::Story;
use gx_words::Fault;
use rand_core::Rng;
use std::alloc::{Allocator, Global};

/// Plays the story of the command's file.
pub fn play_file<A: Allocator + Clone, S: Source, K: Sink, F: Shelf, R: Rng>(
    alloc: Global,
    pages: A,
    command: Command<'_>,
    input: &mut S,
    output: &mut K,
    shelf: &mut F,
    dice: &mut R,
) -> Ended<A>
    requires range { IsInRange command }
    requires plays { PlaysStory command.job }
    ensures { IsCalled S.called input.old input.new (λ reads. IsCalled K.called output.old output.new (λ sends.
        IsCalled F.called shelf.old shelf.new (λ asked.
        let entry = devices (S.seen input.old) (K.seen output.old) (F.seen shelf.old) (R.stream dice.old) [] [] [] in
        let exit = devices (S.seen input.new) (K.seen output.new) (F.seen shelf.new) (R.stream dice.new) reads sends
        asked in
        IsJobDone command.entry.job (command_seen command.entry) entry exit result))) }
{
    match load_story(alloc, shelf, command.story) {
        Err(refusal) => without_story(refusal),
        Ok(story) => play_story(alloc, pages, story, command, input, output, shelf, dice),
    }
}

/// Plays a story, in job rewind on a tape.
fn play_story<A: Allocator + Clone, S: Source, K: Sink, F: Shelf, R: Rng>(
    alloc: Global,
    pages: A,
    story: Story,
    command: Command<'_>,
    input: &mut S,
    output: &mut K,
    shelf: &mut F,
    dice: &mut R,
) -> Ended<A>
    requires { IsInRange command }
    ensures plays { IsCalled S.called input.old input.new (λ reads. IsCalled K.called output.old output.new (λ sends.
        IsCalled F.called shelf.old shelf.new (λ asked.
        let entry = devices (S.seen input.old) (K.seen output.old) (F.seen shelf.old) (R.stream dice.old) [] [] [] in
        let exit = devices (S.seen input.new) (K.seen output.new) (F.seen shelf.new) (R.stream dice.new) reads sends
        asked in
        let first = first_machine story command.entry.undo in
        StoryPlays (outcome_of_start command.entry.job (command_seen command.entry) story entry first) entry exit
        result))) }
    ensures counts { let entry = devices (S.seen input.old) (K.seen output.old) (F.seen shelf.old)
        (R.stream dice.old) [] [] [] in
        let exit = devices (S.seen input.new) (K.seen output.new) (F.seen shelf.new) (R.stream dice.new) [] [] [] in
        FailureCounts entry exit result.status }
    ensures parts { HasRunParts (command.entry.job ≡ Play) result }
    ensures began { result.status ≢ status_bad_words }
{
    let start = story.start_function();
    match Machine::start(alloc, pages, story, command.undo) {
        Err(fault) => unstarted(fault, start),
        Ok(machine) => match command.job {
            Job::Rewind => rewind_machine(alloc, machine, command, input, output, shelf, dice),
            _ => run_machine(alloc, machine, command, input, output, shelf, dice),
        },
    }
}

/// Runs a machine, and hands it back.
fn run_machine<A: Allocator + Clone, S: Source, K: Sink, F: Shelf, R: Rng>(
    alloc: Global,
    machine: Machine<A>,
    command: Command<'_>,
    input: &mut S,
    output: &mut K,
    shelf: &mut F,
    dice: &mut R,
) -> Ended<A>
    requires asks_nothing { machine.asking ≡ None }
    requires range { IsInRange command }
    ensures runs { IsCalled S.called input.old input.new (λ reads. IsCalled K.called output.old output.new (λ sends.
        IsCalled F.called shelf.old shelf.new (λ asked.
        let entry = devices (S.seen input.old) (K.seen output.old) (F.seen shelf.old) (R.stream dice.old) [] [] [] in
        let exit = devices (S.seen input.new) (K.seen output.new) (F.seen shelf.new) (R.stream dice.new) reads sends
        asked in
        IsRunOf command.entry.seed (start_for (command_seen command.entry) machine None entry) entry exit result))) }
    ensures counts { let entry = devices (S.seen input.old) (K.seen output.old) (F.seen shelf.old)
        (R.stream dice.old) [] [] [] in
        let exit = devices (S.seen input.new) (K.seen output.new) (F.seen shelf.new) (R.stream dice.new) [] [] [] in
        FailureCounts entry exit result.status }
    ensures parts { HasRunParts (Unit {0}) result }
    ensures began { result.status ≢ status_bad_words }
{
    let ended = run_command(alloc, machine, command, input, output, shelf, dice);
    Ended {
        status: ended.status,
        fault: ended.fault,
        at: ended.at,
        steps: ended.steps,
        machine: Some(ended.engine),
    }
}

/// The answer where the start function, at this address, can't be entered.
fn unstarted<A: Allocator + Clone>(fault: Fault, at: u32) -> Ended<A>
    ensures memory { fault ≡ NoMemory → HasNoMachine result status_no_memory 0 0 0 }
    ensures fault { fault ≢ NoMemory → HasNoMachine result status_fault (number_of fault) at 0 }
    ensures parts { HasRunParts (Unit {0}) result }
{
    match fault {
        Fault::NoMemory => without_machine(statuses::NO_MEMORY, 0, 0),
        _ => without_machine(statuses::FAULT, fault.number(), at),
    }
}

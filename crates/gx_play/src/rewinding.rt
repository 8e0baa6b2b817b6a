//! Job rewind: the story is played on a tape, which goes back from the end of the run and tells of its machine there.
ghost use Rattle.std.specs.Prelude.{◌≡◌, ◌≢◌, ◌<◌, ◌⊎◌, ◌++◌, ◌∷◌, [], None, Some, IfOk, decimal, string_bytes};
ghost use Rattle.gx_state.specs.Flat.{sp_of};
ghost use Rattle.gx_machine.specs.Log.{no_events};
ghost use Rattle.gx_session.specs.Constants.{status_bad_words, status_shelf_fault};
ghost use Rattle.gx_outside.specs.Chains.{IsCalled};
ghost use Rattle.gx_session.specs.Devices.{devices};
ghost use Rattle.gx_session.specs.Reports.{hex_of};
ghost use Rattle.gx_session.specs.Runs.{report_on};
ghost use Rattle.gx_play.specs.Outcomes.{start_for};
ghost use Rattle.gx_play.specs.Answers.{HasNoMachine, IsRewindOf, IsRewound};
ghost use Rattle.gx_play.specs.Jobs.{ram_sum_of};
ghost use Rattle.gx_play.specs.Loading.{BlamesSink, HasRunParts, IsStill};
ghost use Rattle.gx_play.specs.Reading.{command_seen, IsInRange};
ghost use Rattle.gx_play.specs.Rewinding.{rewind_line};
ghost use Rattle.gx_session.specs.Counts.{FailureCounts};

use crate::command::Command;
use crate::figures::ram_sum;
use crate::loading::without_machine;
use crate::running::run_command;
use crate::telling::send_output;
use gx_machine::Machine;
use gx_outside::{Shelf, Sink, Source};
use gx_rewind::Tape;
use gx_session::numerals::{push_hex, push_number};
use gx_session::{Ended, EndedOn, statuses};
use gx_state::State;
use rand_core::Rng;
use std::alloc::{AllocError, Allocator, Global};

/// At least so many units lie between two checkpoints of a tape.
const EVERY: u64 = 1_000_000;

/// At most so many checkpoints are kept.
const MOST: usize = 8;

/// Runs a machine on a tape, and then tells of it as it stood so many units before the end.
pub fn rewind_machine<A: Allocator + Clone, S: Source, K: Sink, F: Shelf, R: Rng>(
    alloc: Global,
    machine: Machine<A>,
    command: Command<'_>,
    input: &mut S,
    output: &mut K,
    shelf: &mut F,
    dice: &mut R,
) -> Ended<A>
    requires asks_nothing { machine.asking ≡ None }
    requires range { IsInRange command }
    ensures rewinds { IsCalled S.called input.old input.new (λ reads. IsCalled K.called output.old output.new (λ sends.
        IsCalled F.called shelf.old shelf.new (λ asked.
        let entry = devices (S.seen input.old) (K.seen output.old) (F.seen shelf.old) (R.stream dice.old) [] [] [] in
        let exit = devices (S.seen input.new) (K.seen output.new) (F.seen shelf.new) (R.stream dice.new) reads sends
        asked in
        let start = start_for (command_seen command.entry) machine (Some no_events) entry in
        IsRewindOf command.entry.seed command.entry.back start entry exit result ⊎ IsStill entry exit result))) }
    ensures counts { let entry = devices (S.seen input.old) (K.seen output.old) (F.seen shelf.old)
        (R.stream dice.old) [] [] [] in
        let exit = devices (S.seen input.new) (K.seen output.new) (F.seen shelf.new) (R.stream dice.new) [] [] [] in
        FailureCounts entry exit result.status }
    ensures parts { HasRunParts ⊥ result }
    ensures began { result.status ≢ status_bad_words }
{
    match Tape::new(alloc, machine, EVERY, MOST) {
        Err(_) => without_machine(statuses::NO_MEMORY, 0, 0),
        Ok(tape) => {
            let ended = run_command(alloc, tape, command, input, output, shelf, dice);
            tell_rewound(alloc, ended, command.back, output)
        }
    }
}

/// Goes back by so many units from the end of a run, and sends the line. Where the run was cut short nothing is sent.
fn tell_rewound<A: Allocator + Clone, K: Sink>(
    alloc: Global,
    ended: EndedOn<Tape<A>>,
    back: u64,
    output: &mut K,
) -> Ended<A>
    ensures rewound { IsCalled K.called output.old output.new (λ sends.
        IsRewound back (report_on (λ tape. tape.whole) (λ tape. Some tape.log) ended) (K.seen output.old)
        (K.seen output.new) sends result) }
    ensures blames { ended.status < status_shelf_fault
        → BlamesSink (K.seen output.old) (K.seen output.new) result.status }
{
    let EndedOn {
        status,
        fault,
        at,
        steps,
        engine: tape,
    } = ended;
    if status >= statuses::SHELF_FAULT {
        return after_run(status, fault, at, steps);
    }
    let Ok(line) = rewound_line(alloc, tape, back) else {
        return after_run(statuses::NO_MEMORY, 0, 0, steps);
    };
    let sent = send_output::<A, K>(output, line.as_bytes(), statuses::ENDED);
    if sent.status == statuses::ENDED {
        after_run(status, fault, at, steps)
    } else {
        after_run(sent.status, 0, 0, steps)
    }
}

/// An answer without a machine after a run of so many steps.
fn after_run<A: Allocator + Clone>(status: u8, fault: u8, at: u32, steps: u64) -> Ended<A>
    ensures { HasNoMachine result status fault at steps }
{
    Ended {
        status,
        fault,
        at,
        steps,
        machine: None,
    }
}

/// The line of a tape that goes back by so many units.
fn rewound_line<A: Allocator + Clone>(
    alloc: Global,
    mut tape: Tape<A>,
    back: u64,
) -> Result<String, AllocError>
    ensures { IfOk result (λ line. string_bytes line ≡ rewind_line back tape) }
{
    let units = tape.back(back)?;
    tell_machine(alloc, units, tape.machine().state())
}

/// Units and a machine as a line.
fn tell_machine<A: Allocator + Clone>(
    alloc: Global,
    units: u64,
    state: &State<A>,
) -> Result<String, AllocError>
    ensures { let f = state.now.flat in
        IfOk result (λ line. string_bytes line
        ≡ (decimal units ++ 32 ∷ hex_of 8 f.pc ++ 32 ∷ decimal (sp_of f) ++ 32 ∷ decimal (ram_sum_of f)) ++ 10 ∷ []) }
{
    let mut line = String::new(alloc);
    push_number(&mut line, units)?;
    line.push_str(" ")?;
    push_hex(&mut line, state.pc())?;
    line.push_str(" ")?;
    push_number(&mut line, u64::from(state.stack().size()))?;
    line.push_str(" ")?;
    push_number(&mut line, u64::from(ram_sum(state)))?;
    line.push_str("\n")?;
    Ok(line)
}

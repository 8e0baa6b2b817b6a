//! Job asm: a text is assembled, and the story of its code is sent.
//!
//! Nothing is sent where the text isn't understood. A code is no longer than its text, so that every text that is
//! loaded has a story that is no longer than the longest that is accepted.
ghost use Rattle.std.specs.Prelude.{◌≡◌, ◌≢◌, ◌≤◌, length, []};
ghost use Rattle.gx_asm.specs.declared.faults.AsmFault.TheVariants.{NoMemory};
ghost use Rattle.gx_asm.specs.Faults.{number_in_text, line_in_text};
ghost use Rattle.gx_asm.specs.Texts.{assembled};
ghost use Rattle.gx_session.specs.Constants.{status_bad_text, status_no_memory};
ghost use Rattle.gx_outside.specs.Chains.{IsCalled};
ghost use Rattle.gx_session.specs.Devices.{Devices};
ghost use Rattle.gx_play.specs.declared.command.Job.TheVariants.{Asm};
ghost use Rattle.gx_play.specs.Constants.{most_text};
ghost use Rattle.gx_play.specs.Outcomes.{outcome_of_code};
ghost use Rattle.gx_play.specs.Answers.{HasNoMachine};
ghost use Rattle.gx_play.specs.Loading.{IsJobDone, JobTells, BlamesSink};
ghost use Rattle.gx_play.specs.Reading.{command_seen};

use crate::command::Command;
use crate::loading::{load_text, without_machine, without_story};
use crate::telling::send_output;
use gx_asm::{AsmFault, assemble, wrap_code};
use gx_outside::{Shelf, Sink};
use gx_session::{Ended, statuses};
use std::alloc::{Allocator, Global};

/// Sends the story of the text in the command's file.
pub fn assemble_file<A: Allocator + Clone, K: Sink, F: Shelf>(
    alloc: Global,
    command: Command<'_>,
    output: &mut K,
    shelf: &mut F,
) -> Ended<A>
    ensures { IsCalled K.called output.old output.new (λ sends. IsCalled F.called shelf.old shelf.new
        (λ asked. (d : Devices) → IsJobDone Asm (command_seen command.entry)
        (record d { sink = K.seen output.old; shelf = F.seen shelf.old; sends = []; asked = [] })
        (record d { sink = K.seen output.new; shelf = F.seen shelf.new; sends = sends; asked = asked }) result)) }
{
    match load_text(shelf, command.story) {
        Err(refusal) => without_story(refusal),
        Ok(text) => send_story(alloc, text.as_slice(), output),
    }
}

/// Sends the story of a text's code.
fn send_story<A: Allocator + Clone, K: Sink>(alloc: Global, text: &[u8], output: &mut K) -> Ended<A>
    requires { length text.now ≤ most_text }
    ensures tells { IsCalled K.called output.old output.new (λ sends.
        JobTells (outcome_of_code (assembled text.now)) (K.seen output.old) (K.seen output.new) sends result) }
    ensures blames { BlamesSink (K.seen output.old) (K.seen output.new) result.status }
    ensures number { result.status ≡ status_bad_text → (1 ≤ result.fault) × (result.fault ≤ 4) }
{
    match assemble(alloc, text) {
        Err(fault) => without_code(fault),
        Ok(code) => match wrap_code(alloc, code.as_slice()) {
            Err(_) => without_machine(statuses::NO_MEMORY, 0, 0),
            Ok(story) => send_output(output, story.as_slice(), statuses::ENDED),
        },
    }
}

/// The answer where a text has no code, or where memory ran out.
#[tactic(auto, using(crate::proofs::Told::numbers))]
fn without_code<A: Allocator + Clone>(fault: AsmFault) -> Ended<A>
    ensures memory { fault ≡ NoMemory → HasNoMachine result status_no_memory 0 0 0 }
    ensures fault { fault ≢ NoMemory → HasNoMachine result status_bad_text (number_in_text fault)
        (line_in_text fault) 0 }
    ensures number { result.status ≡ status_bad_text → (1 ≤ result.fault) × (result.fault ≤ 4) }
{
    match fault {
        AsmFault::NoMemory => without_machine(statuses::NO_MEMORY, 0, 0),
        _ => without_machine(statuses::BAD_TEXT, fault.number(), fault.line()),
    }
}

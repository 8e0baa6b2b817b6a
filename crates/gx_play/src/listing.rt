//! Job list: the text of a story's start function is sent, up to its first quit or return.
//!
//! Nothing is sent where the story has no listing.
ghost use Rattle.std.specs.Prelude.{◌≡◌, ◌≢◌, ◌≤◌, []};
ghost use Rattle.gx_asm.specs.declared.faults.ListFault.TheVariants.{NoMemory};
ghost use Rattle.gx_asm.specs.Faults.{number_in_code, place_in_code};
ghost use Rattle.gx_asm.specs.Stories.{listed_story};
ghost use Rattle.gx_session.specs.Constants.{status_no_listing, status_no_memory};
ghost use Rattle.gx_outside.specs.Chains.{IsCalled};
ghost use Rattle.gx_session.specs.Devices.{Devices};
ghost use Rattle.gx_play.specs.declared.command.Job.TheVariants.{List};
ghost use Rattle.gx_play.specs.Outcomes.{outcome_of_listing};
ghost use Rattle.gx_play.specs.Answers.{HasNoMachine};
ghost use Rattle.gx_play.specs.Loading.{IsJobDone, JobTells, BlamesSink};
ghost use Rattle.gx_play.specs.Reading.{command_seen};

use crate::command::Command;
use crate::loading::{load_story, without_machine, without_story};
use crate::telling::send_output;
use gx_asm::{ListFault, list_story};
use gx_outside::{Shelf, Sink};
use gx_session::{Ended, statuses};
use gx_story::Story;
use std::alloc::{Allocator, Global};

/// Sends the text of the story in the command's file.
pub fn list_file<A: Allocator + Clone, K: Sink, F: Shelf>(
    alloc: Global,
    command: Command<'_>,
    output: &mut K,
    shelf: &mut F,
) -> Ended<A>
    ensures { IsCalled K.called output.old output.new (λ sends. IsCalled F.called shelf.old shelf.new
        (λ asked. (d : Devices) → IsJobDone List (command_seen command.entry)
        (record d { sink = K.seen output.old; shelf = F.seen shelf.old; sends = []; asked = [] })
        (record d { sink = K.seen output.new; shelf = F.seen shelf.new; sends = sends; asked = asked }) result)) }
{
    match load_story(alloc, shelf, command.story) {
        Err(refusal) => without_story(refusal),
        Ok(story) => send_listing(alloc, &story, output),
    }
}

/// Sends the text of a story's start function.
fn send_listing<A: Allocator + Clone, K: Sink>(
    alloc: Global,
    story: &Story,
    output: &mut K,
) -> Ended<A>
    ensures tells { IsCalled K.called output.old output.new (λ sends.
        JobTells (outcome_of_listing (listed_story story.now)) (K.seen output.old) (K.seen output.new) sends result) }
    ensures blames { BlamesSink (K.seen output.old) (K.seen output.new) result.status }
    ensures number { result.status ≡ status_no_listing → (1 ≤ result.fault) × (result.fault ≤ 5) }
{
    match list_story(alloc, story) {
        Err(fault) => without_listing(fault),
        Ok(text) => send_output(output, text.as_slice(), statuses::ENDED),
    }
}

/// The answer where a story has no listing, or where memory ran out.
#[tactic(auto, using(crate::proofs::Told::numbers))]
fn without_listing<A: Allocator + Clone>(fault: ListFault) -> Ended<A>
    ensures memory { fault ≡ NoMemory → HasNoMachine result status_no_memory 0 0 0 }
    ensures fault { fault ≢ NoMemory → HasNoMachine result status_no_listing (number_in_code fault)
        (place_in_code fault) 0 }
    ensures number { result.status ≡ status_no_listing → (1 ≤ result.fault) × (result.fault ≤ 5) }
{
    match fault {
        ListFault::NoMemory => without_machine(statuses::NO_MEMORY, 0, 0),
        _ => without_machine(statuses::NO_LISTING, fault.number(), fault.at()),
    }
}

//! Job check: tells whether the story has the checksum that its header states.
ghost use Rattle.std.specs.Prelude.{[]};
ghost use Rattle.gx_outside.specs.Chains.{IsCalled};
ghost use Rattle.gx_session.specs.Devices.{Devices};
ghost use Rattle.gx_play.specs.declared.command.Job.TheVariants.{Check};
ghost use Rattle.gx_play.specs.Answers.{SendsOutput};
ghost use Rattle.gx_play.specs.Jobs.{check_told};
ghost use Rattle.gx_play.specs.Loading.{IsJobDone, BlamesSink};
ghost use Rattle.gx_play.specs.Reading.{command_seen};

use crate::command::Command;
use crate::loading::{load_story, without_story};
use crate::telling::send_output;
use gx_outside::{Shelf, Sink};
use gx_session::{Ended, statuses};
use std::alloc::{Allocator, Global};

/// Tells whether the checksum of the story in the command's file is right.
pub fn check_file<A: Allocator + Clone, K: Sink, F: Shelf>(
    alloc: Global,
    command: Command<'_>,
    output: &mut K,
    shelf: &mut F,
) -> Ended<A>
    ensures { IsCalled K.called output.old output.new (λ sends. IsCalled F.called shelf.old shelf.new
        (λ asked. (d : Devices) → IsJobDone Check (command_seen command.entry)
        (record d { sink = K.seen output.old; shelf = F.seen shelf.old; sends = []; asked = [] })
        (record d { sink = K.seen output.new; shelf = F.seen shelf.new; sends = sends; asked = asked }) result)) }
{
    match load_story(alloc, shelf, command.story) {
        Err(refusal) => without_story(refusal),
        Ok(story) => tell_checksum(story.checksum_ok(), output),
    }
}

/// Tells that a checksum is right, or that it isn't.
fn tell_checksum<A: Allocator + Clone, K: Sink>(is_right: bool, output: &mut K) -> Ended<A>
    ensures sends { IsCalled K.called output.old output.new (λ sends.
        SendsOutput (check_told is_right).0 0 0 0 (check_told is_right).1 (K.seen output.old) (K.seen output.new) sends
        result) }
    ensures blames { BlamesSink (K.seen output.old) (K.seen output.new) result.status }
{
    if is_right {
        send_output(output, b"checksum ok\n", statuses::ENDED)
    } else {
        send_output(output, b"checksum differs\n", statuses::FAULT)
    }
}

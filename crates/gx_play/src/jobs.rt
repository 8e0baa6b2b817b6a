//! The job of a command: which of the six it is.
ghost use Rattle.std.specs.Prelude.{[]};
ghost use Rattle.gx_outside.specs.Chains.{IsCalled};
ghost use Rattle.gx_session.specs.Devices.{devices};
ghost use Rattle.gx_play.specs.Loading.{IsJobDone};
ghost use Rattle.gx_play.specs.Reading.{command_seen, IsInRange};

use crate::assembling::assemble_file;
use crate::checking::check_file;
use crate::command::{Command, Job};
use crate::listing::list_file;
use crate::playing::play_file;
use crate::working::work;
use gx_outside::{Shelf, Sink, Source};
use gx_session::Ended;
use rand_core::Rng;
use std::alloc::{Allocator, Global};

/// Does a command's job.
pub fn do_job<A: Allocator + Clone, S: Source, K: Sink, F: Shelf, R: Rng>(
    alloc: Global,
    pages: A,
    command: Command<'_>,
    input: &mut S,
    output: &mut K,
    shelf: &mut F,
    dice: &mut R,
) -> Ended<A>
    requires { IsInRange command }
    ensures { IsCalled S.called input.old input.new (λ reads. IsCalled K.called output.old output.new (λ sends.
        IsCalled F.called shelf.old shelf.new (λ asked.
        let entry = devices (S.seen input.old) (K.seen output.old) (F.seen shelf.old) (R.stream dice.old) [] [] [] in
        let exit = devices (S.seen input.new) (K.seen output.new) (F.seen shelf.new) (R.stream dice.new) reads sends
        asked in
        IsJobDone command.entry.job (command_seen command.entry) entry exit result))) }
{
    match command.job {
        Job::Play | Job::Rewind => play_file(alloc, pages, command, input, output, shelf, dice),
        Job::Check => check_file(alloc, command, output, shelf),
        Job::Work(number) => work(alloc, pages, number, output),
        Job::Asm => assemble_file(alloc, command, output, shelf),
        Job::List => list_file(alloc, command, output, shelf),
    }
}

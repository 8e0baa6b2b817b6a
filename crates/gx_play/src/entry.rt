//! All that the program does, over objects that are handed in.
//!
//! `play` comes to the outcome that specs/Outcomes has for its command line and for the file under the name there,
//! unless a device fails or memory runs out. Its contract is the theorem of specs/Headline.
ghost use Rattle.std.specs.Prelude.{map, []};
ghost use Rattle.gx_outside.specs.Chains.{IsCalled};
ghost use Rattle.gx_session.specs.Devices.{devices};
ghost use Rattle.gx_play.specs.Headline.{IsPlayed};
ghost use Rattle.gx_play.specs.Commands.{command_of};

use crate::command::{CommandFault, read_command};
use crate::jobs::do_job;
use crate::loading::without_machine;
use gx_outside::{Shelf, Sink, Source};
use gx_session::{Ended, statuses};
use rand_core::Rng;
use std::alloc::{Allocator, Global};

/// Does what a command line asks for: plays a story, or plays one and goes back in its run, checks or lists one, plays
/// the one that is made of a number, or assembles a text.
///
/// `words` are the command line, the program's name first; `pages` is where the machine's memory
/// comes from. The input, the text, the files and the random words are those of the objects handed
/// in, and `dice` may be left one word after those that were used. With a seed on the command line no word
/// is taken from `dice`.
///
/// The machine that is handed back is as the run left it, and None where none was started, and in every job
/// but play.
pub fn play<A: Allocator + Clone, S: Source, K: Sink, F: Shelf, R: Rng>(
    alloc: Global,
    pages: A,
    words: &[&str],
    input: &mut S,
    output: &mut K,
    shelf: &mut F,
    dice: &mut R,
) -> Ended<A>
    ensures { IsCalled S.called input.old input.new (λ reads. IsCalled K.called output.old output.new (λ sends.
        IsCalled F.called shelf.old shelf.new (λ asked.
        let entry = devices (S.seen input.old) (K.seen output.old) (F.seen shelf.old) (R.stream dice.old) [] [] [] in
        let exit = devices (S.seen input.new) (K.seen output.new) (F.seen shelf.new) (R.stream dice.new) reads sends
        asked in
        IsPlayed (command_of (map (λ word. word.now) words.now)) entry exit result))) }
{
    match read_command(alloc, words) {
        Err(CommandFault::BadWords) => without_machine(statuses::BAD_WORDS, 0, 0),
        Err(CommandFault::NoMemory) => without_machine(statuses::NO_MEMORY, 0, 0),
        Ok(command) => do_job(alloc, pages, command, input, output, shelf, dice),
    }
}

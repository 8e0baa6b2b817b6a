//! The words of the command line, matched by `clap` with one simple command: STORY and eleven options,
//! which are texts and four flags. What the texts are worth, and which flags go together, is no matter here.
//!
//! Why the words have no matches isn't told: a question for help is a faulty command line like any
//! other.
ghost use Rattle.std.specs.Prelude.{◌≡◌, IfOk, MatchResult, false, true, map, [], ◌∷◌, codes};
ghost use Rattle.clap.specs.Words.{app_of, new_rule, rule_of};
ghost use Rattle.gx_play.specs.Commands.{player, with_numbers, text_rule, flag_rule};
ghost use Rattle.gx_play.specs.Reading.{HasMatches, IsUnread};

use crate::command::CommandFault;
use clap::error::ErrorKind;
use clap::{Arg, ArgAction, ArgMatches, Command};
use std::alloc::{AllocError, Global};

/// What is matched in the words, of which the first is the program's name.
pub fn match_words<'a>(alloc: Global, words: &'a [&'a str]) -> Result<ArgMatches<'a>, CommandFault>
    ensures { let texts = map (λ word. word.now) words.entry.now in
        MatchResult result (HasMatches texts) (IsUnread texts) }
{
    let command = player(alloc)?;
    match command.try_get_matches_from(words) {
        Ok(matches) => Ok(matches),
        Err(error) => match error.kind() {
            ErrorKind::OutOfMemory => Err(CommandFault::NoMemory),
            _ => Err(CommandFault::BadWords),
        },
    }
}

/// The one command.
fn player<'a>(alloc: Global) -> Result<Command<'a>, AllocError>
    ensures { IfOk result (λ command. app_of command ≡ player) }
{
    let echo = flag_arg(alloc, "echo");
    let screen = flag_arg(alloc, "screen");
    let plain = flag_arg(alloc, "plain");
    let wrap = flag_arg(alloc, "wrap");
    let job = text_arg(alloc, "job", "play");
    let with_numbers = numbers_command(alloc)?;
    let with_echo = with_numbers.arg(echo)?;
    let with_screen = with_echo.arg(screen)?;
    let with_plain = with_screen.arg(plain)?;
    let with_wrap = with_plain.arg(wrap)?;
    with_wrap.arg(job)
}

/// The command with STORY and the options that take a number.
fn numbers_command<'a>(alloc: Global) -> Result<Command<'a>, AllocError>
    ensures { IfOk result (λ command. app_of command ≡ with_numbers) }
{
    let story = story_arg(alloc);
    let steps = text_arg(alloc, "steps", "1000000000000000");
    let columns = text_arg(alloc, "columns", "80");
    let rows = text_arg(alloc, "rows", "24");
    let undo = text_arg(alloc, "undo", "16");
    let seed = free_arg(alloc, "seed");
    let back = text_arg(alloc, "back", "0");
    let with_story = Command::new(alloc, "gx_player").arg(story)?;
    let with_steps = with_story.arg(steps)?;
    let with_columns = with_steps.arg(columns)?;
    let with_rows = with_columns.arg(rows)?;
    let with_undo = with_rows.arg(undo)?;
    let with_seed = with_undo.arg(seed)?;
    with_seed.arg(back)
}

/// STORY, which has to be there.
fn story_arg<'a>(alloc: Global) -> Arg<'a>
    ensures rule { rule_of result ≡ record (new_rule (codes "STORY")) { required = true } }
    ensures global { result.global ≡ false }
{
    Arg::new(alloc, "STORY").required(true)
}

/// `--NAME TEXT`, with the text that stands for it where it isn't there.
fn text_arg<'a>(alloc: Global, name: &'a str, usual: &'a str) -> Arg<'a>
    ensures rule { rule_of result ≡ text_rule name.entry.now (usual.entry.now ∷ []) }
    ensures global { result.global ≡ false }
{
    Arg::new(alloc, name).long(name).default_value(usual)
}

/// `--NAME TEXT`, for which nothing stands where it isn't there.
fn free_arg<'a>(alloc: Global, name: &'a str) -> Arg<'a>
    ensures rule { rule_of result ≡ text_rule name.entry.now [] }
    ensures global { result.global ≡ false }
{
    Arg::new(alloc, name).long(name)
}

/// `--NAME`, which is set or not.
fn flag_arg<'a>(alloc: Global, name: &'a str) -> Arg<'a>
    ensures rule { rule_of result ≡ flag_rule name.entry.now }
    ensures global { result.global ≡ false }
{
    Arg::new(alloc, name).long(name).action(ArgAction::SetTrue)
}

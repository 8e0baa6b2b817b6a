//! The command line: what its words ask for.
//!
//! `gx_player STORY [--steps N] [--columns N] [--rows N] [--undo N] [--seed N] [--back N] [--echo] [--screen |
//! [--plain] [--wrap]] [--job JOB]`, read as specs/Commands has it: a command exactly where the words match, each
//! text is as it has to be and the flags go together. All options are looked at in every job. Reading takes memory,
//! so that want of memory may come for any words.
ghost use Rattle.std.specs.Prelude.{◌≡◌, ◌≤◌, Some, map, MatchResult, IfOk, IfSome, option_map};
ghost use Rattle.std.specs.Char.{is_ascii_digit};
ghost use Rattle.std.specs.List.{list_all};
ghost use Rattle.clap.specs.Words.{first_value, found_of};
ghost use Rattle.glk_world.specs.World.{empty_world};
ghost use Rattle.gx_play.specs.Commands.{command_of, command_in, number_spelled, seed_of, job_of, view_for};
ghost use Rattle.gx_play.specs.Commands.{is_set};
ghost use Rattle.gx_play.specs.Reading.{command_seen, IsUnread, IsInRange};

use crate::words::match_words;
use clap::ArgMatches;
use glk_world::{View, World};
use gx_undo::MOST_UNDO;
use std::alloc::{AllocError, Global};

/// How many copies are kept for undo in job work, as in the others where the words say nothing of it.
pub const USUAL_DEPTH: usize = 16;

/// What the program is to do.
#[derive(Clone, Copy, Debug, PartialEq, Eq)]
pub enum Job {
    /// Play the story.
    Play,
    /// Play the story, and tell of the machine as it stood so many units before the end.
    Rewind,
    /// Tell whether the story's checksum is right.
    Check,
    /// Play the story that is made of this number, and tell how much work it was.
    Work(u32),
    /// Assemble the text, and send the story of its code.
    Asm,
    /// List the instructions of the story's start function.
    List,
}

/// What a command line asks for.
#[derive(Clone, Copy, Debug)]
pub struct Command<'a> {
    /// The name of the file of the story, or of the text in job asm; the text of a number in job work.
    pub story: &'a str,
    /// The units of the budget.
    pub steps: u64,
    /// The size of the screen, each from 1 to 255.
    pub columns: u32,
    pub rows: u32,
    /// How many copies are kept for undo, from 1 to 64.
    pub undo: usize,
    /// The seed of the random words; None where they are those from outside.
    pub seed: Option<u64>,
    /// How many units job rewind goes back from the end.
    pub back: u64,
    /// Whether each line that is taken is shown.
    pub echo: bool,
    /// How the text is put together.
    pub view: View,
    pub job: Job,
}

impl Command<'_> {
    /// The world before a run, in its view and on its screen.
    pub fn world(self, alloc: Global) -> World
        requires { IsInRange self }
        ensures { result ≡ empty_world self.entry.view self.entry.columns self.entry.rows }
    {
        match self.view {
            View::Rows => World::new(alloc, self.columns, self.rows),
            View::Plain => World::plain(alloc, self.columns, self.rows),
            View::Screen => World::screened(alloc, self.columns, self.rows),
            View::WrappedRows => World::wrapped(alloc, self.columns, self.rows),
            View::WrappedPlain => World::wrapped_plain(alloc, self.columns, self.rows),
        }
    }
}

/// Why a command line asks for nothing.
#[derive(Clone, Copy, Debug, PartialEq, Eq)]
pub enum CommandFault {
    /// It isn't understood.
    BadWords,
    /// Memory ran out.
    NoMemory,
}

impl From<AllocError> for CommandFault {
    ghost use Rattle.gx_play.specs.declared.command.CommandFault.TheVariants.{NoMemory};

    ghost from_gives = { λ _ fault. fault ≡ NoMemory };

    fn from(_refused: AllocError) -> CommandFault {
        CommandFault::NoMemory
    }
}

/// The command of a command line, of which the first word is the program's name.
pub fn read_command<'a>(alloc: Global, words: &'a [&'a str]) -> Result<Command<'a>, CommandFault>
    ensures command { let texts = map (λ word. word.now) words.entry.now in
        MatchResult result (λ command. command_of texts ≡ Some (command_seen command)) (IsUnread texts) }
    ensures range { IfOk result IsInRange }
{
    let matches = match_words(alloc, words)?;
    match read_matches(&matches) {
        Some(command) => Ok(command),
        None => Err(CommandFault::BadWords),
    }
}

/// The command of what is matched.
fn read_matches<'a>(matches: &ArgMatches<'a>) -> Option<Command<'a>>
    ensures command { option_map command_seen result ≡ command_in (first_value (found_of matches.now)) }
    ensures range { IfSome result IsInRange }
{
    let story = matches.get_str("STORY")?;
    let steps = read_number(matches.get_str("steps")?, 0, u64::MAX)?;
    let columns = read_number(matches.get_str("columns")?, 1, 255)?;
    let rows = read_number(matches.get_str("rows")?, 1, 255)?;
    let undo = read_number(matches.get_str("undo")?, 1, MOST_UNDO as u64)?;
    let seed = read_seed(matches.get_str("seed"))?;
    let back = read_number(matches.get_str("back")?, 0, u64::MAX)?;
    let job = read_job(story, matches.get_str("job")?)?;
    let echo = is_set(matches, "echo");
    let view = read_view(
        is_set(matches, "screen"),
        is_set(matches, "plain"),
        is_set(matches, "wrap"),
        echo,
        job,
    )?;
    Some(Command {
        story,
        steps,
        columns: columns as u32,
        rows: rows as u32,
        undo: undo as usize,
        seed,
        back,
        echo,
        view,
        job,
    })
}

/// Whether the flag of this name is set.
fn is_set(matches: &ArgMatches, name: &str) -> bool
    ensures { result ≡ is_set (first_value (found_of matches.now) name.now) }
{
    match matches.get_str(name) {
        Some(text) => text == "true",
        None => false,
    }
}

/// The seed, if there is one; None where the text is no seed.
fn read_seed(text: Option<&str>) -> Option<Option<u64>>
    ensures { result ≡ seed_of (option_map (λ text. text.now) text.entry) }
{
    match text {
        Some(text) => Some(Some(read_number(text, 0, u64::MAX)?)),
        None => Some(None),
    }
}

/// The job of a name; in job work STORY is a number.
fn read_job(story: &str, name: &str) -> Option<Job>
    ensures { result ≡ job_of story.now name.now }
{
    match name {
        "play" => Some(Job::Play),
        "rewind" => Some(Job::Rewind),
        "check" => Some(Job::Check),
        "work" => match read_number(story, 0, u64::from(u32::MAX)) {
            Some(number) => Some(Job::Work(number as u32)),
            None => None,
        },
        "asm" => Some(Job::Asm),
        "list" => Some(Job::List),
        _ => None,
    }
}

/// How the text is put together; None where the flags don't go together in this job.
fn read_view(screen: bool, plain: bool, wrap: bool, echo: bool, job: Job) -> Option<View>
    ensures { result ≡ view_for screen plain wrap echo job }
{
    match (screen, plain, wrap) {
        (false, false, false) => Some(View::Rows),
        (false, true, false) => Some(View::Plain),
        (false, false, true) => Some(View::WrappedRows),
        (false, true, true) => Some(View::WrappedPlain),
        (true, false, false) if !echo && job == Job::Play => Some(View::Screen),
        (true, _, _) => None,
    }
}

/// The number that decimal digits spell, where it is from the least to the most.
#[tactic(auto, using(crate::proofs::Digits::digits_are, crate::proofs::Digits::no_plus))]
fn read_number(text: &str, least: u64, most: u64) -> Option<u64>
    ensures value { result ≡ number_spelled least most text.now }
    ensures range { IfSome result (λ number. (least ≤ number) × (number ≤ most)) }
{
    if text.is_empty() || !is_digits(text.as_bytes()) {
        return None;
    }
    match text.parse::<u64>() {
        Ok(number) if least <= number && number <= most => Some(number),
        _ => None,
    }
}

/// The text is decimal digits alone.
fn is_digits(text: &[u8]) -> bool
    ensures { result ≡ list_all is_ascii_digit text.now }
{
    text.iter().all(|byte| byte.is_ascii_digit())
}

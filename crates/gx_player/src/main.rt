//! `gx_player STORY [--steps N] [--columns N] [--rows N] [--undo N] [--seed N] [--back N] [--echo]
//! [--screen | [--plain] [--wrap]] [--job JOB]`: plays a Glulx story over standard input, standard output and the files
//! of the current folder, also on a tape that goes back; checks, lists or assembles one; or measures the machine.
//!
//! `play` (gx_play) does all of it over devices that are handed in; gx_devices has those of the program.
//!
//! How the run ended is the status of the program, with a line on standard error. Where that doesn't say it whole, a
//! second line has the reason in a sentence (`ending`); no contract speaks of that.
#![tactic(auto)]

mod ending;
mod misread;
mod options;
mod reasons;
mod shown;
mod stopped;
mod stories;

use ending::{Known, tell};
use gx_devices::{FolderShelf, Patient, StdSink, StdSource};
use gx_play::play;
use gx_pool::PagePool;
use gx_session::{Ended, statuses};
use rand_chacha::ChaCha20Rng;
use rand_core::SeedableRng;
use std::alloc::{Allocator, Global};
use std::env::{Env, FillError};
use std::io::ErrorKind;
use std::process::ExitCode;
use std::random::RandomSource;
use std::{env, io, str};

/// How many pages of memory may be out at once: 768 times those of the largest memory, which is room for eleven
/// machines (the present one, the one at the beginning of a tape, its checkpoints and one in the making), each with
/// sixty-four undo states and one in the making, with no page in common.
const MOST_PAGES: usize = 805_306_368;

/// A seed from the system's random source, and 32 zero bytes where that fails.
fn seed(rt: &impl RandomSource) -> [u8; 32] {
    let mut seed = [0; 32];
    match rt.fill_bytes(&mut seed) {
        Ok(()) => seed,
        Err(_) => [0; 32],
    }
}

/// Plays the story that the words name; the status. `unread` is the place of a word that isn't UTF-8, if there is one.
fn play_words(rt: &HostRuntime, words: &[&str], unread: Option<usize>) -> u8 {
    let alloc = rt.alloc();
    let pool = PagePool::new(alloc, MOST_PAGES);
    let mut source = StdSource::new(Patient::new(rt, rt.reader()));
    let mut sink = StdSink::new(Patient::new(rt, io::writer(rt)));
    let mut shelf = FolderShelf::new(alloc, rt);
    let mut dice = ChaCha20Rng::from_seed(seed(rt));
    let ended = play(
        alloc,
        &pool,
        words,
        &mut source,
        &mut sink,
        &mut shelf,
        &mut dice,
    );
    let known = Known {
        words,
        unread,
        last: shelf.last(),
        input: source.error(),
        output: sink.error(),
    };
    end(rt, &ended, &known)
}

/// Says how a run ended; its status.
fn end<A: Allocator + Clone>(rt: &HostRuntime, ended: &Ended<A>, known: &Known) -> u8 {
    let stderr = rt.stderr();
    let _ = tell(
        rt.alloc(),
        ended,
        known,
        &mut Patient::new(rt, io::writer(&stderr)),
    );
    ended.status
}

/// Plays the story that the command line names; the status. It is an error where a word isn't UTF-8
/// or where memory runs out before anything is done.
fn play_args(rt: &HostRuntime) -> io::Result<u8> {
    let mut texts = Vec::new(rt.alloc());
    for text in env::args(rt)? {
        texts.push(text)?;
    }
    let mut words = Vec::new(rt.alloc());
    for text in &texts {
        words.push(text.as_str())?;
    }
    Ok(play_words(rt, words.as_slice(), None))
}

/// The place of the first word that isn't UTF-8, if there is one of at most 4,096 bytes.
fn unread_word(rt: &impl Env) -> Option<usize> {
    let mut word = [0; 4096];
    for place in 0..usize::MAX {
        match rt.arg(place, &mut word) {
            Ok(len) if str::from_utf8(&word[..len]).is_err() => return Some(place),
            Ok(_) | Err(FillError::TooLong) => {}
            Err(FillError::NotPresent) => return None,
        }
    }
    None
}

/// Ends before anything is done, since memory ran out; the status.
fn end_without_memory(rt: &HostRuntime) -> u8 {
    let ended = Ended::<Global> {
        status: statuses::NO_MEMORY,
        fault: 0,
        at: 0,
        steps: 0,
        machine: None,
    };
    let known = Known {
        words: &[],
        unread: None,
        last: None,
        input: None,
        output: None,
    };
    end(rt, &ended, &known)
}

fn main(rt: HostRuntime) -> ExitCode {
    let status = match play_args(&rt) {
        Ok(status) => status,
        Err(error) if error.kind() == ErrorKind::OutOfMemory => end_without_memory(&rt),
        Err(_) => play_words(&rt, &[], unread_word(&rt)),
    };
    ExitCode::from(status)
}

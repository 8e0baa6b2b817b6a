//! A tape that goes back by every distance, and on again, in a run that draws, asks, searches and prints; and how many
//! checkpoints a tape keeps, and which, by the pages that are out.
//!
//! Its checkpoints are few and lie near each other. What is asked is answered by 0 or by 1. A place of the run is
//! known by the units that were used there, and by what its machine holds.
use super::pages::expect_out;
use crate::runs::{Left, left_in};
use crate::stories::SMALL_HEAD;
use crate::story_files::StoryFile;
use crate::wanted::compare_number;
use anyhow::{Context, Result, bail, ensure};
use gx_machine::{Asking, Engine, Machine};
use gx_pool::PagePool;
use gx_rewind::Tape;
use gx_state::Reply;
use gx_story::Story;
use gx_words::{Numbers, Writes};
use std::alloc::Global;

/// What the story does over and over.
const CODE: &str = "\
setiosys #02 z
random z @0100
copy @0100 sp
glk #04 #01 @0104
streamchar #48
linearsearch #0a #01 #0110 #04 #03 z z @0108
glk #05 z sp
save #01 @010c
restore #01 @0110
streamnum @0100
random #64 sp
jumpabs #27
";

/// How many calls make the run.
const CALLS: u32 = 32;

/// The most units that one of these calls may use.
const PART: u64 = 7;

/// The most units of any call.
const MOST_PART: u64 = 1_000;

/// A loop whose turns take three units: each changes RAM's first page, and writes into one more.
const LOOP: &str = "\
add @0100 #0100 @0100
astoreb @0100 z #01
jumpabs #27
";

/// The units of a turn.
const TURN: u64 = 3;

/// How many turns are made.
const TURNS: u32 = 9;

/// A place of the run.
#[derive(Drop)]
struct Place {
    units: u64,
    left: Left,
}

/// A story's file of this code, with twelve pages of memory, of which RAM's first begins with its own address.
fn file_of(alloc: Global, code: &str) -> Result<StoryFile> {
    let mut file = StoryFile::new(alloc, 0x200, SMALL_HEAD)?;
    file.put_bytes(0x10, &[0, 0, 0x0C, 0])?;
    file.put_bytes(0x100, &[0, 0, 1, 0])?;
    file.put_code(alloc, code)?;
    Ok(file)
}

/// A story of this code at its beginning, on a tape that keeps so many checkpoints, this far apart.
fn tape<'p>(
    alloc: Global,
    pool: &'p PagePool,
    code: &str,
    every: u64,
    most: usize,
) -> Result<Tape<&'p PagePool>> {
    let file = file_of(alloc, code)?;
    let story = Story::read(alloc, file.bytes())?;
    let machine = Machine::start(alloc, pool, story, 4)?;
    Ok(Tape::new(alloc, machine, every.max(1), most.max(1))?)
}

fn place_of(alloc: Global, tape: &Tape<&PagePool>) -> Result<Place> {
    let left = left_in(alloc, tape.machine())?;
    Ok(Place {
        units: tape.units(),
        left,
    })
}

/// Compares a place with what was seen there before.
fn compare(place: &Place, seen: &Place) -> Result<()> {
    compare_number("tapes: units", seen.units, place.units)?;
    seen.left.compare(&place.left)
}

/// Compares the place where it stands.
fn compare_here(alloc: Global, tape: &Tape<&PagePool>, seen: &Place) -> Result<()> {
    let place = place_of(alloc, tape)?;
    compare(&place, seen)
}

/// Makes steps with a word within so many units, as long as they ask nothing.
fn make_steps(tape: &mut Tape<&PagePool>, word: u32, part: u64) -> Result<()> {
    let None = tape.machine().asking() else {
        bail!("tapes: it waits");
    };
    if tape.units() > 10_000 {
        bail!("tapes: too many units");
    }
    let part = part.min(MOST_PART);
    let (mut budget, mut left) = (part, part);
    tape.advance(word, &mut budget, &mut left)?;
    Ok(())
}

/// Answers what is asked, if anything.
fn answer(alloc: Global, tape: &mut Tape<&PagePool>, value: u32) -> Result<()> {
    match tape.machine().asking() {
        None => {}
        Some(Asking::Put) => tape.finish_put(),
        Some(_) => {
            let reply = Reply {
                value,
                pushes: Numbers::new(alloc),
                writes: Writes::new(alloc),
            };
            tape.finish(&reply)?;
        }
    }
    Ok(())
}

/// The run, and the place after each of its calls.
fn play(alloc: Global, tape: &mut Tape<&PagePool>) -> Result<Vec<Place>> {
    let mut seen = Vec::new(alloc);
    for call in 0..CALLS {
        make_steps(tape, call.wrapping_mul(0x9E37_79B9), PART)?;
        answer(alloc, tape, call / 2 % 2)?;
        seen.push(place_of(alloc, tape)?)?;
    }
    Ok(seen)
}

/// Makes the next event again.
fn again(tape: &mut Tape<&PagePool>) -> Result<bool> {
    let None = tape.machine().asking() else {
        bail!("tapes: it waits");
    };
    Ok(tape.again()?)
}

/// Goes to the beginning, and from there on to the end, event by event: all places.
fn go_through(alloc: Global, tape: &mut Tape<&PagePool>) -> Result<Vec<Place>> {
    let end = tape.end();
    tape.back(end)?;
    let mut places = Vec::new(alloc);
    places.push(place_of(alloc, tape)?)?;
    for _unit in 0..end {
        if again(tape)? {
            places.push(place_of(alloc, tape)?)?;
        }
    }
    Ok(places)
}

/// Compares what was seen during the run with the places that are gone through.
fn compare_run(seen: &[Place], places: &[Place]) -> Result<()> {
    for place in seen {
        let units = place.units;
        let found = places.get(index_of(places, units));
        compare(found.context("tapes: no places")?, place)?;
    }
    Ok(())
}

/// The index of the last place before which at most so many units were used.
fn index_of(places: &[Place], units: u64) -> usize {
    let mut found = 0;
    for (index, place) in places.iter().enumerate() {
        if place.units <= units {
            found = index;
        }
    }
    found
}

/// Goes back from the end by so many units, and on again to the end, and compares each place.
fn compare_back(
    alloc: Global,
    tape: &mut Tape<&PagePool>,
    places: &[Place],
    back: u64,
) -> Result<()> {
    let end = tape.end();
    let units = tape.back(back)?;
    compare_number("tapes: an answer", tape.units(), units)?;
    let first = index_of(places, end.saturating_sub(back));
    for place in places.iter().skip(first) {
        compare_next(alloc, tape, place, end)?;
    }
    compare_number("tapes: the end", end, tape.end())
}

/// Compares where it stands, and goes on from there, unless it is the end.
fn compare_next(alloc: Global, tape: &mut Tape<&PagePool>, place: &Place, end: u64) -> Result<()> {
    compare_here(alloc, tape, place)?;
    let more = again(tape)?;
    ensure!(
        more == (place.units < end),
        "tapes: the record ends elsewhere"
    );
    Ok(())
}

/// Goes half the way back, and makes other steps: what followed there is cut off.
fn compare_cut(alloc: Global, tape: &mut Tape<&PagePool>) -> Result<()> {
    let end = tape.end();
    let middle = tape.back(end / 2)?;
    make_steps(tape, 1, PART)?;
    answer(alloc, tape, 1)?;
    let (units, last, more) = (tape.units(), tape.end(), again(tape)?);
    ensure!(
        middle < units && units == last && last < end && !more,
        "tapes: {units} units of {last} after a new step"
    );
    Ok(())
}

/// Goes back by nothing where something is asked: it is dropped, and all else stands.
fn compare_dropped(alloc: Global, tape: &mut Tape<&PagePool>) -> Result<()> {
    let end = tape.end();
    tape.back(end)?;
    make_steps(tape, 1, PART)?;
    make_steps(tape, 2, PART)?;
    let seen = place_of(alloc, tape)?;
    compare_asking(alloc, tape, &seen)
}

fn compare_asking(alloc: Global, tape: &mut Tape<&PagePool>, seen: &Place) -> Result<()> {
    let before = tape.machine().asking().is_some();
    tape.back(0)?;
    let after = tape.machine().asking().is_some();
    ensure!(before && !after, "tapes: it asks nothing, or still asks");
    compare_here(alloc, tape, seen)
}

fn compare_all(alloc: Global, tape: &mut Tape<&PagePool>) -> Result<()> {
    let seen = play(alloc, tape)?;
    let places = go_through(alloc, tape)?;
    compare_run(seen.as_slice(), places.as_slice())?;
    compare_ways(alloc, tape, places.as_slice())
}

/// Compares each way back and on, and what other steps leave.
fn compare_ways(alloc: Global, tape: &mut Tape<&PagePool>, places: &[Place]) -> Result<()> {
    let end = tape.end();
    ensure!(end > 20, "tapes: the run has {end} units");
    for back in 0..end.saturating_add(2) {
        compare_back(alloc, tape, places, back)?;
    }
    compare_cut(alloc, tape)?;
    compare_dropped(alloc, tape)
}

/// A run on a tape, each way back in it, and each way on.
pub fn goes_back_and_on(alloc: Global) -> Result<()> {
    let pool = PagePool::new(alloc, 1000);
    let mut tape = tape(alloc, &pool, CODE, 3, 2)?;
    compare_all(alloc, &mut tape)
}

/// A tape over a pool, nine turns after its beginning. The pages that are out are three of the beginning (the header's,
/// RAM's first and one of zeros), nine that were written, and RAM's first as it is now and at each checkpoint.
fn turned<'p>(
    alloc: Global,
    pool: &'p PagePool,
    every: u64,
    most: usize,
) -> Result<Tape<&'p PagePool>> {
    let mut tape = tape(alloc, pool, LOOP, every, most)?;
    expect_out(pool, 3)?;
    for _turn in 0..TURNS {
        make_steps(&mut tape, 0, TURN)?;
    }
    Ok(tape)
}

/// Goes back, and compares how many pages are out.
fn go_back(pool: &PagePool, tape: &mut Tape<&PagePool>, units: u64, out: usize) -> Result<()> {
    tape.back(units)?;
    expect_out(pool, out)
}

/// Goes on, and compares how many pages are out.
fn go_on(pool: &PagePool, tape: &mut Tape<&PagePool>, units: u64, out: usize) -> Result<()> {
    for _unit in 0..units {
        again(tape)?;
    }
    expect_out(pool, out)
}

/// A forked machine shares all of its pages.
fn compare_fork(alloc: Global, pool: &PagePool, tape: &Tape<&PagePool>) -> Result<()> {
    expect_out(pool, 13 + 4)?;
    let _fork = tape.machine().fork(alloc)?; // it is there until the end of the call
    expect_out(pool, 13 + 4)
}

/// A checkpoint is taken where one is due, and not at each call: of eight that may be kept there are four.
pub fn takes_checkpoints_where_due(alloc: Global) -> Result<()> {
    let pool = PagePool::new(alloc, 1000);
    let tape = turned(alloc, &pool, 2 * TURN, 8)?;
    compare_fork(alloc, &pool, &tape)?;
    drop(tape);
    expect_out(&pool, 0)
}

/// Of eight checkpoints, one at each turn, two are kept: the newest, after eight turns, and one after six. So a way
/// back to that makes nothing again, and one over its beginning makes a turn; and what was cut off is let go of.
pub fn keeps_few_checkpoints(alloc: Global) -> Result<()> {
    let pool = PagePool::new(alloc, 1000);
    let mut tape = turned(alloc, &pool, TURN - 1, 2)?;
    compare_few(&pool, &mut tape)
}

fn compare_few(pool: &PagePool, tape: &mut Tape<&PagePool>) -> Result<()> {
    expect_out(pool, 13 + 2)?;
    go_back(pool, tape, 3 * TURN, 11 + 2)?; // it is the checkpoint's, and the ninth page isn't there any more
    go_on(pool, tape, 3 * TURN, 11 + 2 + 4)?; // three pages are written again, and RAM's first
    go_back(pool, tape, TURN, 11 + 2)?; // to the checkpoint after eight turns
    go_back(pool, tape, 4 * TURN, 11 + 2 + 5)?; // from the beginning: four are written again, and RAM's first
    make_steps(tape, 0, TURN)?; // no checkpoint is left, nor what they alone had
    expect_out(pool, 3 + 6)
}

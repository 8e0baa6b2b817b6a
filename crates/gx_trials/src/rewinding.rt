//! Stories that are played on a tape: the line of job rewind against the machine of a run that is cut there.
//!
//! A run that came to its own end is made again with `--job rewind`, which has to show the same text, end the same way
//! and tell the place it went back to. That is compared with the run of job play that has so many units fewer. Runs of
//! many steps and of much memory aren't made again, nor those with `--screen`, of few pages or of a sink that fails.
use crate::notation::text;
use crate::runs::{MOST_PAGES, Told};
use crate::story::Story;
use crate::wanted::{compare, compare_number};
use anyhow::{Context, Result, ensure};
use gx_session::statuses;
use std::alloc::Global;

/// The most steps of a run that is made again.
const MOST_STEPS: u64 = 100_000;

/// The most bytes of its memory.
const MOST_BYTES: usize = 0x0010_0000;

/// Plays the story on a tape and goes back: by nothing, by one unit, by half of them, and by more than there are.
pub fn compare_rewound(alloc: Global, story: &Story<'_>, told: &Told) -> Result<()> {
    if !is_made_again(told) || story.has_screen() {
        return Ok(());
    }
    let end = compare_back(alloc, story, told, 0, None)?;
    for back in [1, end / 2, end.saturating_add(1)] {
        compare_back(alloc, story, told, back, Some(end))?;
    }
    Ok(())
}

/// Whether a run is small enough, and came to its own end.
fn is_made_again(told: &Told) -> bool {
    match &told.left {
        Some(left) => {
            told.status < statuses::SHELF_FAULT
                && told.steps <= MOST_STEPS
                && left.memory.len() <= MOST_BYTES
        }
        None => false,
    }
}

/// Compares the place that the story goes back to with what the budget of as many units leaves; the units there.
fn compare_back(
    alloc: Global,
    story: &Story<'_>,
    told: &Told,
    back: u64,
    end: Option<u64>,
) -> Result<u64> {
    let job = format!(in alloc; "rewind --back {back}")?;
    let taped = story.run(alloc, MOST_PAGES, story.budget()?, job.as_str());
    compare_taped(alloc, story, told, &taped?, (back, end))
}

/// Compares a run on a tape with the one that isn't, and with the one that is cut where it came back to.
fn compare_taped(
    alloc: Global,
    story: &Story<'_>,
    told: &Told,
    taped: &Told,
    (back, end): (u64, Option<u64>),
) -> Result<u64> {
    compare("ends on a tape", told.line.as_str(), taped.line.as_str())?;
    compare_number("steps on a tape", told.steps, taped.steps)?;
    let (units, place) = place_in(taped, told).context("on a tape it shows another text")?;
    let budget = end.unwrap_or(units).saturating_sub(back);
    let cut = story.run(alloc, MOST_PAGES, budget, "play")?;
    compare_place(&cut, back, units, place)
}

/// The units and the place that a tape came to, as its last line tells them. All else is what the run without it shows,
/// and no machine is handed back.
fn place_in<'a>(taped: &'a Told, told: &Told) -> Option<(u64, &'a str)> {
    let rest = taped.shown().strip_prefix(told.shown())?;
    let (units, place) = std::str::from_utf8(rest).ok()?.split_once(' ')?;
    match &taped.left {
        Some(_) => None,
        None => Some((units.parse().ok()?, place.trim_end())),
    }
}

/// Compares where a run that is cut stands; the units there.
fn compare_place(cut: &Told, back: u64, units: u64, place: &str) -> Result<u64> {
    let there = match &cut.left {
        Some(left) => text(left.facts.as_str(), "place"),
        None => "",
    };
    let steps = cut.steps;
    ensure!(
        (steps, there) == (units, place),
        "back by {back} it comes to {units} {place}, and not {steps} {there}"
    );
    Ok(units)
}

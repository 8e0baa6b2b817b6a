//! A run that memory cut short, and one that goes on from the machine that it left once there is memory.
use crate::notation::data_of;
use crate::runs::{Devices, Told, play_in, tell};
use crate::story::Story;
use crate::wanted::compare_bytes;
use anyhow::{Result, bail, ensure};
use glk_world::World;
use gx_machine::Machine;
use gx_pages::Pages;
use gx_pool::PagePool;
use gx_session::{Ended, run};
use rand_chacha::ChaCha20Rng;
use rand_core::SeedableRng;
use std::alloc::Global;

/// The budget of the run that goes on.
const BUDGET: u64 = 1_000_000;

/// Plays a story over a pool of pages one of which is taken away until memory ran out, and goes on in an empty world:
/// `PAGES DATA` says how many there are, and what is shown first. Both runs are compared with one that has its pages.
pub fn compare_sequel(alloc: Global, story: &Story<'_>, wanted: &str, whole: &Told) -> Result<()> {
    let (pages, first) = wanted.split_once(' ').unwrap_or((wanted, ""));
    let pool = PagePool::new(alloc, pages.parse()?);
    let mut devices = story.devices(alloc)?;
    let ended = cut_short(alloc, &pool, story, &mut devices)?;
    compare_ended(alloc, &pool, ended, devices, (first, whole))
}

/// A run that lacks the page that is taken.
fn cut_short<'p>(
    alloc: Global,
    pool: &'p PagePool,
    story: &Story<'_>,
    devices: &mut Devices,
) -> Result<Ended<&'p PagePool>> {
    let words = story.words(alloc, story.budget()?, "play")?;
    let _taken = Pages::from_bytes(alloc, pool, &[1; 256], 256)?; // it is out until the end of the call
    play_in(alloc, pool, words.as_str(), devices)
}

/// Goes on with the machine that a run left, and compares both.
fn compare_ended<'p>(
    alloc: Global,
    pool: &'p PagePool,
    ended: Ended<&'p PagePool>,
    devices: Devices,
    (first, whole): (&str, &Told),
) -> Result<()> {
    let cut = tell(alloc, pool, &ended, devices)?;
    let Some(machine) = ended.machine else {
        bail!("no machine is left to go on with");
    };
    let then = go_on(alloc, pool, machine);
    compare_cut(alloc, &cut, first)?;
    compare_both(&cut, &then?, whole)
}

/// Compares how the first run was cut short.
fn compare_cut(alloc: Global, cut: &Told, first: &str) -> Result<()> {
    let first = data_of(alloc, first)?;
    cut.compare("out of memory", first.as_slice())
}

/// Compares two runs with a whole one.
fn compare_both(cut: &Told, then: &Told, whole: &Told) -> Result<()> {
    let rest = whole.shown().strip_prefix(cut.shown());
    compare_bytes("the sequel", then.shown(), rest)?;
    let steps = cut.steps.saturating_add(then.steps);
    ensure!(
        (steps, then.status) == (whole.steps, whole.status),
        "the sequel ends otherwise, after {steps} steps in all"
    );
    whole.compare_left(then)
}

/// The run from a machine in an empty world.
fn go_on<'p>(alloc: Global, pool: &'p PagePool, machine: Machine<&'p PagePool>) -> Result<Told> {
    let mut devices = Devices::new(alloc, "")?;
    let ended = run_on(alloc, machine, &mut devices)?;
    tell(alloc, pool, &ended, devices)
}

/// What a machine that was handed back comes to.
fn run_on<'p>(
    alloc: Global,
    machine: Machine<&'p PagePool>,
    devices: &mut Devices,
) -> Result<Ended<&'p PagePool>> {
    let None = machine.asking() else {
        bail!("the machine waits");
    };
    Ok(run(
        alloc,
        machine,
        World::new(alloc, 80, 24),
        false,
        BUDGET,
        &mut devices.source,
        &mut devices.sink,
        &mut devices.shelf,
        &mut ChaCha20Rng::from_seed([0; 32]),
    ))
}

//! A run of `play` over objects in memory, and what it told.
//!
//! Each run has a pool of pages of its own, and it is an error where a page is still out when all of the run is
//! dropped. The random words of all runs are the same.
use crate::notation::{data_of, facts, last, named_data, numbers_of, text};
use crate::wanted::{compare, compare_bytes, compare_number};
use anyhow::{Result, bail};
use gx_machine::Machine;
use gx_outside::{MemShelf, MemSink, MemSource};
use gx_play::play;
use gx_pool::PagePool;
use gx_session::{Ended, statuses};
use gx_words::Bytes;
use rand_chacha::ChaCha20Rng;
use rand_core::SeedableRng;
use std::alloc::Global;

/// How many pages a run may have out where its story doesn't say it: as many as one of the program.
pub const MOST_PAGES: usize = 805_306_368;

/// How many bytes a source gives at a time where its story doesn't say it.
const PIECE: usize = 0x2000;

/// The bytes of the start function's frame before its values.
const FRAME: usize = 12;

/// What a story is played with.
#[derive(Drop)]
pub struct Devices {
    pub source: MemSource,
    pub sink: MemSink,
    pub shelf: MemShelf,
}

/// What a run told.
#[derive(Drop)]
pub struct Told {
    /// One of gx_session's statuses.
    pub status: u8,
    /// The program's line without its name, or `well after N steps` where there is none.
    pub line: String,
    pub steps: u64,
    /// How many pages were out while the machine was there.
    pub out: usize,
    /// What is left in the machine; None where none was started.
    pub left: Option<Left>,
    /// What it was played with.
    pub devices: Devices,
}

/// What a run left in its machine.
#[derive(Drop)]
pub struct Left {
    /// Lines: the size of memory, how many copies are kept for undo, the place where it stands (the address of the next
    /// instruction, the stack pointer and the sum of RAM's words), and as words in hexadecimal the fixed part of the
    /// start function's frame and the stack above it.
    pub facts: String,
    pub memory: Bytes,
}

impl Devices {
    /// Devices as lines have them, with their input and their files, and the calls of each that fail.
    pub fn new(alloc: Global, lines: &str) -> Result<Devices> {
        Ok(Devices {
            source: source_of(alloc, lines)?,
            sink: MemSink::new(alloc, numbers_of(alloc, text(lines, "sink"))?.as_slice())?,
            shelf: shelf_of(alloc, lines)?,
        })
    }

    /// The same with the file of a story.
    pub fn with_story(alloc: Global, lines: &str, story: &[u8]) -> Result<Devices> {
        let mut devices = Devices::new(alloc, lines)?;
        devices.shelf.put("story", story)?;
        Ok(devices)
    }
}

/// A source with the input of lines.
fn source_of(alloc: Global, lines: &str) -> Result<MemSource> {
    let piece = match last(lines, "piece") {
        Some(piece) => usize::from_str_radix(piece, 16)?,
        None => PIECE,
    };
    let input = data_of(alloc, text(lines, "input"))?;
    let fails = numbers_of(alloc, text(lines, "source"))?;
    Ok(MemSource::new(alloc, input.as_slice(), piece.max(1), fails.as_slice())?)
}

/// A shelf with the files of lines.
fn shelf_of(alloc: Global, lines: &str) -> Result<MemShelf> {
    let mut shelf = MemShelf::new(alloc, numbers_of(alloc, text(lines, "shelf"))?.as_slice())?;
    put_files(alloc, &mut shelf, lines)?;
    Ok(shelf)
}

fn put_files(alloc: Global, shelf: &mut MemShelf, lines: &str) -> Result<()> {
    for line in lines.lines() {
        if let ("file", rest) = facts(line) {
            let (name, data) = named_data(alloc, rest)?;
            shelf.put(name, data.as_slice())?;
        }
    }
    Ok(())
}

impl Told {
    /// The bytes that were shown.
    pub fn shown(&self) -> &[u8] {
        self.devices.sink.bytes()
    }

    /// All that can be compared with the lines of a story, as lines.
    pub fn facts(&self, alloc: Global) -> Result<String> {
        let (line, steps, out) = (self.line.as_str(), self.steps, self.out);
        let (unbegun, left) = match &self.left {
            Some(left) => ("", left.facts.as_str()),
            None => ("unbegun ", ""),
        };
        Ok(format!(in alloc; "ends {unbegun}{line}\nsteps {steps}\nout {out}\n{left}")?)
    }

    /// Compares the line and what was shown.
    pub fn compare(&self, line: &str, shown: &[u8]) -> Result<()> {
        compare("ends", line, self.line.as_str())?;
        compare_bytes("shown", shown, Some(self.shown()))
    }

    /// Compares what two runs left, which has to be alike.
    pub fn compare_left(&self, other: &Told) -> Result<()> {
        match (&self.left, &other.left) {
            (Some(one), Some(other)) => one.compare(other),
            _ => bail!("one of two runs has no machine"),
        }
    }
}

impl Left {
    /// Compares what is left at two times, which has to be alike.
    pub fn compare(&self, other: &Left) -> Result<()> {
        compare("left", self.facts.as_str(), other.facts.as_str())?;
        compare_bytes(
            "memory",
            self.memory.as_slice(),
            Some(other.memory.as_slice()),
        )
    }
}

/// Plays a command line, whose words have a bar between them, over a pool of so many pages.
pub fn run(alloc: Global, pages: usize, words: &str, devices: Devices) -> Result<Told> {
    let pool = PagePool::new(alloc, pages);
    let told = run_in(alloc, &pool, words, devices)?;
    compare_number(
        "pages that are out when all is dropped",
        0,
        pool.out() as u64,
    )?;
    Ok(told)
}

fn run_in(alloc: Global, pool: &PagePool, words: &str, devices: Devices) -> Result<Told> {
    let mut devices = devices;
    let ended = play_in(alloc, pool, words, &mut devices)?;
    tell(alloc, pool, &ended, devices)
}

/// Plays a command line over a pool: the one call of `play`.
pub fn play_in<'p>(
    alloc: Global,
    pool: &'p PagePool,
    words: &str,
    devices: &mut Devices,
) -> Result<Ended<&'p PagePool>> {
    let words: Vec<&str> = words.split('|').collect(alloc)?;
    let mut dice = ChaCha20Rng::from_seed([0; 32]);
    Ok(play(
        alloc,
        pool,
        words.as_slice(),
        &mut devices.source,
        &mut devices.sink,
        &mut devices.shelf,
        &mut dice,
    ))
}

/// Tells how a run over a pool ended, and what it left.
pub fn tell(
    alloc: Global,
    pool: &PagePool,
    ended: &Ended<&PagePool>,
    devices: Devices,
) -> Result<Told> {
    let left = match &ended.machine {
        Some(machine) => Some(left_in(alloc, machine)?),
        None => None,
    };
    Ok(Told {
        status: ended.status,
        line: ending(alloc, ended)?,
        steps: ended.steps,
        out: pool.out(),
        left,
        devices,
    })
}

/// What is left in a machine.
pub fn left_in(alloc: Global, machine: &Machine<&PagePool>) -> Result<Left> {
    let memory = machine.state().memory().bytes(alloc)?;
    let mut facts = String::new(alloc);
    add_facts(&mut facts, machine, memory.as_slice())?;
    Ok(Left { facts, memory })
}

fn add_facts(facts: &mut String, machine: &Machine<&PagePool>, memory: &[u8]) -> Result<()> {
    let (state, copies, size) = (machine.state(), machine.undo_len(), memory.len());
    let (pc, stack) = (state.pc(), state.stack().bytes());
    let (sp, sum) = (stack.len(), sum_of(memory, state.ramstart() as usize));
    write!(
        facts,
        "size {size:X}\ncopies {copies}\nplace {pc:08x} {sp} {sum}\nframe "
    )?;
    add_bytes(facts, stack.get(..FRAME).unwrap_or_default())?;
    facts.push_str("\nstack ")?;
    add_bytes(facts, stack.get(FRAME..).unwrap_or_default())
}

/// Adds bytes as words in hexadecimal.
fn add_bytes(text: &mut String, bytes: &[u8]) -> Result<()> {
    for (index, byte) in bytes.iter().enumerate() {
        let gap = if index % 4 == 0 { " " } else { "" };
        write!(text, "{gap}{byte:02X}")?;
    }
    Ok(())
}

/// The sum of the words of a memory from an address on, modulo 2^32.
fn sum_of(memory: &[u8], start: usize) -> u32 {
    let mut sum = 0u32;
    for (index, byte) in memory.iter().enumerate().skip(start) {
        let digit: u32 = match index % 4 {
            0 => 0x0100_0000,
            1 => 0x0001_0000,
            2 => 0x0100,
            _ => 1,
        };
        sum = sum.wrapping_add(u32::from(*byte).wrapping_mul(digit));
    }
    sum
}

/// How a run ended: the program's line without its name, `well` where there is none, and all numbers where the fault
/// or its place isn't 0 though the line doesn't say it.
fn ending(alloc: Global, ended: &Ended<&PagePool>) -> Result<String> {
    let (status, fault, at, steps) = (ended.status, ended.fault, ended.at, ended.steps);
    let told = match status {
        statuses::FAULT | statuses::BAD_TEXT | statuses::NO_LISTING => true,
        statuses::BAD_STORY => at == 0,
        _ => fault == 0 && at == 0,
    };
    let line = ended.line(alloc)?;
    let mut ending = String::new(alloc);
    match line.as_str().strip_prefix("gx_player: ") {
        Some(text) if told => ending.push_str(text),
        None if told && status == statuses::ENDED => { write!(ending, "well after {steps} steps") }
        _ => write!(
            ending,
            "status {status} with fault {fault} at {at:08x} after {steps} steps"
        ),
    }?;
    Ok(ending)
}

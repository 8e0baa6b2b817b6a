//! A run of a story: its lines are read, its program is played, and what it comes to is compared.
//!
//! What is wanted and what is found are texts in the notation of the lines, and are compared kind by kind.
use crate::fronts::compare_fronts;
use crate::notation::{data_of, facts, last, lines_of_run, named_data, text};
use crate::programs::Program;
use crate::rewinding::compare_rewound;
use crate::runs::{Devices, Left, MOST_PAGES, Told, run};
use crate::sequel::compare_sequel;
use crate::stories::Kind;
use crate::wanted::{compare_bytes, compare_lines};
use anyhow::{Result, ensure};
use std::alloc::Global;

/// The budget of a run where its story doesn't say it.
const BUDGET: u64 = 1_000_000;

/// A story, and what its lines say of its run.
#[derive(Drop)]
pub struct Story<'a> {
    lines: &'a str,
    program: Program<'a>,
}

impl<'a> Story<'a> {
    fn read(alloc: Global, kind: Kind<'a>, lines: &'a str) -> Result<Story<'a>> {
        let program = Program::read(alloc, kind, lines)?;
        Ok(Story { lines, program })
    }

    /// Plays the story, and compares all that its lines say.
    fn play(&self, alloc: Global) -> Result<()> {
        let pool = match last(self.lines, "pool") {
            Some(pages) => pages.parse()?,
            None => MOST_PAGES,
        };
        let told = self.run(alloc, pool, self.budget()?, "play")?;
        self.compare(alloc, &told)?;
        self.compare_others(alloc, &told)
    }

    /// The budget of a run.
    pub fn budget(&self) -> Result<u64> {
        match last(self.lines, "budget") {
            Some(budget) => Ok(budget.parse()?),
            None => Ok(BUDGET),
        }
    }

    /// The words of a command line that does a job on the story.
    pub fn words(&self, alloc: Global, budget: u64, job: &str) -> Result<String> {
        let options = text(self.lines, "options");
        let words = format!(in alloc; "gx_player story --steps {budget} --job {job} {options}")?;
        Ok(words.as_str().trim().replace(alloc, " ", "|")?)
    }

    /// The devices before a run.
    pub fn devices(&self, alloc: Global) -> Result<Devices> {
        Devices::with_story(alloc, self.lines, self.program.bytes())
    }

    /// Does a job on the story over a pool of so many pages.
    pub fn run(&self, alloc: Global, pages: usize, budget: u64, job: &str) -> Result<Told> {
        let words = self.words(alloc, budget, job)?;
        run(alloc, pages, words.as_str(), self.devices(alloc)?)
    }

    /// Whether the run composes the screen, which job rewind doesn't show.
    pub fn has_screen(&self) -> bool {
        text(self.lines, "options").contains("--screen")
    }

    /// Compares how the run ended, and what it left.
    fn compare(&self, alloc: Global, told: &Told) -> Result<()> {
        self.compare_facts(alloc, told)?;
        self.compare_shown(alloc, told)?;
        for line in self.lines.lines() {
            compare_line(alloc, told, line)?;
        }
        Ok(())
    }

    /// Compares what is told in words and numbers, and the answers of the calls.
    fn compare_facts(&self, alloc: Global, told: &Told) -> Result<()> {
        let wanted = self.program.wanted(alloc, self.lines)?;
        compare_lines(wanted.as_str(), told.facts(alloc)?.as_str())?;
        match &told.left {
            Some(left) => {
                let (answers, there) = self.program.answers(left.memory.as_slice());
                compare_bytes("the answers", answers, there)
            }
            None => Ok(()),
        }
    }

    fn compare_shown(&self, alloc: Global, told: &Told) -> Result<()> {
        let shown = data_of(alloc, text(self.lines, "shown"))?;
        compare_bytes("shown", shown.as_slice(), Some(told.shown()))
    }

    /// Compares the run with others.
    fn compare_others(&self, alloc: Global, told: &Told) -> Result<()> {
        if last(self.lines, "spent").is_some() {
            self.compare_spent(alloc, told)?;
        }
        if let Some(wanted) = last(self.lines, "sequel") {
            compare_sequel(alloc, self, wanted, told)?;
        }
        if let Some(wanted) = last(self.lines, "fronts") {
            compare_fronts(alloc, self.program.bytes(), wanted)?;
        }
        if last(self.lines, "pool").is_some() || last(self.lines, "sink").is_some() {
            return Ok(()); // the line of a tape might be the call of a sink that fails
        }
        compare_rewound(alloc, self, told)
    }

    /// Compares what a run that memory cut short left with what a budget of its steps leaves.
    fn compare_spent(&self, alloc: Global, cut: &Told) -> Result<()> {
        let spent = self.run(alloc, MOST_PAGES, cut.steps, "play")?;
        let line = spent.line.as_str();
        ensure!(line.starts_with("budget spent"), "spent: it ends {line}");
        cut.compare_left(&spent)
    }
}

/// Compares what a line says of memory or of a file at the end.
fn compare_line(alloc: Global, told: &Told, line: &str) -> Result<()> {
    match (facts(line), &told.left) {
        (("memory", rest), Some(left)) => compare_memory(alloc, left, rest),
        (("after", rest), _) => {
            let (name, data) = named_data(alloc, rest)?;
            compare_bytes(name, data.as_slice(), told.devices.shelf.get(name))
        }
        (("gone", name), _) => {
            let file = told.devices.shelf.get(name);
            ensure!(file == None, "the file {name} is there");
            Ok(())
        }
        _ => Ok(()),
    }
}

fn compare_memory(alloc: Global, left: &Left, rest: &str) -> Result<()> {
    let (at, data) = named_data(alloc, rest)?;
    let from = usize::from_str_radix(at, 16)?;
    let there = left
        .memory
        .as_slice()
        .get(from..from.saturating_add(data.len()));
    compare_bytes(rest, data.as_slice(), there)
}

/// Plays a run of a story, and compares what it comes to.
pub fn play(alloc: Global, kind: Kind<'_>, story: &str, line: &str) -> Result<()> {
    let lines = lines_of_run(alloc, story, line)?;
    Story::read(alloc, kind, lines.as_str())?.play(alloc)
}

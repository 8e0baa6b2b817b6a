//! How many runs came to what was wanted, and what is said of each other one.
use anyhow::Result;

/// The runs that were counted.
#[derive(Drop)]
pub struct Tally {
    /// Those that came to what was wanted.
    pub passed: u64,
    /// Those that came to anything else.
    pub failed: u64,
}

/// Where a run is written down.
#[derive(Clone, Copy)]
pub struct Place<'a> {
    /// The file.
    pub file: &'a str,
    /// The story's name.
    pub story: &'a str,
    /// The line that plays it.
    pub line: &'a str,
}

impl Tally {
    /// No run was counted.
    pub fn new() -> Tally {
        Tally {
            passed: 0,
            failed: 0,
        }
    }

    /// How many runs were counted.
    pub fn counted(&self) -> u64 {
        self.passed.saturating_add(self.failed)
    }

    /// Counts a run, and prints what differs.
    pub fn note<P: Print>(&mut self, rt: &P, run: Result<()>) -> Result<()> {
        if let Err(error) = &run {
            println!(rt; "{error}")?;
        }
        self.count(run.is_ok());
        Ok(())
    }

    /// Counts a run of a story, and prints where it stands and what differs.
    pub fn note_at<P: Print>(&mut self, rt: &P, place: Place<'_>, run: Result<()>) -> Result<()> {
        let Place { file, story, line } = place;
        if let Err(error) = &run {
            println!(rt; "{file}: {story}: {line}: {error}")?;
        }
        self.count(run.is_ok());
        Ok(())
    }

    fn count(&mut self, passed: bool) {
        if passed {
            self.passed = self.passed.saturating_add(1);
        } else {
            self.failed = self.failed.saturating_add(1);
        }
    }
}

//! The options of the command line, for whoever is told why his words aren't understood.
//!
//! What the words ask for is read by gx_play. This is another list of the same options, and no contract
//! compares the two: checks/devices does.
use std::fmt;
use std::fmt::{Display, Formatter, Write};
use thiserror::Error;

/// An option, `--NAME` or `--NAME VALUE`: its name, and what its value is where it has one.
pub type CommandOption = (&'static str, Option<Wanted>);

/// What the value of an option is.
#[derive(Clone, Copy, Debug, PartialEq, Eq, Error)]
pub enum Wanted {
    #[error("a number from {least} to {most}")]
    Number { least: u64, most: u64 },
    #[error("play, rewind, check, work, asm or list")]
    Job,
}

/// The number of a word.
pub const ANY: Wanted = Wanted::Number {
    least: 0,
    most: u64::MAX,
};

/// The size of a screen.
const SIZE: Wanted = Wanted::Number {
    least: 1,
    most: 255,
};

/// How many states are kept.
const DEPTH: Wanted = Wanted::Number { least: 1, most: 64 };

/// STORY in job work.
pub const WORK: Wanted = Wanted::Number {
    least: 0,
    most: 0xFFFF_FFFF,
};

/// How many options there are.
pub const OPTION_COUNT: usize = 11;

const OPTIONS: [CommandOption; OPTION_COUNT] = [
    ("steps", Some(ANY)),
    ("columns", Some(SIZE)),
    ("rows", Some(SIZE)),
    ("undo", Some(DEPTH)),
    ("seed", Some(ANY)),
    ("back", Some(ANY)),
    ("job", Some(Wanted::Job)),
    ("echo", None),
    ("screen", None),
    ("plain", None),
    ("wrap", None),
];

/// All options.
pub fn options() -> &'static [CommandOption; OPTION_COUNT] {
    &OPTIONS
}

impl Wanted {
    /// Whether a text is such a value.
    pub fn is_met(self, text: &str) -> bool {
        match self {
            Wanted::Number { least, most } => is_number(text, least, most),
            Wanted::Job => matches!(text, "play" | "rewind" | "check" | "work" | "asm" | "list"),
        }
    }
}

/// Whether a text is decimal digits of a number from the least to the most.
fn is_number(text: &str, least: u64, most: u64) -> bool {
    text.bytes().all(|byte| byte.is_ascii_digit())
        && match text.parse::<u64>() {
            Ok(number) => least <= number && number <= most,
            Err(_) => false,
        }
}

/// The names of all options.
#[derive(Clone, Copy, Debug, PartialEq, Eq)]
pub struct Listed;

impl Display for Listed {
    fn fmt<W: Write>(&self, f: &mut Formatter<W>) -> fmt::Result {
        let mut before = "--";
        for (name, _) in options() {
            write!(f, "{before}{name}")?;
            before = ", --";
        }
        Ok(())
    }
}

//! Why a text has no code, and a code or a story no text.
//!
//! A fault other than `NoMemory` comes exactly where the definitions `assembled`, `listed` and `listed_story` have it;
//! `NoMemory` is the one free answer, and comes only where they have none.
ghost use Rattle.std.specs.Prelude.{◌≡◌, ◌≤◌};
ghost use Rattle.gx_asm.specs.Faults.{line_in_text, number_in_code, number_in_text, place_in_code};
ghost use Rattle.gx_asm.specs.Texts.{in_line};

use thiserror::Error;

/// Why a text isn't understood. Lines are counted from 1.
#[derive(Clone, Copy, Debug, PartialEq, Eq, Error)]
pub enum AsmFault {
    /// The last line doesn't end in a line feed.
    #[error("the last line has no end")]
    Cut,
    /// The line doesn't begin with the name of an instruction.
    #[error("no instruction in line {line}")]
    BadName { line: u32 },
    /// The line hasn't one blank for each operand of the instruction.
    #[error("wrong count of operands in line {line}")]
    Count { line: u32 },
    /// An operand is none, or is one that can't be stored to where a result goes.
    #[error("bad operand in line {line}")]
    BadOperand { line: u32 },
    /// Memory ran out: the one fault that no definition has.
    #[error("out of memory")]
    NoMemory,
}

/// Why a code isn't listed. Places are addresses in a story, and counted from 0 in a code.
#[derive(Clone, Copy, Debug, PartialEq, Eq, Error)]
pub enum ListFault {
    /// The start function's type and locals format aren't in the stored part, or are none.
    #[error("no function at {at:08x}")]
    BadFunction { at: u32 },
    /// The instruction isn't whole.
    #[error("cut at {at:08x}")]
    Cut { at: u32 },
    /// The number isn't in its shortest form, so that no text gives these bytes.
    #[error("long opcode at {at:08x}")]
    Spelling { at: u32 },
    /// The number is that of no instruction.
    #[error("unknown opcode at {at:08x}")]
    BadOpcode { at: u32 },
    /// A mode has no meaning or can't be stored to, or a spare nibble isn't 0.
    #[error("operand mode not allowed at {at:08x}")]
    BadMode { at: u32 },
    /// Memory ran out: the one fault that no definition has.
    #[error("out of memory")]
    NoMemory,
}

/// What a line of a text lacks.
#[derive(Clone, Copy, Debug, PartialEq, Eq)]
pub(crate) enum LineFault {
    BadName,
    Count,
    BadOperand,
}

impl LineFault {
    /// The fault of a line by its number.
    pub fn in_line(self, line: u32) -> AsmFault
        ensures { result ≡ in_line line self }
    {
        match self {
            LineFault::BadName => AsmFault::BadName { line },
            LineFault::Count => AsmFault::Count { line },
            LineFault::BadOperand => AsmFault::BadOperand { line },
        }
    }
}

impl AsmFault {
    /// The number that the status line shows.
    pub fn number(self) -> u8
        ensures value { result ≡ number_in_text self }
        ensures range { (1 ≤ result) × (result ≤ 5) }
    {
        match self {
            AsmFault::Cut => 1,
            AsmFault::BadName { .. } => 2,
            AsmFault::Count { .. } => 3,
            AsmFault::BadOperand { .. } => 4,
            AsmFault::NoMemory => 5,
        }
    }

    /// The line; 0 where none is to blame.
    pub fn line(self) -> u32
        ensures { result ≡ line_in_text self }
    {
        match self {
            AsmFault::Cut | AsmFault::NoMemory => 0,
            AsmFault::BadName { line } | AsmFault::Count { line } | AsmFault::BadOperand { line } =>
                line,
        }
    }
}

impl ListFault {
    /// The number that the status line shows.
    pub fn number(self) -> u8
        ensures value { result ≡ number_in_code self }
        ensures range { (1 ≤ result) × (result ≤ 6) }
    {
        match self {
            ListFault::BadFunction { .. } => 1,
            ListFault::Cut { .. } => 2,
            ListFault::Spelling { .. } => 3,
            ListFault::BadOpcode { .. } => 4,
            ListFault::BadMode { .. } => 5,
            ListFault::NoMemory => 6,
        }
    }

    /// The place; 0 where none is to blame.
    pub fn at(self) -> u32
        ensures { result ≡ place_in_code self }
    {
        match self {
            ListFault::BadFunction { at }
            | ListFault::Cut { at }
            | ListFault::Spelling { at }
            | ListFault::BadOpcode { at }
            | ListFault::BadMode { at } => at,
            ListFault::NoMemory => 0,
        }
    }
}

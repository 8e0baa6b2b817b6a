//! What is said on standard error where a run has ended: the line of `Ended::line`, and under it, behind two blanks,
//! the reason in a sentence.
//!
//! Both are written at once where there is memory to put them together, and else piece by piece, which takes none.
//! So no ending is silent. Names and reasons are left out only where nothing is known of them.
use crate::misread::misread;
use crate::reasons::{DeviceReason, Reason, StepReason, WordsReason};
use crate::shown::{Cause, Shown};
use crate::stopped::step_reason;
use crate::stories::{file_reason, starts_at};
use gx_devices::{Act, LastCall};
use gx_session::{Ended, statuses};
use gx_words::Fault;
use std::alloc::{AllocError, Allocator, Global};
use std::fmt::{Display, Formatter};
use std::io::Write;
use std::{fmt, io};

/// What is known of a run beside how it ended.
#[derive(Clone, Copy)]
pub struct Known<'l, 'w, 's> {
    pub words: &'l [&'w str],
    /// The place of a word that isn't UTF-8, for which there are no words.
    pub unread: Option<usize>,
    /// The last call of the folder.
    pub last: Option<&'s LastCall>,
    /// Why the input failed, and why the output did.
    pub input: Option<io::Error>,
    pub output: Option<io::Error>,
}

/// Why a run ended so, but for what its own line says whole.
pub fn reason_of<'w, 's, A: Allocator + Clone>(
    ended: &Ended<A>,
    known: &Known<'_, 'w, 's>,
) -> Option<Reason<'w, 's>> {
    match ended.status {
        statuses::BAD_WORDS => Some(Reason::Words(match known.unread {
            Some(place) => WordsReason::NotUtf8(place),
            None => misread(known.words),
        })),
        statuses::FAULT if ended.fault != 0 => Some(Reason::Step(fault_reason(ended, known.last)?)),
        statuses::BAD_STORY | statuses::FAULT | statuses::BAD_TEXT | statuses::NO_LISTING => {
            Some(Reason::File(file_reason(ended, known.last?)?))
        }
        statuses::SHELF_FAULT => Some(Reason::Device(shelf_reason(known.last?)?)),
        statuses::INPUT_FAULT => { Some(Reason::Device(DeviceReason::Input(Cause(known.input?)))) }
        statuses::OUTPUT_FAULT => {
            Some(Reason::Device(DeviceReason::Output(Cause(known.output?))))
        }
        statuses::NO_MEMORY => Some(Reason::NoMemory),
        _ => None,
    }
}

/// Why a step had a fault.
fn fault_reason<A: Allocator + Clone>(
    ended: &Ended<A>,
    last: Option<&LastCall>,
) -> Option<StepReason> {
    let reason = step_reason(ended.fault, ended.machine.as_ref())?;
    match (reason, last) {
        (StepReason::Fault(Fault::BadFunction), Some(last)) if starts_at(last, ended.at) => {
            Some(StepReason::NoStart { at: ended.at })
        }
        _ => Some(reason),
    }
}

/// Why the last call of the folder failed.
fn shelf_reason<'a>(last: &'a LastCall) -> Option<DeviceReason<'a>> {
    let name = Shown(last.name());
    let error = Cause(last.error()?);
    Some(match last.act() {
        Act::Read => DeviceReason::Read(name, error),
        Act::Store => DeviceReason::Stored(name, error),
        Act::Remove => DeviceReason::Removed(name, error),
        Act::Find => DeviceReason::Found(name, error),
    })
}

/// The line of `Ended::line`.
#[derive(Clone, Copy)]
struct EndLine {
    status: u8,
    fault: u8,
    at: u32,
    steps: u64,
}

impl Display for EndLine {
    fn fmt<W: fmt::Write>(&self, f: &mut Formatter<W>) -> fmt::Result {
        let EndLine {
            status,
            fault,
            at,
            steps,
        } = *self;
        match status {
            statuses::BAD_WORDS => write!(f, "gx_player: the command line is not understood"),
            statuses::BAD_STORY => write!(f, "gx_player: no story ({fault})"),
            statuses::FAULT if fault == 0 => write!(f, "gx_player: the checksum differs"),
            statuses::FAULT => write!(
                f,
                "gx_player: fault {fault} at {at:08x} after {steps} steps"
            ),
            statuses::SPENT => write!(f, "gx_player: budget spent after {steps} steps"),
            statuses::INPUT_ENDED => write!(f, "gx_player: input ended"),
            statuses::STUCK => write!(f, "gx_player: nothing to wait for"),
            statuses::LINE_TOO_LONG => write!(f, "gx_player: input line too long"),
            statuses::SHELF_FAULT => write!(f, "gx_player: file fault"),
            statuses::INPUT_FAULT => write!(f, "gx_player: input fault"),
            statuses::OUTPUT_FAULT => write!(f, "gx_player: output fault"),
            statuses::NO_MEMORY => write!(f, "gx_player: out of memory"),
            statuses::BAD_TEXT => write!(
                f,
                "gx_player: text not understood ({fault} at line {at})"
            ),
            statuses::NO_LISTING => write!(f, "gx_player: no listing ({fault} at {at:08x})"),
            _ => Ok(()),
        }
    }
}

/// The line and the reason below it, each with a line feed; nothing where there is no line.
fn lines<A: Allocator + Clone>(
    alloc: Global,
    ended: &Ended<A>,
    reason: &Option<Reason>,
) -> Result<String, AllocError> {
    let mut lines = ended.line(alloc)?;
    if lines.is_empty() {
        return Ok(lines);
    }
    match reason {
        Some(reason) => writeln!(lines, "\n  {reason}")?,
        None => lines.push('\n')?,
    }
    Ok(lines)
}

/// Says how a run ended.
pub fn tell<A: Allocator + Clone, E: Write>(
    alloc: Global,
    ended: &Ended<A>,
    known: &Known,
    to: &mut E,
) -> io::Result<()> {
    let reason = reason_of(ended, known);
    if let Ok(lines) = lines(alloc, ended, &reason) {
        return to.write_all(lines.as_bytes());
    }
    writeln!(
        to,
        "{}",
        EndLine {
            status: ended.status,
            fault: ended.fault,
            at: ended.at,
            steps: ended.steps,
        }
    )?;
    match reason {
        Some(reason) => writeln!(to, "  {reason}"),
        None => Ok(()),
    }
}

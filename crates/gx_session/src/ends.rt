//! How a run goes on, stops at its end, or is cut short.
ghost use Rattle.std.specs.Prelude.{◌≡◌};
ghost use Rattle.gx_session.specs.Session.{stop_status, fault_number};
ghost use Rattle.gx_session.specs.Standing.{halt_status};

use crate::statuses;
use gx_outside::{SendFault, ShelfFault};
use gx_words::Fault;
use std::alloc::AllocError;

/// Why a session stops.
#[derive(Clone, Copy, Debug, PartialEq, Eq)]
pub enum Stop {
    /// The program ended, by quit or by the return of its start function.
    Ended,
    /// The program ended by a Glk call.
    Exited,
    /// A step, or the Glk call that it asked for, met a fault.
    Faulted(Fault),
    /// The next step costs more than the budget has left.
    Spent,
    /// A line is awaited, and none is left.
    InputEnded,
    /// The program waits, and nothing is requested.
    Stuck,
    /// The line that is awaited is too long.
    LineTooLong,
}

/// What an event comes to.
#[derive(Clone, Copy, Debug)]
pub enum Next {
    /// The session goes on.
    Goes,
    /// It stops here.
    Stops(Stop),
}

/// Why a run is cut short.
#[derive(Clone, Copy, Debug)]
pub enum Halt {
    /// The shelf failed.
    Shelf,
    /// The source failed.
    Input,
    /// The sink failed.
    Output,
    /// Memory ran out.
    NoMemory,
}

impl From<SendFault> for Halt {
    ghost use Rattle.gx_session.specs.Outcomes.{halt_of_send};

    ghost from_gives = { λ fault halt. halt ≡ halt_of_send fault };

    fn from(fault: SendFault) -> Halt {
        match fault {
            SendFault::Failed => Halt::Output,
            SendFault::NoMemory => Halt::NoMemory,
        }
    }
}

impl From<ShelfFault> for Halt {
    ghost use Rattle.gx_session.specs.Outcomes.{halt_of_shelf};

    ghost from_gives = { λ fault halt. halt ≡ halt_of_shelf fault };

    fn from(fault: ShelfFault) -> Halt {
        match fault {
            ShelfFault::Failed => Halt::Shelf,
            ShelfFault::NoMemory => Halt::NoMemory,
        }
    }
}

impl From<AllocError> for Halt {
    ghost use Rattle.gx_session.specs.declared.ends.Halt.TheVariants.{NoMemory};

    ghost from_gives = { λ _ halt. halt ≡ NoMemory };

    fn from(_refused: AllocError) -> Halt {
        Halt::NoMemory
    }
}

impl Stop {
    /// The status of a run that stops so.
    pub fn status(self) -> u8
        ensures { result ≡ stop_status self }
    {
        match self {
            Stop::Ended | Stop::Exited => statuses::ENDED,
            Stop::Faulted(_) => statuses::FAULT,
            Stop::Spent => statuses::SPENT,
            Stop::InputEnded => statuses::INPUT_ENDED,
            Stop::Stuck => statuses::STUCK,
            Stop::LineTooLong => statuses::LINE_TOO_LONG,
        }
    }

    /// The number of its fault, and 0 without one.
    pub fn fault(self) -> u8
        ensures { result ≡ fault_number self }
    {
        match self {
            Stop::Faulted(fault) => fault.number(),
            _ => 0,
        }
    }
}

impl Halt {
    /// The status of a run that is cut short so.
    pub fn status(self) -> u8
        ensures { result ≡ halt_status self }
    {
        match self {
            Halt::Shelf => statuses::SHELF_FAULT,
            Halt::Input => statuses::INPUT_FAULT,
            Halt::Output => statuses::OUTPUT_FAULT,
            Halt::NoMemory => statuses::NO_MEMORY,
        }
    }
}

//! What the machine can do, as the instruction `gestalt` tells it (Glulx 3.1.2, "Miscellaneous").
ghost use Rattle.std.specs.Prelude.{◌≡◌};
ghost use Rattle.gx_rows.specs.Gestalts.{gestalt_of};

use crate::{Keyed, find_row};
use gx_words::{FILTER_SYSTEM, GLK_SYSTEM, NULL_SYSTEM};

// The selectors.
const GLULX_VERSION: u32 = 0;

const TERP_VERSION: u32 = 1;

const RESIZE_MEM: u32 = 2;

const UNDO: u32 = 3;

const IO_SYSTEM: u32 = 4;

const UNICODE: u32 = 5;

const MEM_COPY: u32 = 6;

const M_ALLOC: u32 = 7;

const M_ALLOC_HEAP: u32 = 8;

/// Whether there are hasundo and discardundo, which aren't of 3.1.2.
const EXTENDED_UNDO: u32 = 12;

/// How a selector is answered.
#[derive(Clone, Copy)]
enum Answer {
    /// Always this number.
    Fixed(u32),
    /// 1 where the argument is an I/O system of the machine.
    Iosystem,
    /// The address where the heap starts.
    HeapStart,
}

#[derive(Clone, Copy)]
struct Capability {
    selector: u32,
    answer: Answer,
}

impl Keyed for Capability {
    ghost key_of = { λ capability. capability.selector };

    fn key(&self) -> u32 {
        self.selector
    }
}

macro_rules! capabilities {
    ($($selector:ident => $answer:expr;)*) => {
        [$(Capability { selector: $selector, answer: $answer }),*]
    };
}

/// The selectors that aren't always answered by 0, in rising order. The version of the interpreter is
/// its own to choose, and the first answer says 3.1.2 with hasundo and discardundo.
const CAPABILITIES: [Capability; 10] = capabilities! {
    GLULX_VERSION => Answer::Fixed(0x0003_0103);
    TERP_VERSION => Answer::Fixed(0x0001_0000);
    RESIZE_MEM => Answer::Fixed(1);
    UNDO => Answer::Fixed(1);
    IO_SYSTEM => Answer::Iosystem;
    UNICODE => Answer::Fixed(1);
    MEM_COPY => Answer::Fixed(1);
    M_ALLOC => Answer::Fixed(1);
    M_ALLOC_HEAP => Answer::HeapStart;
    EXTENDED_UNDO => Answer::Fixed(1);
};

/// The answer to a selector with its argument; `heap_start` is 0 where the heap is inactive.
#[tactic(auto, unfolding(crate::specs::Gestalts::gestalt_of))]
pub fn gestalt(selector: u32, argument: u32, heap_start: u32) -> u32
    ensures { result ≡ gestalt_of selector argument heap_start }
{
    match find_row(&CAPABILITIES, selector) {
        None => 0,
        Some(place) => match CAPABILITIES[place].answer {
            Answer::Fixed(number) => number,
            Answer::Iosystem => match argument {
                NULL_SYSTEM | FILTER_SYSTEM | GLK_SYSTEM => 1,
                _ => 0,
            },
            Answer::HeapStart => heap_start,
        },
    }
}

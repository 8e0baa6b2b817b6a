//! Files of stories, of two kinds (`.small` and `.calls`), each of whose runs is played by itself.
//!
//! A file has one story after another, with an empty line between them, and a line a fact. How numbers, DATA, WORDS and
//! INSTRUCTIONs are written is said in `notation`; STEPS, COPIES and PAGES are decimal.
//!
//! - `story NAME` begins a story, whose file has a header with a stack of 0x800 bytes, and a start function without
//!   locals; all else is zero. In a file `.small` it has a page of ROM and a page of RAM, from 0x100 on. In a file
//!   `.calls` it has ROM up to 0x1000 and RAM up to memory's end at 0x2000, of which the answers of calls take 0x200
//!   bytes from 0x1800 on.
//! - `at ADDRESS DATA` and `at ADDRESS code INSTRUCTION` put bytes into the file, its header included, and `bytes
//!   NUMBER` is how many of them are there: without its line 0x200 of the 0x400 that a file `.small` has room for, and
//!   all in a file `.calls`.
//! - `code INSTRUCTION` and `data DATA` put bytes after those before them, the first at 0x27. `raw DATA` are those of
//!   an instruction, `quit` is `code quit` at the end of a program, and `window` puts the eight instructions that
//!   select Glk and open the current window.
//! - A Glk call is `NAME ARGUMENTS = ANSWER` by its name in Glk, or `call SELECTOR ARGUMENTS = ANSWER`. Its arguments
//!   are copied to the stack, and its answer is stored in a word of its own, which is looked at in the end; without
//!   `=` it is 0. Only a file `.calls` has calls by name. Its stories go from line to line, so that their steps are
//!   known and compared: `spends STEPS`, in hexadecimal, says that the last instruction takes so many more.
//! - `budget STEPS` is the budget, 1,000,000 without its line, `pool PAGES` how many pages of memory may be out at a
//!   time, and `options WORDS` are the words that the command line has at its end. `file NAME DATA` puts a file onto
//!   the shelf. `input DATA` is all that the source has, which it gives in pieces of `piece BYTES`. `shelf NUMBERS`,
//!   `source NUMBERS` and `sink NUMBERS` are the calls that fail, from 1 on. (The shelf's first one loads the story.)
//! - `stack WORDS` is what the stack holds at the end above the fixed part of the start function's frame, without the
//!   arguments of a call that wasn't answered, `shown DATA` what was shown, `memory ADDRESS DATA` what memory holds
//!   there, `size NUMBER` how large it is, `copies COPIES` how many copies are kept for undo, `after NAME DATA` the
//!   file of a name, and `gone NAME` a name that has none. Without its line the stack has nothing, no text was shown,
//!   memory has its first size, and no copies are kept.
//! - `steps STEPS` is how many steps were done, and `out PAGES` how many pages are out at the end, while the machine is
//!   there. (None is once it is dropped, in any story.)
//! - `ends HOW` plays the story and compares: `well after 3 steps`, or the program's line without its name. HOW is
//!   `well` where the steps are known, and `quit` is added then unless the program has ended. With `unbegun` before it
//!   no machine is begun, and of the machine nothing is compared.
//! - `also LINE, LINE..` plays the story in a run of its own as if these lines stood at its end.
//! - `faults NUMBER CALL` plays the lines before it and this call, which is the fault of that number, in a run of their
//!   own; in the place of CALL may stand `code INSTRUCTION` or `raw DATA`.
//! - Where a run came to an end of its own, and has no `pool` and no `sink`, it is played on a tape too, as `rewinding`
//!   says.
//! - `spent` says that a run which memory cut short left what a budget of its steps leaves where there is memory.
//! - `fronts KNOWN FAULT` says that the file's checksum is right, and that each shorter front of it is refused, played
//!   and checked: with fault 1 below KNOWN bytes, and with FAULT from there on.
//! - `sequel PAGES DATA` says that the story, over a pool of so many pages of which one is taken away, is cut short
//!   behind the text DATA, and from the machine that it left goes on to the same end once that page is back.
use crate::notation::{are_remarks, facts, name_of};
use crate::story::play;
use crate::tally::{Place, Tally};
use anyhow::{Result, anyhow};
use std::alloc::Global;

/// What differs between the kinds of stories.
#[derive(Clone, Copy)]
pub struct Kind<'a> {
    /// What a story's file begins with: its header, and the start function's type and format.
    pub head: &'a str,
    /// How many bytes of the file are there.
    pub size: usize,
    /// How many it has room for.
    pub room: usize,
    /// The selectors of Glk's calls by their names. Where there are any, a story goes from line to line.
    pub names: &'a str,
}

/// The header of a story of a small machine.
pub const SMALL_HEAD: &str =
    "'Glul' 00030102 00000100 00000200 00000200 00000800 00000024 00000000 00000000 C1 00 00";

/// The header of a story of Glk calls, and what stands in the place of their answers before them.
const CALLS_HEAD: &str =
    "'Glul' 00030102 00001000 00002000 00002000 00000800 00000024 00000000 00000000 C1 00 00 \
    00*17D9 EE*200";

impl<'a> Kind<'a> {
    /// Stories of a small machine.
    pub fn small() -> Kind<'a> {
        Kind {
            head: SMALL_HEAD,
            size: 0x200,
            room: 0x400,
            names: "",
        }
    }

    /// Stories of Glk calls, whose selectors by their names are these.
    pub fn calls(names: &'a str) -> Kind<'a> {
        Kind {
            head: CALLS_HEAD,
            size: 0x2000,
            room: 0x2000,
            names,
        }
    }
}

/// Plays all runs of a story; an error where there is none.
fn play_story<P: Print>(
    rt: &P,
    alloc: Global,
    kind: Kind<'_>,
    file: &str,
    lines: &str,
    tally: &mut Tally,
) -> Result<()> {
    let story = name_of(lines);
    let before = tally.counted();
    for line in lines.lines() {
        if let ("ends" | "also" | "faults", _) = facts(line) {
            let run = play(alloc, kind, lines, line);
            tally.note_at(rt, Place { file, story, line }, run)?;
        }
    }
    if story.is_empty() || tally.counted() == before {
        let line = "";
        let run = Err(anyhow!("not one story with a name and an end"));
        tally.note_at(rt, Place { file, story, line }, run)?;
    }
    Ok(())
}

/// Plays the stories of a table.
pub fn play_all<P: Print>(
    rt: &P,
    alloc: Global,
    kind: Kind<'_>,
    file: &str,
    table: &str,
    tally: &mut Tally,
) -> Result<()> {
    for lines in table.split("\n\n") {
        if !are_remarks(lines) {
            play_story(rt, alloc, kind, file, lines, tally)?;
        }
    }
    Ok(())
}

//! A story's program: what its lines put into its file, and what is known of a run from them.
//!
//! A Glk call copies its arguments to the stack, and stores its answer in a word of its own, which is looked at in the
//! end: the last instruction isn't answered.
use crate::notation::{add_word, add_words, facts, number, numbers_of, text};
use crate::stories::Kind;
use crate::story_files::StoryFile;
use anyhow::{Result, bail};
use std::alloc::Global;

/// Where the answers of the calls are stored.
const ANSWERS: usize = 0x1800;

/// What stands there before a call.
const UNANSWERED: [u8; 4] = [0xEE; 4];

/// What opens the current window: eight instructions.
const WINDOW: &str =
    "setiosys #02 z\ncopy z sp\ncopy #03 sp\ncopy z sp\ncopy z sp\ncopy z sp\nglk #23 #05 sp\nglk #2f #01 z\n";

/// The kinds of lines that put nothing into a program.
const OTHERS: [&str; 25] = [
    "", "story", "also", "faults", "budget", "pool", "options", "input", "piece", "source", "sink",
    "shelf", "file", "stack", "shown", "memory", "after", "gone", "size", "copies", "steps", "out",
    "spent", "sequel", "fronts",
];

/// The program of a story, as far as its lines were read.
#[derive(Drop)]
pub struct Program<'a> {
    kind: Kind<'a>,
    file: StoryFile,
    /// How many bytes of the file are there.
    size: usize,
    /// Where the last instruction stands.
    last: usize,
    /// The steps of all instructions.
    steps: u64,
    /// The last instruction ends the program.
    ends: bool,
    /// The arguments of the last instruction, where it is a call.
    arguments: Vec<u64>,
    /// What the calls are to answer, four bytes each.
    answers: Vec<u8>,
    /// How many of these bytes are those of calls before the last instruction.
    answered: usize,
}

impl<'a> Program<'a> {
    /// The program of a story's lines.
    pub fn read(alloc: Global, kind: Kind<'a>, lines: &str) -> Result<Program<'a>> {
        let mut program = Program {
            kind,
            file: StoryFile::new(alloc, kind.room, kind.head)?,
            size: kind.size,
            last: 0,
            steps: 0,
            ends: false,
            arguments: Vec::new(alloc),
            answers: Vec::new(alloc),
            answered: 0,
        };
        program.take_all(alloc, lines)?;
        Ok(program)
    }

    fn take_all(&mut self, alloc: Global, lines: &str) -> Result<()> {
        for line in lines.lines() {
            let (key, rest) = facts(line);
            self.take(alloc, key, rest)?;
        }
        if self.answered < self.answers.len() {
            self.answers.truncate(self.answered);
            self.answers.extend_from_slice(&UNANSWERED)?;
        }
        self.file.compare_listing(alloc)
    }

    /// Takes a line, of which only some go into the program.
    fn take(&mut self, alloc: Global, key: &str, rest: &str) -> Result<()> {
        match key {
            "at" => self.file.put_at(alloc, rest),
            "code" => self.put(alloc, rest),
            "data" => self.file.put_data(alloc, rest),
            "raw" => {
                self.begin();
                self.file.put_data(alloc, rest)
            }
            "window" => self.file.put_code(alloc, WINDOW),
            "bytes" => {
                self.size = usize::from_str_radix(rest, 16)?;
                Ok(())
            }
            "spends" => {
                self.steps = self.steps.saturating_add(u64::from(number(rest)?));
                Ok(())
            }
            "quit" => self.quit(alloc),
            "ends" if rest == "well" && !self.ends => self.quit(alloc),
            "ends" => Ok(()),
            _ => self.take_other(alloc, key, rest),
        }
    }

    /// Takes a Glk call, or a line that puts nothing into the program.
    fn take_other(&mut self, alloc: Global, key: &str, rest: &str) -> Result<()> {
        if OTHERS.contains(&key) {
            return Ok(());
        }
        if key == "call" {
            let (selector, rest) = rest.split_once(' ').unwrap_or((rest, ""));
            return self.call(alloc, selector, rest);
        }
        self.call(alloc, selector_of(self.kind.names, key)?, rest)?;
        self.ends = key == "exit";
        Ok(())
    }

    /// Begins an instruction, which takes a step.
    fn begin(&mut self) {
        self.last = self.file.next();
        self.steps = self.steps.saturating_add(1);
        self.arguments.clear();
        self.answered = self.answers.len();
    }

    /// Puts an instruction behind the code.
    fn put(&mut self, alloc: Global, instruction: &str) -> Result<()> {
        self.begin();
        let line = format!(in alloc; "{instruction}\n")?;
        self.file.put_code(alloc, line.as_str())
    }

    fn quit(&mut self, alloc: Global) -> Result<()> {
        self.ends = true;
        self.put(alloc, "quit")
    }

    /// Puts a call by its selector: its arguments are copied to the stack, the last one first, and it pops them.
    fn call(&mut self, alloc: Global, selector: &str, rest: &str) -> Result<()> {
        let (arguments, answer) = rest.split_once('=').unwrap_or((rest, "0"));
        let (selector, answer) = (number(selector)?, number(answer)?);
        let arguments = numbers_of(alloc, arguments)?;
        self.copy(alloc, arguments.as_slice())?;
        self.glk(alloc, selector, arguments.len())?;
        self.arguments = arguments;
        self.answers.extend_from_slice(&answer.to_be_bytes())?;
        Ok(())
    }

    /// Copies arguments to the stack.
    fn copy(&mut self, alloc: Global, arguments: &[u64]) -> Result<()> {
        for argument in arguments.iter().rev() {
            let copy = format!(in alloc; "copy #{argument:08x} sp")?;
            self.put(alloc, copy.as_str())?;
        }
        Ok(())
    }

    /// Puts the call of so many arguments.
    fn glk(&mut self, alloc: Global, selector: u32, count: usize) -> Result<()> {
        let place = ANSWERS.saturating_add(self.answers.len());
        let glk = format!(in alloc; "glk #{selector:08x} #{count:02x} @{place:04x}")?;
        self.put(alloc, glk.as_str())
    }

    /// The bytes of the file that are there.
    pub fn bytes(&self) -> &[u8] {
        self.file.bytes().get(..self.size).unwrap_or_default()
    }

    /// What the calls are to have answered at the end, and what memory holds there.
    pub fn answers<'b>(&self, memory: &'b [u8]) -> (&[u8], Option<&'b [u8]>) {
        let answers = self.answers.as_slice();
        let end = ANSWERS.saturating_add(answers.len());
        (answers, memory.get(ANSWERS..end).or(Some(&[])))
    }

    /// The steps that were done: the last instruction isn't, but where it ends the program.
    fn done(&self) -> u64 {
        self.steps.saturating_sub(u64::from(!self.ends))
    }

    /// The size that memory has at first.
    fn first_size(&self) -> u64 {
        let mut size = 0u64;
        for byte in self.file.bytes().iter().skip(0x10).take(4) {
            size = size.wrapping_mul(256).wrapping_add(u64::from(*byte));
        }
        size
    }

    /// A story's lines and what follows from them: what holds where no line says otherwise before them, and behind them
    /// the whole ending, and the stack as words of eight digits.
    pub fn wanted(&self, alloc: Global, lines: &str) -> Result<String> {
        let mut wanted = String::new(alloc);
        self.add_wanted(&mut wanted, lines)?;
        Ok(wanted)
    }

    fn add_wanted(&self, wanted: &mut String, lines: &str) -> Result<()> {
        let size = self.first_size();
        write!(wanted, "size {size:X}\ncopies 0\n")?;
        if !self.kind.names.is_empty() {
            let done = self.done();
            write!(wanted, "steps {done}\n")?;
        }
        write!(wanted, "{lines}\nends ")?;
        self.add_ending(wanted, text(lines, "ends"))?;
        wanted.push_str("\nstack ")?;
        add_words(wanted, text(lines, "stack"))?;
        self.add_arguments(wanted)
    }

    /// Adds how the run ends, with the place and the steps that the lines leave out.
    fn add_ending(&self, wanted: &mut String, how: &str) -> Result<()> {
        let (at, done) = (self.last, self.done());
        match how.split_once(' ') {
            None if how == "well" => write!(wanted, "well after {done} steps"),
            Some(("fault", number)) if !number.contains(' ') => {
                write!(wanted, "{how} at {at:08x} after {done} steps")
            }
            _ => wanted.push_str(how),
        }?;
        Ok(())
    }

    /// Adds the arguments of the last call, unless it was answered, to what the stack holds.
    fn add_arguments(&self, wanted: &mut String) -> Result<()> {
        for argument in self.arguments.as_slice().iter().rev() {
            add_word(wanted, *argument, 1)?;
        }
        Ok(())
    }
}

/// The selector of a call, in hexadecimal.
fn selector_of<'a>(names: &'a str, name: &str) -> Result<&'a str> {
    for line in names.lines() {
        if let Some((selector, known)) = line.split_once(' ') {
            if known == name {
                return Ok(selector);
            }
        }
    }
    bail!("a line of no known kind: {name}")
}

//! Job work: the story of a number is played to its end, and one line tells what it came to: the steps, the length
//! of the text and the sum of RAM. It measures the machine, and its line is the same everywhere.
ghost use Rattle.std.specs.Prelude.{◌≡◌, [], ◌++◌, ◌∷◌, Some, None, IfOk, decimal, string_bytes};
ghost use Rattle.gx_outside.specs.Chains.{IsCalled};
ghost use Rattle.gx_session.specs.Devices.{Devices};
ghost use Rattle.gx_play.specs.declared.command.Job.TheVariants.{Work};
ghost use Rattle.gx_play.specs.Jobs.{work_machine, work_line};
ghost use Rattle.gx_play.specs.Loading.{IsJobDone};
ghost use Rattle.gx_play.specs.Commands.{Command};

use crate::command::USUAL_DEPTH;
use crate::figures::ram_sum;
use crate::loading::without_machine;
use crate::silent::{Gathered, NoFiles, NoInput, Zeros};
use crate::telling::send_output;
use glk_world::World;
use gx_machine::Machine;
use gx_outside::Sink;
use gx_session::numerals::push_number;
use gx_session::{Ended, run_on, statuses};
use gx_story::Story;
use gx_work::make_story;
use std::alloc::{AllocError, Allocator, Global};

/// Plays the story of a number, and tells what it came to.
pub fn work<A: Allocator + Clone, K: Sink>(
    alloc: Global,
    pages: A,
    number: u32,
    output: &mut K,
) -> Ended<A>
    ensures { IsCalled K.called output.old output.new (λ sends. (command : Command) (d : Devices)
        → IsJobDone (Work number) command (record d { sink = K.seen output.old; sends = []; asked = [] })
        (record d { sink = K.seen output.new; sends = sends; asked = [] }) result) }
{
    match work_line(alloc, pages, number) {
        Err(_) => without_machine(statuses::NO_MEMORY, 0, 0),
        Ok(line) => send_output(output, line.as_bytes(), statuses::ENDED),
    }
}

/// The line of a number.
fn work_line<A: Allocator + Clone>(
    alloc: Global,
    pages: A,
    number: u32,
) -> Result<String, AllocError>
    ensures { IfOk result (λ line. string_bytes line ≡ work_line number) }
{
    let machine = start_work(alloc, pages, number)?;
    let world = World::new(alloc, 80, 24);
    let mut source = NoInput::new();
    let mut sink = Gathered::new(alloc);
    let mut shelf = NoFiles::new();
    let mut dice = Zeros;
    let ended = run_on(
        alloc,
        machine,
        world,
        false,
        u64::MAX,
        &mut source,
        &mut sink,
        &mut shelf,
        &mut dice,
    );
    if ended.status == statuses::NO_MEMORY {
        return Err(AllocError);
    }
    tell_end(
        alloc,
        ended.steps,
        sink.len(),
        ram_sum(ended.engine.state()),
    )
}

/// The machine that starts the story of a number. There always is one: only memory may be wanting.
fn start_work<A: Allocator + Clone>(
    alloc: Global,
    pages: A,
    number: u32,
) -> Result<Machine<A>, AllocError>
    ensures value { IfOk result (λ machine. work_machine number ≡ Some machine) }
    ensures asks { IfOk result (λ machine. machine.asking ≡ None) }
{
    let bytes = make_story(alloc, number)?;
    let Ok(story) = Story::read(alloc, bytes.as_slice()) else {
        return Err(AllocError);
    };
    match Machine::start(alloc, pages, story, USUAL_DEPTH) {
        Ok(machine) => Ok(machine),
        Err(_) => Err(AllocError),
    }
}

/// Three numbers as a line.
fn tell_end(alloc: Global, steps: u64, length: usize, sum: u32) -> Result<String, AllocError>
    ensures { IfOk result (λ line. string_bytes line
        ≡ (decimal steps ++ 32 ∷ decimal length ++ 32 ∷ decimal sum) ++ 10 ∷ []) }
{
    let mut line = String::new(alloc);
    push_number(&mut line, steps)?;
    line.push_str(" ")?;
    push_number(&mut line, length as u64)?;
    line.push_str(" ")?;
    push_number(&mut line, u64::from(sum))?;
    line.push_str("\n")?;
    Ok(line)
}

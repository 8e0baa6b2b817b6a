//! Printing the quick way: the instructions that begin a string or number or drop a character, and what ends it.
//!
//! What is done here goes on and asks nothing. Where the next step isn't one of these, nothing has changed, and it is
//! to be made by `rows`: a character to be put, one that the filter is called with, and every fault.
ghost use Rattle.std.specs.Prelude.{◌≡◌, ◌≢◌, ◌↔◌, ◌<◌, ◌+◌, true, false, Ok};
ghost use Rattle.gx_words.specs.Constants.{glk_system};
ghost use Rattle.gx_state.specs.declared.effects.Effect.TheVariants.{Went};
ghost use Rattle.gx_pages.specs.Memory.{number_in};
ghost use Rattle.gx_state.specs.Flat.{sp_of};
ghost use Rattle.gx_operands.specs.Plans.{HasValues};
ghost use Rattle.ops_print.specs.Asks.{printed};
ghost use Rattle.gx_operands.specs.Code.{IsInRom};
ghost use Rattle.gx_machine.specs.Quick.{Tries};
ghost use Rattle.gx_machine.specs.Starts.{IsStarted, begun_on, prints_at, prints_next, streamed_on};

use crate::quick::is_in_rom;
use crate::quick_acts::{call, go_on};
use gx_operands::{Cursor, code, load, opcode, stack_pointer};
use gx_rows::{STREAMCHAR, STREAMNUM, STREAMSTR, STREAMUNICHAR};
use gx_state::{Dest, Effect, Mode, State};
use gx_strings::begin;
use gx_words::{FILTER_SYSTEM, GLK_SYSTEM, PrintKind, Printing};
use std::alloc::Allocator;

/// Whether the number of an instruction in one byte is that of one that prints.
#[inline(always)]
pub(crate) fn prints_at_pc<A: Allocator + Clone>(state: &State<A>) -> bool
    ensures { result ≡ prints_at (number_in 1 state.now.flat.memory state.now.flat.pc) }
{
    match state.code(1, state.pc()) {
        Ok(number) => number >= STREAMCHAR && number <= STREAMUNICHAR,
        Err(_) => false,
    }
}

/// Whether the next step may be one of printing: an item, or an instruction that prints.
#[inline(always)]
pub(crate) fn prints_next<A: Allocator + Clone>(state: &State<A>) -> bool
    ensures { result ≡ prints_next state.now.flat state.now.flat.mode }
{
    match state.mode() {
        Mode::Running => prints_at_pc(state),
        Mode::Printing(_) => true,
    }
}

/// Whether no character is put to Glk.
#[inline(always)]
pub(crate) fn is_silent<A: Allocator + Clone>(state: &State<A>) -> bool
    ensures { (result ≡ true) ↔ (state.now.flat.iosys.0 ≢ glk_system) }
{
    let (system, _) = state.iosys();
    system != GLK_SYSTEM
}

/// Goes on with printing a string or number, once the pops are made.
#[inline(always)]
fn begin_on<A: Allocator + Clone>(state: &mut State<A>, printing: Printing, cursor: &Cursor)
    requires live { 0 < sp_of state.old.flat }
    requires popped { HasValues state.old.flat cursor.now.popped }
    ensures value { state.new.flat ≡ begun_on state.old.flat printing cursor.now }
    ensures story { state.new.flat.story ≡ state.old.flat.story }
{
    let sp = stack_pointer(state, cursor.popped);
    state.cut_stack(sp);
    state.set_pc(cursor.at);
    state.set_mode(Mode::Printing(printing));
}

/// A number from its first digit on.
#[inline(always)]
fn number_from_start(value: u32) -> Printing
    ensures { result ≡ record { kind = PrintKind.Number; at = value; bit = 0; started = false } }
{
    Printing {
        kind: PrintKind::Number,
        at: value,
        bit: 0,
        started: false,
    }
}

/// Prints a character, by the I/O system; nothing is done under Glk, nor where the filter can't be called.
#[inline(always)]
fn stream<A: Allocator + Clone>(state: &mut State<A>, value: u32, cursor: &Cursor) -> bool
    requires live { 0 < sp_of state.old.flat }
    requires popped { HasValues state.old.flat cursor.now.popped }
    ensures value { result ≡ true → streamed_on state.old.flat value cursor.now ≡ Ok (state.new.flat, Went) }
    ensures none { result ≡ false → state.new.flat ≡ state.old.flat }
    ensures story { state.new.flat.story ≡ state.old.flat.story }
{
    let (system, rock) = state.iosys();
    match system {
        FILTER_SYSTEM => matches!(call(state, rock, &[value], Dest::Nowhere, cursor), Ok(true)),
        GLK_SYSTEM => false,
        _ => {
            go_on(state, cursor.at, cursor);
            true
        }
    }
}

/// Does the instruction at PC where it begins to print a string or number, drops a character, or calls the filter with
/// one.
pub(crate) fn start<A: Allocator + Clone>(state: &mut State<A>) -> bool
    requires { 0 < sp_of state.old.flat }
    ensures value { result ≡ true → IsStarted state.old.flat state.new.flat }
    ensures none { result ≡ false → state.new.flat ≡ state.old.flat }
    ensures story { state.new.flat.story ≡ state.old.flat.story }
{
    if is_in_rom(state) {
        start_at::<A, true>(state)
    } else {
        start_at::<A, false>(state)
    }
}

/// The same, where it is known or not that the instruction lies in ROM.
#[tactic(auto, unfolding(gx_pages::specs::Memory::number_in), using(crate::proofs::Starts::starts))]
fn start_at<A: Allocator + Clone, const ROM: bool>(state: &mut State<A>) -> bool
    requires live { 0 < sp_of state.old.flat }
    requires rom { IsInRom ROM state.old.flat (state.old.flat.pc + 22) }
    ensures value { result ≡ true → IsStarted state.old.flat state.new.flat }
    ensures none { result ≡ false → state.new.flat ≡ state.old.flat }
    ensures story { state.new.flat.story ≡ state.old.flat.story }
{
    let mut modes = 0;
    let Ok(number) = opcode::<A, ROM>(state, &mut modes) else {
        return false;
    };
    if number != STREAMNUM && number != STREAMSTR && !is_silent(state) {
        return false;
    }
    let Ok(first) = code::<A, ROM>(state, 1, modes) else {
        return false;
    };
    let mut cursor = Cursor {
        at: modes + 1,
        popped: 0,
    };
    let Ok(a) = load::<A, ROM>(state, 4, first % 16, &mut cursor) else {
        return false;
    };
    match number {
        STREAMCHAR => stream(state, a % 256, &cursor),
        STREAMNUM => {
            begin_on(state, number_from_start(a), &cursor);
            true
        }
        STREAMSTR => match begin(state.memory(), a) {
            Ok(string) => {
                begin_on(state, string, &cursor);
                true
            }
            Err(_) => false,
        },
        STREAMUNICHAR => stream(state, a, &cursor),
        _ => false,
    }
}

/// Makes the next step of printing where it puts no character.
#[inline(never)]
pub(crate) fn item_on<A: Allocator + Clone>(state: &mut State<A>) -> bool
    requires { 0 < sp_of state.old.flat }
    ensures value { Tries ⊥ (Ok result) state.old.flat state.new.flat (printed state.old.flat) }
    ensures story { state.new.flat.story ≡ state.old.flat.story }
{
    match ops_print::item(state) {
        Ok(Effect::Went) => true,
        _ => false,
    }
}

//! One step of printing: the next item of a string or number, by the I/O system.
ghost use Rattle.std.specs.Prelude.{◌≡◌, ◌<◌, ◌≤◌, ◌+◌, ◌++◌, take, length, None, Ok, true, false, IfOk, IfSome};
ghost use Rattle.std.specs.Option.{option_map};
ghost use Rattle.gx_words.specs.Faults.{TakesNone};
ghost use Rattle.gx_words.specs.Results.{Turns};
ghost use Rattle.gx_strings.specs.Items.{next_item};
ghost use Rattle.gx_strings.specs.Held.{is_char_or_end};
ghost use Rattle.gx_state.specs.declared.effects.Effect.TheVariants.{Put, Went};
ghost use Rattle.gx_state.specs.declared.modes.Mode.TheVariants.{Printing as APrinting};
ghost use Rattle.gx_state.specs.Flat.{sp_of};
ghost use Rattle.gx_state.specs.Relations.{Goes};
ghost use Rattle.ops_print.specs.Asks.{IsPutAtMost, printed, mode_after, is_put};
ghost use Rattle.ops_print.specs.Items.{function_called, character_printed, item_printed, is_printing_place};
ghost use Rattle.ops_print.specs.Puts.{most_puts, char_at, PutsNext};

use crate::arguments::arguments_in;
use crate::stubs::{end_inner, resuming, to_code};
use arrayvec::ArrayVec;
use gx_pages::Pages;
use gx_state::{Effect, Mode, State};
use gx_strings::{CharOrEnd, Item, next_char, next_item};
use gx_words::{FILTER_SYSTEM, Fault, GLK_SYSTEM, PrintKind, Printing};
use std::alloc::Allocator;

/// The most characters that are looked ahead for at once.
pub const MOST_PUTS: usize = 64;

/// Calls a function in the midst of printing.
#[tactic(auto, unfolding(crate::specs::Items::function_called))]
fn call_function<A: Allocator + Clone>(
    state: &mut State<A>,
    started: bool,
    back: &Printing,
    at: u32,
    args: &[u32],
) -> Result<Effect, Fault>
    ensures value { Goes result state.old.flat state.new.flat
        (function_called state.old.flat started back.now at args.now) }
    ensures asks { IfOk result (λ effect. IsPutAtMost effect (state.new.flat ≡ state.old.flat)) }
{
    let sp = state.stack().size();
    let stub = resuming(state, back);
    if started {
        state.enter(sp, &[stub], at, args)?;
    } else {
        let code = to_code(state);
        state.enter(sp, &[code, stub], at, args)?;
    }
    state.set_mode(Mode::Running);
    Ok(Effect::Went)
}

/// Prints a character of a string or number.
#[tactic(auto, unfolding(crate::specs::Items::character_printed))]
fn print_character<A: Allocator + Clone>(
    state: &mut State<A>,
    started: bool,
    value: u32,
    next: &Printing,
) -> Result<Effect, Fault>
    ensures value { Goes result state.old.flat state.new.flat
        (character_printed state.old.flat started value next.now) }
    ensures asks { IfOk result (λ effect. IsPutAtMost effect (state.new.flat ≡ state.old.flat)) }
{
    let (system, rock) = state.iosys();
    match system {
        FILTER_SYSTEM => call_function(state, started, next, rock, &[value]),
        GLK_SYSTEM => Ok(Effect::Put(value)),
        _ => {
            state.set_mode(Mode::Printing(*next));
            Ok(Effect::Went)
        }
    }
}

/// Begins the string that a reference names.
#[tactic(auto, unfolding(crate::specs::Items::item_printed))]
fn begin_string<A: Allocator + Clone>(
    state: &mut State<A>,
    started: bool,
    back: &Printing,
    inner: &Printing,
) -> Result<Effect, Fault>
    requires { 0 < sp_of state.old.flat }
    ensures value { Goes result state.old.flat state.new.flat
        (item_printed state.old.flat started (Item.Sub back.now inner.now)) }
    ensures asks { IfOk result (λ effect. IsPutAtMost effect (state.new.flat ≡ state.old.flat)) }
{
    let stub = resuming(state, back);
    if started {
        state.push_stubs(&[stub])?;
    } else {
        let code = to_code(state);
        state.push_stubs(&[code, stub])?;
    }
    state.set_mode(Mode::Printing(*inner));
    Ok(Effect::Went)
}

/// Calls the function that a reference names.
#[tactic(auto, unfolding(crate::specs::Items::item_printed))]
fn call_reference<A: Allocator + Clone>(
    state: &mut State<A>,
    started: bool,
    back: &Printing,
    at: u32,
    args_at: u32,
    count: u32,
) -> Result<Effect, Fault>
    ensures value { Goes result state.old.flat state.new.flat
        (item_printed state.old.flat started (Item.Call back.now at args_at count)) }
    ensures asks { IfOk result (λ effect. IsPutAtMost effect (state.new.flat ≡ state.old.flat)) }
{
    let args = arguments_in(state.memory(), args_at, count)?;
    call_function(state, started, back, at, args.as_slice())
}

/// Ends a string or number.
#[tactic(auto, unfolding(crate::specs::Items::item_printed))]
fn end_string<A: Allocator + Clone>(state: &mut State<A>, started: bool) -> Result<Effect, Fault>
    ensures value { Goes result state.old.flat state.new.flat (item_printed state.old.flat started Item.End) }
    ensures asks { IfOk result (λ effect. IsPutAtMost effect (state.new.flat ≡ state.old.flat)) }
{
    if started {
        end_inner(state)?;
    } else {
        state.set_mode(Mode::Running);
    }
    Ok(Effect::Went)
}

/// Whether a string or number may stand at a bit.
fn is_printing_place(printing: &Printing) -> bool
    ensures { result ≡ is_printing_place printing.now.kind printing.now.bit }
{
    match printing.kind {
        PrintKind::E1 => printing.bit < 8,
        _ => true,
    }
}

/// ROM: the bytes below RAMSTART, which are the story's in every state.
#[inline(always)]
#[tactic(auto, using(crate::proofs::Roms::stored))]
fn rom<A: Allocator + Clone>(state: &State<A>) -> &[u8]
    ensures { result.now ≡ take (length result.now) state.now.flat.memory }
{
    let _memory = state.memory(); // a state is sound
    &state.story().bytes()[..state.ramstart() as usize]
}

/// The character at a place of a string or number, with the address and the bit behind it; None where something else
/// is there. `rom` is the first bytes of memory.
#[inline(always)]
#[tactic(auto, using(crate::proofs::Runs::no_char))]
fn char_at<A: Allocator + Clone>(
    rom: &[u8],
    memory: &Pages<A>,
    table: u32,
    printing: &Printing,
) -> Option<(u32, u32, u32)>
    requires { rom.now ≡ take (length rom.now) memory.now }
    ensures { char_at memory.now table printing.now
        ≡ option_map (λ r. (r.0, record printing.now { at = r.1; bit = r.2 })) result }
{
    if !is_printing_place(printing) {
        return None;
    }
    match next_char(rom, memory, table, printing) {
        CharOrEnd::Char { value, at, bit } => Some((value, at, bit)),
        CharOrEnd::End | CharOrEnd::Neither => None,
    }
}

/// The character that the next step of a machine that prints asks to be put, with the address and the bit behind it;
/// None where it does something else.
#[inline(always)]
#[tactic(auto, using(crate::proofs::Runs::steps))]
pub fn next_put<A: Allocator + Clone>(
    state: &State<A>,
    printing: &Printing,
) -> Option<(u32, u32, u32)>
    requires { state.now.flat.mode ≡ APrinting printing.now }
    ensures value { IfSome result (λ r. printed state.now.flat ≡ Ok (state.now.flat, Put r.0)) }
    ensures mode { IfSome result (λ r. mode_after state.now.flat
        ≡ APrinting (record printing.now { at = r.1; bit = r.2 })) }
    ensures none { result ≡ None → IfOk (printed state.now.flat) (λ r. is_put r.1 ≡ false) }
{
    let (system, _) = state.iosys();
    if system != GLK_SYSTEM {
        return None;
    }
    char_at(rom(state), state.memory(), state.table(), printing)
}

/// The characters that a machine asks to be put next, `most` at most, where it prints from this place on and nothing
/// else is done between them. They are added to `chars`, and the place behind them is answered.
///
/// All of them are of one string or number: they stop before its end, a reference and a fault.
#[tactic(auto, using(crate::proofs::Runs::steps))]
pub fn more_puts<A: Allocator + Clone>(
    state: &State<A>,
    printing: &Printing,
    most: usize,
    chars: &mut ArrayVec<u32, MOST_PUTS>,
) -> Printing
    requires { length chars.old.items + most ≤ most_puts }
    ensures { PutsNext (record state.now.flat { mode = APrinting printing.now }) most chars.old.items chars.new.items
        (APrinting result) }
{
    let mut next = *printing;
    let (system, _) = state.iosys();
    if system != GLK_SYSTEM {
        return next;
    }
    let rom = rom(state);
    let memory = state.memory();
    let table = state.table();
    for taken in 0..most {
        let Some((value, at, bit)) = char_at(rom, memory, table, &next) else {
            return next;
        };
        chars.push(value);
        next.at = at;
        next.bit = bit;
    }
    next
}

/// Makes the next step of a machine that prints where it is a character that isn't put to Glk, or the end. Nothing is
/// done where it is something else, or has a fault.
#[inline(always)]
#[tactic(auto, unfolding(crate::proofs::Opened::dropping))]
pub fn pass_item<A: Allocator + Clone>(state: &mut State<A>, printing: &Printing) -> bool
    requires { state.old.flat.mode ≡ APrinting printing.now }
    ensures value { result ≡ true → printed state.old.flat ≡ Ok (state.new.flat, Went) }
    ensures none { result ≡ false → state.new.flat ≡ state.old.flat }
    ensures rest { result ≡ false → IfOk (printed state.old.flat) (λ r. r.1 ≡ Went
        → is_char_or_end (next_item state.old.flat.memory state.old.flat.table printing.now) ≡ false) }
    ensures story { state.new.flat.story ≡ state.old.flat.story }
{
    if !is_printing_place(printing) {
        return false;
    }
    let started = printing.started;
    match next_char(rom(state), state.memory(), state.table(), printing) {
        CharOrEnd::Char { value, at, bit } => {
            let next = Printing {
                at,
                bit,
                ..*printing
            };
            matches!(
                print_character(state, started, value, &next),
                Ok(Effect::Went)
            )
        }
        CharOrEnd::End => matches!(end_string(state, started), Ok(Effect::Went)),
        CharOrEnd::Neither => false,
    }
}

/// Makes one step of printing like `item`, and answers with it the mode behind the character, where the
/// item is one: the state stands while a character is to be put, and this is its mode once that is done.
/// For any other item it is the mode before the step.
#[tactic(auto, unfolding(crate::proofs::Opened::stepping))]
pub fn item_and_mode<A: Allocator + Clone>(state: &mut State<A>) -> Result<(Effect, Mode), Fault>
    requires { 0 < sp_of state.old.flat }
    ensures value { Turns (λ r. r.0) result state.old.flat state.new.flat (printed state.old.flat) }
    ensures asks { IfOk result (λ r. IsPutAtMost r.0 (state.new.flat ≡ state.old.flat)) }
    ensures mode { IfOk result (λ r. r.1 ≡ mode_after state.old.flat) }
    ensures memory { TakesNone result }
    ensures story { state.new.flat.story ≡ state.old.flat.story }
{
    let mode = state.mode();
    let Mode::Printing(printing) = mode else {
        return Err(Fault::BadFrame);
    };
    if !is_printing_place(&printing) {
        return Err(Fault::BadFrame);
    }
    let started = printing.started;
    match next_item(rom(state), state.memory(), state.table(), &printing)? {
        Item::Char { value, next } => {
            let effect = print_character(state, started, value, &next)?;
            Ok((effect, Mode::Printing(next)))
        }
        Item::Sub { back, inner } => Ok((begin_string(state, started, &back, &inner)?, mode)),
        Item::Call {
            back,
            at,
            args_at,
            args,
        } => Ok((
            call_reference(state, started, &back, at, args_at, args)?,
            mode,
        )),
        Item::End => Ok((end_string(state, started)?, mode)),
    }
}

/// Makes one step of printing: prints a character, begins the string or calls the function that a
/// reference names, or ends the string or number.
///
/// The faults are those of `next_item`; `BadAddress` where an argument of a reference isn't in memory;
/// `Overflow` where the stubs don't fit, and the other faults of `State::enter`; `BadFrame` where code
/// runs, where a compressed string stands at a bit above 7, and where no stub that a string or number
/// may end by is there at its end.
pub fn item<A: Allocator + Clone>(state: &mut State<A>) -> Result<Effect, Fault>
    requires { 0 < sp_of state.old.flat }
    ensures value { Goes result state.old.flat state.new.flat (printed state.old.flat) }
    ensures asks { IfOk result (λ effect. IsPutAtMost effect (state.new.flat ≡ state.old.flat)) }
{
    let (effect, _) = item_and_mode(state)?;
    Ok(effect)
}

//! The rows of the class Print (Glulx 3.1.2, "Output").
ghost use Rattle.std.specs.Prelude.{◌≡◌, Ok, IfOk};
ghost use Rattle.gx_state.specs.Flat.{IsHeight};
ghost use Rattle.gx_state.specs.Relations.{Goes};
ghost use Rattle.gx_operands.specs.Plans.{instruction_of};
ghost use Rattle.ops_print.specs.PrintRows.{character_streamed, printing_begun, streamchar, streamnum, streamstr};
ghost use Rattle.ops_print.specs.PrintRows.{streamunichar};
ghost use Rattle.ops_print.specs.Asks.{IsPutAtMost};

use gx_operands::{Plan, goes};
use gx_state::{Dest, Effect, Mode, State};
use gx_strings::begin;
use gx_words::{FILTER_SYSTEM, Fault, GLK_SYSTEM, PrintKind, Printing};
use std::alloc::Allocator;

/// Prints a character, by the I/O system.
fn stream_character<A: Allocator + Clone>(
    state: &mut State<A>,
    plan: &Plan,
    value: u32,
) -> Result<Effect, Fault>
    requires { IsHeight state.old.flat plan.now.sp }
    ensures value { Goes result state.old.flat state.new.flat
        (character_streamed state.old.flat (instruction_of plan.now) value) }
    ensures asks { IfOk result (λ effect. IsPutAtMost effect (state.new.flat ≡ state.old.flat)) }
{
    let (system, rock) = state.iosys();
    match system {
        FILTER_SYSTEM => {
            let stub = state.stub(&Dest::Nowhere, plan.next);
            state.enter(plan.sp, &[stub], rock, &[value])?;
            Ok(Effect::Went)
        }
        GLK_SYSTEM => Ok(Effect::Put(value)),
        _ => Ok(goes(state, plan)),
    }
}

/// Goes on with printing a string or number.
fn begin_printing<A: Allocator + Clone>(
    state: &mut State<A>,
    plan: &Plan,
    printing: Printing,
) -> Effect
    requires { IsHeight state.old.flat plan.now.sp }
    ensures value { printing_begun state.old.flat (instruction_of plan.now) printing ≡ (state.new.flat, result) }
    ensures asks { IsPutAtMost result (state.new.flat ≡ state.old.flat) }
{
    state.cut_stack(plan.sp);
    state.set_pc(plan.next);
    state.set_mode(Mode::Printing(printing));
    Effect::Went
}

/// streamchar: the low eight bits.
#[tactic(auto, unfolding(crate::specs::PrintRows::streamchar))]
pub fn streamchar<A: Allocator + Clone>(state: &mut State<A>, plan: &Plan) -> Result<Effect, Fault>
    requires { IsHeight state.old.flat plan.now.sp }
    ensures value { Goes result state.old.flat state.new.flat (streamchar state.old.flat (instruction_of plan.now)) }
    ensures asks { IfOk result (λ effect. IsPutAtMost effect (state.new.flat ≡ state.old.flat)) }
{
    stream_character(state, plan, plan.load(0) % 256)
}

/// streamnum: its digits follow, an item each.
#[tactic(auto, unfolding(crate::specs::PrintRows::streamnum))]
pub fn streamnum<A: Allocator + Clone>(state: &mut State<A>, plan: &Plan) -> Effect
    requires { IsHeight state.old.flat plan.now.sp }
    ensures value { streamnum state.old.flat (instruction_of plan.now) ≡ Ok (state.new.flat, result) }
    ensures asks { IsPutAtMost result (state.new.flat ≡ state.old.flat) }
    ensures story { state.new.flat.story ≡ state.old.flat.story }
{
    let printing = Printing {
        kind: PrintKind::Number,
        at: plan.load(0),
        bit: 0,
        started: false,
    };
    begin_printing(state, plan, printing)
}

/// streamstr: `BadAddress` or `BadString` by the string's type; its items follow.
#[tactic(auto, unfolding(crate::specs::PrintRows::streamstr))]
pub fn streamstr<A: Allocator + Clone>(state: &mut State<A>, plan: &Plan) -> Result<Effect, Fault>
    requires { IsHeight state.old.flat plan.now.sp }
    ensures value { Goes result state.old.flat state.new.flat (streamstr state.old.flat (instruction_of plan.now)) }
    ensures asks { IfOk result (λ effect. IsPutAtMost effect (state.new.flat ≡ state.old.flat)) }
{
    let printing = begin(state.memory(), plan.load(0))?;
    Ok(begin_printing(state, plan, printing))
}

/// streamunichar: all 32 bits.
#[tactic(auto, unfolding(crate::specs::PrintRows::streamunichar))]
pub fn streamunichar<A: Allocator + Clone>(
    state: &mut State<A>,
    plan: &Plan,
) -> Result<Effect, Fault>
    requires { IsHeight state.old.flat plan.now.sp }
    ensures value { Goes result state.old.flat state.new.flat (streamunichar state.old.flat (instruction_of plan.now)) }
    ensures asks { IfOk result (λ effect. IsPutAtMost effect (state.new.flat ≡ state.old.flat)) }
{
    stream_character(state, plan, plan.load(0))
}

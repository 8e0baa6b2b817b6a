//! The instructions of the class Print, and the steps by which strings and numbers are printed (Glulx
//! 3.1.2, "Output", "Strings" and "Calling and Returning During Output Filtering").
//!
//! `act` does the row of a plan, by its definition of specs/PrintRows. `item` makes one step of printing,
//! by specs/Items: one character, one reference or the end. Both go by the I/O system: the null system
//! drops each character, the filter is called with it, and under Glk it is asked to be put. After
//! every fault the state is as before, and nothing here takes memory. `next_put` and `more_puts` look
//! ahead for the characters that are asked to be put, by specs/Puts.
//! - `rows` has the rows.
//! - `items` has the steps of printing.
//! - `stubs` has the call stubs of strings and numbers, and `arguments` those of a reference.
#![tactic(auto)]

ghost use Rattle.std.specs.Prelude.{◌≡◌, IfOk};
ghost use Rattle.gx_state.specs.Flat.{IsHeight};
ghost use Rattle.gx_state.specs.Relations.{Goes};
ghost use Rattle.gx_operands.specs.Plans.{instruction_of};
ghost use Rattle.ops_print.specs.PrintRows.{row_effect};
ghost use Rattle.ops_print.specs.Asks.{IsPutAtMost};

mod arguments;
mod items;
mod rows;
mod stubs;

use gx_operands::Plan;
use gx_rows::by_row;
use gx_state::{Effect, State};
use gx_words::Fault;
pub use items::{MOST_PUTS, item, item_and_mode, more_puts, next_put, pass_item};
use rows::{streamchar, streamnum, streamstr, streamunichar};
use std::alloc::Allocator;

/// Does the row of a plan that `decode` made of this state.
///
/// `BadAddress` or `BadString` by the type of streamstr's string; under the filter a character has the
/// faults of `State::enter`.
pub fn act<A: Allocator + Clone>(state: &mut State<A>, plan: &Plan) -> Result<Effect, Fault>
    requires { IsHeight state.old.flat plan.now.sp }
    ensures value { Goes result state.old.flat state.new.flat (row_effect state.old.flat (instruction_of plan.now)) }
    ensures asks { IfOk result (λ effect. IsPutAtMost effect (state.new.flat ≡ state.old.flat)) }
{
    by_row!(Print, plan.row().number;
        STREAMCHAR => streamchar(state, plan),
        STREAMNUM => Ok(streamnum(state, plan)),
        STREAMSTR => streamstr(state, plan),
        STREAMUNICHAR => streamunichar(state, plan);
        Err(Fault::BadOpcode))
}

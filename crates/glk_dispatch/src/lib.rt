//! The calls of Glk by their selectors (Glk 0.7.5, "The Dispatch Layer").
//!
//! `call` makes a call, `go_on` goes on with one that waited, and both are their definitions of specs/Calls and
//! specs/Going. A fault leaves the world as it was, but for want of memory, after which it can only be dropped; memory
//! is wanted only where `grows` and `go_grows` say so. A reply writes in RAM alone and pushes no more than there is
//! room for.
//!
//! - `table` has the calls: what each needs of its arguments. `doing` does each, a line a call.
//! - `calls` is the one way that every call goes; `going` goes on with one that waited.
//!
//! Not done, and dropped with an answer of 0: images, sound, hyperlinks, the clock (`dropped` in `table`).
#![tactic(auto)]

mod calls;
mod doing;
mod going;
mod table;

pub use calls::call;
pub use glk_replies::{Given, Turn};
pub use glk_text_calls::{put, put_save, put_text, take_rest};
pub use going::go_on;

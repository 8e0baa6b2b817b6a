//! The machine: one step is the instruction at PC, within a budget (Glulx 3.1.2).
//!
//! - `machine` has the machine, its step and the answers to what a step asks.
//! - `rows` does the row of an instruction, class by class.
//! - `quick` reads and does the commonest instructions in one go, by the same definitions.
//! - `quick_acts` has what it does once the operands are read.
//! - `printing` has the quick steps of printing.
//! - `engine` has the trait that a session runs on.
//!
//! `Machine::step` is `stepped` of specs/Step for every machine, word and budget: each fault comes exactly where the
//! definition has it, an asking leaves the state as it is, and the budget is lowered by the cost, but not after a
//! fault. Want of memory comes only where the definition has no fault, the budget has the cost and the step writes,
//! resizes or copies memory, and then everything is as before the step. A session makes its steps by `advance`, as many
//! as ask nothing and then one more, and by `next_put`, where a character of a string or number is next: their
//! contracts are steps of the same definition.
//!
//! What a step asks is answered by `finish`, by definitions of specs/Answer. A save is answered once the copy that
//! `save_copy` gives was written, and a restore has `restore_copy` go back to a copy, or is answered where it fails
//! (specs/SavedCopies).
#![tactic(auto)]

mod askings;
mod engine;
mod machine;
mod printing;
mod quick;
mod quick_acts;
mod rows;

pub use askings::Asking;
pub use engine::Engine;
pub use machine::Machine;

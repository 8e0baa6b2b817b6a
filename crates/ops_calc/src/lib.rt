//! Integer math, the tests of branches and random words, apart from any machine.
//!
//! - `acts` has the names of the instructions.
//! - `arithmetic` has the instructions that turn words into a word (Glulx 3.1.2, "Integer
//!   Math" and "Moving Data").
//! - `branches` has the conditions of the branches ("Branches").
//! - `random` has the generator that a story may seed, and what `random` makes of a word.
//!
//! The files of specs/ define each instruction once, in the order of the standard, and each call
//! here is its definition for all arguments. Nothing takes memory.
#![tactic(auto)]

mod acts;
mod arithmetic;
mod branches;
mod random;

pub use arithmetic::calc;
pub use branches::test;
pub use random::{Generator, pick};

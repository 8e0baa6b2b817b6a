//! The searches of the machine: for a struct in memory by its key (Glulx 3.1.2, "Searching").
//!
//! - `asks` has what is looked for, and what a search may answer.
//! - `keys` compares the key with the bytes of one struct.
//! - `turns` looks at the structs of a row or a list, each in turn.
//! - `halves` looks in a row of rising keys, halving it each time.
//!
//! The files of specs/ define each search as a whole: what it finds, and how many probes it begins.
//! A call has a bound of probes, since a row or a list may be without end, and is its definition for
//! all arguments; further clauses say of what was found what it is. Nothing takes memory.
#![tactic(auto)]

mod asks;
mod halves;
mod keys;
mod turns;

pub use asks::{Ask, Found, KEY_INDIRECT, RETURN_INDEX, ZERO_KEY_TERMINATES};
pub use halves::binary;
pub use turns::{linear, linked};

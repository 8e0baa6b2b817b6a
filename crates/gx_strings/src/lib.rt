//! The strings and numbers that a story prints, an item at a time (Glulx 3.1.2, "Strings" and
//! "The String-Decoding Table").
//!
//! - `items` has what the printing comes to next: a character, a reference or the end.
//! - `objects` begins a string, and follows a reference to a string or function.
//! - `nodes` walks the bits of a compressed string over its decoding table, whose nodes have the types of
//!   `node_types`.
//! - `rom` reads the nodes and numbers that lie in ROM.
//! - `printing` gives the next item of a string or number, and the next character or end alone.
//!
//! The files of specs/ define the items over the list of all bits of memory; the code has no such
//! list, and each walk ends, since each branch takes a bit. Each call is its definition for all
//! arguments, but that a place in a compressed string is at one of the eight bits of a byte.
//! Nothing is changed, and nothing takes memory.
#![tactic(auto)]

mod items;
mod node_types;
mod nodes;
mod objects;
mod printing;
mod rom;

pub use items::{CharOrEnd, Item};
pub use objects::begin;
pub use printing::{next_char, next_item};

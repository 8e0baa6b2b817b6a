//! The memory of a machine.
//!
//! `Pages` is seen by contracts as one list of bytes, and `Kept` as the list at the time when it
//! was kept. Each call is its definition of specs/Memory over that list, for all arguments that
//! its condition allows; after a refusal the list is as it was.
//!
//! The bytes stand in pages of 256, 16 pages in a group, 16 groups in a leaf, and the leaves in one table. Memory
//! shares its pages, groups and leaves with what is kept of it and with its forks, until one of them changes a page.
//! The pages of zeros that memory begins with, grows by or is filled with are one page, `common` of memory.rt. So a
//! kept memory, or a fork, costs its table, and with it the pages, and their groups and leaves, that were changed
//! since. No clause says how the bytes are held or how much is shared.
#![tactic(auto)]

mod chunk;
mod chunks;
mod memory;
mod node;
mod page;
mod ranges;
mod table;

pub use memory::{Kept, Pages};

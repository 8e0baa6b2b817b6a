//! The outside of a run: where its input comes from, where its text goes, where its files stand.
//!
//! - `devices` has the three traits `Source`, `Sink` and `Shelf`, and their answers.
//! - `calls` counts the calls of a device, and those that fail, and knows whether memory ran out in the last.
//! - `mem_source`, `mem_sink` and `mem_shelf` are devices in memory, for tests and for embedding.
//! - `numbered` knows those calls of a device in memory that are to fail.
//!
//! Contracts see of each device how often it was called, how often it has failed, whether its last
//! call failed, whether memory ran out in the last call, whether it tells what it holds, and, where it
//! does, what that is; and of a source for how many bytes its reads had room. A real device tells
//! nothing, so every claim about content is made under the premise that the device tells.
#![tactic(auto)]

mod calls;
mod devices;
mod mem_shelf;
mod mem_sink;
mod mem_source;
mod numbered;

pub use calls::Calls;
pub use devices::{Failed, Load, SendFault, Shelf, ShelfFault, Sink, Source};
pub use mem_shelf::MemShelf;
pub use mem_sink::MemSink;
pub use mem_source::MemSource;

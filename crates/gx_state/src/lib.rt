//! The state of the machine (Glulx 3.1.2, "The Machine"): one part changed by each call.
//!
//! Contracts see a state as a `HeldState`: the flat state of memory, stack, registers, heap,
//! generator, mode and story, and beside it the room in the list of heap blocks. Each call changes
//! only what its clause names, and nothing after a refusal; every state is sound (specs/Sound).
//! Copies, forks and the running state share their pages; no clause says what is shared.
//!
//! - `state` has the readers, and the calls that set one part.
//! - `entry` starts a story and enters its functions, whose locals formats `formats` reads; `readable`
//!   is the memory that they are read from.
//! - `returns` has call stubs, and returns to them.
//! - `changes` writes to memory and changes the present frame.
//! - `copies` keeps copies of the state, goes back to them, forks both, and starts a story again; `flat_copies` does
//!   the first two for copies that are lists of bytes.
//! - `resizing` zeros, copies and resizes memory, and `blocks` enters and frees blocks of its heap.
//! - `effects` and `modes` have what a step did or asks, and where a result goes.
#![tactic(auto)]

mod blocks;
mod changes;
mod copies;
mod effects;
mod entry;
mod flat_copies;
mod formats;
mod modes;
mod readable;
mod resizing;
mod returns;
mod state;

pub use copies::Moment;
pub use effects::{Effect, Reply};
pub use flat_copies::FlatCopy;
pub use modes::{Dest, Mode};
pub use returns::printing_of;
pub use state::State;

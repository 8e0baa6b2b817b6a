//! Saved games (Quetzal 1.4; Glulx 3.1.2, "Saved Games").
#![tactic(auto)]

mod blocks;
mod chunks;
mod faults;
mod laws;
mod memory;
mod reading;
mod stacks;
mod writing;

pub use faults::SaveFault;
pub use laws::{old_saves_load, written_saves_are_read};
pub use reading::read_save;
pub use writing::{push_chunk, write_save};

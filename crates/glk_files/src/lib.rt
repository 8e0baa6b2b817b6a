//! Names of files: from what a story asks for to what stands on the shelf.
//!
//! - `names` makes the base of a name and adds its suffix (Glk 0.7.5, "File References").
//!
//! Contracts see a name as its bytes in UTF-8. Both calls make a new name, and want memory for it.
#![tactic(auto)]

mod names;

pub use names::{INPUT_RECORD, SAVED_GAME, TRANSCRIPT, base_name, full_name};

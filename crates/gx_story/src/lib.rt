//! Story files (Glulx 3.1.2, "The Header"): which are accepted, and what their headers say.
//!
//! - `blorbs` finds the story in a Blorb.
//! - `faults` has the reasons for which a file is refused, in the order of their checks.
//! - `headers` reads and checks the nine words with which a story begins.
//! - `stories` has the accepted story: its header and its stored part.
//!
//! `Story::read` is the definition `accepted` of specs/Stories for every list of bytes, and each
//! story satisfies `IsStory`: its sizes are multiples of 256, in order and within the limits, and
//! its stored part is as long as its header says.
//!
//! A wrong checksum doesn't refuse a story: `Story::checksum_ok` tells it.
#![tactic(auto)]

mod blorbs;
mod faults;
mod headers;
mod stories;

pub use faults::StoryFault;
pub use stories::Story;

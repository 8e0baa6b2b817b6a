//! Instructions as text: an assembler and a lister (Glulx 3.1.2, "Instruction Format").
//!
//! - `instruction` has an instruction as it is written; `names` has the instructions' names.
//! - `texts` reads lines, and assembles a text; `lines` writes them.
//! - `codes` reads and writes bytes, and lists a code.
//! - `stories` lists the start function of a story, and wraps a code into a story.
//! - `faults` has the reasons for which a text has no code, and a code no text.
//!
//! A text spells a code where there are instructions of which the text is the lines and the code the bytes: `Spells`
//! of specs/Instructions, one relation for both directions. `assemble` and `list` find the one code of a text and the
//! one text of a code, wherever there is one, and so undo each other.
#![tactic(auto)]

mod codes;
mod faults;
mod instruction;
mod lines;
mod names;
mod stories;
mod texts;

pub use codes::list;
pub use faults::{AsmFault, ListFault};
pub use stories::{list_story, wrap_code};
pub use texts::assemble;

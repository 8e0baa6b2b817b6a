//! Replies of Glk calls (Glk 0.7.5, "The Dispatch Layer"): what a call writes to memory and pushes, and what it asks.
//!
//! - `selectors` has the calls by their names.
//! - `parts` looks at memory, and makes the writes of a reply; `giving` gives words to references.
//! - `strings` reads strings in memory.
//!
//! The looks come first, and take no memory. What is made after them may want it, and only where the clause `memory`
//! says. No Glk world stands in this crate: what a call does to it is above.
#![tactic(auto)]

mod giving;
mod parts;
pub mod selectors;
mod strings;

pub use giving::{can_give_pair, give, give_each, pushes};
use gx_outside::Load;
use gx_state::Reply;
use gx_words::{Bytes, Name, Numbers};
pub use parts::{
    Character, ON_STACK, add_given, can_give, can_lay, can_read, filled, fitting, lay, numbers_at,
    reply,
};
pub use strings::string_length;

/// What a call asks next, or its answer.
#[derive(Drop)]
pub enum Turn {
    /// The call is done.
    Answer(Reply),
    /// It waits for a line, the next event of its requests.
    Wait,
    /// It waits, and nothing is requested.
    Stuck,
    /// It waits for a line, the name of a file.
    Prompt,
    /// It asks for the file of a name.
    Load(Name),
    /// It asks that a name hold these bytes.
    Store(Name, Bytes),
    /// It asks that the file of a name be removed.
    Remove(Name),
    /// It asks whether a name has a file.
    Has(Name),
    /// The program ends.
    Exit,
}

/// What a call goes on with.
#[derive(Drop)]
pub enum Given {
    /// The characters of a line, for Wait and Prompt.
    Line(Numbers),
    /// What stands under the name, for Load.
    Loaded(Load),
    /// The bytes are stored, for Store.
    Stored,
    /// Whether there was a file, for Remove and Has.
    Was(bool),
}

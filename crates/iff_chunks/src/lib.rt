//! The chunks of an IFF form, in which saved games (Quetzal 1.4) and Blorb files are kept.
//!
//! A form is `FORM`, a length, a kind of four letters and then its chunks. Each chunk is four
//! letters, the length of its body, the body, and a zero byte after a body of odd length. Lengths
//! are big-endian numbers of 32 bits.
//!
//! `read_form` finds the chunks of a form as the definition `chunks` of specs/Chunks does for every
//! list of bytes, and `find_part` one of them without memory. `written_forms_are_read` says that
//! they are what a form was written from.
//!
//! Bodies aren't copied: a `Part` says where one lies. A form is at most 2^32 + 7 bytes.
#![tactic(auto)]

mod faults;
mod forms;
mod laws;
mod parts;

pub use faults::IffFault;
pub use forms::{Form, begins_form, find_part, read_form};
pub use laws::written_forms_are_read;
pub use parts::{Part, Sought};

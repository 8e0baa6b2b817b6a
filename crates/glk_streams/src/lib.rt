//! The streams of Glk (Glk 0.7.5, "Streams"): those of windows, of a story's memory and of files.
//!
//! - `kinds` has what a stream is, `modes` how it may be open and from where it is sought.
//! - `content` writes and reads characters in a file's content, by its form.
//! - `one` puts a character to one stream, gets one, and moves its position.
//! - `laws` says what holds of the definitions.
//! - `streams` has all streams in order of creation. An identifier is found by halving.
//!
//! Each call is its definition of specs/ and leaves all else as it is. A call that answers a Result
//! may want memory, and the streams stand as they were then: to add a stream, to list open files, and to
//! put a character that makes a file longer. The bytes of a story's memory are read and written by
//! the caller: `places` says which.
#![tactic(auto)]

mod content;
mod kinds;
pub mod laws;
mod modes;
mod one;
mod streams;

pub use content::LARGEST;
pub use kinds::{FileForm, NO_PLACES, Places, Stream, StreamKind};
pub use modes::{FROM_CURRENT, FROM_END, FROM_START, READ, READ_WRITE, WRITE, WRITE_APPEND};
pub use streams::Streams;

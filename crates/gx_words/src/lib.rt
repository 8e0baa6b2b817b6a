//! The words of the whole workspace: big-endian numbers, small lists, the faults of the machine.
//!
//! - `big_endian` reads and writes the numbers of a story (Glulx 3.1.2, "The Memory Map").
//! - `lists` has the lists that grow at their end; contracts see each as a list.
//! - `faults` has the seventeen reasons for which a step is not done.
//! - `strings` has the place that the printing of a string or number has come to.
//! - `typable` has the types of functions and strings, `iosystems` the I/O systems, `limits` the
//!   largest memory and stack, `header` the addresses of a story's first words, `characters` the
//!   line feed.
//!
//! The files of specs/ hold what the contracts of every crate above share: the arithmetic of
//! `Numbers`, and the relations of `Results` and `Faults` between an answer and its definition.
//!
//! Nothing here takes memory but the calls that make a list longer.
#![tactic(auto)]

mod big_endian;
mod characters;
mod faults;
mod header;
mod iosystems;
mod limits;
mod lists;
mod strings;
mod typable;

pub use big_endian::{
    half_at, low, number_at, put_number, round_up_256, signed, splice, sum_of_words, word_at,
    word_bytes,
};
pub use characters::LINE_FEED;
pub use faults::Fault;
pub use header::{
    CHECKSUM_AT, ENDMEM_AT, EXTSTART_AT, HEADER_LEN, MAGIC, MAGIC_AT, RAMSTART_AT, STACK_SIZE_AT,
    START_FUNCTION_AT, TABLE_AT, VERSION_AT,
};
pub use iosystems::{FILTER_SYSTEM, GLK_SYSTEM, NULL_SYSTEM};
pub use limits::{CEILING, STACK_LIMIT};
pub use lists::{Blocks, Bytes, Items, Name, Numbers, Writes};
pub use strings::{PrintKind, Printing};
pub use typable::{C_STRING, COMPRESSED_STRING, LOCALS_FUNCTION, STACK_FUNCTION, UNICODE_STRING};

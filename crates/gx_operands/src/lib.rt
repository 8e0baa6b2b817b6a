//! The instruction at PC: its row, its operands, and how its results are stored (Glulx 3.1.2,
//! "Instruction Format").
//!
//! - `decoding` reads an instruction into a `plan`, and changes nothing: the plan is `instruction` of
//!   specs/Instructions, or its first fault.
//! - `code_bytes` reads its bytes.
//! - `cursor` is where that reading stands.
//! - `popped` reads what an instruction pops beside its operands.
//! - `storing` makes one store, or tells its fault in advance.
//! - `rows` has what the rows of all classes share: a result, and the next instruction.
//!
//! Only a store to memory may want memory, and nothing has changed then.
#![tactic(auto)]

mod code_bytes;
mod cursor;
mod decoding;
mod plan;
mod popped;
mod rows;
mod storing;

pub use code_bytes::{code, code_pair};
pub use cursor::Cursor;
pub use decoding::{decode, decode_into, destination, find_row, load, opcode, stack_pointer};
pub use plan::Plan;
pub use popped::{arguments, values_to};
pub use rows::{goes, stores};
pub use storing::{can_store, settle, store};

//! The Glk calls of text: putting, getting, the case of characters (Glk 0.7.5, "How To Print", "How To Read", "Upper
//! and Lower Case"); and saves as the bytes of a stream.
//!
//! - `output` has the calls that put to a stream, and `input` those that get from one.
//! - `characters` has the calls of case.
//! - `saves` puts the bytes of a save to a stream and takes them back, which no call of Glk does.
//!
//! Each is its definition of specs/. A fault leaves the world as it was, but for want of memory, after which it can
//! only be dropped.
#![tactic(auto)]

pub mod characters;
pub mod input;
pub mod output;
mod saves;

pub use output::{put, put_text};
pub use saves::{put_save, take_rest};

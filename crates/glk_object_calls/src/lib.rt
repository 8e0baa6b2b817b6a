//! The Glk calls of windows, streams, file references and gestalts (Glk 0.7.5, "Windows", "Streams", "File References",
//! "The Gestalt System").
//!
//! Each call has a function of its name, which is its definition of specs/. A fault leaves the world as it was, but for
//! want of memory, after which it can only be dropped; a clause says where memory may be wanted. A call that changes
//! nothing takes the world by `&`, and one that only answers makes a `Reply`.
//!
//! `streams::close`, `references::open_goes_on` and `references::prompt_goes_on` go on with calls that waited.
#![tactic(auto)]

pub mod gestalts;
pub mod references;
pub mod streams;
pub mod windows;

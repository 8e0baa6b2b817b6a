//! The Glk calls of events: requests, the wait for one, and the line that meets it (Glk 0.7.5, "Events").
//!
//! Each is its definition of specs/. A fault leaves the world as it was, but for want of memory, after which it can
//! only be dropped.
#![tactic(auto)]

pub mod events;

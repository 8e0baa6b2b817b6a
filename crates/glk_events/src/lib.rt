//! Requests for events (Glk 0.7.5, "Events"): which windows wait for a line or a character.
//!
//! - `requests` keeps the requests in the order in which they were made; a window has at most one.
//! - `events` says what a line that is taken gives to the request that it is taken for.
//!
//! Contracts see the requests as a list. Only `add` may want memory, and leaves them as they were then.
#![tactic(auto)]

mod events;
mod requests;

pub use events::{char_value, line_length};
pub use requests::{RETURN, Request, Requests, UNKNOWN};

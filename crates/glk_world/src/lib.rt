//! The world of Glk objects (Glk 0.7.5): windows, streams, file references, requests for events, and the
//! text that is shown.
//!
//! - `world` has all objects, the current stream, the call that waits, and the text that no one has sent yet.
//! - `putting` puts characters to streams, their windows and their echo streams, and gets them.
//! - `objects` opens, changes and closes windows, streams and file references.
//! - `showing` adds to the text what stands in no buffer window: grids, prompts, lines that were taken; or the
//!   composed screen. `views` says which.
//! - `references`, `grids`, `identifiers`: a file reference, a grid as it was shown last, the last identifier.
//!
//! Contracts see a scene, which is all that a call looks at, and the text. Each call is its definition of
//! specs/: the scene after it, and the text that it adds. A call that answers a Result may want memory where its
//! clause `memory` says, and after that a world can only be dropped. Objects of all classes take their identifiers
//! from one sequence; a call that would have to give one after the last answers 0 and makes no object.
//!
//! What is put to a window is put to its echo stream, and so on. No chain of echo streams comes back to where it
//! was, in any world, so that a walk of as many turns as there are streams comes to its end: clauses `whole`.
#![tactic(auto)]

mod grids;
mod identifiers;
mod objects;
mod putting;
mod references;
mod showing;
mod views;
mod world;

pub use grids::ShownGrid;
pub use identifiers::LAST_IDENTIFIER;
pub use references::FileReference;
pub use views::View;
pub use world::{Waiting, World, arg};

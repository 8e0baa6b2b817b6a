//! All that the program does: the command line, the six jobs, and `play`, the call that the program makes.
//!
//! - `command` reads the command line, whose words `words` matches.
//! - `entry` has `play`, which does all of it over objects that are handed in; its contract is the headline of the
//!   whole repository, and stands in specs/Headline. `jobs` chooses the job.
//! - `playing`, `rewinding`, `checking`, `working`, `assembling` and `listing` do the six jobs. `loading` takes the
//!   file from the shelf, `running` plays it, `telling` sends a job's output, `figures` sums up a machine's memory, and
//!   `silent` devices for a story that needs none.
//!
//! The objects that a run is played with, and the status of the process, are the program's.
#![tactic(auto)]

mod assembling;
mod checking;
mod command;
mod entry;
mod figures;
mod jobs;
mod listing;
mod loading;
mod playing;
mod rewinding;
mod running;
mod silent;
mod telling;
mod words;
mod working;

pub use entry::play;

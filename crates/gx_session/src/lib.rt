//! A session: a machine is run over a source of input, a sink of text, a shelf of files and a
//! generator of random words, until it ends or its budget of units is spent.
//!
//! What a session is stands in specs/Session, move by move, to the last screen that is shown where it stops;
//! specs/Configurations says what stands between two moves, specs/Moves what one move is, specs/Input what the next
//! line of the input is, specs/Sending what sending is, specs/Saving what a save and a restore are, specs/Endings what
//! is sent and stored at the end, specs/Cuts how a run is cut short, specs/Wants where memory may be wanted, and
//! specs/Runs what a run reports and leaves behind (`IsRun`), of the input by specs/Reads. A run is the definition's,
//! to its status, fault, place, steps, machine, record, text, files and the calls of the sink and the shelf, unless a
//! device fails or memory runs out; then it stands at one of the definition's configurations, and its calls are those
//! up to there. Two laws are handed out with each run: specs/Undoing says which copies are kept for undo, and
//! specs/Recording which machines are recorded.
//!
//! - `lines` takes lines of a source. It reads no further than it has to.
//! - `questions` asks the shelf what a Glk call wants of it.
//! - `running` has what every event does, `turns` the Glk calls, `saves` the saves and restores, `events` the run
//!   from its first event to its ending.
//! - `session` has the runs, `ended` and `ends` how they end, `statuses` the numbers for that. `numerals` writes the
//!   numbers of a line.
#![tactic(auto)]

mod ended;
mod ends;
mod events;
mod lines;
pub mod numerals;
mod questions;
mod running;
mod saves;
mod session;
pub mod statuses;
mod turns;

pub use ended::Ended;
pub use ends::Stop;
pub use session::{EndedOn, run, run_on};

//! The composed screen: what stands on it, each window at its place, as rows of text.
//!
//! - `texts` has the text of each buffer window, of which it keeps the last 255 paragraphs.
//! - `wrapping` cuts a text into rows, by the columns that its characters take.
//! - `wrapper` wraps a text that comes a character at a time.
//! - `drawing` draws the windows and puts them side by side and one above the other.
//! - `rows` drops the blanks at the end of a row.
//! - `laws` has what holds of the definitions.
//!
//! Contracts see the list of the texts. The screen is a function of these, of the windows with their grids, and of the
//! size of the screen (specs/Screen). Putting a character may want memory where its window's text gets longer; wrapping
//! and composing, which make a row at least, always may; clearing and forgetting never do. How wide a character is says
//! Unicode's width of a character by itself: characters that join others aren't looked at together.
#![tactic(auto)]

mod drawing;
mod laws;
mod rows;
mod texts;
mod wrapper;
mod wrapping;

pub use laws::{last_paragraphs_are_kept, rows_fit, screen_is_filled, wrapping_keeps};
pub use rows::kept;
pub use texts::{MOST_PARAGRAPHS, Screen};
pub use wrapper::Wrapper;
pub use wrapping::wrap;

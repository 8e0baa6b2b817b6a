//! The windows of a story (Glk 0.7.5, "Windows"): what is open, where it is on the screen, and the text of the grids.
//!
//! - `windows` has all windows of a screen: opening, closing, arranging, sizes, text of grids, echo streams.
//! - `tree` says which window is where; the sizes follow from it by recursion from the root.
//! - `entries` has what is known of a window beside its place, `grid` the cells of a text grid window.
//! - `closing` takes away what goes where a window is closed, by lists that `spare` keeps.
//! - `laws` says what holds of the definitions: the sizes tile the screen.
//! - `methods` names the types of windows and the methods of pair windows.
//!
//! Contracts see a list of the windows in order of creation, the tree, a list of the grids, and the size of the
//! screen. A window and a grid are found by identifier by halving; a window's place by a walk from the root.
//! Opening may want memory, closing and arranging where a grid grows, and nothing else. After that the windows can only
//! be dropped.
#![tactic(auto)]

mod closing;
mod entries;
mod grid;
pub mod laws;
mod methods;
mod spare;
mod tree;
mod windows;

pub use entries::{Entry, Window};
pub use grid::{BLANK, Grid, Rows};
pub use methods::{
    ABOVE, BELOW, BLANK_WINDOW, FIXED, LEFT, MOST_WINDOWS, PAIR, PROPORTIONAL, RIGHT, TEXT_BUFFER,
    TEXT_GRID,
};
pub use tree::{Arrangement, Pair, Tree};
pub use windows::Windows;

//! Types of windows, and methods of pair windows (Glk 0.7.5, "Window Arrangement").
//!
//! A method holds a direction in its low four bits and a division in the next four.
ghost use Rattle.std.specs.Prelude.{◌≡◌, ◌/◌, ◌==◌};
ghost use Rattle.glk_windows.specs.Methods.{direction, division, is_method, is_across};

/// The type of a pair window.
pub const PAIR: u32 = 1;
/// The type of a blank window.
pub const BLANK_WINDOW: u32 = 2;
/// The type of a text buffer window.
pub const TEXT_BUFFER: u32 = 3;
/// The type of a text grid window.
pub const TEXT_GRID: u32 = 4;

/// The directions: the second child is on this side.
pub const LEFT: u32 = 0;

pub const RIGHT: u32 = 1;

pub const ABOVE: u32 = 2;

pub const BELOW: u32 = 3;

/// The divisions: the size is a number of columns or rows, or a part in a hundred of them.
pub const FIXED: u32 = 1;

pub const PROPORTIONAL: u32 = 2;

/// So many windows that aren't pairs may be open at once.
pub const MOST_WINDOWS: usize = 255;

pub(crate) fn direction(method: u32) -> u32
    ensures { result ≡ direction method }
{
    method % 16
}

pub(crate) fn division(method: u32) -> u32
    ensures { result ≡ division method }
{
    method / 16 % 16
}

/// Whether the method has a direction and a division that are there.
pub(crate) fn is_method(method: u32) -> bool
    ensures { result ≡ is_method method }
{
    direction(method) <= BELOW && (division(method) == FIXED || division(method) == PROPORTIONAL)
}

/// Whether the columns are divided, and not the rows.
pub(crate) fn is_across(method: u32) -> bool
    ensures { result ≡ is_across method }
{
    direction(method) <= RIGHT
}

/// Whether both directions lie on one axis.
pub(crate) fn is_on_axis(method: u32, other: u32) -> bool
    ensures { result ≡ (direction method / 2 == direction other / 2) }
{
    direction(method) / 2 == direction(other) / 2
}

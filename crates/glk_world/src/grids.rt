//! Grids as they are shown: rows without trailing blanks, without trailing empty rows.
ghost use Rattle.std.specs.Prelude.{◌≡◌, ◌≢◌, ◌≤◌, [], length, map, take, IfOk, OnErr};
ghost use Rattle.glk_screen.specs.ScreenRows.{trimmed};
ghost use Rattle.glk_world.specs.Shown.{kept_rows, shown_grid, last_rows, same_rows};

use glk_objects::{Object, first_place};
use glk_screen::kept;
use glk_windows::{Grid, Rows};
use gx_words::{Items, Numbers};
use std::alloc::{AllocError, Global};

/// A grid as it was shown last.
#[derive(Drop)]
pub struct ShownGrid {
    /// The window's identifier.
    pub id: u32,
    pub rows: Items<Numbers>,
}

impl Object for ShownGrid {
    ghost id_of = { λ grid. grid.id };

    fn id(&self) -> u32 {
        self.id
    }
}

/// A row without its trailing blanks.
fn trimmed(alloc: Global, row: &[u32]) -> Result<Numbers, AllocError>
    ensures { IfOk result (λ left. left ≡ trimmed row.now) }
{
    let mut left = Numbers::new(alloc);
    for c in &row[..kept(row)] {
        left.push(*c)?;
    }
    Ok(left)
}

/// How many rows are left without the trailing empty ones.
#[tactic(auto, unfolding(crate::specs::Shown::kept_rows))]
fn kept_rows(rows: &[Numbers]) -> usize
    ensures value { result ≡ kept_rows rows.now }
    ensures within { result ≤ length rows.now }
{
    match rows {
        [] => 0,
        [row, rest @ ..] => {
            let count = kept_rows(rest);
            if count == 0 && row.len() == 0 {
                0
            } else {
                count + 1
            }
        }
    }
}

/// The rows of a grid as they are shown.
fn shown_rows(alloc: Global, rows: &Rows) -> Result<Items<Numbers>, AllocError>
    ensures { IfOk result (λ shown. shown ≡ take (kept_rows (map trimmed rows.now)) (map trimmed rows.now)) }
{
    let mut shown = Items::new(alloc);
    for y in 0..rows.len() {
        shown.push(trimmed(alloc, rows.row(y))?)?;
    }
    let count = kept_rows(shown.as_slice());
    shown.truncate(count);
    Ok(shown)
}

/// All grids as they are shown.
#[tactic(auto, using(crate::proofs::Texts::grid_turns))]
pub(crate) fn shown_grids(alloc: Global, grids: &[Grid]) -> Result<Vec<ShownGrid>, AllocError>
    ensures ok { IfOk result (λ shown. shown.items ≡ map shown_grid grids.now) }
    ensures memory { OnErr result (grids.now ≢ []) }
{
    let mut shown = Vec::new(alloc);
    for grid in grids {
        shown.push(ShownGrid {
            id: grid.id,
            rows: shown_rows(alloc, &grid.rows)?,
        })?;
    }
    Ok(shown)
}

/// Whether two lists of rows are the same.
fn same_rows(rows: &[Numbers], others: &[Numbers]) -> bool
    ensures { result ≡ same_rows rows.now others.now }
{
    match (rows, others) {
        ([], []) => true,
        ([row, rest @ ..], [other, others @ ..]) => {
            row.as_slice() == other.as_slice() && same_rows(rest, others)
        }
        _ => false,
    }
}

/// Whether a grid was shown with these rows, of which there are none at first.
#[tactic(auto, using(glk_objects::proofs::Places::places))]
pub(crate) fn was_shown(shown: &[ShownGrid], grid: &ShownGrid) -> bool
    ensures { result ≡ same_rows grid.now.rows (last_rows shown.now grid.now.id) }
{
    let at = first_place(shown, grid.id);
    if at < shown.len() {
        same_rows(grid.rows.as_slice(), shown[at].rows.as_slice())
    } else {
        same_rows(grid.rows.as_slice(), &[])
    }
}

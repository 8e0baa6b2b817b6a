//! The grid of a text grid window: rows of cells, and a cursor (Glk 0.7.5, "Text Grid Windows").
//!
//! Only `resize` may want memory, and only where a row or a cell is new.
ghost use Rattle.std.specs.Prelude.{◌≡◌, ◌-◌, ◌<◌, ◌^◌, ◌⊎◌, [], length, map, replicate, slice_set, slice_index_or};
ghost use Rattle.std.specs.Prelude.{OnOk, OnErr, IsTrue, nat_lt, if◌then◌else◌};
ghost use Rattle.std.specs.List.{list_any};
ghost use Rattle.glk_windows.specs.Grids.{empty_grid, fit, sized_to, grid_grows, row_below, put_at};
ghost use Rattle.glk_windows.specs.Grids.{put, blanked};

use glk_objects::Object;
use gx_words::LINE_FEED;
use std::alloc::{AllocError, Global};
use std::marker::Model;

/// What stands in a cell in which nothing was put.
pub const BLANK: u32 = 0x20;

/// One row of cells.
#[derive(Drop)]
pub struct GridRow {
    cells: Vec<u32>,
}

impl Model for GridRow {
    ghost use Rattle.std.specs.Prelude.{List, ℕ};

    ghost Value = { List ℕ };

    ghost view = { λ row. row.cells.items };
}

impl GridRow {
    /// A row of no cells.
    fn new(alloc: Global) -> GridRow
        ensures { result ≡ [] }
    {
        GridRow {
            cells: Vec::new(alloc),
        }
    }

    fn as_slice(&self) -> &[u32]
        ensures { result.now ≡ self.now }
    {
        &self.cells
    }

    /// The first `columns` cells, filled up with blanks.
    fn fit(&mut self, columns: usize) -> Result<(), AllocError>
        ensures ok { OnOk result (self.new ≡ fit columns BLANK self.old) }
        ensures grows { OnErr result (length self.old < columns) }
    {
        self.cells.resize(columns, BLANK)
    }

    /// Puts a character into a cell that is there.
    #[tactic(auto, using(crate::proofs::Fitting::set_past))]
    fn set(&mut self, x: usize, c: u32)
        ensures { self.new ≡ slice_set self.old x c }
    {
        if x < self.cells.len() {
            self.cells[x] = c;
        }
    }

    /// Makes all cells blank.
    fn clear(&mut self)
        ensures { self.new ≡ replicate (length self.old) BLANK }
    {
        self.cells.fill(BLANK);
    }
}

/// The rows of a grid, from the top down.
#[derive(Drop)]
pub struct Rows {
    all: Vec<GridRow>,
}

impl Model for Rows {
    ghost use Rattle.std.specs.Prelude.{List, ℕ};

    ghost Value = { List (List ℕ) };

    ghost view = { λ rows. rows.all.items };
}

impl Rows {
    /// No row.
    pub fn new(alloc: Global) -> Rows
        ensures { result ≡ [] }
    {
        Rows {
            all: Vec::new(alloc),
        }
    }

    pub fn len(&self) -> usize
        ensures { result ≡ length self.now }
    {
        self.all.len()
    }

    /// The cells of a row, none where there is no such row.
    pub fn row(&self, y: usize) -> &[u32]
        ensures { result.now ≡ slice_index_or self.now y [] }
    {
        if y < self.all.len() {
            self.all[y].as_slice()
        } else {
            &[]
        }
    }

    /// So many rows of so many cells: those inside both sizes stay, the new ones are blank.
    fn fit(&mut self, alloc: Global, columns: usize, rows: usize) -> Result<(), AllocError>
        ensures ok { OnOk result (self.new ≡ map (fit columns BLANK) (fit rows [] self.old)) }
        ensures grows { OnErr result
            ((length self.old < rows) ⊎ IsTrue (list_any (λ row. nat_lt (length row) columns) self.old)) }
    {
        fit_count(alloc, &mut self.all, rows)?;
        fit_each(&mut self.all, columns)
    }

    /// Puts a character into a cell that is there.
    #[tactic(auto, using(crate::proofs::Fitting::set_past))]
    fn set(&mut self, x: usize, y: usize, c: u32)
        ensures { self.new ≡ slice_set self.old y (slice_set (slice_index_or self.old y []) x c) }
    {
        if y < self.all.len() {
            self.all[y].set(x, c);
        }
    }

    /// Makes all cells blank.
    fn clear(&mut self)
        ensures { self.new ≡ map (λ row. replicate (length row) BLANK) self.old }
    {
        clear_each(&mut self.all);
    }
}

/// So many rows: the first ones, filled up with empty ones.
#[tactic(auto, using(crate::proofs::Fitting::fill_more))]
fn fit_count(alloc: Global, rows: &mut Vec<GridRow>, count: usize) -> Result<(), AllocError>
    ensures ok { OnOk result (rows.new.items ≡ fit count [] rows.old.items) }
    ensures grows { OnErr result (length rows.old.items < count) }
{
    rows.truncate(count);
    for y in rows.len()..count {
        let _y = y; // its bound is known once it is read
        rows.push(GridRow::new(alloc))?;
    }
    Ok(())
}

/// Fits each row to so many cells.
#[tactic(auto, using(crate::proofs::Fitting::fit_more))]
fn fit_each(rows: &mut Vec<GridRow>, columns: usize) -> Result<(), AllocError>
    ensures ok { OnOk result (rows.new.items ≡ map (fit columns BLANK) rows.old.items) }
    ensures grows { OnErr result (IsTrue (list_any (λ row. nat_lt (length row) columns) rows.old.items)) }
{
    for y in 0..rows.len() {
        rows[y].fit(columns)?;
    }
    Ok(())
}

#[tactic(auto, using(crate::proofs::Fitting::clear_more))]
fn clear_each(rows: &mut [GridRow])
    ensures { rows.new ≡ map (λ row. replicate (length row) BLANK) rows.old }
{
    for y in 0..rows.len() {
        rows[y].clear();
    }
}

/// The grid of a window.
#[derive(Drop)]
pub struct Grid {
    /// The window's identifier.
    pub id: u32,
    pub columns: u32,
    pub rows: Rows,
    /// The cursor's column; it may lie past the last one.
    pub x: u32,
    /// The cursor's row; it may lie below the last one.
    pub y: u32,
}

impl Object for Grid {
    ghost id_of = { λ g. g.id };

    fn id(&self) -> u32 {
        self.id
    }
}

/// A grid before it has a size.
pub(crate) fn empty_grid(alloc: Global, id: u32) -> Grid
    ensures { result ≡ empty_grid id }
{
    Grid {
        id,
        columns: 0,
        rows: Rows::new(alloc),
        x: 0,
        y: 0,
    }
}

/// The row below.
fn row_below(y: u32) -> u32
    ensures { result ≡ row_below y }
{
    y.saturating_add(1)
}

/// Past the end of a row the cursor goes to the next one.
fn wrap(grid: &mut Grid)
    ensures new { grid.new ≡ (if nat_lt grid.old.x grid.old.columns then grid.old
        else record grid.old { x = 0; y = row_below grid.old.y }) }
    ensures id { grid.new.id ≡ grid.old.id }
    ensures room { grid.new.x < 2 ^ 32 - 1 }
{
    if grid.x >= grid.columns {
        grid.x = 0;
        grid.y = row_below(grid.y);
    }
}

#[tactic(auto, unfolding(crate::specs::Grids::put_at))]
fn put_at(grid: &mut Grid, c: u32)
    requires { grid.old.x < 2 ^ 32 - 1 }
    ensures new { grid.new ≡ put_at grid.old c }
    ensures id { grid.new.id ≡ grid.old.id }
{
    if grid.y as usize >= grid.rows.len() || grid.columns == 0 {
        return;
    }
    if c == LINE_FEED {
        grid.x = 0;
        grid.y = row_below(grid.y);
        return;
    }
    grid.rows.set(grid.x as usize, grid.y as usize, c);
    grid.x += 1;
}

/// Puts a character at the cursor.
pub(crate) fn put(grid: &mut Grid, c: u32)
    ensures new { grid.new ≡ put grid.old c }
    ensures id { grid.new.id ≡ grid.old.id }
{
    wrap(grid);
    put_at(grid, c);
}

/// Makes all cells blank, with the cursor at the first.
pub(crate) fn clear(grid: &mut Grid)
    ensures { grid.new ≡ blanked grid.old }
{
    grid.rows.clear();
    grid.x = 0;
    grid.y = 0;
}

pub(crate) fn move_cursor(grid: &mut Grid, x: u32, y: u32)
    ensures { grid.new ≡ record grid.old { x = x; y = y } }
{
    grid.x = x;
    grid.y = y;
}

/// Fits the grid to so many columns and rows.
pub(crate) fn resize(alloc: Global, grid: &mut Grid, area: (u32, u32)) -> Result<(), AllocError>
    ensures ok { OnOk result (grid.new ≡ sized_to area grid.old) }
    ensures grows { OnErr result (IsTrue (grid_grows area grid.old)) }
    ensures id { grid.new.id ≡ grid.old.id }
{
    grid.rows.fit(alloc, area.0 as usize, area.1 as usize)?;
    grid.columns = area.0;
    Ok(())
}

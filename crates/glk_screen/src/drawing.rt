//! The windows are drawn, and put beside and above each other.
ghost use Rattle.std.specs.Prelude.{◌≡◌, ◌<◌, ◌^◌, ◌++◌, length, map, replicate, OnOk, IfOk, string_bytes};
ghost use Rattle.glk_windows.specs.Tree.{shape_of};
ghost use Rattle.glk_windows.specs.Windows.{grid_at};
ghost use Rattle.glk_screen.specs.Wrapping.{part, rows_at};
ghost use Rattle.glk_screen.specs.Screen.{blank_row, drawn_char, drawn_row, text_rows, buffer_rows, drawn_cell};
ghost use Rattle.glk_screen.specs.Screen.{grid_row, grid_rows, window_type, window_rows, appended_at, beside};
ghost use Rattle.glk_screen.specs.Screen.{put_together};
ghost use Rattle.glk_screen.specs.Screen.{part_rows, screen_rows, line_of, lines_of, composed};

use crate::Screen;
use crate::rows::kept;
use crate::wrapping::{columns_of, is_replaced, width_of, wrap};
use glk_text::as_char;
use glk_windows::{ABOVE, BLANK, LEFT, RIGHT, TEXT_BUFFER, TEXT_GRID, Tree, Windows};
use gx_words::Numbers;
use std::alloc::{AllocError, Global};

/// What stands for a character that can't be drawn.
const QUESTION_MARK: u32 = 0x3F;

impl Screen {
    /// The screen of so many columns and rows: its rows from the top, each without trailing blanks and with a line
    /// feed.
    #[tactic(auto, unfolding(crate::specs::Screen::composed))]
    pub fn compose(
        &self,
        alloc: Global,
        windows: &Windows,
        columns: u32,
        rows: u32,
    ) -> Result<String, AllocError>
        ensures { IfOk result (λ screen. string_bytes screen ≡ composed self.now windows.now (columns, rows)) }
    {
        let drawn = self.draw(alloc, windows, (columns, rows))?;
        let mut screen = String::new(alloc);
        push_lines(&mut screen, &drawn)?;
        Ok(screen)
    }

    /// All windows, or blank rows where there is none.
    fn draw(
        &self,
        alloc: Global,
        windows: &Windows,
        area: (u32, u32),
    ) -> Result<Vec<Numbers>, AllocError>
        ensures { IfOk result (λ rows. rows.items ≡ screen_rows self.now windows.now area windows.now.tree) }
    {
        match windows.tree() {
            None => blank_rows(alloc, area),
            Some(tree) => self.draw_part(alloc, windows, area, tree),
        }
    }

    /// A part of the tree of so many columns and rows.
    fn draw_part(
        &self,
        alloc: Global,
        windows: &Windows,
        area: (u32, u32),
        tree: &Tree,
    ) -> Result<Vec<Numbers>, AllocError>
        ensures { IfOk result (λ rows. rows.items ≡ part_rows self.now windows.now area (shape_of tree.now)) }
    {
        match tree {
            Tree::Leaf(id) => self.draw_window(alloc, windows, area, *id),
            Tree::Pair(arrangement, first, second) => {
                let first = self.draw_part(alloc, windows, arrangement.first_area(area), first)?;
                let second = self.draw_part(alloc, windows, arrangement.second_area(area), second)?;
                put_together(alloc, arrangement.direction(), first, second)
            }
        }
    }

    /// A window that isn't a pair.
    #[tactic(auto, unfolding(crate::specs::Screen::window_rows))]
    fn draw_window(
        &self,
        alloc: Global,
        windows: &Windows,
        area: (u32, u32),
        win: u32,
    ) -> Result<Vec<Numbers>, AllocError>
        ensures { IfOk result (λ rows. rows.items ≡ window_rows self.now windows.now area win) }
    {
        match kind_of(windows, win) {
            TEXT_BUFFER => buffer_rows(alloc, self.text(win), area),
            TEXT_GRID => grid_rows(alloc, windows, win, area),
            _ => blank_rows(alloc, area),
        }
    }
}

/// A window's type, 0 where no window has the identifier.
fn kind_of(windows: &Windows, win: u32) -> u32
    ensures { result ≡ window_type windows.now win }
{
    match windows.entry(win) {
        None => 0,
        Some(entry) => entry.kind,
    }
}

/// Adds blanks to a row.
#[tactic(auto, using(crate::proofs::Turns::fill_turns))]
fn fill(row: &mut Numbers, count: u32) -> Result<(), AllocError>
    ensures { OnOk result (row.new ≡ row.old ++ blank_row count) }
{
    for _n in 0..count {
        row.push(BLANK)?;
    }
    Ok(())
}

/// Adds blank rows.
#[tactic(auto, using(crate::proofs::Turns::fill_turns))]
fn fill_rows(
    alloc: Global,
    rows: &mut Vec<Numbers>,
    width: u32,
    count: usize,
) -> Result<(), AllocError>
    ensures { OnOk result (rows.new.items ≡ rows.old.items ++ replicate count (blank_row width)) }
{
    for _n in 0..count {
        let mut row = Numbers::new(alloc);
        fill(&mut row, width)?;
        rows.push(row)?;
    }
    Ok(())
}

/// Blank rows, so many of so many columns.
fn blank_rows(alloc: Global, area: (u32, u32)) -> Result<Vec<Numbers>, AllocError>
    ensures { IfOk result (λ rows. rows.items ≡ replicate area.1 (blank_row area.0)) }
{
    let mut rows = Vec::new(alloc);
    fill_rows(alloc, &mut rows, area.0, area.1 as usize)?;
    Ok(rows)
}

/// A character as it is drawn in a window of so many columns.
#[tactic(auto, unfolding(crate::specs::Screen::drawn_char))]
fn drawn_char(width: u32, c: u32) -> u32
    ensures { result ≡ drawn_char width c }
{
    if is_replaced(width, c) {
        QUESTION_MARK
    } else {
        c
    }
}

/// A row as it is drawn: characters of no column are left out, and blanks fill it.
#[tactic(auto, using(crate::proofs::Turns::char_turns), unfolding(crate::specs::Screen::drawn_row))]
fn drawn_row(alloc: Global, width: u32, chars: &[u32]) -> Result<Numbers, AllocError>
    ensures { IfOk result (λ row. row ≡ drawn_row width chars.now) }
{
    let mut row = Numbers::new(alloc);
    let mut room = width;
    for c in chars {
        let columns = columns_of(width, *c);
        if columns != 0 {
            row.push(drawn_char(width, *c))?;
        }
        room = room.saturating_sub(columns);
    }
    fill(&mut row, room)?;
    Ok(row)
}

/// So much of a text.
#[tactic(auto, using(crate::proofs::Turns::parts))]
fn part(text: &[u32], start: u32, end: u32) -> &[u32]
    ensures { result.now ≡ part text.now start end }
{
    let from = text.len().min(start as usize);
    let rest = &text[from..];
    let count = rest.len().min(end.saturating_sub(start) as usize);
    &rest[..count]
}

/// Adds the rows that start and end there.
fn push_rows(
    alloc: Global,
    rows: &mut Vec<Numbers>,
    width: u32,
    text: &[u32],
    marks: &[u32],
) -> Result<(), AllocError>
    ensures { OnOk result (rows.new.items ≡ rows.old.items ++ map (drawn_row width) (rows_at text.now marks.now)) }
{
    match marks {
        [start, end, rest @ ..] => {
            rows.push(drawn_row(alloc, width, part(text, *start, *end))?)?;
            push_rows(alloc, rows, width, text, rest)
        }
        _ => Ok(()),
    }
}

/// The last rows of a text. A window of no columns shows nothing.
fn text_rows(alloc: Global, text: &[u32], area: (u32, u32)) -> Result<Vec<Numbers>, AllocError>
    requires { length text.now < 2 ^ 32 }
    ensures { IfOk result (λ rows. rows.items ≡ text_rows text.now area) }
{
    let mut rows = Vec::new(alloc);
    if area.0 == 0 {
        return Ok(rows);
    }
    let marks = wrap(alloc, text, area.0)?;
    let skipped = (marks.len() / 2).saturating_sub(area.1 as usize);
    push_rows(
        alloc,
        &mut rows,
        area.0,
        text,
        &marks.as_slice()[2 * skipped..],
    )?;
    Ok(rows)
}

/// A buffer window: the last rows of its text, from its top.
#[tactic(auto, unfolding(crate::specs::Screen::buffer_rows))]
fn buffer_rows(alloc: Global, text: &[u32], area: (u32, u32)) -> Result<Vec<Numbers>, AllocError>
    requires { length text.now < 2 ^ 32 }
    ensures { IfOk result (λ rows. rows.items ≡ buffer_rows text.now area) }
{
    let mut rows = text_rows(alloc, text, area)?;
    let missing = (area.1 as usize).saturating_sub(rows.len());
    fill_rows(alloc, &mut rows, area.0, missing)?;
    Ok(rows)
}

/// A cell of a grid as it is drawn.
#[tactic(auto, unfolding(crate::specs::Screen::drawn_cell))]
fn drawn_cell(c: u32) -> u32
    ensures { result ≡ drawn_cell c }
{
    if width_of(c) == 1 { c } else { QUESTION_MARK }
}

/// A row of a grid as it is drawn, which blanks fill.
#[tactic(auto, using(crate::proofs::Turns::cell_turns), unfolding(crate::specs::Screen::grid_row))]
fn grid_row(alloc: Global, width: u32, cells: &[u32]) -> Result<Numbers, AllocError>
    ensures { IfOk result (λ row. row ≡ grid_row width cells.now) }
{
    let mut row = Numbers::new(alloc);
    let count = cells.len().min(width as usize);
    let shown = &cells[..count];
    for c in shown {
        row.push(drawn_cell(*c))?;
    }
    fill(&mut row, width - count as u32)?;
    Ok(row)
}

/// A grid window.
#[tactic(auto, using(crate::proofs::Turns::grid_turns))]
fn grid_rows(
    alloc: Global,
    windows: &Windows,
    win: u32,
    area: (u32, u32),
) -> Result<Vec<Numbers>, AllocError>
    ensures { IfOk result (λ rows. rows.items ≡ grid_rows (grid_at windows.now.grids win) area) }
{
    let mut rows = Vec::new(alloc);
    for y in 0..area.1 {
        rows.push(grid_row(alloc, area.0, windows.row(win, y))?)?;
    }
    Ok(rows)
}

/// Adds cells to a row.
#[tactic(auto, using(crate::proofs::Turns::append_turns))]
fn append(row: &mut Numbers, cells: &[u32]) -> Result<(), AllocError>
    ensures { OnOk result (row.new ≡ row.old ++ cells.now) }
{
    for c in cells {
        row.push(*c)?;
    }
    Ok(())
}

/// Adds cells to the right of a row, to none where there is no such row.
fn append_at(
    alloc: Global,
    rows: &mut Vec<Numbers>,
    y: usize,
    cells: &[u32],
) -> Result<(), AllocError>
    ensures { OnOk result (rows.new.items ≡ appended_at rows.old.items y cells.now) }
{
    if y < rows.len() {
        return append(&mut rows[y], cells);
    }
    let mut row = Numbers::new(alloc);
    append(&mut row, cells)?;
    rows.push(row)?;
    Ok(())
}

/// Rows to the left of others.
#[tactic(auto, using(crate::proofs::Turns::beside_turns))]
fn beside(
    alloc: Global,
    mut left: Vec<Numbers>,
    right: &[Numbers],
) -> Result<Vec<Numbers>, AllocError>
    ensures { IfOk result (λ rows. rows.items ≡ beside left.items right.now) }
{
    for y in 0..right.len() {
        append_at(alloc, &mut left, y, right[y].as_slice())?;
    }
    Ok(left)
}

/// Rows above others.
fn stacked(mut upper: Vec<Numbers>, mut lower: Vec<Numbers>) -> Result<Vec<Numbers>, AllocError>
    ensures { IfOk result (λ rows. rows.items ≡ upper.items ++ lower.items) }
{
    upper.append(&mut lower)?;
    Ok(upper)
}

/// A pair: its second child stands on the side that the direction names.
#[tactic(auto, unfolding(crate::specs::Screen::put_together))]
fn put_together(
    alloc: Global,
    side: u32,
    first: Vec<Numbers>,
    second: Vec<Numbers>,
) -> Result<Vec<Numbers>, AllocError>
    ensures { IfOk result (λ rows. rows.items ≡ put_together side first.items second.items) }
{
    match side {
        LEFT => beside(alloc, second, &first),
        RIGHT => beside(alloc, first, &second),
        ABOVE => stacked(second, first),
        _ => stacked(first, second),
    }
}

/// Adds a row without its trailing blanks, and a line feed.
#[tactic(auto, using(crate::proofs::Turns::text_turns))]
fn push_line(text: &mut String, row: &[u32]) -> Result<(), AllocError>
    ensures { OnOk result (string_bytes text.new ≡ string_bytes text.old ++ line_of row.now) }
{
    let shown = &row[..kept(row)];
    for c in shown {
        text.push(as_char(*c))?;
    }
    text.push('\n')
}

/// Adds rows, each without its trailing blanks and with a line feed.
#[tactic(auto, using(crate::proofs::Turns::line_turns))]
fn push_lines(text: &mut String, rows: &[Numbers]) -> Result<(), AllocError>
    ensures { OnOk result (string_bytes text.new ≡ string_bytes text.old ++ lines_of rows.now) }
{
    for row in rows {
        push_line(text, row.as_slice())?;
    }
    Ok(())
}

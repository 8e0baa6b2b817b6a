//! What no call of Glk asks of a world: a cell of a grid by itself, the call that waits, and which files are open for
//! writing.
ghost use Rattle.std.specs.Prelude.{◌≡◌, IfOk, IsTrue};
ghost use Rattle.glk_streams.specs.Sound.{IsSoundKind};
ghost use Rattle.glk_streams.specs.Stream.{allows_mode, window_in};

use anyhow::{Result, ensure};
use glk_streams::{FileForm, READ, StreamKind, WRITE, WRITE_APPEND};
use glk_windows::TEXT_GRID;
use glk_world::World;
use gx_words::{Bytes, Name};
use std::alloc::Global;

/// Two characters at the end of a row of three cells: the second one begins the next row. All else is blank.
pub fn cells(alloc: Global) -> Result<()> {
    let mut world = World::new(alloc, 3, 2);
    compare_cells(&mut world)
}

fn compare_cells(world: &mut World) -> Result<()> {
    let grid = world.add_window(0, 0, 0, TEXT_GRID, 0)?;
    world.move_cursor(grid, 2, 0);
    world.puts(world.windows().entry_at(grid).stream, &[0x61, 0x62])?;
    let windows = world.windows();
    let there = (windows.cell(grid, 2, 0), windows.cell(grid, 0, 1));
    let inside = (windows.cell(grid, 0, 0), windows.cell(grid, 2, 1));
    let outside = (windows.cell(grid, 3, 0), windows.cell(grid, 0, 2));
    ensure!(
        (there, inside, outside) == ((0x61, 0x62), (0x20, 0x20), (0x20, 0x20)),
        "other cells, or one that isn't blank"
    );
    Ok(())
}

/// Whether this call waits, with these arguments.
fn waits(world: &World, selector: u32, args: &[u32]) -> bool {
    match world.waiting() {
        Some(call) => call.selector == selector && call.args.as_slice() == args,
        None => false,
    }
}

/// A call that waits has its first three arguments, and waits until it is taken.
pub fn waiting(alloc: Global) -> Result<()> {
    let mut world = World::new(alloc, 80, 24);
    compare_waiting(&mut world)
}

fn compare_waiting(world: &mut World) -> Result<()> {
    let before = world.waiting().is_some();
    world.wait(0x62, &[1, 3, 7, 9]);
    let then = waits(world, 0x62, &[1, 3, 7]) && waits(world, 0x62, &[1, 3, 7]);
    let taken = world.take_waiting().is_some();
    let after = world.waiting().is_some();
    ensure!(
        (before, then, taken, after) == (false, true, true, false),
        "another call waits"
    );
    Ok(())
}

/// An empty file in Latin-1.
fn file(alloc: Global, name: &str) -> Result<StreamKind>
    ensures own { IfOk result (λ kind. window_in kind ≡ 0) }
    ensures read { IfOk result (λ kind. IsTrue (allows_mode kind 2)) }
    ensures write { IfOk result (λ kind. IsTrue (allows_mode kind 1)) }
    ensures append { IfOk result (λ kind. IsTrue (allows_mode kind 5)) }
    ensures sound { IfOk result IsSoundKind }
{
    Ok(StreamKind::File {
        name: Name::from_str(alloc, name)?,
        content: Bytes::new(alloc),
        form: FileForm::Latin,
    })
}

/// Opens four streams: the second and the fourth are files that are open for writing.
fn open_streams(alloc: Global, world: &mut World) -> Result<()> {
    world.add_stream(file(alloc, "read")?, READ, 0)?;
    world.add_stream(file(alloc, "written")?, WRITE, 0)?;
    let memory = StreamKind::Memory {
        at: 0x100,
        len: 4,
        wide: false,
    };
    world.add_stream(memory, WRITE, 0)?;
    world.add_stream(file(alloc, "appended")?, WRITE_APPEND, 0)?;
    Ok(())
}

/// The files that are open for writing, in order.
pub fn open_files(alloc: Global) -> Result<()> {
    let mut world = World::new(alloc, 80, 24);
    compare_open_files(alloc, &mut world)
}

fn compare_open_files(alloc: Global, world: &mut World) -> Result<()> {
    open_streams(alloc, world)?;
    let open = world.open_files(alloc)?;
    ensure!(open.as_slice() == [2, 4].as_slice(), "other files are open");
    Ok(())
}

//! What goes where a window is closed: the window with all windows below it, and the pair above it.
//!
//! No memory is asked for: what goes is listed in a list that has the room already.
ghost use Rattle.std.specs.Prelude.{◌≡◌, ◌≤◌, [], length, map, filter, not, vec_capacity, unwrap_or};
ghost use Rattle.std.specs.Option.{option_map};
ghost use Rattle.std.specs.List.Sorted.{IsStrictlyIncreasing};
ghost use Rattle.glk_objects.specs.Objects as objects;
ghost use Rattle.glk_windows.specs.Tree.{is_among, ids_in, part_from, shape_of};
ghost use Rattle.glk_windows.specs.Grids.{grid_id};
ghost use Rattle.glk_windows.specs.Windows.{tree_of, entry_id};
ghost use Rattle.glk_windows.specs.Changes.{leaving, chosen, left_of, grids_left, closed_tree};

use crate::entries::{Entry, forget};
use crate::grid::Grid;
use crate::tree::{self, Tree, has, id_of, parent_in, part_from};

/// Whether a window goes with one that is closed.
fn goes(tree: &Option<Tree>, win: u32, id: u32) -> bool
    ensures { result ≡ is_among (leaving (tree_of tree.now) win) id }
{
    match tree {
        None => false,
        Some(tree) => parent_in(tree, win) == id || is_below(tree, win, id),
    }
}

/// Whether a window is in the part of the tree from another one down.
fn is_below(tree: &Tree, win: u32, id: u32) -> bool
    ensures { result ≡ is_among (unwrap_or (option_map ids_in (part_from (shape_of tree.now) win)) []) id }
{
    match part_from(tree, win) {
        None => false,
        Some(part) => has(part, id),
    }
}

/// Lists the windows that go, in order of creation.
#[tactic(auto, using(crate::proofs::Lists::gathers))]
fn list_ids(list: &mut Vec<u32>, tree: &Option<Tree>, win: u32, entries: &[Entry])
    requires { length entries.now ≤ vec_capacity list.old }
    ensures value { list.new.items ≡ map entry_id (chosen (leaving (tree_of tree.now) win) entries.now) }
{
    list.clear();
    for entry in entries {
        if goes(tree, win, entry.id) {
            list.push_reserved(entry.id);
        }
    }
}

/// Lists the streams of the windows that go.
#[tactic(auto, using(crate::proofs::Lists::gathers))]
fn list_streams(list: &mut Vec<u32>, tree: &Option<Tree>, win: u32, entries: &[Entry])
    requires { length entries.now ≤ vec_capacity list.old }
    ensures value { list.new.items ≡ map (λ e. e.stream) (chosen (leaving (tree_of tree.now) win) entries.now) }
    ensures room { vec_capacity list.new ≡ vec_capacity list.old }
{
    list.clear();
    for entry in entries {
        if goes(tree, win, entry.id) {
            list.push_reserved(entry.stream);
        }
    }
}

/// Keeps the windows that stay.
#[tactic(auto, using(glk_objects::proofs::Rising::rising))]
fn keep_entries(entries: &mut Vec<Entry>, tree: &Option<Tree>, win: u32)
    requires { objects.AreRising entry_id entries.old.items }
    ensures value { entries.new.items
        ≡ filter (λ e. not (is_among (leaving (tree_of tree.now) win) e.id)) entries.old.items }
    ensures rises { objects.AreRising entry_id entries.new.items }
{
    entries.retain(|entry| !goes(tree, win, entry.id));
}

/// Removes the windows that go, and the echo streams that were streams of theirs; lists which there were.
pub(crate) fn remove_entries(
    entries: &mut Vec<Entry>,
    tree: &Option<Tree>,
    win: u32,
    list: &mut Vec<u32>,
)
    requires rises { objects.AreRising entry_id entries.old.items }
    requires room { length entries.old.items ≤ vec_capacity list.old }
    ensures gone { list.new.items ≡ map entry_id (chosen (leaving (tree_of tree.now) win) entries.old.items) }
    ensures rises { IsStrictlyIncreasing list.new.items }
    ensures new { entries.new.items ≡ left_of entries.old.items (leaving (tree_of tree.now) win) }
    ensures order { objects.AreRising entry_id entries.new.items }
{
    list_streams(list, tree, win, entries);
    forget(list, entries);
    list_ids(list, tree, win, entries);
    keep_entries(entries, tree, win);
}

/// Keeps the grids of the windows that stay.
#[tactic(auto, using(glk_objects::proofs::Rising::rising))]
pub(crate) fn keep_grids(grids: &mut Vec<Grid>, tree: &Option<Tree>, win: u32)
    requires { objects.AreRising grid_id grids.old.items }
    ensures value { grids.new.items ≡ grids_left grids.old.items (leaving (tree_of tree.now) win) }
    ensures rises { objects.AreRising grid_id grids.new.items }
{
    grids.retain(|grid| !goes(tree, win, grid.id));
}

/// The tree without a window and without keys that are gone.
pub(crate) fn close(tree: &mut Option<Tree>, gone: &[u32], win: u32)
    ensures { tree_of tree.new ≡ closed_tree gone.now (tree_of tree.old) win }
{
    if let Some(top) = tree {
        if id_of(top) == win {
            *tree = None;
        } else {
            tree::close(top, win);
            tree::unkey(top, gone);
        }
    }
}

//! All windows of a screen (Glk 0.7.5, "Windows").
ghost use Rattle.std.specs.Prelude.{ℕ, ◌≡◌, ◌+◌, ◌<◌, ◌≤◌, ◌^◌, ◌⊎◌, ◌∷◌, [], ◌++◌, length, map, IsTrue};
ghost use Rattle.std.specs.Prelude.{vec_len, vec_capacity, OnOk, OnErr, IfOk, MatchOption, Some, None};
ghost use Rattle.std.specs.Prelude.{◌==◌, if◌then◌else◌};
ghost use Rattle.std.specs.Option.{option_map};
ghost use Rattle.std.specs.List.Sorted.{IsStrictlyIncreasing};
ghost use Rattle.glk_objects.specs.Objects as objects;
ghost use Rattle.glk_windows.specs.Tree.{shape_of, split_in, arranged_in};
ghost use Rattle.glk_windows.specs.Grids.{grid_id, empty_grid, sized_to};
ghost use Rattle.glk_windows.specs.Windows.{tree_of, no_windows, entry_id, is_window, window_entry, entry, root};
ghost use Rattle.glk_windows.specs.Windows.{parent, window, window_pair, sizes_in, sizes, text_size, window_cell};
ghost use Rattle.glk_windows.specs.Windows.{window_row, is_openable};
ghost use Rattle.glk_windows.specs.Windows.{can_add, last_given, IsNewId};
ghost use Rattle.glk_windows.specs.Changes.{fitted, some_grow, rooted, split_by, with_new_window};
ghost use Rattle.glk_windows.specs.Changes.{gone, window_closed, closing_grows, allows_arrangement};
ghost use Rattle.glk_windows.specs.Changes.{arranged};
ghost use Rattle.glk_windows.specs.Changes.{arranging_grows, put_to, cleared_in, moved_in, with_echo_stream};
ghost use Rattle.glk_windows.specs.Changes.{without_echoes};
ghost use Rattle.glk_windows.specs.Laws.{AreDistinct, ids_of, AreWhole};

use crate::closing::{close, keep_grids, remove_entries};
use crate::entries::{Entry, Window, entry_at, forget, leaf_count, new_entry, set_echo};
use crate::grid::{self, BLANK, Grid, empty_grid};
use crate::methods::{BLANK_WINDOW, MOST_WINDOWS, PAIR, TEXT_BUFFER, TEXT_GRID, is_method};
use crate::spare::SpareLists;
use crate::tree::{self, Arrangement, Pair, Tree, area_in, id_of, parent_in, part_from};
use glk_objects::place;
use gx_words::Numbers;
use std::alloc::{AllocError, Global};
use std::marker::Model;

/// The windows on a screen of a fixed size.
#[derive(Drop)]
pub struct Windows {
    alloc: Global,
    entries: Vec<Entry>,
    tree: Option<Tree>,
    grids: Vec<Grid>,
    /// One list for each window at least, so that none is wanted where windows are closed.
    spare: SpareLists,
    columns: u32,
    rows: u32,
}

impl Model for Windows {
    ghost use Rattle.glk_windows.specs.Windows.{FlatWindows};
    ghost use Rattle.glk_windows.specs.Stored.{windows_code};

    ghost Value = { FlatWindows };

    ghost coded = { windows_code };

    ghost use Rattle.glk_windows.specs.Held.{flat_of, WindowsInvariant};

    ghost view = { flat_of };

    ghost invariant = { WindowsInvariant };
}

impl Windows {
    /// No window on a screen of so many columns and rows, each from 1 to 255.
    pub fn new(alloc: Global, columns: u32, rows: u32) -> Windows
        requires columns { (1 ≤ columns) × (columns ≤ 255) }
        requires rows { (1 ≤ rows) × (rows ≤ 255) }
        ensures { result ≡ no_windows columns rows }
    {
        Windows {
            alloc,
            entries: Vec::new(alloc),
            tree: None,
            grids: Vec::new(alloc),
            spare: SpareLists::new(alloc),
            columns,
            rows,
        }
    }

    /// The columns and rows of the screen.
    pub fn size(&self) -> (u32, u32)
        ensures value { result ≡ (self.now.columns, self.now.rows) }

        // Each window has its place in the tree, and the sizes of those that aren't pairs add up to the screen's.
        ensures whole { AreWhole self.now }
    {
        (self.columns, self.rows)
    }

    /// The tree, `None` where there is no window.
    pub fn tree(&self) -> Option<&Tree>
        ensures { MatchOption result (self.now.tree ≡ None) (λ tree. self.now.tree ≡ Some (shape_of tree.now)) }
    {
        self.tree.as_ref()
    }

    /// The identifier of the root, 0 where there is no window.
    pub fn root(&self) -> u32
        ensures { result ≡ root self.now }
    {
        match &self.tree {
            None => 0,
            Some(tree) => id_of(tree),
        }
    }

    /// The least identifier of a window above `win`, 0 where there is none.
    #[tactic(auto, using(glk_objects::proofs::Meeting::meets_each))]
    pub fn next(&self, win: u32) -> u32
        ensures value { result ≡ objects.next entry_id self.now.entries win }

        // Going on from one to the next meets each window once, in order of creation.
        ensures each { objects.IsBelowAll entry_id self.now.entries 0 → (more : ℕ)
            → objects.met_from entry_id (length self.now.entries + more) self.now.entries 0
            ≡ map entry_id self.now.entries }
    {
        glk_objects::next(&self.entries, win)
    }

    /// What is known of a window beside its place, `None` where no window has the identifier.
    #[tactic(auto, using(glk_objects::proofs::Places::places))]
    pub fn entry(&self, win: u32) -> Option<Entry>
        ensures { result ≡ entry self.now win }
    {
        let at = place(&self.entries, win);
        if at < self.entries.len() {
            Some(self.entries[at])
        } else {
            None
        }
    }

    /// The same, with zeros where no window has the identifier.
    pub fn entry_at(&self, win: u32) -> Entry
        ensures { result ≡ window_entry self.now.entries win }
    {
        entry_at(&self.entries, win)
    }

    /// The pair above a window, 0 for none.
    fn parent(&self, win: u32) -> u32
        ensures { result ≡ parent self.now win }
    {
        match &self.tree {
            None => 0,
            Some(tree) => parent_in(tree, win),
        }
    }

    /// A window, `None` where no window has the identifier.
    pub fn window(&self, win: u32) -> Option<Window>
        ensures { result ≡ window self.now win }
    {
        match self.entry(win) {
            None => None,
            Some(entry) => Some(Window {
                id: entry.id,
                kind: entry.kind,
                rock: entry.rock,
                stream: entry.stream,
                echo: entry.echo,
                parent: self.parent(win),
            }),
        }
    }

    /// A pair window, `None` where no pair window has the identifier.
    pub fn pair(&self, win: u32) -> Option<Pair>
        ensures { result ≡ window_pair self.now win }
    {
        match &self.tree {
            None => None,
            Some(tree) => match part_from(tree, win) {
                None => None,
                Some(part) => tree::pair_of(part),
            },
        }
    }

    /// The columns and rows of a window's place on the screen, 0 and 0 where no window has the identifier.
    pub fn sizes(&self, win: u32) -> (u32, u32)
        ensures { result ≡ sizes self.now win }
    {
        sizes_in(&self.tree, (self.columns, self.rows), win)
    }

    /// The columns and rows of a text window, 0 and 0 for all others.
    pub fn text_size(&self, win: u32) -> (u32, u32)
        ensures { result ≡ text_size self.now win }
    {
        let kind = entry_at(&self.entries, win).kind;
        if kind == TEXT_BUFFER || kind == TEXT_GRID {
            self.sizes(win)
        } else {
            (0, 0)
        }
    }

    /// All grids, by rising identifiers.
    pub fn grids(&self) -> &[Grid]
        ensures { result.now ≡ self.now.grids }
    {
        &self.grids
    }

    /// The cells of a row of a window's grid, none where there is no such row.
    #[tactic(auto, using(glk_objects::proofs::Places::places))]
    pub fn row(&self, win: u32, y: u32) -> &[u32]
        ensures { result.now ≡ window_row self.now win y }
    {
        let at = place(&self.grids, win);
        if at < self.grids.len() {
            self.grids[at].rows.row(y as usize)
        } else {
            &[]
        }
    }

    /// A cell of a window's grid, blank where there is no such cell.
    pub fn cell(&self, win: u32, x: u32, y: u32) -> u32
        ensures { result ≡ window_cell self.now win x y }
    {
        let row = self.row(win, y);
        if (x as usize) < row.len() {
            row[x as usize]
        } else {
            BLANK
        }
    }

    /// Whether a window of this type may be opened; `split` is the window that is split, 0 for the first one.
    pub fn can_add(&self, split: u32, method: u32, kind: u32) -> bool
        ensures { result ≡ can_add self.now split method kind }
    {
        !(split == 0 && self.tree.is_some())
            && is_openable(kind)
            && leaf_count(&self.entries) < MOST_WINDOWS
            && (split == 0 || is_method(method))
    }

    /// Opens a window. It gets `id`, its stream the next identifier, then the new pair and the pair's stream.
    #[tactic(auto, unfolding(crate::specs::Changes::with_new_window))]
    pub fn add(
        &mut self,
        split: u32,
        method: u32,
        size: u32,
        kind: u32,
        rock: u32,
        id: u32,
    ) -> Result<(), AllocError>
        requires may { IsTrue (can_add self.old split method kind) }
        requires split { split ≡ 0 ⊎ IsTrue (is_window self.old split) }
        requires new { IsNewId self.old id }
        requires last { last_given split id ≤ 0xFFFFFFFE }
        ensures { OnOk result (self.new ≡ with_new_window self.old split method size kind rock id) }
    {
        if split == 0 {
            self.add_root(kind, rock, id)
        } else {
            self.add_beside(split, method, size, kind, rock, id)
        }
    }

    /// Opens the first window.
    fn add_root(&mut self, kind: u32, rock: u32, id: u32) -> Result<(), AllocError>
        requires none { self.old.tree ≡ None }
        requires kind { IsTrue (is_openable kind) }
        requires new { IsNewId self.old id }
        requires last { id + 1 < 2 ^ 32 }
        ensures { OnOk result (self.new ≡ fitted (rooted self.old kind rock id)) }
    {
        self.entries.reserve(1)?;
        self.spare.reserve(self.alloc, self.entries.len() + 1)?;
        self.grids.reserve(1)?;
        push_grid(self.alloc, &mut self.grids, kind, id);
        push_entry(&mut self.entries, new_entry(id, kind, rock));
        self.tree = Some(Tree::Leaf(id));
        self.fit()
    }

    /// Opens a window beside one that is split.
    #[tactic(auto, using(crate::proofs::Lists::above_new))]
    fn add_beside(
        &mut self,
        split: u32,
        method: u32,
        size: u32,
        kind: u32,
        rock: u32,
        id: u32,
    ) -> Result<(), AllocError>
        requires split { IsTrue (is_window self.old split) }
        requires kind { IsTrue (is_openable kind) }
        requires new { IsNewId self.old id }
        requires last { id + 3 < 2 ^ 32 }
        ensures { OnOk result (self.new ≡ fitted (split_by self.old split method size kind rock id)) }
    {
        self.entries.reserve(2)?;
        self.spare.reserve(self.alloc, self.entries.len() + 2)?;
        self.grids.reserve(1)?;
        let arrangement = Arrangement {
            id: id + 2,
            method: method % 256,
            size,
            key: id,
            key_is_blank: kind == BLANK_WINDOW,
        };
        split_tree(self.alloc, &mut self.tree, split, arrangement, id)?;
        push_grid(self.alloc, &mut self.grids, kind, id);
        push_entry(&mut self.entries, new_entry(id, kind, rock));
        push_entry(&mut self.entries, new_entry(id + 2, PAIR, 0));
        self.fit()
    }

    /// Closes a window, with all windows below it and their pair; answers their identifiers, which rise.
    #[tactic(auto, unfolding(crate::specs::Changes::window_closed, crate::specs::Changes::closing_grows))]
    pub fn remove(&mut self, win: u32) -> Result<Numbers, AllocError>
        requires { IsTrue (is_window self.old win) }
        ensures gone { IfOk result (λ ids. ids ≡ gone self.old win) }
        ensures rises { IfOk result IsStrictlyIncreasing }
        ensures new { OnOk result (self.new ≡ window_closed self.old win) }
        ensures memory { OnErr result (IsTrue (closing_grows self.old win)) }
    {
        let mut gone = self.spare.pop();
        remove_entries(&mut self.entries, &self.tree, win, &mut gone);
        keep_grids(&mut self.grids, &self.tree, win);
        close(&mut self.tree, &gone, win);
        self.fit()?;
        Ok(Numbers::from_vec(gone))
    }

    /// Whether a window is a pair that may get this method and this key.
    fn allows(&self, win: u32, method: u32, key: u32) -> bool
        ensures { result ≡ allows_arrangement self.now win method key }
    {
        match &self.tree {
            None => false,
            Some(tree) => match part_from(tree, win) {
                None => false,
                Some(part) => tree::can_arrange(part, method, key),
            },
        }
    }

    /// Gives a pair another method, size and, unless it is 0, key. Nothing changes where the window isn't a pair,
    /// the method isn't one on the pair's axis, or the key is no window below it that isn't a pair.
    #[tactic(auto, unfolding(crate::specs::Changes::arranged, crate::specs::Changes::arranging_grows))]
    pub fn arrange(&mut self, win: u32, method: u32, size: u32, key: u32) -> Result<(), AllocError>
        ensures ok { OnOk result (self.new ≡ arranged self.old win method size key) }
        ensures memory { OnErr result (IsTrue (arranging_grows self.old win method size key)) }
    {
        if !self.allows(win, method, key) {
            return Ok(());
        }
        let key_is_blank = entry_at(&self.entries, key).kind == BLANK_WINDOW;
        arrange_tree(&mut self.tree, win, method, size, key, key_is_blank);
        self.fit()
    }

    /// Gives each grid its window's size.
    fn fit(&mut self) -> Result<(), AllocError>
        ensures ok { OnOk result (self.new ≡ fitted self.old) }
        ensures memory { OnErr result
            (IsTrue (some_grow self.old.tree (self.old.columns, self.old.rows) self.old.grids)) }
    {
        let screen = (self.columns, self.rows);
        fit_grids(self.alloc, &self.tree, screen, &mut self.grids)
    }

    /// Puts a character, already as shown, to a window's grid; nothing changes where the window has none.
    #[tactic(auto, using(crate::proofs::Lists::replaces), unfolding(crate::specs::Changes::put_to))]
    pub fn put(&mut self, win: u32, c: u32)
        ensures { self.new ≡ put_to self.old win c }
    {
        let at = place(&self.grids, win);
        if at < self.grids.len() {
            grid::put(&mut self.grids[at], c);
        }
    }

    /// Clears a window's grid; nothing changes where the window has none.
    #[tactic(auto, using(crate::proofs::Lists::replaces), unfolding(crate::specs::Changes::cleared_in))]
    pub fn clear(&mut self, win: u32)
        ensures { self.new ≡ cleared_in self.old win }
    {
        let at = place(&self.grids, win);
        if at < self.grids.len() {
            grid::clear(&mut self.grids[at]);
        }
    }

    /// Moves the cursor of a window's grid; nothing changes where the window has none.
    #[tactic(auto, using(crate::proofs::Lists::replaces), unfolding(crate::specs::Changes::moved_in))]
    pub fn move_cursor(&mut self, win: u32, x: u32, y: u32)
        ensures { self.new ≡ moved_in self.old win x y }
    {
        let at = place(&self.grids, win);
        if at < self.grids.len() {
            grid::move_cursor(&mut self.grids[at], x, y);
        }
    }

    /// Sets a window's echo stream, 0 for none.
    #[tactic(auto, unfolding(crate::specs::Changes::with_echo_stream))]
    pub fn set_echo(&mut self, win: u32, stream: u32)
        requires { IsTrue (is_window self.old win) }
        ensures { self.new ≡ with_echo_stream self.old win stream }
    {
        set_echo(&mut self.entries, win, stream);
    }

    /// A stream is gone: windows of which it was the echo stream have none.
    pub fn forget_stream(&mut self, stream: u32)
        ensures { self.new ≡ without_echoes self.old stream }
    {
        forget(&[stream], &mut self.entries);
    }
}

/// Whether a story may open a window of this type.
fn is_openable(kind: u32) -> bool
    ensures { result ≡ is_openable kind }
{
    kind == BLANK_WINDOW || kind == TEXT_BUFFER || kind == TEXT_GRID
}

/// The columns and rows of a window, 0 and 0 where it isn't in the tree.
fn sizes_in(tree: &Option<Tree>, screen: (u32, u32), win: u32) -> (u32, u32)
    ensures { result ≡ sizes_in (tree_of tree.now) screen win }
{
    match tree {
        None => (0, 0),
        Some(tree) => area_in(tree, screen, win).unwrap_or((0, 0)),
    }
}

/// Adds a window at the end.
#[tactic(auto, using(glk_objects::proofs::Rising::rising))]
fn push_entry(entries: &mut Vec<Entry>, new: Entry)
    requires room { vec_len entries.old < vec_capacity entries.old }
    requires rises { objects.AreRising entry_id entries.old.items }
    requires above { objects.IsAboveAll entry_id entries.old.items new.id }
    ensures value { entries.new.items ≡ entries.old.items ++ new ∷ [] }
    ensures rises { objects.AreRising entry_id entries.new.items }
    ensures len { vec_len entries.new ≡ vec_len entries.old + 1 }
    ensures capacity { vec_capacity entries.new ≡ vec_capacity entries.old }
{
    entries.push_reserved(new);
}

/// Adds the grid of a grid window.
#[tactic(auto, using(glk_objects::proofs::Rising::rising))]
fn push_grid(alloc: Global, grids: &mut Vec<Grid>, kind: u32, id: u32)
    requires room { vec_len grids.old < vec_capacity grids.old }
    requires rises { objects.AreRising grid_id grids.old.items }
    requires above { objects.IsAboveAll grid_id grids.old.items id }
    ensures value { grids.new.items
        ≡ (if kind == TEXT_GRID then grids.old.items ++ empty_grid id ∷ [] else grids.old.items) }
    ensures rises { objects.AreRising grid_id grids.new.items }
{
    if kind == TEXT_GRID {
        grids.push_reserved(empty_grid(alloc, id));
    }
}

/// A pair takes the place of the window that is split.
fn split_tree(
    alloc: Global,
    tree: &mut Option<Tree>,
    split: u32,
    arrangement: Arrangement,
    new: u32,
) -> Result<(), AllocError>
    requires { AreDistinct (ids_of (tree_of tree.old)) }
    ensures ok { OnOk result
        (tree_of tree.new ≡ option_map (λ t. split_in t split arrangement new) (tree_of tree.old)) }
    ensures err { OnErr result (tree_of tree.new ≡ tree_of tree.old) }
{
    if let Some(tree) = tree {
        tree::split(alloc, tree, split, arrangement, new)?;
    }
    Ok(())
}

/// Gives each grid its window's size.
#[tactic(auto, using(crate::proofs::Lists::fits))]
fn fit_grids(
    alloc: Global,
    tree: &Option<Tree>,
    screen: (u32, u32),
    grids: &mut Vec<Grid>,
) -> Result<(), AllocError>
    requires { objects.AreRising grid_id grids.old.items }
    ensures ok { OnOk result (grids.new.items ≡ map (λ g. sized_to (sizes_in (tree_of tree.now) screen g.id) g)
        grids.old.items) }
    ensures rises { objects.AreRising grid_id grids.new.items }
    ensures memory { OnErr result (IsTrue (some_grow (tree_of tree.now) screen grids.old.items)) }
{
    for at in 0..grids.len() {
        let area = sizes_in(tree, screen, grids[at].id);
        grid::resize(alloc, &mut grids[at], area)?;
    }
    Ok(())
}

/// Gives a pair another arrangement.
fn arrange_tree(
    tree: &mut Option<Tree>,
    win: u32,
    method: u32,
    size: u32,
    key: u32,
    key_is_blank: bool,
)
    ensures { tree_of tree.new ≡ option_map (λ t. arranged_in t win method size key key_is_blank) (tree_of tree.old) }
{
    if let Some(tree) = tree {
        tree::arrange(tree, win, method, size, key, key_is_blank);
    }
}

//! The tree of windows: which window is where, and what share of the screen it has
//! (Glk 0.7.5, "Window Arrangement").
ghost use Rattle.std.specs.Prelude.{◌≡◌, ◌≤◌, ◌++◌, ◌+◌, true, OnErr, OnOk};
ghost use Rattle.std.specs.Option.{option_map};
ghost use Rattle.glk_windows.specs.Methods.{direction};
ghost use Rattle.glk_windows.specs.Tree.{One, Two, shape_of, shape_id, share, second_area, first_area, area_in};
ghost use Rattle.glk_windows.specs.Tree.{part_from};
ghost use Rattle.glk_windows.specs.Tree.{ids_in, has_leaf, parent_in, pair_of, split_in, closed_in, is_among, unkeyed};
ghost use Rattle.glk_windows.specs.Tree.{can_arrange, rearranged, arranged_in};
ghost use Rattle.glk_windows.specs.Laws.{AreDistinct};

use crate::methods::{FIXED, direction, division, is_across, is_method, is_on_axis};
use std::alloc::{AllocError, Global};
use std::mem;

/// A pair window as the story sees it.
#[derive(Clone, Copy, Debug, PartialEq, Eq)]
pub struct Pair {
    /// Its first child.
    pub first: u32,
    /// Its second child, of which the size speaks.
    pub second: u32,
    /// Direction and division.
    pub method: u32,
    pub size: u32,
    /// Its key window, 0 where that is gone.
    pub key: u32,
}

/// How a pair window divides its place between its children.
#[derive(Clone, Copy, Debug, PartialEq, Eq)]
pub struct Arrangement {
    /// The pair window's identifier.
    pub id: u32,
    /// Direction and division.
    pub method: u32,
    pub size: u32,
    /// Its key window, 0 where that is gone.
    pub key: u32,
    /// Whether the key is a blank window.
    pub key_is_blank: bool,
}

/// A window that isn't a pair, or a pair window with its first and its second child.
#[derive(Drop)]
pub enum Tree {
    Leaf(u32),
    Pair(Arrangement, Box<Tree>, Box<Tree>),
}

/// The identifier of the topmost window.
pub(crate) fn id_of(tree: &Tree) -> u32
    ensures { result ≡ shape_id (shape_of tree.now) }
{
    match tree {
        Tree::Leaf(id) => *id,
        Tree::Pair(arrangement, _, _) => arrangement.id,
    }
}

impl Arrangement {
    /// The side of the second child: `LEFT`, `RIGHT`, `ABOVE` or `BELOW` in every pair window that was opened.
    pub fn direction(&self) -> u32
        ensures { result ≡ direction self.now.method }
    {
        direction(self.method)
    }

    /// What the second child gets of so many columns or rows.
    fn share(&self, total: u32) -> u32
        ensures value { result ≡ share self.now total }
        ensures fits { result ≤ total }
    {
        if division(self.method) != FIXED {
            let wanted = total as u64 * self.size as u64 / 100;
            return wanted.min(total as u64) as u32;
        }
        if self.key == 0 || self.key_is_blank {
            0
        } else {
            total.min(self.size)
        }
    }

    /// The columns and rows of the second child, where the pair has `area`.
    pub fn second_area(&self, area: (u32, u32)) -> (u32, u32)
        ensures { result ≡ second_area self.now area }
    {
        if is_across(self.method) {
            (self.share(area.0), area.1)
        } else {
            (area.0, self.share(area.1))
        }
    }

    /// The columns and rows of the first child, which has the rest.
    pub fn first_area(&self, area: (u32, u32)) -> (u32, u32)
        ensures { result ≡ first_area self.now area }
    {
        if is_across(self.method) {
            (area.0 - self.share(area.0), area.1)
        } else {
            (area.0, area.1 - self.share(area.1))
        }
    }
}

/// The columns and rows of a window, where the topmost one has `area`.
pub(crate) fn area_in(tree: &Tree, area: (u32, u32), win: u32) -> Option<(u32, u32)>
    ensures { result ≡ area_in (shape_of tree.now) area win }
{
    match tree {
        Tree::Leaf(id) => { if *id == win { Some(area) } else { None } }
        Tree::Pair(arrangement, first, second) => {
            if arrangement.id == win {
                return Some(area);
            }
            match area_in(first, arrangement.first_area(area), win) {
                Some(found) => Some(found),
                None => area_in(second, arrangement.second_area(area), win),
            }
        }
    }
}

/// The part of the tree from a window down.
pub(crate) fn part_from(tree: &Tree, win: u32) -> Option<&Tree>
    ensures { option_map (λ t. shape_of t.now) result ≡ part_from (shape_of tree.now) win }
{
    match tree {
        Tree::Leaf(id) => { if *id == win { Some(tree) } else { None } }
        Tree::Pair(arrangement, first, second) => {
            if arrangement.id == win {
                return Some(tree);
            }
            match part_from(first, win) {
                Some(found) => Some(found),
                None => part_from(second, win),
            }
        }
    }
}

/// Whether a window is in this part of the tree.
#[tactic(auto, using(crate::proofs::Tiling::among_append))]
pub(crate) fn has(tree: &Tree, win: u32) -> bool
    ensures { result ≡ is_among (ids_in (shape_of tree.now)) win }
{
    match tree {
        Tree::Leaf(id) => *id == win,
        Tree::Pair(arrangement, first, second) => {
            arrangement.id == win || has(first, win) || has(second, win)
        }
    }
}

/// Whether a window of this part of the tree isn't a pair.
fn has_leaf(tree: &Tree, win: u32) -> bool
    ensures { result ≡ has_leaf (shape_of tree.now) win }
{
    match tree {
        Tree::Leaf(id) => *id == win,
        Tree::Pair(_, first, second) => has_leaf(first, win) || has_leaf(second, win),
    }
}

/// The pair above a window, 0 for none.
pub(crate) fn parent_in(tree: &Tree, win: u32) -> u32
    ensures { result ≡ parent_in (shape_of tree.now) win }
{
    match tree {
        Tree::Leaf(_) => 0,
        Tree::Pair(arrangement, first, second) => {
            if id_of(first) == win || id_of(second) == win {
                return arrangement.id;
            }
            let found = parent_in(first, win);
            if found == 0 {
                parent_in(second, win)
            } else {
                found
            }
        }
    }
}

/// The topmost window as the story sees it, `None` where it isn't a pair.
pub(crate) fn pair_of(tree: &Tree) -> Option<Pair>
    ensures { result ≡ pair_of (shape_of tree.now) }
{
    match tree {
        Tree::Leaf(_) => None,
        Tree::Pair(arrangement, first, second) => Some(Pair {
            first: id_of(first),
            second: id_of(second),
            method: arrangement.method,
            size: arrangement.size,
            key: arrangement.key,
        }),
    }
}

/// A pair takes the topmost window's place, with that one as its first child and a new one as its second.
fn put_above(
    alloc: Global,
    tree: &mut Tree,
    arrangement: Arrangement,
    new: u32,
) -> Result<(), AllocError>
    ensures ok { OnOk result (shape_of tree.new ≡ Two arrangement (shape_of tree.old) (One new)) }
    ensures err { OnErr result (shape_of tree.new ≡ shape_of tree.old) }
{
    let mut first = Box::new(alloc, Tree::Leaf(new))?;
    let second = Box::new(alloc, Tree::Leaf(new))?;
    mem::swap(tree, &mut first);
    *tree = Tree::Pair(arrangement, first, second);
    Ok(())
}

/// A pair takes a window's place.
pub(crate) fn split(
    alloc: Global,
    tree: &mut Tree,
    split: u32,
    arrangement: Arrangement,
    new: u32,
) -> Result<(), AllocError>
    ensures ok { OnOk result (shape_of tree.new ≡ split_in (shape_of tree.old) split arrangement new) }
    ensures err { AreDistinct (ids_in (shape_of tree.old)) → OnErr result (shape_of tree.new ≡ shape_of tree.old) }
    ensures there { OnErr result (is_among (ids_in (shape_of tree.old)) split ≡ true) }
{
    if id_of(tree) == split {
        return put_above(alloc, tree, arrangement, new);
    }
    match tree {
        Tree::Leaf(_) => Ok(()),
        Tree::Pair(_, first, second) => {
            self::split(alloc, first, split, arrangement, new)?;
            self::split(alloc, second, split, arrangement, new)
        }
    }
}

/// A window below the topmost one is closed: its sibling takes the place of their pair.
pub(crate) fn close(tree: &mut Tree, win: u32)
    ensures { shape_of tree.new ≡ closed_in (shape_of tree.old) win }
{
    match mem::replace(tree, Tree::Leaf(win)) {
        Tree::Leaf(id) => *tree = Tree::Leaf(id),
        Tree::Pair(arrangement, mut first, mut second) => {
            if id_of(&first) == win {
                *tree = Box::into_inner(second);
            } else if id_of(&second) == win {
                *tree = Box::into_inner(first);
            } else {
                close(&mut first, win);
                close(&mut second, win);
                *tree = Tree::Pair(arrangement, first, second);
            }
        }
    }
}

/// Whether an identifier is one of some.
pub(crate) fn is_among(ids: &[u32], id: u32) -> bool
    ensures { result ≡ is_among ids.now id }
{
    ids.contains(&id)
}

/// Keys that are gone become none.
pub(crate) fn unkey(tree: &mut Tree, gone: &[u32])
    ensures { shape_of tree.new ≡ unkeyed gone.now (shape_of tree.old) }
{
    match tree {
        Tree::Leaf(_) => {}
        Tree::Pair(arrangement, first, second) => {
            if is_among(gone, arrangement.key) {
                arrangement.key = 0;
            }
            unkey(first, gone);
            unkey(second, gone);
        }
    }
}

/// Whether the topmost window is a pair that may get this method and this key.
pub(crate) fn can_arrange(tree: &Tree, method: u32, key: u32) -> bool
    ensures { result ≡ can_arrange (shape_of tree.now) method key }
{
    match tree {
        Tree::Leaf(_) => false,
        Tree::Pair(arrangement, first, second) => {
            is_method(method)
                && is_on_axis(method, arrangement.method)
                && (key == 0 || has_leaf(first, key) || has_leaf(second, key))
        }
    }
}

/// A pair's arrangement with another method, size and, unless it is 0, key.
fn rearranged(
    old: &Arrangement,
    method: u32,
    size: u32,
    key: u32,
    key_is_blank: bool,
) -> Arrangement
    ensures { result ≡ rearranged old.now method size key key_is_blank }
{
    Arrangement {
        id: old.id,
        method: method % 256,
        size,
        key: if key == 0 { old.key } else { key },
        key_is_blank: if key == 0 {
            old.key_is_blank
        } else {
            key_is_blank
        },
    }
}

/// A pair gets another arrangement; its children are exchanged where the direction changes.
pub(crate) fn arrange(
    tree: &mut Tree,
    win: u32,
    method: u32,
    size: u32,
    key: u32,
    key_is_blank: bool,
)
    ensures { shape_of tree.new ≡ arranged_in (shape_of tree.old) win method size key key_is_blank }
{
    match tree {
        Tree::Leaf(_) => {}
        Tree::Pair(arrangement, first, second) => {
            if arrangement.id == win {
                if direction(method) != direction(arrangement.method) {
                    mem::swap(first, second);
                }
                *arrangement = rearranged(arrangement, method, size, key, key_is_blank);
            } else {
                arrange(first, win, method, size, key, key_is_blank);
                arrange(second, win, method, size, key, key_is_blank);
            }
        }
    }
}

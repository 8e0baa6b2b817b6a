//! Lists that wait until windows are closed, so that closing asks for none.
ghost use Rattle.std.specs.Prelude.{◌≡◌, ◌+◌, ◌<◌, ◌≤◌, vec_len, vec_capacity, OnOk};
ghost use Rattle.glk_windows.specs.Spare.{HaveRoom};

use std::alloc::{AllocError, Global};
use std::marker::Model;

/// A stack of lists, each of which has room for as many numbers as there are lists up to it: for 509 windows, which
/// are the most, they take half a megabyte. Contracts see how many there are.
#[derive(Drop)]
pub struct SpareLists {
    lists: Vec<Vec<u32>>,
}

impl Model for SpareLists {
    ghost use Rattle.std.specs.Prelude.{ℕ, vec_len};
    ghost use Rattle.glk_windows.specs.Spare.{HaveRoom};

    ghost Value = { ℕ };

    ghost view = { λ spare. vec_len spare.lists };

    ghost invariant = { λ spare. HaveRoom 0 spare.lists.items };
}

impl SpareLists {
    /// No list.
    pub(crate) fn new(alloc: Global) -> SpareLists
        ensures { result ≡ 0 }
    {
        SpareLists {
            lists: Vec::new(alloc),
        }
    }

    /// Adds lists until there are so many.
    pub(crate) fn reserve(&mut self, alloc: Global, count: usize) -> Result<(), AllocError>
        ensures ok { OnOk result (count ≤ self.new) }
        ensures kept { self.old ≤ self.new }
    {
        add_lists(alloc, &mut self.lists, count)
    }

    /// Takes the list with the most room.
    pub(crate) fn pop(&mut self) -> Vec<u32>
        requires { 0 < self.old }
        ensures room { self.old ≤ vec_capacity result }
        ensures left { self.new + 1 ≡ self.old }
    {
        match self.lists.pop() {
            Some(list) => list,
            None => unreachable!(),
        }
    }
}

/// Adds lists until there are so many.
#[tactic(auto, using(crate::proofs::Room::room_more))]
fn add_lists(alloc: Global, lists: &mut Vec<Vec<u32>>, count: usize) -> Result<(), AllocError>
    requires { HaveRoom 0 lists.old.items }
    ensures ok { OnOk result (count ≤ vec_len lists.new) }
    ensures kept { vec_len lists.old ≤ vec_len lists.new }
    ensures room { HaveRoom 0 lists.new.items }
{
    for at in lists.len()..count {
        lists.push(Vec::with_capacity(alloc, at + 1)?)?;
    }
    Ok(())
}

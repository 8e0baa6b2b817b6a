//! Memory as a table of shared leaves.
//!
//! Contracts see a table as one list of bytes. A table shares its leaves with other tables until they are
//! written to: a write first makes the leaf, then the group and then the page its own, and a write of what is
//! there already leaves a shared page shared. Past the size there may be bytes of a larger table that was cut;
//! `grow` makes them zero.
ghost use Rattle.std.specs.Prelude.{◌≡◌, ◌+◌, ◌*◌, ◌-◌, ◌%◌, ◌<◌, ◌≤◌, ◌++◌, length, take, drop, replicate, IfOk, OnOk};
ghost use Rattle.std.specs.Prelude.{OnErr};
ghost use Rattle.gx_words.specs.Constants.{ceiling};
ghost use Rattle.gx_words.specs.Numbers.{spliced};
ghost use Rattle.gx_pages.specs.Memory.{IsSize, IsInside, resized};
ghost use Rattle.gx_pages.specs.Chunks.{AllWhole, flat};
ghost use Rattle.gx_pages.specs.Leaves.{IsLeaf, IsTop, leaf_bytes, most_leaves};

use crate::chunk::{Page, begins};
use crate::chunks;
use crate::node::{Leaf, Node};
use std::alloc::{AllocError, Allocator, Global};
use std::marker::Model;
use std::rc::Rc;

/// A table of leaves, and how many of their bytes it has.
#[derive(Drop)]
pub struct Table<A: Allocator> {
    leaves: Vec<Rc<Leaf<A>>>,
    size: u32,
}

impl<A: Allocator> Model for Table<A> {
    ghost use Rattle.std.specs.Prelude.{ℕ, List, take};
    ghost use Rattle.gx_pages.specs.Chunks.{flat};
    ghost use Rattle.gx_pages.specs.Leaves.{IsTop, leaf_bytes};

    ghost Value = { List ℕ };

    ghost view = { λ table. take table.size (flat leaf_bytes table.leaves.items) };

    ghost invariant = { λ table. IsTop table.leaves.items table.size };
}

impl<A: Allocator> Table<A> {
    /// How many bytes it has.
    pub fn size(&self) -> u32
        ensures value { result ≡ length self.now }
        ensures whole { IsSize result }
    {
        self.size
    }

    /// The allocator that places the table itself.
    pub fn allocator(&self) -> Global {
        *self.leaves.allocator()
    }

    /// The bytes from `at` to the end of its page.
    #[inline(always)]
    pub fn rest_of_page(&self, at: usize) -> &[u8]
        requires { at < length self.now }
        ensures { result.now ≡ take (256 - at % 256) (drop at self.now) }
    {
        chunks::rest_of_page(self.leaves.as_slice(), at)
    }

    /// Drops the bytes from `size` on.
    pub fn cut(&mut self, size: u32)
        requires whole { IsSize size }
        requires below { size ≤ length self.old }
        ensures { self.new ≡ take size self.old }
    {
        self.leaves.truncate(leaves_for(size as usize));
        self.size = size;
    }

    /// Another table of the same leaves.
    pub fn share(&self) -> Result<Table<A>, AllocError>
        ensures same { IfOk result (λ copy. copy ≡ self.now) }
        ensures memory { OnErr result (0 < length self.now) }
    {
        Ok(Table {
            leaves: share(&self.leaves)?,
            size: self.size,
        })
    }
}

impl<A: Allocator + Clone> Table<A> {
    /// A table whose pages are all one.
    pub fn filled(alloc: Global, page: &Page<A>, size: u32) -> Result<Table<A>, AllocError>
        requires page { length page.now.value ≡ 256 }
        requires size { IsSize size }
        ensures size { IfOk result (λ table. length table ≡ size) }
        ensures zero { page.now.value ≡ replicate 256 0 → IfOk result (λ table. table ≡ replicate size 0) }
    {
        let leaves = filled_leaves(alloc, page, leaves_for(size as usize))?;
        Ok(Table { leaves, size })
    }

    /// Puts bytes over those from `at` on in one page. A whole page that has the bytes of `common` then
    /// becomes `common`, and a shared page that has the bytes already stays.
    #[inline(always)]
    pub fn write(&mut self, common: &Page<A>, at: usize, bytes: &[u8]) -> Result<(), AllocError>
        requires inside { at + length bytes.now ≤ length self.old }
        requires page { at % 256 + length bytes.now ≤ 256 }
        requires some { 0 < length bytes.now }
        ensures ok { OnOk result (self.new ≡ spliced self.old at bytes.now) }
        ensures err { OnErr result (self.new ≡ self.old) }
        ensures size { length self.new ≡ length self.old }
    {
        chunks::write(self.leaves.as_mut_slice(), common, at, bytes)
    }

    /// Puts bytes over those from `at` on, which lie in several pages. At most 256 of them are written in place;
    /// for more the least of the group, the leaf and the table that has them all is copied, and the copy taken
    /// once all is written.
    #[inline(never)]
    pub fn write_across(
        &mut self,
        common: &Page<A>,
        at: usize,
        bytes: &[u8],
    ) -> Result<(), AllocError>
        requires inside { at + length bytes.now ≤ length self.old }
        requires edge { 256 < at % 256 + length bytes.now }
        ensures ok { OnOk result (self.new ≡ spliced self.old at bytes.now) }
        ensures err { OnErr result (self.new ≡ self.old) }
        ensures size { length self.new ≡ length self.old }
    {
        if bytes.len() <= 256 {
            return self.write_edge(common, at, bytes);
        }
        if at % 65536 + bytes.len() <= 65536 {
            return self.write_in_leaf(common, at, bytes);
        }
        let mut copy = self.share()?;
        copy.put(common, at, bytes)?;
        *self = copy;
        Ok(())
    }

    /// The same for at most 256 bytes: those of one page alone where the other has its own already, and else those
    /// of both in place. Only what is shared is copied.
    fn write_edge(&mut self, common: &Page<A>, at: usize, bytes: &[u8]) -> Result<(), AllocError>
        requires inside { at + length bytes.now ≤ length self.old }
        requires edge { 256 < at % 256 + length bytes.now }
        requires few { length bytes.now ≤ 256 }
        ensures ok { OnOk result (self.new ≡ spliced self.old at bytes.now) }
        ensures err { OnErr result (self.new ≡ self.old) }
        ensures size { length self.new ≡ length self.old }
    {
        let _size = self.size(); // at most the largest memory
        let (end, start) = bytes.split_at(256 - at % 256);
        let next = at + end.len();
        if begins(self.rest_of_page(at), end) {
            return self.write(common, next, start);
        }
        if begins(self.rest_of_page(next), start) {
            return self.write(common, at, end);
        }
        self.write_both_pages(at, bytes)
    }

    /// The same where both pages change.
    fn write_both_pages(&mut self, at: usize, bytes: &[u8]) -> Result<(), AllocError>
        requires inside { at + length bytes.now ≤ length self.old }
        requires few { length bytes.now ≤ 256 }
        requires some { 0 < length bytes.now }
        ensures ok { OnOk result (self.new ≡ spliced self.old at bytes.now) }
        ensures err { OnErr result (self.new ≡ self.old) }
        ensures size { length self.new ≡ length self.old }
    {
        chunks::write_over_edge(self.leaves.as_mut_slice(), at, bytes)
    }

    /// The same in one leaf.
    fn write_in_leaf(&mut self, common: &Page<A>, at: usize, bytes: &[u8]) -> Result<(), AllocError>
        requires inside { at + length bytes.now ≤ length self.old }
        requires leaf { at % 65536 + length bytes.now ≤ 65536 }
        requires some { 0 < length bytes.now }
        ensures ok { OnOk result (self.new ≡ spliced self.old at bytes.now) }
        ensures err { OnErr result (self.new ≡ self.old) }
        ensures size { length self.new ≡ length self.old }
    {
        chunks::write_in_one(self.leaves.as_mut_slice(), common, at, bytes)
    }

    /// Puts bytes over those from `at` on, page by page. After a refusal a part of them may be written.
    pub fn put(&mut self, common: &Page<A>, at: usize, bytes: &[u8]) -> Result<(), AllocError>
        requires { IsInside at (length bytes.now) (length self.old) }
        ensures ok { OnOk result (self.new ≡ spliced self.old at bytes.now) }
        ensures size { length self.new ≡ length self.old }
    {
        if bytes.len() == 0 {
            return Ok(());
        }
        chunks::put(self.leaves.as_mut_slice(), common, at, bytes)
    }

    /// Puts zeros over `count` bytes from `at` on, page by page. After a refusal a part of them may be.
    pub fn clear(&mut self, common: &Page<A>, at: usize, count: usize) -> Result<(), AllocError>
        requires { at + count ≤ length self.old }
        ensures ok { OnOk result (self.new ≡ spliced self.old at (replicate count 0)) }
        ensures size { length self.new ≡ length self.old }
    {
        chunks::clear(self.leaves.as_mut_slice(), common, at, count)
    }

    /// Takes the bytes of another table from `from` up to `end`, and shares the pages, groups and leaves that
    /// lie between. After a refusal a part of them may be taken.
    pub fn take_from(&mut self, other: &Table<A>, from: usize, end: usize) -> Result<(), AllocError>
        requires order { from ≤ end }
        requires inside { end ≤ length self.old }
        requires there { end ≤ length other.now }
        ensures ok { OnOk result (self.new ≡ spliced self.old from (take (end - from) (drop from other.now))) }
        ensures size { length self.new ≡ length self.old }
    {
        let others = other.leaves.as_slice();
        chunks::take_from(self.leaves.as_mut_slice(), others, from, end)
    }

    /// Drops the bytes from `size` on, or adds zeros up to `size`.
    pub fn resize(&mut self, zero: &Page<A>, size: u32) -> Result<(), AllocError>
        requires zero { length self.old < size → zero.now.value ≡ replicate 256 0 }
        requires whole { IsSize size }
        ensures ok { OnOk result (self.new ≡ resized self.old size) }
        ensures err { OnErr result (self.new ≡ self.old) }
        ensures size { OnOk result (length self.new ≡ size) }
        ensures memory { OnErr result (length self.old < size) }
    {
        if size <= self.size() {
            self.cut(size);
            return Ok(());
        }
        self.grow(zero, size)
    }

    /// Adds zeros up to `size`.
    pub fn grow(&mut self, zero: &Page<A>, size: u32) -> Result<(), AllocError>
        requires zero { zero.now.value ≡ replicate 256 0 }
        requires whole { IsSize size }
        requires more { length self.old < size }
        ensures ok { OnOk result (self.new ≡ self.old ++ replicate (size - length self.old) 0) }
        ensures err { OnErr result (self.new ≡ self.old) }
    {
        grow(&mut self.leaves, zero, self.size as usize, size as usize)?;
        self.size = size;
        Ok(())
    }
}

/// How many leaves reach to a size.
fn leaves_for(size: usize) -> usize
    requires { size ≤ ceiling }
    ensures reach { size ≤ 65536 * result }
    ensures tight { 65536 * result < size + 65536 }
{
    size.div_ceil(65536)
}

/// A list that owns the same leaves.
fn share<A: Allocator>(leaves: &Vec<Rc<Leaf<A>>>) -> Result<Vec<Rc<Leaf<A>>>, AllocError>
    requires { AllWhole IsLeaf leaves.now.items }
    ensures whole { IfOk result (λ copy. AllWhole IsLeaf copy.items) }
    ensures same { IfOk result (λ copy. flat leaf_bytes copy.items ≡ flat leaf_bytes leaves.now.items) }
    ensures count { IfOk result (λ copy. length copy.items ≡ length leaves.now.items) }
    ensures memory { OnErr result (0 < length leaves.now.items) }
{
    if leaves.is_empty() {
        return Ok(Vec::new(*leaves.allocator()));
    }
    leaves.clone()
}

/// `count` leaves, which are one, and their groups and pages too.
fn filled_leaves<A: Allocator>(
    alloc: Global,
    page: &Page<A>,
    count: usize,
) -> Result<Vec<Rc<Leaf<A>>>, AllocError>
    requires page { length page.now.value ≡ 256 }
    requires few { count ≤ most_leaves }
    ensures whole { IfOk result (λ leaves. AllWhole IsLeaf leaves.items) }
    ensures zero { page.now.value ≡ replicate 256 0
        → IfOk result (λ leaves. flat leaf_bytes leaves.items ≡ replicate (65536 * count) 0) }
    ensures count { IfOk result (λ leaves. length leaves.items ≡ count) }
{
    let mut leaves = Vec::new(alloc);
    let group = Rc::new(alloc, Node::filled(alloc, page)?)?;
    let leaf = Rc::new(alloc, Node::filled(alloc, &group)?)?;
    for _leaf in 0..count {
        leaves.push(leaf.clone()?)?;
    }
    Ok(leaves)
}

/// Makes the bytes past the size zeros. After a refusal those below it stay.
fn clear_tail<A: Allocator + Clone>(
    leaves: &mut Vec<Rc<Leaf<A>>>,
    zero: &Page<A>,
    size: usize,
) -> Result<(), AllocError>
    requires top { IsTop leaves.old.items size }
    ensures top { IsTop leaves.new.items size }
    ensures ok { OnOk result (flat leaf_bytes leaves.new.items
        ≡ take size (flat leaf_bytes leaves.old.items) ++ replicate (65536 * length leaves.old.items - size) 0) }
    ensures below { take size (flat leaf_bytes leaves.new.items) ≡ take size (flat leaf_bytes leaves.old.items) }
    ensures count { length leaves.new.items ≡ length leaves.old.items }
{
    let count = leaves.len() * 65536 - size;
    chunks::clear(leaves.as_mut_slice(), zero, size, count)
}

/// Makes the bytes past the size zeros, and adds leaves of zeros up to another size.
fn grow<A: Allocator + Clone>(
    leaves: &mut Vec<Rc<Leaf<A>>>,
    zero: &Page<A>,
    old: usize,
    size: usize,
) -> Result<(), AllocError>
    requires zero { zero.now.value ≡ replicate 256 0 }
    requires top { IsTop leaves.old.items old }
    requires whole { IsSize size }
    requires more { old < size }
    ensures ok { OnOk result (take size (flat leaf_bytes leaves.new.items)
        ≡ take old (flat leaf_bytes leaves.old.items) ++ replicate (size - old) 0) }
    ensures top { OnOk result (IsTop leaves.new.items size) }
    ensures kept { OnErr result (IsTop leaves.new.items old) }
    ensures err { OnErr result (take old (flat leaf_bytes leaves.new.items)
        ≡ take old (flat leaf_bytes leaves.old.items)) }
{
    clear_tail(leaves, zero, old)?;
    let count = leaves_for(size) - leaves.len();
    let mut more = filled_leaves(*leaves.allocator(), zero, count)?;
    leaves.append(&mut more)?;
    Ok(())
}

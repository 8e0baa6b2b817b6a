//! Memory in whole pages, its forks, and what is kept of it (Glulx 3.1.2, "The Memory Map", "Memory Map" and
//! "Game State").
//!
//! Each call is its definition of specs/Memory over one list of bytes. Sizes and addresses count
//! bytes; a size is a multiple of 256, at most `CEILING`. Calls that read and `cut` take no memory.
//!
//! A write inside one page changes that page in place, once it is memory's own. One write over several pages
//! goes to a copy of the least group, leaf or table that has them all, and a call that makes several goes to
//! another table of the same leaves; that is taken once all is written. Pages of zeros are one page (there is
//! none in memory that has no zeros to share it), and a write of what is there already inside one page leaves
//! it as shared as it was.
ghost use Rattle.std.specs.Prelude.{◌≡◌, ◌⊎◌, ℕ, true, ◌+◌, ◌-◌, ◌%◌, ◌<◌, ◌≤◌, ◌^◌, ◌++◌, length, take, drop};
ghost use Rattle.std.specs.Prelude.{replicate, IfOk, OnOk, OnErr};
ghost use Rattle.gx_words.specs.Numbers.{IsWidth, byte, half, word, number, spliced};
ghost use Rattle.gx_words.specs.Faults.{Reads};
ghost use Rattle.gx_words.specs.Constants.{ceiling};
ghost use Rattle.gx_pages.specs.Memory.{IsSize, IsInside, AreInside, HasBytes, number_in, all_spliced, resized};
ghost use Rattle.gx_pages.specs.Memory.{put_back_of};

use crate::chunk::Page;
use crate::page::{has_zero_page, page_of, zero_of, zero_page, zeros};
use crate::ranges::{add_to, copy_out, has_bytes, has_whole_page, put_each, take_over};
use crate::table::Table;
use gx_words::{Bytes, Fault, Writes, half_at, word_at};
use std::alloc::{AllocError, Allocator, Global};
use std::marker::Model;

/// The memory of a machine.
///
/// `common` is what whole pages with its bytes become: a page of zeros, but in memory that began without
/// one, until a call adds zeros to it or puts them over a whole page among others.
#[derive(Drop)]
pub struct Pages<A: Allocator> {
    table: Table<A>,
    common: Page<A>,
}

impl<A: Allocator> Model for Pages<A> {
    ghost use Rattle.std.specs.Prelude.{◌≡◌, ℕ, List, length};
    ghost use Rattle.gx_pages.specs.Memory.{IsSize};

    ghost Value = { List ℕ };

    ghost view = { λ memory. memory.table };

    ghost invariant = { λ memory. IsSize (length memory.table) × (length memory.common.value ≡ 256) };
}

/// Memory as it was when it was kept.
#[derive(Drop)]
pub struct Kept<A: Allocator> {
    table: Table<A>,
}

impl<A: Allocator> Model for Kept<A> {
    ghost use Rattle.std.specs.Prelude.{ℕ, List, length};
    ghost use Rattle.gx_pages.specs.Memory.{IsSize};

    ghost Value = { List ℕ };

    ghost view = { λ kept. kept.table };

    ghost invariant = { λ kept. IsSize (length kept.table) };
}

impl<A: Allocator> Pages<A> {
    /// How many bytes memory has.
    #[inline(always)]
    pub fn size(&self) -> u32
        ensures value { result ≡ length self.now }
        ensures whole { IsSize result }
    {
        self.table.size()
    }

    /// The bytes from `at` to the end of its page of 256 bytes: as many as one look-up gives.
    #[inline(always)]
    pub fn bytes_in_page(&self, at: u32) -> &[u8]
        requires { at < length self.now }
        ensures value { result.now ≡ take (256 - at % 256) (drop at self.now) }
        ensures len { length result.now ≡ 256 - at % 256 }
        ensures low { at < ceiling }
    {
        self.table.rest_of_page(at as usize)
    }

    /// The byte at `at`.
    #[inline(always)]
    pub fn byte(&self, at: u32) -> u32
        requires { at < length self.now }
        ensures value { result ≡ byte self.now at }
        ensures fits { result < 2 ^ 8 }
    {
        u32::from(self.bytes_in_page(at)[0])
    }

    /// The two bytes from `at` on.
    #[inline(never)]
    pub fn half(&self, at: u32) -> u32
        requires { at + 2 ≤ length self.now }
        ensures value { result ≡ half self.now at }
        ensures fits { result < 2 ^ 16 }
    {
        let bytes = self.bytes_in_page(at);
        if bytes.len() >= 2 {
            half_at(bytes, 0)
        } else {
            self.byte(at) * 0x100 + self.byte(at + 1)
        }
    }

    /// The four bytes from `at` on.
    #[inline(always)]
    pub fn word(&self, at: u32) -> u32
        requires { at + 4 ≤ length self.now }
        ensures { result ≡ word self.now at }
    {
        let bytes = self.bytes_in_page(at);
        if bytes.len() >= 4 {
            word_at(bytes, 0)
        } else {
            self.half(at) * 0x1_0000 + self.half(at + 2)
        }
    }

    /// The 1, 2 or 4 bytes from `at` on.
    #[inline(always)]
    pub fn number(&self, width: u32, at: u32) -> u32
        requires width { IsWidth width }
        requires there { at + width ≤ length self.now }
        ensures value { result ≡ number width self.now at }
        ensures fits { result < 256 ^ width }
    {
        match width {
            1 => self.byte(at),
            2 => self.half(at),
            _ => self.word(at),
        }
    }

    /// The 1, 2 or 4 bytes from `at` on; `BadAddress` where one of them isn't in memory.
    #[tactic(auto, unfolding(crate::specs::Memory::number_in))]
    #[inline(always)]
    pub fn try_number(&self, width: u32, at: u32) -> Result<u32, Fault>
        requires { IsWidth width }
        ensures value { Reads (λ v. v) result (number_in width self.now at) }
        ensures there { OnOk result (at + width ≤ length self.now) }
        ensures low { OnOk result (at + width ≤ ceiling) }
        ensures fits { IfOk result (λ v. v < 256 ^ width) }
    {
        if u64::from(at) + u64::from(width) <= u64::from(self.size()) {
            Ok(self.number(width, at))
        } else {
            Err(Fault::BadAddress)
        }
    }

    /// All bytes, as a list that is asked for once. No memory is asked for where there are none.
    pub fn bytes(&self, alloc: Global) -> Result<Bytes, AllocError>
        ensures value { IfOk result (λ bytes. bytes ≡ self.now) }
        ensures memory { OnErr result (0 < length self.now) }
    {
        let mut bytes = Bytes::with_capacity(alloc, self.size() as usize)?;
        add_to(&self.table, &mut bytes)?;
        Ok(bytes)
    }

    /// Drops the bytes from `size` on.
    pub fn cut(&mut self, size: u32)
        requires whole { IsSize size }
        requires below { size ≤ length self.old }
        ensures value { self.new ≡ take size self.old }
        ensures size { length self.new ≡ size }
    {
        self.table.cut(size);
    }
}

impl<A: Allocator + Clone> Pages<A> {
    /// Memory with these bytes, and zeros up to `size`.
    ///
    /// Each page is placed by `pages`, and the table of the pages by `alloc`. The pages of zeros are one
    /// page, which is placed only if there are any, or no pages at all.
    pub fn from_bytes(
        alloc: Global,
        pages: A,
        bytes: &[u8],
        size: u32,
    ) -> Result<Pages<A>, AllocError>
        requires whole { IsSize size }
        requires room { length bytes.now ≤ size }
        ensures value { IfOk result (λ all. all ≡ bytes.now ++ replicate (size - length bytes.now) 0) }
        ensures size { IfOk result (λ all. length all ≡ size) }
    {
        if is_full(bytes, size) {
            return Pages::of_bytes(alloc, pages, bytes);
        }
        let common = zero_page(pages)?;
        let mut table = Table::filled(alloc, &common, size)?;
        table.put(&common, 0, bytes)?;
        Ok(Pages { table, common })
    }

    /// Memory with these bytes, whose first page is what whole pages with its bytes become.
    fn of_bytes(alloc: Global, pages: A, bytes: &[u8]) -> Result<Pages<A>, AllocError>
        requires whole { IsSize (length bytes.now) }
        requires some { 0 < length bytes.now }
        ensures { IfOk result (λ all. all ≡ bytes.now) }
    {
        let common = page_of(pages, &bytes[..256])?;
        let mut table = Table::filled(alloc, &common, bytes.len() as u32)?;
        table.put(&common, 0, bytes)?;
        Ok(Pages { table, common })
    }

    /// Puts bytes over those from `at` on. An empty list of bytes may have any address.
    #[inline(always)]
    pub fn write(&mut self, at: u32, bytes: &[u8]) -> Result<(), AllocError>
        requires { IsInside at (length bytes.now) (length self.old) }
        ensures ok { OnOk result (self.new ≡ spliced self.old at bytes.now) }
        ensures err { OnErr result (self.new ≡ self.old) }
        ensures size { length self.new ≡ length self.old }
        ensures memory { OnErr result (0 < length bytes.now) }
    {
        if bytes.is_empty() {
            return Ok(());
        }
        if at as usize % 256 + bytes.len() <= 256 {
            return self.table.write(&self.common, at as usize, bytes);
        }
        self.table.write_across(&self.common, at as usize, bytes)
    }

    /// Makes each write, the first of them first.
    pub fn write_all(&mut self, writes: &Writes) -> Result<(), AllocError>
        requires { AreInside writes.now (length self.old) }
        ensures ok { OnOk result (self.new ≡ all_spliced self.old writes.now) }
        ensures err { OnErr result (self.new ≡ self.old) }
        ensures size { length self.new ≡ length self.old }
        ensures memory { OnErr result (HasBytes writes.now) }
    {
        if !has_bytes(writes.as_slice()) {
            return Ok(());
        }
        if let [one] = writes.as_slice() {
            return self.write(one.0, one.1.as_slice());
        }
        let mut table = self.table.share()?;
        put_each(&mut table, &self.common, writes.as_slice())?;
        self.table = table;
        Ok(())
    }

    /// Makes each write, the first of them first, and then one more; all of them or none.
    pub fn write_all_and(
        &mut self,
        writes: &Writes,
        at: u32,
        bytes: &[u8],
    ) -> Result<(), AllocError>
        requires writes { AreInside writes.now (length self.old) }
        requires last { IsInside at (length bytes.now) (length self.old) }
        ensures ok { OnOk result (self.new ≡ spliced (all_spliced self.old writes.now) at bytes.now) }
        ensures err { OnErr result (self.new ≡ self.old) }
        ensures size { length self.new ≡ length self.old }
        ensures memory { OnErr result (HasBytes writes.now ⊎ (0 < length bytes.now)) }
    {
        if !has_bytes(writes.as_slice()) {
            return self.write(at, bytes);
        }
        if bytes.is_empty() {
            return self.write_all(writes);
        }
        let mut table = self.table.share()?;
        put_each(&mut table, &self.common, writes.as_slice())?;
        table.put(&self.common, at as usize, bytes)?;
        self.table = table;
        Ok(())
    }

    /// Puts bytes over those from `at` on, and then others over those from `then` on; both or none.
    pub fn write_both(
        &mut self,
        at: u32,
        bytes: &[u8],
        then: u32,
        others: &[u8],
    ) -> Result<(), AllocError>
        requires first { IsInside at (length bytes.now) (length self.old) }
        requires second { IsInside then (length others.now) (length self.old) }
        ensures ok { OnOk result (self.new ≡ spliced (spliced self.old at bytes.now) then others.now) }
        ensures err { OnErr result (self.new ≡ self.old) }
        ensures size { length self.new ≡ length self.old }
        ensures memory { OnErr result ((0 < length bytes.now) ⊎ (0 < length others.now)) }
    {
        if bytes.is_empty() {
            return self.write(then, others);
        }
        if others.is_empty() {
            return self.write(at, bytes);
        }
        let mut table = self.table.share()?;
        table.put(&self.common, at as usize, bytes)?;
        table.put(&self.common, then as usize, others)?;
        self.table = table;
        Ok(())
    }

    /// Puts zeros over `count` bytes from `at` on. A `count` of 0 may have any address.
    pub fn fill_zero(&mut self, at: u32, count: u32) -> Result<(), AllocError>
        requires { IsInside at count (length self.old) }
        ensures ok { OnOk result (self.new ≡ spliced self.old at (replicate count 0)) }
        ensures err { OnErr result (self.new ≡ self.old) }
        ensures size { length self.new ≡ length self.old }
        ensures memory { OnErr result (0 < count) }
    {
        if count <= 256 {
            return self.write(at, zeros(count as usize));
        }
        let mut table = self.table.share()?;
        let common = if has_whole_page(at, count) {
            zero_of(&self.common)?
        } else {
            self.common.clone()?
        };
        table.clear(&common, at as usize, count as usize)?;
        self.table = table;
        self.common = common;
        Ok(())
    }

    /// Puts the `count` bytes from `from` on over those from `to` on; the two ranges may overlap.
    /// A `count` of 0 may have any addresses.
    pub fn copy_within(&mut self, from: u32, to: u32, count: u32) -> Result<(), AllocError>
        requires source { IsInside from count (length self.old) }
        requires target { IsInside to count (length self.old) }
        ensures ok { OnOk result (self.new ≡ spliced self.old to (take count (drop from self.old))) }
        ensures err { OnErr result (self.new ≡ self.old) }
        ensures size { length self.new ≡ length self.old }
        ensures memory { OnErr result (0 < count) }
    {
        if count == 0 {
            return Ok(());
        }
        if count <= 256 {
            let mut bytes = [0; 256];
            let bytes = &mut bytes[..count as usize];
            copy_out(&self.table, from, bytes);
            return self.write(to, bytes);
        }
        let mut bytes = Vec::from_elem(self.table.allocator(), 0, count as usize)?;
        copy_out(&self.table, from, bytes.as_mut_slice());
        self.write(to, bytes.as_slice())
    }

    /// Drops the bytes from `size` on, or adds zeros up to `size`.
    pub fn resize(&mut self, size: u32) -> Result<(), AllocError>
        requires { IsSize size }
        ensures ok { OnOk result (self.new ≡ resized self.old size) }
        ensures err { OnErr result (self.new ≡ self.old) }
        ensures size { OnOk result (length self.new ≡ size) }
        ensures memory { OnErr result (length self.old < size) }
    {
        if size <= self.size() {
            self.table.cut(size);
            return Ok(());
        }
        let zero = zero_of(&self.common)?;
        self.table.grow(&zero, size)?;
        self.common = zero;
        Ok(())
    }

    /// Memory once more, which shares all pages.
    pub fn fork(&self) -> Result<Pages<A>, AllocError>
        ensures { IfOk result (λ memory. memory ≡ self.now) }
    {
        let table = self.table.share()?;
        let common = self.common.clone()?;
        Ok(Pages { table, common })
    }

    /// Memory at this time, whatever is written later.
    pub fn keep(&self) -> Result<Kept<A>, AllocError>
        ensures value { IfOk result (λ kept. kept ≡ self.now) }
        ensures memory { OnErr result (0 < length self.now) }
    {
        Ok(Kept {
            table: self.table.share()?,
        })
    }

    /// The kept memory, but for the `skip.1` addresses from `skip.0` on, as `protect` sets them
    /// (the protected range): they have the byte that is there now.
    ///
    /// What such an address has where the present memory doesn't reach is left open by the
    /// standard. Here it is 0, which is what memory holds that is added.
    pub fn put_back(&self, kept: &Kept<A>, skip: (u32, u32)) -> Result<Pages<A>, AllocError>
        ensures value { IfOk result (λ all. all ≡ put_back_of self.now kept.now skip.0 skip.1) }
        ensures all_back { skip.1 ≡ 0 → IfOk result (λ all. all ≡ kept.now) }
        ensures size { IfOk result (λ all. length all ≡ length kept.now) }
    {
        let mut table = kept.table.share()?;
        self.keep_present(&mut table, skip)?;
        Ok(Pages {
            table,
            common: self.common.clone()?,
        })
    }

    /// Another memory, placed as this one is: these bytes and zeros up to `size`, but for the `skip.1`
    /// addresses from `skip.0` on, as `protect` sets them. They have the byte that is there now, or 0
    /// where the present memory doesn't reach. Pages that don't change stay shared with what is kept.
    pub fn begin_again(
        &self,
        bytes: &[u8],
        size: u32,
        skip: (u32, u32),
    ) -> Result<Pages<A>, AllocError>
        requires whole { IsSize size }
        requires room { length bytes.now ≤ size }
        ensures value { IfOk result (λ all. all
            ≡ put_back_of self.now (bytes.now ++ replicate (size - length bytes.now) 0) skip.0 skip.1) }
        ensures size { IfOk result (λ all. length all ≡ size) }
    {
        let common = self.common_for(bytes, size)?;
        let mut table = self.table.share()?;
        table.resize(&common, size)?;
        table.put(&common, 0, bytes)?;
        table.clear(&common, bytes.len(), size as usize - bytes.len())?;
        self.keep_present(&mut table, skip)?;
        Ok(Pages { table, common })
    }

    /// What whole pages become in another memory, with these bytes and zeros up to `size`: a page of zeros if
    /// there are any, or pages are added.
    fn common_for(&self, bytes: &[u8], size: u32) -> Result<Page<A>, AllocError>
        ensures zero { length self.now < size → IfOk result (λ page. page.value ≡ replicate 256 0) }
        ensures size { IfOk result (λ page. length page.value ≡ 256) }
    {
        if size <= self.size() && is_full(bytes, size) {
            return Ok(self.common.clone()?);
        }
        zero_of(&self.common)
    }

    /// Gives another table the bytes that are there now at `skip.1` addresses from `skip.0` on, and 0 where memory
    /// doesn't reach.
    fn keep_present(&self, table: &mut Table<A>, skip: (u32, u32)) -> Result<(), AllocError>
        ensures value { OnOk result (table.new ≡ put_back_of self.now table.old skip.0 skip.1) }
        ensures all_back { skip.1 ≡ 0 → OnOk result (table.new ≡ table.old) }
        ensures size { length table.new ≡ length table.old }
    {
        let from = skip.0 as usize;
        let end = (from + skip.1 as usize).min(table.size() as usize);
        if end <= from {
            return Ok(());
        }
        let there = end.min(self.table.size() as usize).max(from);
        take_over(table, &self.common, &self.table, from, there)?;
        table.clear(&self.common, there, end - there)
    }
}

/// Whether there are bytes, they reach to `size`, and no whole page of them is zeros.
fn is_full(bytes: &[u8], size: u32) -> bool
    ensures reach { result ≡ true → length bytes.now ≡ size }
    ensures some { result ≡ true → 0 < length bytes.now }
{
    !bytes.is_empty() && bytes.len() == size as usize && !has_zero_page(bytes)
}

//! Memory over a pool of pages: what is shared until it is changed.
use crate::wanted::compare_number;
use anyhow::{Result, bail, ensure};
use gx_pages::{Kept, Pages};
use gx_pool::PagePool;
use std::alloc::Global;

/// How many times the largest memory is kept and dropped.
const TIMES: u32 = 200_000;

/// Writes where memory reaches.
fn write(pages: &mut Pages<&PagePool>, at: u32, bytes: &[u8]) -> Result<()> {
    let end = u64::from(at).saturating_add(bytes.len() as u64);
    if end > u64::from(pages.size()) {
        bail!("a write past the end");
    }
    pages.write(at, bytes)?;
    Ok(())
}

/// Eight pages, each full of its number from 1 on.
fn eight_pages() -> [u8; 2048] {
    let mut bytes = [0; 2048];
    for (byte, at) in bytes.iter_mut().zip(0u32..) {
        *byte = (at / 256 % 8 + 1) as u8;
    }
    bytes
}

/// How many pages are out has to be this.
pub fn expect_out(pool: &PagePool, wanted: usize) -> Result<()> {
    compare_number("pages that are out", wanted as u64, pool.out() as u64)
}

/// Eight pages with different bytes, a copy of them, and a write while it is kept.
pub fn shares_pages(alloc: Global) -> Result<()> {
    let pool = PagePool::new(alloc, 65);
    let mut pages = Pages::from_bytes(alloc, &pool, &eight_pages(), 2048)?;
    expect_out(&pool, 8)?;
    let kept = pages.keep()?;
    let back = written_and_back(&pool, &mut pages, &kept)?;
    drop(pages);
    compare_back(&pool, &back)?;
    drop(kept);
    drop(back);
    expect_out(&pool, 0)
}

/// Writes a byte, which takes a page, and goes back to a copy, which takes none.
fn written_and_back<'p>(
    pool: &'p PagePool,
    pages: &mut Pages<&'p PagePool>,
    kept: &Kept<&'p PagePool>,
) -> Result<Pages<&'p PagePool>> {
    expect_out(pool, 8)?;
    write(pages, 0x123, &[0xFF])?;
    expect_out(pool, 9)?;
    Ok(pages.put_back(kept, (0, 0))?)
}

/// The old byte is back, and the page that was written is let go of.
fn compare_back(pool: &PagePool, back: &Pages<&PagePool>) -> Result<()> {
    ensure!(
        back.try_number(1, 0x123) == Ok(2),
        "shares_pages: the old byte isn't back"
    );
    expect_out(pool, 8)
}

/// Copies of the largest memory, which is all zero but for one page.
pub fn keeps_huge_memory(alloc: Global) -> Result<()> {
    let pool = PagePool::new(alloc, 65);
    let mut pages = Pages::from_bytes(alloc, &pool, &[], 0x0400_0000)?;
    keep_often(&mut pages)
}

fn keep_often(pages: &mut Pages<&PagePool>) -> Result<()> {
    for _ in 0..TIMES {
        keep_and_write(pages)?;
    }
    let kept = pages.keep()?;
    compare_kept(pages, &kept)
}

/// Writes while a copy is kept.
fn keep_and_write(pages: &mut Pages<&PagePool>) -> Result<()> {
    let _kept = pages.keep()?; // it is there until the end of the call
    write(pages, 0x100, &[1])
}

/// Writes two bytes, and goes back to a copy but for the second one.
fn compare_kept<'p>(pages: &mut Pages<&'p PagePool>, kept: &Kept<&'p PagePool>) -> Result<()> {
    write(pages, 0, &[1])?;
    write(pages, 0x03FF_FFFF, &[2])?;
    let back = pages.put_back(kept, (0x03FF_FFFF, 1))?;
    let there = (
        back.try_number(1, 0),
        back.try_number(1, 0x100),
        back.try_number(1, 0x03FF_FFFF),
    );
    ensure!(
        there == (Ok(0), Ok(1), Ok(2)),
        "keeps_huge_memory: other bytes are back"
    );
    Ok(())
}

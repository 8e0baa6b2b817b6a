//! What a pool counts and refuses. No contract sees its count, since it counts through a shared reference.
use anyhow::{Result, ensure};
use gx_pool::{PagePool, Pool};
use std::alloc::Global;

/// The blocks that are out of a pool of 65: where it is full, where one has come back, and where one more was taken;
/// and whether it refused one where it was full.
fn counted(alloc: Global, pool: &PagePool) -> Result<(usize, usize, usize, bool)> {
    let mut blocks = Vec::new(alloc);
    for n in 0..65u32 {
        blocks.push(Box::new(pool, n)?)?;
    }
    let full = pool.out();
    let refused = Box::new(pool, 65u32).is_err();
    drop(blocks.pop());
    let fewer = pool.out();
    blocks.push(Box::new(pool, 66u32)?)?;
    Ok((full, fewer, pool.out(), refused))
}

/// A pool that is full refuses a block, until one has come back.
pub fn counts(alloc: Global) -> Result<()> {
    let pool = PagePool::new(alloc, 65);
    let counts = counted(alloc, &pool)?;
    ensure!(counts == (65, 64, 65, true), "a full pool counts otherwise");
    ensure!(pool.out() == 0, "a block that has come back counts");
    Ok(())
}

/// How many blocks are out where the largest one is, whether a larger one is refused, and the last byte of the largest.
fn largest(pool: &PagePool) -> Result<(usize, bool, u8)> {
    let block = Box::new(pool, [7u8; 320])?;
    let refused = Box::new(pool, [7u8; 321]).is_err();
    Ok((pool.out(), refused, block[319]))
}

/// A block of 320 bytes is handed out, also where it is aligned by 16, and one of 321 is not.
pub fn large_blocks(alloc: Global) -> Result<()> {
    let pool = PagePool::new(alloc, 9);
    ensure!(largest(&pool)? == (1, true, 7), "the largest block");
    ensure!(
        Box::new(&pool, [7u128; 20]).is_ok(),
        "a block aligned by 16"
    );
    ensure!(pool.out() == 0, "a block that was refused counts");
    Ok(())
}

/// Whether a second block is refused by a pool over one that has one block, and how many are then out of each.
fn refused_below(below: &PagePool, pool: &Pool<&PagePool>) -> Result<(bool, usize, usize)> {
    let _block = Box::new(pool, 7u32)?; // it is out until the end of the call
    let refused = Box::new(pool, 8u32).is_err();
    Ok((refused, pool.out(), below.out()))
}

/// A block that the allocator below refuses isn't counted.
pub fn refusal_below(alloc: Global) -> Result<()> {
    let below = PagePool::new(alloc, 1);
    let pool = Pool::new(&below, 2);
    ensure!(
        refused_below(&below, &pool)? == (true, 1, 1),
        "a refusal below counts"
    );
    ensure!(
        (pool.out(), below.out()) == (0, 0),
        "a block that has come back counts"
    );
    Ok(())
}

//! Reads and writes of a table over several leaves or pages, one after another.
//!
//! A call that is refused may have written a part: a caller that has to leave memory as it was
//! writes to another table of the same leaves, and takes that once all is written.
ghost use Rattle.std.specs.Prelude.{◌≡◌, ℕ, List, true, false, ◌%◌, ◌+◌, ◌-◌, ◌<◌, ◌≤◌, ◌++◌, length, take, drop, OnOk};
ghost use Rattle.std.specs.Prelude.{OnErr};
ghost use Rattle.gx_words.specs.Numbers.{spliced};
ghost use Rattle.gx_pages.specs.Memory.{IsInside, AreInside, HasBytes, all_spliced};

use crate::chunk::{Page, in_one_page};
use crate::table::Table;
use gx_words::{Bytes, splice};
use std::alloc::{AllocError, Allocator};

/// Makes each write, the first of them first.
pub fn put_each<A: Allocator + Clone>(
    table: &mut Table<A>,
    common: &Page<A>,
    writes: &[(u32, Bytes)],
) -> Result<(), AllocError>
    requires inside { AreInside writes.now (length table.old) }
    ensures ok { OnOk result (table.new ≡ all_spliced table.old writes.now) }
    ensures size { length table.new ≡ length table.old }
{
    for write in writes {
        table.put(common, write.0 as usize, write.1.as_slice())?;
    }
    Ok(())
}

/// Whether a whole page lies in the `count` bytes from `at` on.
pub fn has_whole_page(at: u32, count: u32) -> bool {
    let before = (256 - at % 256) % 256;
    count >= before + 256
}

/// Takes the bytes of another table from `from` up to `end`: whole pages by sharing them, and what is left at
/// both ends by writing it.
pub fn take_over<A: Allocator + Clone>(
    table: &mut Table<A>,
    common: &Page<A>,
    other: &Table<A>,
    from: usize,
    end: usize,
) -> Result<(), AllocError>
    requires order { from ≤ end }
    requires inside { end ≤ length table.old }
    requires there { from < end → end ≤ length other.now }
    ensures ok { OnOk result (table.new ≡ spliced table.old from (take (end - from) (drop from other.now))) }
    ensures size { length table.new ≡ length table.old }
{
    let mut at = from;
    while at < end {
        let next = at + whole_pages_or_less(at, end - at);
        take_piece(table, common, other, at, next)?;
        at = next;
    }
    Ok(())
}

/// How many of `count` bytes from `at` on lie in whole pages, or in the page of the first if that isn't whole.
fn whole_pages_or_less(at: usize, count: usize) -> usize
    requires { 0 < count }
    ensures some { 0 < result }
    ensures within { result ≤ count }
    ensures page { result < 256 → at % 256 + result ≤ 256 }
{
    if at % 256 == 0 && count >= 256 {
        return count - count % 256;
    }
    in_one_page(at, count)
}

/// Takes the bytes of another table from `from` up to `end`, which are whole pages or lie in one page.
fn take_piece<A: Allocator + Clone>(
    table: &mut Table<A>,
    common: &Page<A>,
    other: &Table<A>,
    from: usize,
    end: usize,
) -> Result<(), AllocError>
    requires some { from < end }
    requires page { end < from + 256 → from % 256 + (end - from) ≤ 256 }
    requires inside { end ≤ length table.old }
    requires there { end ≤ length other.now }
    ensures ok { OnOk result (table.new ≡ spliced table.old from (take (end - from) (drop from other.now))) }
    ensures size { length table.new ≡ length table.old }
{
    let count = end - from;
    if count < 256 {
        return table.write(common, from, &other.rest_of_page(from)[..count]);
    }
    table.take_from(other, from, end)
}

/// Adds all bytes to a list. After a refusal a part of them may be there.
pub fn add_to<A: Allocator>(table: &Table<A>, bytes: &mut Bytes) -> Result<(), AllocError>
    ensures ok { OnOk result (bytes.new ≡ bytes.old ++ table.now) }
    ensures memory { OnErr result (0 < length table.now) }
{
    let size = table.size() as usize;
    let mut done = 0;
    while done < size {
        bytes.extend_from_slice(table.rest_of_page(done))?;
        done += 256;
    }
    Ok(())
}

/// Fills a slice with the bytes from `from` on.
pub fn copy_out<A: Allocator>(table: &Table<A>, from: u32, to: &mut [u8])
    requires { IsInside from (length to.old) (length table.now) }
    ensures { to.new ≡ take (length to.old) (drop from table.now) }
{
    let mut done = 0;
    while done < to.len() {
        let place = from as usize + done;
        let count = in_one_page(place, to.len() - done);
        splice(to, done, &table.rest_of_page(place)[..count]);
        done += count;
    }
}

/// Whether some write has a byte. Where none has, the writes change nothing.
pub fn has_bytes(writes: &[(u32, Bytes)]) -> bool
    ensures some { result ≡ true → HasBytes writes.now }
    ensures none { result ≡ false → (memory : List ℕ) → all_spliced memory writes.now ≡ memory }
{
    for write in writes {
        if write.1.len() > 0 {
            return true;
        }
    }
    false
}

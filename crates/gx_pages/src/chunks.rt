//! Chunks in order, as those of a node or of memory.
//!
//! Contracts see them as one list of bytes. A call that is refused leaves the chunks whole, and where it
//! doesn't say that their bytes stay, a part may be written.
ghost use Rattle.std.specs.Prelude.{◌≡◌, ℕ, ◌+◌, ◌*◌, ◌-◌, ◌/◌, ◌%◌, ◌<◌, ◌≤◌, length, take, drop, slice_index_or};
ghost use Rattle.std.specs.Prelude.{replicate, IfOk, OnOk, OnErr};
ghost use Rattle.std.specs.declared.rc.Rc.{Rc};
ghost use Rattle.gx_words.specs.Constants.{ceiling};
ghost use Rattle.gx_words.specs.Numbers.{spliced};
ghost use Rattle.gx_pages.specs.Memory.{IsInside};
ghost use Rattle.gx_pages.specs.Chunks.{AllWhole, flat};

use crate::chunk::{
    Chunk, Page, Writable, in_one_page, take_in, write_across_in, write_over_edge_in,
    write_pair_in, write_to,
};
use crate::page::zeros;
use std::alloc::{AllocError, Allocator, Global};
use std::rc::Rc;

/// 16 owners of one value.
pub fn owners<T: Drop, P: Allocator>(
    alloc: Global,
    one: &Rc<T, P>,
) -> Result<[Rc<T, P>; 16], AllocError>
    ensures count { IfOk result (λ all. length all ≡ 16) }
    ensures same { IfOk result (λ all. (k : ℕ) (d : Rc T P) → k < 16 → (slice_index_or all k d).value ≡ one.now.value) }
{
    let all = Vec::from_elem(alloc, one.clone()?, 16)?;
    match <[Rc<T, P>; 16]>::try_from(all) {
        Ok(all) => Ok(all),
        Err(_) => unreachable!(),
    }
}

/// The bytes from `at` to the end of its page.
#[inline(always)]
pub fn rest_of_page<P: Allocator, C: Chunk>(chunks: &[Rc<C, P>], at: usize) -> &[u8]
    requires whole { AllWhole C.IsWhole chunks.now }
    requires inside { at < C.SIZE * length chunks.now }
    ensures { result.now ≡ take (256 - at % 256) (drop at (flat C.bytes_of chunks.now)) }
{
    chunks[at / C::SIZE].rest_of_page(at % C::SIZE)
}

/// Puts bytes over those from `at` on in one page, as `Writable::write`.
#[inline(always)]
pub fn write<A: Allocator, P: Allocator + Clone, C: Writable<A, P>>(
    chunks: &mut [Rc<C, P>],
    common: &Page<A>,
    at: usize,
    bytes: &[u8],
) -> Result<(), AllocError>
    requires whole { AllWhole C.IsWhole chunks.old }
    requires inside { at < C.SIZE * length chunks.old }
    requires page { at % 256 + length bytes.now ≤ 256 }
    ensures whole { AllWhole C.IsWhole chunks.new }
    ensures ok { OnOk result (flat C.bytes_of chunks.new ≡ spliced (flat C.bytes_of chunks.old) at bytes.now) }
    ensures err { OnErr result (flat C.bytes_of chunks.new ≡ flat C.bytes_of chunks.old) }
    ensures count { length chunks.new ≡ length chunks.old }
{
    write_to(&mut chunks[at / C::SIZE], common, at % C::SIZE, bytes)
}

/// Puts bytes over those from `at` on in one chunk, as `Writable::write_across`.
pub fn write_in_one<A: Allocator, P: Allocator + Clone, C: Writable<A, P>>(
    chunks: &mut [Rc<C, P>],
    common: &Page<A>,
    at: usize,
    bytes: &[u8],
) -> Result<(), AllocError>
    requires whole { AllWhole C.IsWhole chunks.old }
    requires inside { at < C.SIZE * length chunks.old }
    requires chunk { at % C.SIZE + length bytes.now ≤ C.SIZE }
    requires some { 0 < length bytes.now }
    ensures whole { AllWhole C.IsWhole chunks.new }
    ensures ok { OnOk result (flat C.bytes_of chunks.new ≡ spliced (flat C.bytes_of chunks.old) at bytes.now) }
    ensures err { OnErr result (flat C.bytes_of chunks.new ≡ flat C.bytes_of chunks.old) }
    ensures count { length chunks.new ≡ length chunks.old }
{
    write_across_in(&mut chunks[at / C::SIZE], common, at % C::SIZE, bytes)
}

/// Puts bytes over those from `at` on, as `Writable::write_over_edge`.
pub fn write_over_edge<A: Allocator, P: Allocator + Clone, C: Writable<A, P>>(
    chunks: &mut [Rc<C, P>],
    at: usize,
    bytes: &[u8],
) -> Result<(), AllocError>
    requires whole { AllWhole C.IsWhole chunks.old }
    requires small { C.SIZE * length chunks.old ≤ ceiling }
    requires inside { at + length bytes.now ≤ C.SIZE * length chunks.old }
    requires few { length bytes.now ≤ 256 }
    requires some { 0 < length bytes.now }
    ensures whole { AllWhole C.IsWhole chunks.new }
    ensures ok { OnOk result (flat C.bytes_of chunks.new ≡ spliced (flat C.bytes_of chunks.old) at bytes.now) }
    ensures err { OnErr result (flat C.bytes_of chunks.new ≡ flat C.bytes_of chunks.old) }
    ensures count { length chunks.new ≡ length chunks.old }
{
    if at % C::SIZE + bytes.len() <= C::SIZE {
        return write_edge_in_one(chunks, at, bytes);
    }
    write_edge_of_two(chunks, at, bytes)
}

/// The same in one chunk.
fn write_edge_in_one<A: Allocator, P: Allocator + Clone, C: Writable<A, P>>(
    chunks: &mut [Rc<C, P>],
    at: usize,
    bytes: &[u8],
) -> Result<(), AllocError>
    requires whole { AllWhole C.IsWhole chunks.old }
    requires inside { at < C.SIZE * length chunks.old }
    requires chunk { at % C.SIZE + length bytes.now ≤ C.SIZE }
    requires few { length bytes.now ≤ 256 }
    requires some { 0 < length bytes.now }
    ensures whole { AllWhole C.IsWhole chunks.new }
    ensures ok { OnOk result (flat C.bytes_of chunks.new ≡ spliced (flat C.bytes_of chunks.old) at bytes.now) }
    ensures err { OnErr result (flat C.bytes_of chunks.new ≡ flat C.bytes_of chunks.old) }
    ensures count { length chunks.new ≡ length chunks.old }
{
    write_over_edge_in(&mut chunks[at / C::SIZE], at % C::SIZE, bytes)
}

/// The same at the end of one chunk and the start of the next.
fn write_edge_of_two<A: Allocator, P: Allocator + Clone, C: Writable<A, P>>(
    chunks: &mut [Rc<C, P>],
    at: usize,
    bytes: &[u8],
) -> Result<(), AllocError>
    requires whole { AllWhole C.IsWhole chunks.old }
    requires small { C.SIZE * length chunks.old ≤ ceiling }
    requires inside { at + length bytes.now ≤ C.SIZE * length chunks.old }
    requires edge { C.SIZE < at % C.SIZE + length bytes.now }
    requires few { length bytes.now ≤ 256 }
    ensures whole { AllWhole C.IsWhole chunks.new }
    ensures ok { OnOk result (flat C.bytes_of chunks.new ≡ spliced (flat C.bytes_of chunks.old) at bytes.now) }
    ensures err { OnErr result (flat C.bytes_of chunks.new ≡ flat C.bytes_of chunks.old) }
    ensures count { length chunks.new ≡ length chunks.old }
{
    let index = at / C::SIZE;
    let (end, start) = bytes.split_at(C::SIZE - at % C::SIZE);
    let (firsts, nexts) = chunks.split_at_mut(index + 1);
    write_pair_in(&mut firsts[index], &mut nexts[0], end, start)
}

/// Takes the bytes of other chunks from `from` up to `end` in one chunk, as `Writable::take_from`.
fn take_in_one<A: Allocator, P: Allocator + Clone, C: Writable<A, P>>(
    chunks: &mut [Rc<C, P>],
    others: &[Rc<C, P>],
    at: usize,
    count: usize,
) -> Result<(), AllocError>
    requires whole { AllWhole C.IsWhole chunks.old }
    requires others { AllWhole C.IsWhole others.now }
    requires inside { at < C.SIZE * length chunks.old }
    requires there { at < C.SIZE * length others.now }
    requires chunk { at % C.SIZE + count ≤ C.SIZE }
    ensures whole { AllWhole C.IsWhole chunks.new }
    ensures ok { OnOk result (flat C.bytes_of chunks.new
        ≡ spliced (flat C.bytes_of chunks.old) at (take count (drop at (flat C.bytes_of others.now)))) }
    ensures count { length chunks.new ≡ length chunks.old }
{
    let place = at % C::SIZE;
    take_in(
        &mut chunks[at / C::SIZE],
        &others[at / C::SIZE],
        place,
        place + count,
    )
}

/// Puts bytes over those from `at` on, page by page.
pub fn put<A: Allocator, P: Allocator + Clone, C: Writable<A, P>>(
    chunks: &mut [Rc<C, P>],
    common: &Page<A>,
    at: usize,
    bytes: &[u8],
) -> Result<(), AllocError>
    requires whole { AllWhole C.IsWhole chunks.old }
    requires small { C.SIZE * length chunks.old ≤ ceiling }
    requires inside { IsInside at (length bytes.now) (C.SIZE * length chunks.old) }
    ensures whole { AllWhole C.IsWhole chunks.new }
    ensures ok { OnOk result (flat C.bytes_of chunks.new ≡ spliced (flat C.bytes_of chunks.old) at bytes.now) }
    ensures count { length chunks.new ≡ length chunks.old }
{
    let mut done = 0;
    while done < bytes.len() {
        let place = at + done;
        let count = in_one_page(place, bytes.len() - done);
        write(chunks, common, place, &bytes[done..done + count])?;
        done += count;
    }
    Ok(())
}

/// Puts zeros over `count` bytes from `at` on, page by page. The bytes before `at` stay after a refusal too.
pub fn clear<A: Allocator, P: Allocator + Clone, C: Writable<A, P>>(
    chunks: &mut [Rc<C, P>],
    common: &Page<A>,
    at: usize,
    count: usize,
) -> Result<(), AllocError>
    requires whole { AllWhole C.IsWhole chunks.old }
    requires small { C.SIZE * length chunks.old ≤ ceiling }
    requires inside { at + count ≤ C.SIZE * length chunks.old }
    ensures whole { AllWhole C.IsWhole chunks.new }
    ensures ok { OnOk result
        (flat C.bytes_of chunks.new ≡ spliced (flat C.bytes_of chunks.old) at (replicate count 0)) }
    ensures before { take at (flat C.bytes_of chunks.new) ≡ take at (flat C.bytes_of chunks.old) }
    ensures count { length chunks.new ≡ length chunks.old }
{
    let mut done = 0;
    while done < count {
        let place = at + done;
        let piece = in_one_page(place, count - done);
        write(chunks, common, place, zeros(piece))?;
        done += piece;
    }
    Ok(())
}

/// Takes the bytes of other chunks from `from` up to `end`, chunk by chunk, as `Writable::take_from`.
pub fn take_from<A: Allocator, P: Allocator + Clone, C: Writable<A, P>>(
    chunks: &mut [Rc<C, P>],
    others: &[Rc<C, P>],
    from: usize,
    end: usize,
) -> Result<(), AllocError>
    requires whole { AllWhole C.IsWhole chunks.old }
    requires others { AllWhole C.IsWhole others.now }
    requires order { from ≤ end }
    requires inside { end ≤ C.SIZE * length chunks.old }
    requires there { end ≤ C.SIZE * length others.now }
    ensures whole { AllWhole C.IsWhole chunks.new }
    ensures ok { OnOk result (flat C.bytes_of chunks.new
        ≡ spliced (flat C.bytes_of chunks.old) from (take (end - from) (drop from (flat C.bytes_of others.now)))) }
    ensures count { length chunks.new ≡ length chunks.old }
{
    let mut at = from;
    while at < end {
        let count = (C::SIZE - at % C::SIZE).min(end - at);
        take_in_one(chunks, others, at, count)?;
        at += count;
    }
    Ok(())
}

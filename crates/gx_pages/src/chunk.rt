//! A chunk of memory, which is shared until a page of it is written to.
//!
//! A page is a chunk, and so is a node of chunks. Contracts see a chunk by its bytes. What is said here of
//! a handle to a chunk is proved once, for every chunk.
ghost use Rattle.std.specs.Prelude.{◌≡◌, ℕ, List, true, ◌+◌, ◌-◌, ◌%◌, ◌<◌, ◌≤◌, length, take, drop, IfSome, OnOk};
ghost use Rattle.std.specs.Prelude.{OnErr};
ghost use Rattle.gx_words.specs.Numbers.{spliced};

use std::alloc::{AllocError, Allocator};
use std::rc::Rc;

/// A page.
pub type Page<A> = Rc<[u8; 256], A>;

/// A chunk.
pub trait Chunk: Drop {
    ghost use Rattle.std.specs.Prelude.{ℕ, List, ◌≡◌, ◌%◌, ◌<◌, length};

    /// How many bytes it has.
    const SIZE: usize;

    ghost SIZE: { ℕ };

    ghost bytes_of: { Self → List ℕ };

    ghost IsWhole: { Self → Type 0 };

    /// The bytes from `at` to the end of its page.
    fn rest_of_page(&self, at: usize) -> &[u8]
        requires whole { IsWhole self.now }
        requires inside { at < SIZE }
        ensures { result.now ≡ take (256 - at % 256) (drop at (bytes_of self.now)) };

    ghost pages: { SIZE % 256 ≡ 0 };

    ghost some: { 0 < SIZE };

    ghost sized: { (x : Self) → IsWhole x → length (bytes_of x) ≡ SIZE };
}

/// A chunk that a node may have 16 of.
pub trait Child: Chunk {
    ghost use Rattle.std.specs.Prelude.{◌≤◌};

    ghost small: { Self.SIZE ≤ 4096 };
}

/// A chunk that is written to. Its pages are placed by `A`, and it is placed itself by `P`.
pub trait Writable<A: Allocator, P: Allocator>: Chunk + Clone {
    ghost use Rattle.std.specs.Prelude.{◌≡◌};

    /// What becomes a chunk that gets these bytes: `common`, if that is such a chunk and has them all.
    fn common<'a>(common: &'a Page<A>, bytes: &[u8]) -> Option<&'a Rc<Self, P>>
        ensures same { IfSome result (λ chunk. Self.bytes_of chunk.now.value ≡ bytes.now) }
        ensures whole { IfSome result (λ chunk. Self.IsWhole chunk.now.value) };

    /// Puts bytes over those from `at` on in one page. A whole page that has the bytes of `common` then
    /// becomes `common`, and a shared page that has the bytes already stays.
    fn write(&mut self, common: &Page<A>, at: usize, bytes: &[u8]) -> Result<(), AllocError>
        requires whole { Self.IsWhole self.old }
        requires inside { at < Self.SIZE }
        requires page { at % 256 + length bytes.now ≤ 256 }
        ensures whole { Self.IsWhole self.new }
        ensures ok { OnOk result (Self.bytes_of self.new ≡ spliced (Self.bytes_of self.old) at bytes.now) }
        ensures err { OnErr result (Self.bytes_of self.new ≡ Self.bytes_of self.old) };

    /// Puts bytes over those from `at` on, which may be several pages'. The least chunk that has them all is
    /// copied, and the copy taken once all is written.
    fn write_across(&mut self, common: &Page<A>, at: usize, bytes: &[u8]) -> Result<(), AllocError>
        requires whole { Self.IsWhole self.old }
        requires inside { at + length bytes.now ≤ Self.SIZE }
        requires some { 0 < length bytes.now }
        ensures whole { Self.IsWhole self.new }
        ensures ok { OnOk result (Self.bytes_of self.new ≡ spliced (Self.bytes_of self.old) at bytes.now) }
        ensures err { OnErr result (Self.bytes_of self.new ≡ Self.bytes_of self.old) };

    /// Puts bytes over the last ones of a chunk, and others over the first ones of the next; all or none.
    fn write_pair(
        first: &mut Self,
        next: &mut Self,
        end: &[u8],
        start: &[u8],
    ) -> Result<(), AllocError>
        requires first { Self.IsWhole first.old }
        requires next { Self.IsWhole next.old }
        requires end { length end.now ≤ 256 }
        requires start { length start.now ≤ 256 }
        ensures first { Self.IsWhole first.new }
        ensures next { Self.IsWhole next.new }
        ensures end { OnOk result (Self.bytes_of first.new
            ≡ spliced (Self.bytes_of first.old) (Self.SIZE - length end.now) end.now) }
        ensures start { OnOk result (Self.bytes_of next.new ≡ spliced (Self.bytes_of next.old) 0 start.now) }
        ensures first_stays { OnErr result (Self.bytes_of first.new ≡ Self.bytes_of first.old) }
        ensures next_stays { OnErr result (Self.bytes_of next.new ≡ Self.bytes_of next.old) };

    /// Puts at most 256 bytes over those from `at` on, which lie in one page or in two. What is shared of these
    /// and of the chunks on the way to them becomes the chunk's own first, and nothing else is copied.
    fn write_over_edge(&mut self, at: usize, bytes: &[u8]) -> Result<(), AllocError>
        requires whole { Self.IsWhole self.old }
        requires inside { at + length bytes.now ≤ Self.SIZE }
        requires few { length bytes.now ≤ 256 }
        requires some { 0 < length bytes.now }
        ensures whole { Self.IsWhole self.new }
        ensures ok { OnOk result (Self.bytes_of self.new ≡ spliced (Self.bytes_of self.old) at bytes.now) }
        ensures err { OnErr result (Self.bytes_of self.new ≡ Self.bytes_of self.old) };

    /// Takes the bytes of another chunk from `from` up to `end`, and shares the chunks that lie between.
    /// After a refusal a part of them may be taken.
    fn take_from(&mut self, other: &Self, from: usize, end: usize) -> Result<(), AllocError>
        requires whole { Self.IsWhole self.old }
        requires other { Self.IsWhole other.now }
        requires order { from ≤ end }
        requires inside { end ≤ Self.SIZE }
        ensures whole { Self.IsWhole self.new }
        ensures ok { OnOk result (Self.bytes_of self.new
            ≡ spliced (Self.bytes_of self.old) from (take (end - from) (drop from (Self.bytes_of other.now)))) };

    ghost same_copied: { (x y : Self) → Self.is_clone x y → Self.bytes_of y ≡ Self.bytes_of x };

    ghost whole_copied: { (x y : Self) → Self.is_clone x y → Self.IsWhole x → Self.IsWhole y };
}

/// How many of `count` bytes from `at` on lie in the page of the first.
pub fn in_one_page(at: usize, count: usize) -> usize
    requires { 0 < count }
    ensures some { 0 < result }
    ensures within { result ≤ count }
    ensures page { at % 256 + result ≤ 256 }
{
    (256 - at % 256).min(count)
}

/// Whether what is there begins with these bytes, so that they may as well be written.
pub fn begins(there: &[u8], bytes: &[u8]) -> bool
    requires { length bytes.now ≤ length there.now }
    ensures { result ≡ true → (all : List ℕ) (at k : ℕ) → there.now ≡ take k (drop at all)
        → all ≡ spliced all at bytes.now }
{
    &there[..bytes.len()] == bytes
}

/// Puts bytes over those from `at` on in one page, as `Writable::write`, once the chunk is its owner's own.
#[inline(always)]
pub fn write_to<A: Allocator, P: Allocator + Clone, C: Writable<A, P>>(
    chunk: &mut Rc<C, P>,
    common: &Page<A>,
    at: usize,
    bytes: &[u8],
) -> Result<(), AllocError>
    requires whole { C.IsWhole chunk.old.value }
    requires inside { at < C.SIZE }
    requires page { at % 256 + length bytes.now ≤ 256 }
    ensures whole { C.IsWhole chunk.new.value }
    ensures ok { OnOk result (C.bytes_of chunk.new.value ≡ spliced (C.bytes_of chunk.old.value) at bytes.now) }
    ensures err { OnErr result (C.bytes_of chunk.new.value ≡ C.bytes_of chunk.old.value) }
{
    if let Some(all) = C::common(common, bytes) {
        *chunk = all.clone()?;
        return Ok(());
    }
    match Rc::get_mut(chunk) {
        Some(own) => own.write(common, at, bytes),
        None => write_shared(chunk, common, at, bytes),
    }
}

/// The same in a chunk that has another owner: it stays where it has the bytes already.
#[inline(never)]
fn write_shared<A: Allocator, P: Allocator + Clone, C: Writable<A, P>>(
    chunk: &mut Rc<C, P>,
    common: &Page<A>,
    at: usize,
    bytes: &[u8],
) -> Result<(), AllocError>
    requires whole { C.IsWhole chunk.old.value }
    requires inside { at < C.SIZE }
    requires page { at % 256 + length bytes.now ≤ 256 }
    ensures whole { C.IsWhole chunk.new.value }
    ensures ok { OnOk result (C.bytes_of chunk.new.value ≡ spliced (C.bytes_of chunk.old.value) at bytes.now) }
    ensures err { OnErr result (C.bytes_of chunk.new.value ≡ C.bytes_of chunk.old.value) }
{
    if begins(chunk.rest_of_page(at), bytes) {
        return Ok(());
    }
    let own = Rc::make_mut(chunk)?;
    own.write(common, at, bytes)
}

/// Puts bytes over those from `at` on, as `Writable::write_across`, once the chunk is its owner's own.
pub fn write_across_in<A: Allocator, P: Allocator + Clone, C: Writable<A, P>>(
    chunk: &mut Rc<C, P>,
    common: &Page<A>,
    at: usize,
    bytes: &[u8],
) -> Result<(), AllocError>
    requires whole { C.IsWhole chunk.old.value }
    requires inside { at + length bytes.now ≤ C.SIZE }
    requires some { 0 < length bytes.now }
    ensures whole { C.IsWhole chunk.new.value }
    ensures ok { OnOk result (C.bytes_of chunk.new.value ≡ spliced (C.bytes_of chunk.old.value) at bytes.now) }
    ensures err { OnErr result (C.bytes_of chunk.new.value ≡ C.bytes_of chunk.old.value) }
{
    let own = Rc::make_mut(chunk)?;
    own.write_across(common, at, bytes)
}

/// Puts bytes over the last ones of a chunk and others over the first ones of the next, as
/// `Writable::write_pair`, once both are their owner's own.
pub fn write_pair_in<A: Allocator, P: Allocator + Clone, C: Writable<A, P>>(
    first: &mut Rc<C, P>,
    next: &mut Rc<C, P>,
    end: &[u8],
    start: &[u8],
) -> Result<(), AllocError>
    requires first { C.IsWhole first.old.value }
    requires next { C.IsWhole next.old.value }
    requires end { length end.now ≤ 256 }
    requires start { length start.now ≤ 256 }
    ensures first { C.IsWhole first.new.value }
    ensures next { C.IsWhole next.new.value }
    ensures end { OnOk result (C.bytes_of first.new.value
        ≡ spliced (C.bytes_of first.old.value) (C.SIZE - length end.now) end.now) }
    ensures start { OnOk result (C.bytes_of next.new.value ≡ spliced (C.bytes_of next.old.value) 0 start.now) }
    ensures first_stays { OnErr result (C.bytes_of first.new.value ≡ C.bytes_of first.old.value) }
    ensures next_stays { OnErr result (C.bytes_of next.new.value ≡ C.bytes_of next.old.value) }
{
    let first = Rc::make_mut(first)?;
    let next = Rc::make_mut(next)?;
    C::write_pair(first, next, end, start)
}

/// Puts bytes over those from `at` on, as `Writable::write_over_edge`, once the chunk is its owner's own.
pub fn write_over_edge_in<A: Allocator, P: Allocator + Clone, C: Writable<A, P>>(
    chunk: &mut Rc<C, P>,
    at: usize,
    bytes: &[u8],
) -> Result<(), AllocError>
    requires whole { C.IsWhole chunk.old.value }
    requires inside { at + length bytes.now ≤ C.SIZE }
    requires few { length bytes.now ≤ 256 }
    requires some { 0 < length bytes.now }
    ensures whole { C.IsWhole chunk.new.value }
    ensures ok { OnOk result (C.bytes_of chunk.new.value ≡ spliced (C.bytes_of chunk.old.value) at bytes.now) }
    ensures err { OnErr result (C.bytes_of chunk.new.value ≡ C.bytes_of chunk.old.value) }
{
    let own = Rc::make_mut(chunk)?;
    own.write_over_edge(at, bytes)
}

/// Takes the bytes of another chunk from `from` up to `end`: all of them by sharing that chunk.
pub fn take_in<A: Allocator, P: Allocator + Clone, C: Writable<A, P>>(
    chunk: &mut Rc<C, P>,
    other: &Rc<C, P>,
    from: usize,
    end: usize,
) -> Result<(), AllocError>
    requires whole { C.IsWhole chunk.old.value }
    requires other { C.IsWhole other.now.value }
    requires order { from ≤ end }
    requires inside { end ≤ C.SIZE }
    ensures whole { C.IsWhole chunk.new.value }
    ensures ok { OnOk result (C.bytes_of chunk.new.value
        ≡ spliced (C.bytes_of chunk.old.value) from (take (end - from) (drop from (C.bytes_of other.now.value)))) }
{
    if end - from == C::SIZE {
        *chunk = other.clone()?;
        return Ok(());
    }
    let own = Rc::make_mut(chunk)?;
    own.take_from(other, from, end)
}

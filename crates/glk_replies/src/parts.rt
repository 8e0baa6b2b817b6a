//! What replies are made of (specs/Parts): looks at memory, numbers and characters in it, words for references.
//!
//! The looks (`can_read`, `can_lay`, `can_give`, `fitting`) take no memory, and a call makes all of them before it
//! takes any.
ghost use Rattle.std.specs.Prelude.{◌≡◌, ◌≢◌, ◌+◌, ◌*◌, ◌==◌, ◌≤◌, ◌<◌, ◌^◌, [], ◌∷◌, ◌++◌, if◌then◌else◌, length};
ghost use Rattle.std.specs.Prelude.{OnOk, OnErr, IfOk, Ok};
ghost use Rattle.gx_words.specs.Constants.{ceiling};
ghost use Rattle.gx_words.specs.Faults.{Reads};
ghost use Rattle.gx_words.specs.Numbers.{bytes_of_word};
ghost use Rattle.gx_state.specs.Flat.{write_fault};
ghost use Rattle.glk_text.specs.Characters.{latin_of};
ghost use Rattle.glk_replies.specs.Parts.{replies, IsCharWidth, can_read, numbers_in, chars_bytes, can_lay, MayWant};
ghost use Rattle.glk_replies.specs.Parts.{char_writes, reply_filling, can_give, pushes_for, writes_for, can_push};

use glk_streams::Places;
use glk_text::latin;
use gx_pages::Pages;
use gx_state::{Reply, State};
use gx_words::{Bytes, Fault, Numbers, Writes, number_at, word_bytes};
use std::alloc::{AllocError, Allocator, Global};

/// A reference that pushes what it is given on the stack.
pub const ON_STACK: u32 = 0xFFFF_FFFF;

/// A reply that writes and pushes nothing.
pub fn reply(alloc: Global, value: u32) -> Reply
    ensures { result ≡ replies value }
{
    Reply {
        value,
        pushes: Numbers::new(alloc),
        writes: Writes::new(alloc),
    }
}

/// Whether so many bytes from an address on are there.
#[tactic(auto, unfolding(crate::specs::Parts::can_read))]
pub fn can_read<A: Allocator + Clone>(state: &State<A>, at: u64, count: u64) -> Result<(), Fault>
    requires { at + count < 2 ^ 64 }
    ensures value { Reads (λ _. tt) result (can_read state.now.flat at count) }
    ensures there { OnOk result (0 < count → at + count ≤ length state.now.flat.memory) }
    ensures low { OnOk result (0 < count → at + count < 2 ^ 32) }
{
    if count != 0 && u64::from(state.memory().size()) < at + count {
        Err(Fault::BadAddress)
    } else {
        Ok(())
    }
}

/// Whether so many bytes from an address on may be written.
fn can_write<A: Allocator + Clone>(state: &State<A>, at: u64, count: u64) -> Result<(), Fault>
    requires { at + count < 2 ^ 64 }
    ensures value { Reads (λ _. tt) result (write_fault state.now.flat at count) }
    ensures there { OnOk result (at < 2 ^ 32) }
    ensures low { OnOk result (at + count ≤ ceiling) }
{
    if u64::from(state.memory().size()) < at + count {
        Err(Fault::BadAddress)
    } else if at < u64::from(state.ramstart()) {
        Err(Fault::ReadOnly)
    } else {
        Ok(())
    }
}

/// Whether places may be written.
#[tactic(auto, unfolding(crate::specs::Parts::can_lay))]
pub fn can_lay<A: Allocator + Clone>(state: &State<A>, places: Places) -> Result<(), Fault>
    requires at { places.at < 2 ^ 40 }
    requires width { places.width ≤ 4 }
    ensures value { Reads (λ _. tt) result (can_lay state.now.flat places) }
    ensures there { OnOk result (0 < places.count → places.at < 2 ^ 32) }
    ensures low { OnOk result (0 < places.count → places.at + places.width * places.count ≤ ceiling) }
{
    if places.count == 0 {
        return Ok(());
    }
    can_write(
        state,
        places.at,
        u64::from(places.width) * u64::from(places.count),
    )
}

/// Whether so many words may be given to a reference.
#[tactic(auto, unfolding(crate::specs::Parts::can_give))]
pub fn can_give<A: Allocator + Clone>(state: &State<A>, at: u32, words: usize) -> Result<(), Fault>
    requires { words ≤ 4 }
    ensures { Reads (λ _. tt) result (can_give state.now.flat at words) }
{
    if at == 0 || at == ON_STACK {
        return Ok(());
    }
    can_write(state, u64::from(at), 4 * words as u64)
}

/// Whether so many values may be pushed.
#[tactic(auto, unfolding(crate::specs::Parts::can_push))]
pub fn fitting(room: u32, pushes: usize) -> Result<(), Fault>
    ensures { Reads (λ _. tt) result (can_push room pushes) }
{
    if pushes > room as usize {
        Err(Fault::Overflow)
    } else {
        Ok(())
    }
}

/// The numbers of a width from an address on.
#[tactic(auto, using(crate::proofs::Laying::number_turns))]
pub fn numbers_at<A: Allocator>(
    alloc: Global,
    memory: &Pages<A>,
    width: u32,
    at: u32,
    count: u32,
) -> Result<Numbers, AllocError>
    requires width { IsCharWidth width }
    requires there { 0 < count → at + width * count ≤ length memory.now }
    requires low { 0 < count → at + width * count < 2 ^ 32 }
    ensures value { IfOk result (λ numbers. numbers ≡ numbers_in width memory.now at count) }
    ensures memory { OnErr result (0 < count) }
{
    let mut numbers = Numbers::new(alloc);
    for i in 0..count {
        numbers.push(memory.number(width, at + width * i))?;
    }
    Ok(numbers)
}

/// Adds the bytes of a character, one at least, for which room was asked.
fn push_char(out: &mut Bytes, width: u32, c: u32) -> Result<(), AllocError>
    ensures ok { OnOk result (out.new ≡ out.old ++ (if width == 1 then latin_of c ∷ [] else bytes_of_word c)) }
    ensures err { OnErr result (out.new ≡ out.old) }
{
    if width == 1 {
        out.push(latin(c))
    } else {
        out.extend_from_slice(&word_bytes(c))
    }
}

/// Room for the bytes of so many characters, asked for at once.
fn chars_room(alloc: Global, width: u32, count: usize) -> Result<Bytes, AllocError>
    ensures value { IfOk result (λ bytes. bytes ≡ []) }
    ensures memory { OnErr result (0 < count) }
{
    let each = if width == 1 { 1 } else { 4 };
    Bytes::with_capacity(alloc, count.saturating_mul(each))
}

/// The bytes of characters.
#[tactic(auto, using(crate::proofs::Laying::byte_turns))]
fn chars_bytes(alloc: Global, width: u32, chars: &[u32]) -> Result<Bytes, AllocError>
    ensures value { IfOk result (λ bytes. bytes ≡ chars_bytes width chars.now) }
    ensures memory { OnErr result (0 < length chars.now) }
{
    let mut bytes = chars_room(alloc, width, chars.len())?;
    for c in chars {
        push_char(&mut bytes, width, *c)?;
    }
    Ok(bytes)
}

/// The bytes of characters that are bytes.
#[tactic(auto, using(crate::proofs::Laying::byte_turns))]
fn in_width(alloc: Global, width: u32, bytes: &[u8]) -> Result<Bytes, AllocError>
    ensures value { IfOk result (λ all. all ≡ chars_bytes width bytes.now) }
    ensures memory { OnErr result (0 < length bytes.now) }
{
    if width == 1 {
        return Bytes::from_slice(alloc, bytes);
    }
    let mut all = chars_room(alloc, width, bytes.len())?;
    for byte in bytes {
        push_char(&mut all, width, u32::from(*byte))?;
    }
    Ok(all)
}

/// A character that is written to memory: a number, or a byte.
pub trait Character {
    ghost use Rattle.std.specs.Prelude.{ℕ, List, ◌≡◌, ◌<◌, ◌≤◌, length, take, IfOk, OnErr};
    ghost use Rattle.glk_replies.specs.Parts.{chars_bytes};

    /// Characters as numbers.
    ghost chars_of: { List Self → List ℕ };

    /// The bytes of the first so many characters.
    fn bytes_of(
        alloc: Global,
        width: u32,
        chars: &[Self],
        count: usize,
    ) -> Result<Bytes, AllocError>
        requires { count ≤ length (chars_of chars.now) }
        ensures value { IfOk result (λ bytes. bytes ≡ chars_bytes width (take count (chars_of chars.now))) }
        ensures memory { OnErr result (0 < count) };
}

impl Character for u32 {
    ghost chars_of = { λ chars. chars };

    fn bytes_of(
        alloc: Global,
        width: u32,
        chars: &[u32],
        count: usize,
    ) -> Result<Bytes, AllocError> {
        chars_bytes(alloc, width, &chars[..count])
    }
}

impl Character for u8 {
    ghost chars_of = { λ chars. chars };

    fn bytes_of(
        alloc: Global,
        width: u32,
        chars: &[u8],
        count: usize,
    ) -> Result<Bytes, AllocError> {
        in_width(alloc, width, &chars[..count])
    }
}

/// Adds the write of characters to places that may be written.
pub fn lay<C: Character>(
    alloc: Global,
    writes: &mut Writes,
    places: Places,
    chars: &[C],
) -> Result<(), AllocError>
    requires at { 0 < places.count → places.at < 2 ^ 32 }
    requires count { places.count ≤ length (C.chars_of chars.now) }
    ensures ok { OnOk result (writes.new ≡ writes.old ++ char_writes places (C.chars_of chars.now)) }
    ensures memory { OnErr result (0 < places.count) }
{
    if places.count == 0 {
        return Ok(());
    }
    let bytes = C::bytes_of(alloc, places.width, chars, places.count as usize)?;
    writes.push((places.at as u32, bytes))
}

/// The reply that writes characters to places that may be written.
pub fn filled(alloc: Global, value: u32, places: Places, chars: &[u32]) -> Result<Reply, Fault>
    requires at { 0 < places.count → places.at < 2 ^ 32 }
    requires count { places.count ≤ length chars.now }
    ensures { MayWant (0 < places.count) (λ reply. reply) result (Ok (reply_filling value places chars.now)) }
{
    let mut reply = reply(alloc, value);
    lay(alloc, &mut reply.writes, places, chars)?;
    Ok(reply)
}

/// Adds words that are pushed.
fn push_words(pushes: &mut Numbers, words: &[u32]) -> Result<(), AllocError>
    ensures { OnOk result (pushes.new ≡ pushes.old ++ words.now) }
{
    match words {
        [] => Ok(()),
        [word, rest @ ..] => {
            pushes.push(*word)?;
            push_words(pushes, rest)
        }
    }
}

/// Adds what is given to a reference that was looked at.
pub fn add_given(alloc: Global, reply: &mut Reply, at: u32, words: &[u32]) -> Result<(), AllocError>
    ensures ok { OnOk result (reply.new ≡ record reply.old {
      pushes = reply.old.pushes ++ pushes_for at words.now;
      writes = reply.old.writes ++ writes_for at words.now;
    }) }
    ensures memory { OnErr result (at ≢ 0) }
{
    if at == 0 {
        return Ok(());
    }
    if at == ON_STACK {
        return push_words(&mut reply.pushes, words);
    }
    let bytes = chars_bytes(alloc, 4, words)?;
    reply.writes.push((at, bytes))
}

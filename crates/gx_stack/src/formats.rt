//! The frame of a locals format (Glulx 3.1.2, "Call Frames" and "Functions").
//!
//! Each group of locals begins at the least multiple of its size at or after the end of the group
//! before, a group of no locals too. The frame is pushed onto a Vec that has the room for it, and
//! the stub of its call with it.
ghost use Rattle.std.specs.Prelude.{◌≡◌, ◌+◌, ◌*◌, ◌%◌, ◌≤◌, ◌<◌, ◌^◌, ◌++◌, [], ◌∷◌, length, drop, vec_len};
ghost use Rattle.std.specs.Prelude.{vec_capacity, IsTrue};
ghost use Rattle.gx_words.specs.Numbers.{IsWidth, bytes_of_word};
ghost use Rattle.gx_stack.specs.Formats.{gap, pair_locals, locals, locals_len, locals_pos, padded};
ghost use Rattle.gx_stack.specs.Formats.{padded_len};
ghost use Rattle.gx_stack.specs.Formats.{frame_len, frame};
ghost use Rattle.gx_stack.specs.Held.{ArePairs, IsFormat, IsOfWords};
ghost use Rattle.gx_stack.specs.Stubs.{stub_bytes};

use crate::Stub;
use crate::room::{push_bytes, push_number, push_word, push_zeros};
use gx_words::word_bytes;

/// How far it is to the least multiple of 1, 2 or 4 at or after an offset.
#[inline(always)]
fn gap(width: u32, at: u32) -> u32
    requires { IsWidth width }
    ensures value { result ≡ gap width at }
    ensures multiple { (at + result) % width ≡ 0 }
    ensures least { result < width }
{
    match width {
        1 => 0,
        2 => at % 2,
        _ => (4 - at % 4) % 4,
    }
}

/// What stands behind the first n.
#[inline(always)]
fn behind<T>(items: &[T], n: usize) -> &[T]
    ensures { result.now ≡ drop n items.now }
{
    if n <= items.len() {
        items.split_at(n).1
    } else {
        &[]
    }
}

/// Pushes so many locals of one size: the arguments in order, then zeros.
#[inline(always)]
#[tactic(auto, using(crate::proofs::Turns::filled_turns))]
fn push_filled(out: &mut Vec<u8>, width: u32, count: u8, args: &[u32])
    requires width { IsWidth width }
    requires room { vec_len out.old + width * count ≤ vec_capacity out.old }
    ensures items { out.new.items ≡ out.old.items ++ pair_locals width count args.now }
    ensures len { vec_len out.new ≡ vec_len out.old + width * count }
    ensures room { vec_capacity out.old ≤ vec_capacity out.new }
{
    let given = args.len().min(usize::from(count));
    for i in 0..given {
        push_number(out, width, args[i]);
    }
    push_zeros(out, width * (u32::from(count) - given as u32));
}

/// Pushes the locals of pairs, from an offset on.
#[tactic(auto, using(crate::proofs::Turns::locals_turns))]
fn push_locals(out: &mut Vec<u8>, at: u32, pairs: &[u8], args: &[u32])
    requires pairs { ArePairs pairs.now }
    requires at { at + locals_len at pairs.now < 2 ^ 32 }
    requires room { vec_len out.old + locals_len at pairs.now ≤ vec_capacity out.old }
    ensures items { out.new.items ≡ out.old.items ++ locals at pairs.now args.now }
    ensures len { vec_len out.new ≡ vec_len out.old + locals_len at pairs.now }
    ensures room { vec_capacity out.old ≤ vec_capacity out.new }
{
    if pairs.len() < 2 {
        return;
    }
    let width = u32::from(pairs[0]);
    let count = pairs[1];
    let before = gap(width, at);
    push_zeros(out, before);
    push_filled(out, width, count, args);
    push_locals(
        out,
        at + before + width * u32::from(count),
        behind(pairs, 2),
        behind(args, usize::from(count)),
    );
}

/// How many bytes the locals of pairs are, from an offset on.
#[tactic(auto, using(crate::proofs::Turns::locals_turns))]
fn locals_len(at: u32, pairs: &[u8]) -> u32
    requires pairs { ArePairs pairs.now }
    requires at { at + 1023 * length pairs.now < 2 ^ 31 }
    ensures value { result ≡ locals_len at pairs.now }
    ensures bound { result ≤ 1023 * length pairs.now }
{
    if pairs.len() < 2 {
        return 0;
    }
    let width = u32::from(pairs[0]);
    let count = u32::from(pairs[1]);
    let here = gap(width, at) + width * count;
    here + locals_len(at + here, behind(pairs, 2))
}

/// LocalsPos: how far the locals stand from the frame's begin.
#[inline(always)]
fn locals_pos(format: &[u8]) -> u32
    requires { IsFormat format.now }
    ensures value { result ≡ locals_pos format.now }
    ensures fits { result ≤ 144 }
{
    let len = format.len() as u32;
    8 + len + gap(4, len)
}

/// Whether a format is that of locals of four bytes alone, as most are: one pair, and the ending one.
#[inline(always)]
fn has_words(format: &[u8]) -> bool
    ensures { IsTrue result → IsOfWords format.now }
{
    format.len() == 4 && format[0] == 4
}

/// FrameLen: how many bytes the frame of a format is.
///
/// The format is that of a function in memory: at most 64 pairs, and its ending pair.
#[tactic(auto, using(crate::proofs::Words::word_frames))]
pub fn frame_len(format: &[u8]) -> u32
    requires { IsFormat format.now }
    ensures value { result ≡ frame_len format.now }
    ensures aligned { result % 4 ≡ 0 }
    ensures fits { result < 2 ^ 18 }
{
    if has_words(format) {
        return 12 + 4 * u32::from(format[1]);
    }
    let body = locals_len(0, &format[..format.len() - 2]);
    locals_pos(format) + body + gap(4, body)
}

/// Pushes what stands in front of a frame's locals: its two lengths, the pairs, and an ending pair.
#[inline(always)]
#[tactic(auto, using(crate::proofs::Pieces::header_pieces))]
fn push_header(out: &mut Vec<u8>, pairs: &[u8], len: u32, begin: u32)
    requires few { length pairs.now ≤ 128 }
    requires room { vec_len out.old + 8 + padded_len (length pairs.now + 2) ≤ vec_capacity out.old }
    ensures items { out.new.items ≡ out.old.items
        ++ (bytes_of_word len ++ (bytes_of_word begin ++ padded (pairs.now ++ 0 ∷ 0 ∷ []))) }
    ensures len { vec_len out.new ≡ vec_len out.old + 8 + padded_len (length pairs.now + 2) }
    ensures room { vec_capacity out.old ≤ vec_capacity out.new }
{
    push_word(out, len);
    push_word(out, begin);
    push_bytes(out, pairs);
    push_bytes(out, &[0, 0]);
    push_zeros(out, gap(4, pairs.len() as u32 + 2));
}

/// A stub, and above it what stands in front of the locals of a format of words: the two lengths, its pair, and the
/// ending one.
#[tactic(auto, unfolding(crate::specs::Stubs::stub_bytes))]
#[inline(always)]
fn stub_and_header(stub: &Stub, len: u32, count: u8) -> [u8; 28]
    ensures { result ≡ stub_bytes stub.now ++ (bytes_of_word len ++ (0 ∷ 0 ∷ 0 ∷ 12 ∷ 4 ∷ count ∷ 0 ∷ 0 ∷ [])) }
{
    let [a, b, c, d, e, f, g, h, i, j, k, l, m, n, o, p] = stub.bytes();
    let [q, r, s, t] = word_bytes(len);
    [
        a, b, c, d, e, f, g, h, i, j, k, l, m, n, o, p, q, r, s, t, 0, 0, 0, 12, 4, count, 0, 0,
    ]
}

/// Pushes a stub, and above it the frame of a format of words, with arguments in its locals; `len` is FrameLen.
#[inline(always)]
#[tactic(auto, using(crate::proofs::Words::word_frames))]
fn push_words(out: &mut Vec<u8>, stub: &Stub, format: &[u8], len: u32, args: &[u32])
    requires format { IsOfWords format.now }
    requires len { len ≡ frame_len format.now }
    requires room { vec_len out.old + (16 + len) ≤ vec_capacity out.old }
    ensures items { out.new.items ≡ (out.old.items ++ stub_bytes stub.now) ++ frame format.now args.now }
    ensures len { vec_len out.new ≡ vec_len out.old + (16 + len) }
    ensures room { vec_capacity out.old ≤ vec_capacity out.new }
{
    let count = format[1];
    push_bytes(out, &stub_and_header(stub, len, count));
    push_filled(out, 4, count, args);
}

/// The same with a format of any locals.
#[inline(never)]
fn push_apart(out: &mut Vec<u8>, stub: &Stub, format: &[u8], len: u32, args: &[u32])
    requires format { IsFormat format.now }
    requires len { len ≡ frame_len format.now }
    requires room { vec_len out.old + (16 + len) ≤ vec_capacity out.old }
    ensures items { out.new.items ≡ (out.old.items ++ stub_bytes stub.now) ++ frame format.now args.now }
    ensures len { vec_len out.new ≡ vec_len out.old + (16 + len) }
    ensures room { vec_capacity out.old ≤ vec_capacity out.new }
{
    push_bytes(out, &stub.bytes());
    push_frame(out, format, len, args);
}

/// The same, by what the locals are: most often words.
#[inline(always)]
pub fn push_call(out: &mut Vec<u8>, stub: &Stub, format: &[u8], len: u32, args: &[u32])
    requires format { IsFormat format.now }
    requires len { len ≡ frame_len format.now }
    requires room { vec_len out.old + (16 + len) ≤ vec_capacity out.old }
    ensures items { out.new.items ≡ (out.old.items ++ stub_bytes stub.now) ++ frame format.now args.now }
    ensures len { vec_len out.new ≡ vec_len out.old + (16 + len) }
    ensures room { vec_capacity out.old ≤ vec_capacity out.new }
{
    if has_words(format) {
        push_words(out, stub, format, len, args);
    } else {
        push_apart(out, stub, format, len, args);
    }
}

/// Pushes the frame of a format, with arguments in its locals; `len` is FrameLen.
#[inline(never)]
#[tactic(auto, using(crate::proofs::Pieces::frame_pieces))]
pub fn push_frame(out: &mut Vec<u8>, format: &[u8], len: u32, args: &[u32])
    requires format { IsFormat format.now }
    requires len { len ≡ frame_len format.now }
    requires room { vec_len out.old + len ≤ vec_capacity out.old }
    ensures items { out.new.items ≡ out.old.items ++ frame format.now args.now }
    ensures len { vec_len out.new ≡ vec_len out.old + len }
    ensures room { vec_capacity out.old ≤ vec_capacity out.new }
{
    let pairs = &format[..format.len() - 2];
    let end = out.len() + len as usize;
    push_header(out, pairs, len, locals_pos(format));
    push_locals(out, 0, pairs, args);
    push_zeros(out, (end - out.len()) as u32);
}

//! Pushes onto a Vec that has the room for them, so that none can want memory.
ghost use Rattle.std.specs.Prelude.{◌≡◌, ◌+◌, ◌*◌, ◌≤◌, ◌++◌, length, take, drop, replicate, vec_len, vec_capacity};
ghost use Rattle.gx_words.specs.Numbers.{IsWidth, bytes_of_word, bytes_of_number, spliced};
ghost use Rattle.gx_stack.specs.Values.{turned};

use gx_words::{put_number, word_bytes};

/// Pushes bytes.
#[inline(always)]
pub fn push_bytes(out: &mut Vec<u8>, bytes: &[u8])
    requires room { vec_len out.old + length bytes.now ≤ vec_capacity out.old }
    ensures items { out.new.items ≡ out.old.items ++ bytes.now }
    ensures len { vec_len out.new ≡ vec_len out.old + length bytes.now }
    ensures room { vec_capacity out.old ≤ vec_capacity out.new }
{
    match out.extend_from_slice(bytes) {
        Ok(()) => {}
        Err(_) => unreachable!(),
    }
}

/// Pushes zeros.
#[inline(always)]
pub fn push_zeros(out: &mut Vec<u8>, n: u32)
    requires room { vec_len out.old + n ≤ vec_capacity out.old }
    ensures items { out.new.items ≡ out.old.items ++ replicate n 0 }
    ensures len { vec_len out.new ≡ vec_len out.old + n }
    ensures room { vec_capacity out.old ≤ vec_capacity out.new }
{
    if n == 0 {
        return;
    }
    match out.resize(out.len() + n as usize, 0) {
        Ok(()) => {}
        Err(_) => unreachable!(),
    }
}

/// Pushes a word, its highest byte first.
pub fn push_word(out: &mut Vec<u8>, v: u32)
    requires room { vec_len out.old + 4 ≤ vec_capacity out.old }
    ensures items { out.new.items ≡ out.old.items ++ bytes_of_word v }
    ensures len { vec_len out.new ≡ vec_len out.old + 4 }
    ensures room { vec_capacity out.old ≤ vec_capacity out.new }
{
    push_bytes(out, &word_bytes(v));
}

/// Pushes the low 1, 2 or 4 bytes of a number.
#[inline(always)]
pub fn push_number(out: &mut Vec<u8>, width: u32, v: u32)
    requires width { IsWidth width }
    requires room { vec_len out.old + width ≤ vec_capacity out.old }
    ensures items { out.new.items ≡ out.old.items ++ bytes_of_number width v }
    ensures len { vec_len out.new ≡ vec_len out.old + width }
    ensures room { vec_capacity out.old ≤ vec_capacity out.new }
{
    let bytes = word_bytes(v);
    match width {
        1 => push_bytes(out, &[bytes[3]]),
        2 => push_bytes(out, &[bytes[2], bytes[3]]),
        _ => push_bytes(out, &bytes),
    }
}

/// Pushes the bytes from a place on again.
pub fn push_from(out: &mut Vec<u8>, from: usize)
    requires there { from ≤ vec_len out.old }
    requires room { 2 * vec_len out.old ≤ vec_capacity out.old + from }
    ensures items { out.new.items ≡ out.old.items ++ drop from out.old.items }
    ensures len { vec_len out.new + from ≡ 2 * vec_len out.old }
    ensures room { vec_capacity out.old ≤ vec_capacity out.new }
{
    let end = out.len();
    match out.extend_from_within(from..end) {
        Ok(()) => {}
        Err(_) => unreachable!(),
    }
}

/// Of the bytes from a place on, brings the last to the front.
pub fn turn(out: &mut Vec<u8>, at: usize, up: usize)
    requires there { at + up ≤ vec_len out.old }
    ensures items { out.new.items ≡ take at out.old.items ++ turned (drop at out.old.items) up }
    ensures len { vec_len out.new ≡ vec_len out.old }
    ensures room { vec_capacity out.new ≡ vec_capacity out.old }
{
    turn_slice(out, at, up);
}

/// The same of a slice.
fn turn_slice(all: &mut [u8], at: usize, up: usize)
    requires { at + up ≤ length all.old }
    ensures { all.new ≡ take at all.old ++ turned (drop at all.old) up }
{
    all[at..].rotate_right(up);
}

/// Puts the low 1, 2 or 4 bytes of a number over those from a place on.
#[inline(always)]
pub fn put(out: &mut Vec<u8>, at: usize, width: u32, v: u32)
    requires width { IsWidth width }
    requires there { at + width ≤ vec_len out.old }
    ensures items { out.new.items ≡ spliced out.old.items at (bytes_of_number width v) }
    ensures len { vec_len out.new ≡ vec_len out.old }
    ensures room { vec_capacity out.new ≡ vec_capacity out.old }
{
    put_number(out, at, width, v);
}

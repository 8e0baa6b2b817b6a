//! Big-endian numbers in slices of bytes (Glulx 3.1.2, "The Memory Map").
//!
//! Each call is its definition of specs/Numbers for all arguments that its condition allows.
ghost use Rattle.std.specs.Prelude.{◌≡◌, ◌+◌, ◌/◌, ◌%◌, ◌≤◌, ◌<◌, ◌^◌, nat_lt, if◌then◌else◌, length};
ghost use Rattle.std.specs.Int.{w32, cast_signed};
ghost use Rattle.gx_words.specs.Numbers.{IsWidth, half, word, number, low, bytes_of_word, bytes_of_number, spliced};
ghost use Rattle.gx_words.specs.Numbers.{rounded_up, sum_of_words};

use crate::CHECKSUM_AT;
use byteorder::{BigEndian, ByteOrder};

/// The two bytes from `at` on.
#[inline(always)]
pub fn half_at(bytes: &[u8], at: usize) -> u32
    requires { at + 2 ≤ length bytes.now }
    ensures value { result ≡ half bytes.now at }
    ensures fits { result < 2 ^ 16 }
{
    u32::from(BigEndian::read_u16(&bytes[at..]))
}

/// The four bytes from `at` on.
#[inline(always)]
pub fn word_at(bytes: &[u8], at: usize) -> u32
    requires { at + 4 ≤ length bytes.now }
    ensures { result ≡ word bytes.now at }
{
    BigEndian::read_u32(&bytes[at..])
}

/// The 1, 2 or 4 bytes from `at` on.
#[inline(always)]
pub fn number_at(bytes: &[u8], width: u32, at: usize) -> u32
    requires width { IsWidth width }
    requires there { at + width ≤ length bytes.now }
    ensures value { result ≡ number width bytes.now at }
    ensures fits { result < 256 ^ width }
{
    match width {
        1 => u32::from(bytes[at]),
        2 => half_at(bytes, at),
        _ => word_at(bytes, at),
    }
}

/// The bytes of a word, the highest first.
#[inline(always)]
pub fn word_bytes(v: u32) -> [u8; 4]
    ensures bytes { result ≡ bytes_of_word v }
    ensures read_back { word result 0 ≡ v }
{
    let mut bytes = [0; 4];
    BigEndian::write_u32(&mut bytes, v);
    bytes
}

/// Puts bytes over those from `at` on.
#[inline(always)]
pub fn splice(all: &mut [u8], at: usize, bytes: &[u8])
    requires { at + length bytes.now ≤ length all.old }
    ensures { all.new ≡ spliced all.old at bytes.now }
{
    let end = at + bytes.len();
    all[at..end].copy_from_slice(bytes);
}

/// Puts the low 1, 2 or 4 bytes of a number over those from `at` on.
#[inline(always)]
pub fn put_number(all: &mut [u8], at: usize, width: u32, v: u32)
    requires width { IsWidth width }
    requires there { at + width ≤ length all.old }
    ensures { all.new ≡ spliced all.old at (bytes_of_number width v) }
{
    let bytes = word_bytes(v);
    match width {
        1 => splice(all, at, &[bytes[3]]),
        2 => splice(all, at, &[bytes[2], bytes[3]]),
        _ => splice(all, at, &bytes),
    }
}

/// The number read as two's complement.
pub fn signed(v: u32) -> i32
    ensures { result ≡ cast_signed w32 v }
{
    v.cast_signed()
}

/// The low 1, 2 or 4 bytes of a number.
#[inline(always)]
pub fn low(v: u32, bytes: u32) -> u32
    requires { IsWidth bytes }
    ensures value { result ≡ low bytes v }
    ensures fits { result < 256 ^ bytes }
{
    match bytes {
        1 => v % 0x100,
        2 => v % 0x1_0000,
        _ => v,
    }
}

/// The least multiple of 256 from `v` on; None where it is above 2^32 - 1.
pub fn round_up_256(v: u32) -> Option<u32>
    ensures { result ≡ (if nat_lt (v + 255) (2 ^ 32) then Some (rounded_up v) else None) }
{
    Some(v.checked_add(255)? / 256 * 256)
}

/// The sum modulo 2^32 of the words of a story, that of its checksum taken as zero.
#[tactic(auto, using(crate::proofs::Sums::sum_turns))]
pub fn sum_of_words(bytes: &[u8]) -> u32
    ensures { result ≡ sum_of_words (length bytes.now / 4) bytes.now % 2 ^ 32 }
{
    let mut sum = 0u32;
    for index in 0..bytes.len() / 4 {
        if 4 * index != CHECKSUM_AT {
            sum = sum.wrapping_add(word_at(bytes, 4 * index));
        }
    }
    sum
}

//! Characters as UTF-8, by Table 3-7 of the Unicode Standard.
//!
//! A number that is no Unicode scalar value is written as `?`. Where no well-formed character
//! begins, one byte is taken and read as U+FFFD. Both are choices: Glk says nothing of them.
ghost use Rattle.std.specs.Prelude.{◌≡◌, ◌++◌, ◌≤◌, ◌↔◌, List, ℕ, length, IsNone, IfSome, OnOk, OnErr};
ghost use Rattle.std.specs.Char.{encode_utf8};
ghost use Rattle.glk_text.specs.Utf8.{as_scalar, read, IsReading};

use bstr::decode_utf8;
use gx_words::Bytes;
use std::alloc::AllocError;

/// What is read where no well-formed character begins.
pub const REPLACEMENT: u32 = 0xFFFD;

/// Adds a character to bytes.
///
/// Whatever is added after it, it is read back from where it was added.
pub fn push_utf8(out: &mut Bytes, v: u32) -> Result<(), AllocError>
    ensures ok { OnOk result (out.new ≡ out.old ++ encode_utf8 (as_scalar v)) }
    ensures read_back { OnOk result ((rest : List ℕ) → read (out.new ++ rest) (length out.old)
        ≡ Some (as_scalar v, length out.new)) }
    ensures err { OnErr result (out.new ≡ out.old) }
{
    out.extend_from_slice(as_char(v).encode_utf8(&mut [0; 4]).as_bytes())
}

/// The character that is written: `?` for a number that is no Unicode scalar value.
pub fn as_char(v: u32) -> char
    ensures { result ≡ as_scalar v }
{
    char::from_u32(v).unwrap_or('?')
}

/// The character at a place, and the place behind it; None at or past the end.
pub fn read_utf8(bytes: &[u8], at: usize) -> Option<(u32, usize)>
    ensures value { result ≡ read bytes.now at }
    ensures end { IsNone result ↔ (length bytes.now ≤ at) }
    ensures character { IfSome result (λ got. IsReading bytes.now at got.0 got.1) }
{
    if at >= bytes.len() {
        return None;
    }
    Some(match decode_utf8(&bytes[at..]) {
        (Some(c), size) => (u32::from(c), at + size),
        (None, _) => (REPLACEMENT, at + 1),
    })
}

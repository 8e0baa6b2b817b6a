//! The number with which an instruction begins (Glulx 3.1.2, "Instruction Format").
ghost use Rattle.std.specs.Prelude.{◌≡◌, IfSome, take};
ghost use Rattle.gx_rows.specs.Opcodes.{opcode_of, spelled};

use gx_words::{half_at, word_at};

/// The number of the opcode at the head of `bytes`, and its length in bytes.
///
/// A longer form than the number needs is read too: 01, 8001 and C0000001 are one number.
#[tactic(auto, unfolding(crate::specs::Opcodes::opcode_of))]
pub fn read_opcode(bytes: &[u8]) -> Option<(u32, u8)>
    ensures value { result ≡ opcode_of bytes.now }
    ensures spelled { IfSome result (λ opcode. take opcode.1 bytes.now ≡ spelled opcode.0 opcode.1) }
{
    let first = *bytes.first()?;
    if first < 0x80 {
        Some((u32::from(first), 1))
    } else if first < 0xC0 {
        if bytes.len() < 2 {
            return None;
        }
        Some((half_at(bytes, 0) - 0x8000, 2))
    } else {
        if bytes.len() < 4 {
            return None;
        }
        Some((word_at(bytes, 0) - 0xC000_0000, 4))
    }
}

//! The instructions that turn one or two words into a word (Glulx 3.1.2, "Integer Math" and "Moving Data").
//!
//! Each is its definition of specs/Arithmetic for all operands. A division without a quotient is
//! `None`; all else has an answer.
ghost use Rattle.std.specs.Prelude.{◌≡◌, IsTrue, IfSome};
ghost use Rattle.ops_calc.specs.Arithmetic.{calc, has_no_quotient, div, mod_, shiftl, sshiftr, ushiftr, sexs, sexb};
ghost use Rattle.ops_calc.specs.Laws.{IsQuotient, IsRemainder};
ghost use Rattle.ops_calc.specs.Acts.{is_calc};

use crate::acts::{
    ADD, BITAND, BITNOT, BITOR, BITXOR, DIV, MOD, MUL, NEG, SEXB, SEXS, SHIFTL, SSHIFTR, SUB,
    USHIFTR,
};
use gx_words::{low, signed};

/// What an instruction makes of its operands.
///
/// `act` is the low byte of the instruction's number. Those with one operand take it as `a` and
/// ignore `b`. `None` is a `div` or `mod` by 0, or of -2^31 by -1.
#[tactic(auto, unfolding(crate::specs::Arithmetic::calc))]
#[inline(always)]
pub fn calc(act: u8, a: u32, b: u32) -> Option<u32>
    requires { IsTrue (is_calc act) }
    ensures { result ≡ calc act a b }
{
    match act {
        ADD => Some(a.wrapping_add(b)),
        SUB => Some(a.wrapping_sub(b)),
        MUL => Some(a.wrapping_mul(b)),
        DIV => quotient(a, b),
        MOD => remainder(a, b),
        NEG => Some(a.wrapping_neg()),
        BITAND => Some(a & b),
        BITOR => Some(a | b),
        BITXOR => Some(a ^ b),
        BITNOT => Some(!a),
        SHIFTL => Some(shift_left(a, b)),
        SSHIFTR => Some(shift_right_signed(a, b)),
        USHIFTR => Some(shift_right(a, b)),
        SEXS => Some(extend_half(a)),
        SEXB => Some(extend_byte(a)),
        _ => unreachable!(),
    }
}

/// Toward zero.
#[tactic(auto, unfolding(crate::specs::Arithmetic::div))]
fn quotient(a: u32, b: u32) -> Option<u32>
    ensures value { result ≡ div a b }
    ensures law { IfSome result (IsQuotient a b) }
{
    if has_no_quotient(a, b) {
        return None;
    }
    Some((signed(a) / signed(b)).cast_unsigned())
}

/// With the sign of the dividend.
#[tactic(auto, unfolding(crate::specs::Arithmetic::mod_))]
fn remainder(a: u32, b: u32) -> Option<u32>
    ensures value { result ≡ mod_ a b }
    ensures law { IfSome result (IsRemainder a b) }
{
    if has_no_quotient(a, b) {
        return None;
    }
    Some((signed(a) % signed(b)).cast_unsigned())
}

fn has_no_quotient(a: u32, b: u32) -> bool
    ensures { result ≡ has_no_quotient a b }
{
    b == 0 || (a == 0x8000_0000 && b == 0xFFFF_FFFF)
}

fn shift_left(a: u32, b: u32) -> u32
    ensures { result ≡ shiftl a b }
{
    a.checked_shl(b).unwrap_or(0)
}

fn shift_right_signed(a: u32, b: u32) -> u32
    ensures { result ≡ sshiftr a b }
{
    let places = if b < 32 { b } else { 31 };
    (signed(a) >> places).cast_unsigned()
}

fn shift_right(a: u32, b: u32) -> u32
    ensures { result ≡ ushiftr a b }
{
    a.checked_shr(b).unwrap_or(0)
}

fn extend_half(a: u32) -> u32
    ensures { result ≡ sexs a }
{
    let half = low(a, 2);
    if half < 0x8000 {
        half
    } else {
        half + 0xFFFF_0000
    }
}

fn extend_byte(a: u32) -> u32
    ensures { result ≡ sexb a }
{
    let byte = low(a, 1);
    if byte < 0x80 {
        byte
    } else {
        byte + 0xFFFF_FF00
    }
}

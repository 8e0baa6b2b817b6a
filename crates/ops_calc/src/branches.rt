//! The conditions of the branches (Glulx 3.1.2, "Branches").
#![tactic(auto, unfolding(crate::specs::Branches::test))]

ghost use Rattle.std.specs.Prelude.{◌≡◌, IsTrue};
ghost use Rattle.ops_calc.specs.Branches.{test};
ghost use Rattle.ops_calc.specs.Acts.{is_branch};

use crate::acts::{JEQ, JGE, JGEU, JGT, JGTU, JLE, JLEU, JLT, JLTU, JNE, JNZ, JUMP, JZ};
use gx_words::signed;

/// Whether a branch is taken.
///
/// `act` is the instruction's number. `jump` ignores both operands, `jz` and `jnz` ignore `b`.
#[inline(always)]
pub fn test(act: u8, a: u32, b: u32) -> bool
    requires { IsTrue (is_branch act) }
    ensures { result ≡ test act a b }
{
    match act {
        JUMP => true,
        JZ => a == 0,
        JNZ => a != 0,
        JEQ => a == b,
        JNE => a != b,
        JLT => signed(a) < signed(b),
        JGE => signed(a) >= signed(b),
        JGT => signed(a) > signed(b),
        JLE => signed(a) <= signed(b),
        JLTU => a < b,
        JGEU => a >= b,
        JGTU => a > b,
        JLEU => a <= b,
        _ => unreachable!(),
    }
}

//! The line of an instruction.
//!
//! What is written is `instruction_line` of specs/Instructions. Where memory runs out, a part of the line may have been
//! added: the text can only be dropped then.
ghost use Rattle.std.specs.Prelude.{◌≡◌, ◌<◌, ◌∷◌, ◌++◌, OnOk};
ghost use Rattle.gx_asm.specs.Instructions.{IsWritten, blank, digit, digits, instruction_line, operand_word};
ghost use Rattle.gx_asm.specs.Views.{seen_instruction};

use crate::instruction::{Instruction, data_len};
use crate::names::name_at;
use gx_rows::modes::Addressing;
use gx_words::Bytes;
use std::alloc::AllocError;

impl Instruction {
    /// Adds its line to a text.
    pub fn push_line(&self, text: &mut Bytes) -> Result<(), AllocError>
        requires { IsWritten (seen_instruction self.now) }
        ensures { OnOk result (text.new ≡ text.old ++ instruction_line (seen_instruction self.now)) }
    {
        text.extend_from_slice(name_at(self.place).as_bytes())?;
        let mut rest = self.operand_data.as_slice();
        let modes = self.modes.as_slice();
        for mode in modes {
            let (own, others) = rest.split_at(data_len(*mode));
            push_word(text, *mode, own)?;
            rest = others;
        }
        text.push(b'\n')
    }
}

/// Adds a blank and the word of an operand with its data.
fn push_word(text: &mut Bytes, mode: Addressing, own: &[u8]) -> Result<(), AllocError>
    ensures { OnOk result (text.new ≡ text.old ++ blank ∷ operand_word mode own.now) }
{
    match mode {
        Addressing::Zero => text.extend_from_slice(b" z"),
        Addressing::Top => text.extend_from_slice(b" sp"),
        Addressing::Constant(_) => push_data(text, b'#', own),
        Addressing::Memory(_) => push_data(text, b'@', own),
        Addressing::Local(_) => push_data(text, b'%', own),
        Addressing::Ram(_) => push_data(text, b'!', own),
    }
}

/// Adds a blank, a sign and the digits of data.
fn push_data(text: &mut Bytes, sign: u8, own: &[u8]) -> Result<(), AllocError>
    ensures { OnOk result (text.new ≡ text.old ++ blank ∷ sign ∷ digits own.now) }
{
    text.extend_from_slice(&[b' ', sign])?;
    for byte in own {
        text.extend_from_slice(&[digit(byte / 16), digit(byte % 16)])?;
    }
    Ok(())
}

/// The digit 0 to 9, a to f of a number below 16.
fn digit(n: u8) -> u8
    requires { n < 16 }
    ensures { result ≡ digit n }
{
    if n < 10 { b'0' + n } else { b'a' + (n - 10) }
}

//! Numbers in the lines that a run and a job tell: in decimal and in hexadecimal. After a refusal a part may stand.
ghost use Rattle.std.specs.Prelude.{◌≡◌, ◌<◌, ◌+◌, ◌++◌, ◌∷◌, nat_lt, if◌then◌else◌, [], OnOk, string_bytes, decimal};
ghost use Rattle.gx_session.specs.Reports.{hex_of};

use itoa::Buffer;
use std::alloc::AllocError;

/// Adds a number in decimal.
pub fn push_number(line: &mut String, number: u64) -> Result<(), AllocError>
    ensures { OnOk result (string_bytes line.new ≡ string_bytes line.old ++ decimal number) }
{
    let mut buffer = Buffer::new();
    line.push_str(buffer.format(number))
}

/// Adds a number as eight hexadecimal digits.
pub fn push_hex(line: &mut String, number: u32) -> Result<(), AllocError>
    ensures { OnOk result (string_bytes line.new ≡ string_bytes line.old ++ hex_of 8 number) }
{
    push_digit(line, number / 0x1000_0000 % 16)?;
    push_digit(line, number / 0x100_0000 % 16)?;
    push_digit(line, number / 0x10_0000 % 16)?;
    push_digit(line, number / 0x1_0000 % 16)?;
    push_digit(line, number / 0x1000 % 16)?;
    push_digit(line, number / 0x100 % 16)?;
    push_digit(line, number / 0x10 % 16)?;
    push_digit(line, number % 16)
}

/// Adds one hexadecimal digit.
fn push_digit(line: &mut String, digit: u32) -> Result<(), AllocError>
    requires { digit < 16 }
    ensures { OnOk result (string_bytes line.new
        ≡ string_bytes line.old ++ (if nat_lt digit 10 then 48 + digit else 87 + digit) ∷ []) }
{
    let code = if digit < 10 { 48 + digit } else { 87 + digit };
    line.push(code as u8 as char)
}

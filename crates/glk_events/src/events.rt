//! What a line gives to the request that it is taken for (Glk 0.7.5, "Line Input Events" and "Character
//! Input Events").
ghost use Rattle.std.specs.Prelude.{◌≡◌};
ghost use Rattle.glk_events.specs.Requests.{line_length, char_value};

use crate::requests::{RETURN, Request, UNKNOWN};

/// The characters of the line that go into the request's buffer.
pub fn line_length(request: &Request, line: &[u32]) -> u32
    ensures { result ≡ line_length request.now line.now }
{
    (request.max as usize).min(line.len()) as u32
}

/// The character of the event: the line's first one, the key Return for an empty line, an unknown key for a
/// character above FF where Latin-1 was asked for.
pub fn char_value(request: &Request, line: &[u32]) -> u32
    ensures { result ≡ char_value request.now line.now }
{
    match line {
        [] => RETURN,
        [c, ..] if request.wide || *c <= 0xFF => *c,
        [..] => UNKNOWN,
    }
}

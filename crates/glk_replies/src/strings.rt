//! Strings in memory (Glulx 3.1.2, "Strings"; specs/Strings).
ghost use Rattle.std.specs.Prelude.{◌≡◌, ◌+◌, ◌*◌, ◌==◌, ◌≤◌, ◌<◌, ◌^◌, if◌then◌else◌, IfOk, length};
ghost use Rattle.gx_words.specs.Constants.{c_string, unicode_string};
ghost use Rattle.gx_words.specs.Faults.{Reads};
ghost use Rattle.glk_replies.specs.Parts.{IsCharWidth};
ghost use Rattle.glk_replies.specs.Strings.{count_to_zero, string_length};

use gx_pages::Pages;
use gx_state::State;
use gx_words::{C_STRING, Fault, UNICODE_STRING};
use std::alloc::Allocator;

/// How many characters stand before the first zero.
#[tactic(auto, using(crate::proofs::Counting::count_turns))]
fn count_to_zero<A: Allocator>(memory: &Pages<A>, width: u32, at: u32) -> Result<u32, Fault>
    requires { IsCharWidth width }
    ensures value { Reads (λ count. count) result (count_to_zero (length memory.now) width memory.now at) }
    ensures there { IfOk result (λ count. at + width * count ≤ length memory.now) }
{
    let mut place = at;
    for count in 0..memory.size() {
        if memory.try_number(width, place)? == 0 {
            return Ok(count);
        }
        place += width;
    }
    Err(Fault::BadAddress)
}

/// The type of strings whose characters have a width.
fn string_type(width: u32) -> u32
    ensures { result ≡ (if width == 1 then c_string else unicode_string) }
{
    if width == 1 { C_STRING } else { UNICODE_STRING }
}

/// How many characters a string has. BadAddress where it isn't in memory whole, BadString where its type is another.
#[tactic(auto, unfolding(crate::specs::Strings::string_length))]
pub fn string_length<A: Allocator + Clone>(
    state: &State<A>,
    width: u32,
    at: u32,
) -> Result<u32, Fault>
    requires { IsCharWidth width }
    ensures value { Reads (λ count. count) result (string_length state.now.flat width at) }
    ensures there { IfOk result (λ count. at + width + width * count ≤ length state.now.flat.memory) }
    ensures low { IfOk result (λ count. at + width + width * count < 2 ^ 32) }
{
    let memory = state.memory();
    if memory.try_number(1, at)? != string_type(width) {
        return Err(Fault::BadString);
    }
    count_to_zero(memory, width, at + width)
}

//! String objects, and references from a string to an object.
ghost use Rattle.std.specs.Prelude.{◌≡◌, ◌≤◌, IfOk};
ghost use Rattle.gx_words.specs.Faults.{Reads};
ghost use Rattle.gx_words.specs.Constants.{ceiling};
ghost use Rattle.gx_strings.specs.Objects.{from_start, as_inner, string_of, string_at, call_of, reference};
ghost use Rattle.gx_strings.specs.Held.{HasBit, HasBits};

use crate::Item;
use gx_pages::Pages;
use gx_words::{
    C_STRING, COMPRESSED_STRING, Fault, LOCALS_FUNCTION, PrintKind, Printing, STACK_FUNCTION,
    UNICODE_STRING,
};
use std::alloc::Allocator;

/// The last of the types that are those of functions (Glulx 3.1.2, "Functions").
pub const LAST_FUNCTION: u32 = 0xDF;

/// A string whose first byte or word is at an address.
pub fn from_start(kind: PrintKind, at: u32) -> Printing
    ensures { result ≡ from_start kind at }
{
    Printing {
        kind,
        at,
        bit: 0,
        started: false,
    }
}

/// The same string where a reference begins it.
pub fn as_inner(string: Printing) -> Printing
    ensures { result ≡ as_inner string }
{
    Printing {
        started: true,
        ..string
    }
}

/// The string that an object of a type is.
fn string_of(type_byte: u32, at: u32) -> Option<Printing>
    requires { at ≤ ceiling }
    ensures { result ≡ string_of type_byte at }
{
    match type_byte {
        C_STRING => Some(from_start(PrintKind::E0, at + 1)),
        COMPRESSED_STRING => Some(from_start(PrintKind::E1, at + 1)),
        UNICODE_STRING => Some(from_start(PrintKind::E2, at + 4)),
        _ => None,
    }
}

/// The beginning of the string at an address: `BadAddress` where that isn't in memory, and
/// `BadString` where the byte there is of no type of strings.
///
/// No other byte of the string is looked at. `started` is false.
#[tactic(auto, unfolding(crate::specs::Objects::string_at))]
pub fn begin<A: Allocator + Clone>(memory: &Pages<A>, at: u32) -> Result<Printing, Fault>
    ensures value { Reads (λ string. string) result (string_at memory.now at) }
    ensures bit { IfOk result HasBit }
{
    let type_byte = memory.try_number(1, at)?;
    string_of(type_byte, at).ok_or(Fault::BadString)
}

/// The call of a function, whose arguments' count stands at `count_at`.
#[tactic(auto, unfolding(crate::specs::Objects::call_of))]
fn call_of<A: Allocator + Clone>(
    memory: &Pages<A>,
    back: Printing,
    object: u32,
    count_at: Option<u32>,
) -> Result<Item, Fault>
    requires { HasBit back }
    ensures value { Reads (λ item. item) result (call_of memory.now back object count_at) }
    ensures bits { IfOk result HasBits }
{
    match count_at {
        None => Ok(Item::Call {
            back,
            at: object,
            args_at: 0,
            args: 0,
        }),
        Some(count_at) => {
            let args = memory.try_number(4, count_at)?;
            Ok(Item::Call {
                back,
                at: object,
                args_at: count_at + 4,
                args,
            })
        }
    }
}

/// The reference to the object at an address; `back` is the place after it.
#[tactic(auto, unfolding(crate::specs::Objects::reference))]
pub fn reference<A: Allocator + Clone>(
    memory: &Pages<A>,
    back: Printing,
    object: u32,
    count_at: Option<u32>,
) -> Result<Item, Fault>
    requires { HasBit back }
    ensures value { Reads (λ item. item) result (reference memory.now back object count_at) }
    ensures bits { IfOk result HasBits }
{
    let type_byte = memory.try_number(1, object)?;
    if let Some(string) = string_of(type_byte, object) {
        return Ok(Item::Sub {
            back,
            inner: as_inner(string),
        });
    }
    match type_byte {
        STACK_FUNCTION | LOCALS_FUNCTION => call_of(memory, back, object, count_at),
        STACK_FUNCTION..=LAST_FUNCTION => Err(Fault::BadFunction),
        _ => Err(Fault::BadString),
    }
}

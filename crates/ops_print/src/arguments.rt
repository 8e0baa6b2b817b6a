//! The arguments of a reference to a function (Glulx 3.1.2, "The String-Decoding Table").
ghost use Rattle.std.specs.Prelude.{◌≤◌, min};
ghost use Rattle.gx_words.specs.Faults.{Reads};
ghost use Rattle.ops_print.specs.Items.{words_in};

use arrayvec::ArrayVec;
use gx_pages::Pages;
use gx_words::Fault;
use std::alloc::Allocator;

/// So many words from an address on; `BadAddress` exactly where one of them isn't in memory.
#[tactic(auto, using(crate::proofs::Words::turns))]
fn words_in<A: Allocator + Clone>(
    memory: &Pages<A>,
    at: u32,
    count: u32,
) -> Result<ArrayVec<u32, 256>, Fault>
    requires { count ≤ 256 }
    ensures { Reads (λ words. words.items) result (words_in memory.now at count) }
{
    let mut words = ArrayVec::new();
    for i in 0..count {
        words.push(memory.try_number(4, at + 4 * i)?);
    }
    Ok(words)
}

/// At most the first 256 of so many arguments from an address on, a word each; `BadAddress` exactly
/// where one of these isn't in memory.
pub fn arguments_in<A: Allocator + Clone>(
    memory: &Pages<A>,
    at: u32,
    count: u32,
) -> Result<ArrayVec<u32, 256>, Fault>
    ensures { Reads (λ args. args.items) result (words_in memory.now at (min count 256)) }
{
    words_in(memory, at, count.min(256))
}

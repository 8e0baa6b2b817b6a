//! What the lines of the jobs work and rewind tell of a machine's memory: the sum of RAM.
ghost use Rattle.std.specs.Prelude.{◌≡◌};
ghost use Rattle.gx_play.specs.Jobs.{ram_sum_of};

use gx_state::State;
use std::alloc::Allocator;

/// The sum modulo 2^32 of the words of RAM.
#[tactic(auto, using(crate::proofs::Sums::sums))]
pub fn ram_sum<A: Allocator + Clone>(state: &State<A>) -> u32
    ensures { result ≡ ram_sum_of state.now.flat }
{
    let memory = state.memory();
    let start = state.ramstart();
    let count = (memory.size() - start) / 4;
    let mut sum = 0u32;
    for index in 0..count {
        sum = sum.wrapping_add(memory.word(start + 4 * index));
    }
    sum
}

//! The arguments that an instruction pops beside its operands.
ghost use Rattle.std.specs.Prelude.{◌≡◌, ◌+◌, ◌-◌, ◌*◌, ◌≤◌, length, OnOk};
ghost use Rattle.gx_words.specs.Faults.{Reads};
ghost use Rattle.gx_state.specs.Flat.{IsHeight};
ghost use Rattle.gx_operands.specs.Arguments.{values_below, values_to, arguments};

use arrayvec::ArrayVec;
use gx_state::State;
use gx_words::{Fault, word_at};
use std::alloc::Allocator;

/// So many values below a stack pointer, the topmost first.
#[tactic(auto, using(crate::proofs::Values::values))]
fn values_below<const MOST: usize>(stack: &[u8], sp: u32, count: u32) -> ArrayVec<u32, MOST>
    requires there { sp ≤ length stack.now }
    requires count { 4 * count ≤ sp }
    requires few { count ≤ MOST }
    ensures { result.items ≡ values_below stack.now sp count }
{
    let mut values = ArrayVec::new();
    for i in 0..count {
        values.push(word_at(stack, (sp - 4 * (i + 1)) as usize));
    }
    values
}

/// How many values the frame has below a stack pointer.
pub fn values_to<A: Allocator + Clone>(state: &State<A>, sp: u32) -> u32
    requires { IsHeight state.now.flat sp }
    ensures value { result ≡ values_to state.now.flat sp }
    ensures fits { 4 * result ≤ sp }
{
    (sp - state.frame().values) / 4
}

/// The arguments below a stack pointer, the first topmost, or the first `MOST` of them where there
/// are more; `Underflow` exactly where the frame has too few values.
#[tactic(auto, unfolding(crate::specs::Arguments::arguments), using(crate::proofs::Values::heights))]
pub fn arguments<A: Allocator + Clone, const MOST: usize>(
    state: &State<A>,
    sp: u32,
    count: u32,
) -> Result<ArrayVec<u32, MOST>, Fault>
    requires { IsHeight state.now.flat sp }
    ensures value { Reads (λ args. args.items) result (arguments state.now.flat sp count MOST) }
    ensures below { OnOk result (IsHeight state.now.flat (sp - 4 * count)) }
    ensures within { OnOk result (4 * count ≤ sp) }
{
    if count > values_to(state, sp) {
        return Err(Fault::Underflow);
    }
    let told = (count as usize).min(MOST) as u32;
    Ok(values_below(state.stack().bytes(), sp, told))
}

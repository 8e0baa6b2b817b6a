//! The bytes of an instruction.
//!
//! Where `ROM` is true they are known to lie below RAMSTART, where memory is the story's in every state: they are read
//! from the story at once. Else each read looks where its bytes lie.
ghost use Rattle.std.specs.Prelude.{◌≡◌, ◌+◌, ◌*◌, ◌<◌, ◌≤◌, ◌^◌, length, Ok, Err, None, IfOk, IfErr, IfSome, OnOk};
ghost use Rattle.gx_words.specs.Constants.{ceiling};
ghost use Rattle.gx_words.specs.Faults.{Reads};
ghost use Rattle.gx_words.specs.Numbers.{IsWidth, byte};
ghost use Rattle.gx_words.specs.declared.faults.Fault.TheVariants.{BadAddress};
ghost use Rattle.gx_pages.specs.Memory.{number_in};
ghost use Rattle.gx_operands.specs.Code.{IsInRom};

use gx_state::State;
use gx_words::{Fault, number_at};
use std::alloc::Allocator;

/// The 1, 2 or 4 bytes from `at` on, wherever they lie; None where one of them isn't in memory. It stands apart, so
/// that `load` stays small enough to be copied to where it is called.
#[inline(never)]
#[tactic(auto, unfolding(gx_pages::specs::Memory::number_in))]
fn anywhere<A: Allocator + Clone>(state: &State<A>, width: u32, at: u32) -> Option<u32>
    requires { IsWidth width }
    ensures value { IfSome result (λ v. number_in width state.now.flat.memory at ≡ Ok v) }
    ensures none { result ≡ None → number_in width state.now.flat.memory at ≡ Err BadAddress }
    ensures low { IfSome result (λ v. at + width ≤ ceiling) }
    ensures fits { IfSome result (λ v. v < 256 ^ width) }
{
    state.code(width, at).ok()
}

/// The same for one byte, as most data has.
#[inline(never)]
#[tactic(auto, unfolding(gx_pages::specs::Memory::number_in))]
fn byte_anywhere<A: Allocator + Clone>(state: &State<A>, at: u32) -> Option<u32>
    ensures value { IfSome result (λ v. number_in 1 state.now.flat.memory at ≡ Ok v) }
    ensures none { result ≡ None → number_in 1 state.now.flat.memory at ≡ Err BadAddress }
    ensures low { IfSome result (λ v. at + 1 ≤ ceiling) }
    ensures fits { IfSome result (λ v. v < 256 ^ 1) }
{
    if at < state.memory().size() {
        Some(state.code_byte(at))
    } else {
        None
    }
}

/// The 1, 2 or 4 bytes from `at` on.
#[inline(always)]
#[tactic(auto, using(gx_state::proofs::Bytes::code))]
pub fn code<A: Allocator + Clone, const ROM: bool>(
    state: &State<A>,
    width: u32,
    at: u32,
) -> Result<u32, Fault>
    requires width { IsWidth width }
    requires rom { IsInRom ROM state.now.flat (at + width) }
    ensures value { Reads (λ v. v) result (number_in width state.now.flat.memory at) }
    ensures low { OnOk result (at + width ≤ ceiling) }
    ensures fits { IfOk result (λ v. v < 256 ^ width) }
{
    if ROM {
        let _memory = state.memory(); // a state is sound
        return Ok(number_at(state.story().bytes(), width, at as usize));
    }
    let found = match width {
        1 => byte_anywhere(state, at),
        _ => anywhere(state, width, at),
    };
    match found {
        Some(v) => Ok(v),
        None => Err(Fault::BadAddress),
    }
}

/// The two bytes from `at` on.
#[inline(always)]
#[tactic(auto, using(gx_state::proofs::Bytes::code_byte))]
pub fn code_pair<A: Allocator + Clone, const ROM: bool>(
    state: &State<A>,
    at: u32,
) -> Result<(u32, u32), Fault>
    requires rom { IsInRom ROM state.now.flat (at + 2) }
    ensures there { OnOk result (at + 2 ≤ length state.now.flat.memory) }
    ensures low { OnOk result (at + 2 ≤ ceiling) }
    ensures value { IfOk result (λ pair. (pair.0 ≡ byte state.now.flat.memory at)
        × (pair.1 ≡ byte state.now.flat.memory (at + 1))) }
    ensures fits { IfOk result (λ pair. (pair.0 < 2 ^ 8) × (pair.1 < 2 ^ 8)) }
    ensures fault { IfErr result (λ fault. (fault ≡ BadAddress) × (length state.now.flat.memory < at + 2)) }
{
    if ROM {
        let bytes = state.story().bytes();
        let at = at as usize;
        let _memory = state.memory(); // a state is sound
        let both = u32::from(bytes[at]) + 256 * u32::from(bytes[at + 1]);
        return Ok((both % 256, both / 256));
    }
    state.code_pair(at)
}

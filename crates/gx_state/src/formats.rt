//! Reading the locals format of a function (Glulx 3.1.2, "Functions").
//!
//! A format is pairs of a type and a count, and an ending pair of type 0. The type is the size of each
//! of the pair's locals in bytes. At most 64 pairs may stand before the ending one.
ghost use Rattle.std.specs.Prelude.{◌≡◌, ◌==◌, ◌||◌, ◌+◌, ◌*◌, ◌≤◌, length, slice_range, Ok, IfOk, OnOk};
ghost use Rattle.arrayvec.specs.ArrayVec.{array_vec_len};
ghost use Rattle.gx_words.specs.Constants.{ceiling};
ghost use Rattle.gx_words.specs.Faults.{Reads};
ghost use Rattle.gx_stack.specs.Held.{ArePairs, IsFormat};
ghost use Rattle.gx_state.specs.Entry.{format_from, behind};

use crate::readable::Readable;
use arrayvec::ArrayVec;
use gx_words::Fault;

/// Adds the pairs from an address on, at most `left` of them before the ending pair.
#[tactic(auto, using(crate::proofs::Pairs::format_turns))]
fn push_pairs<M: Readable>(
    memory: &M,
    at: u32,
    left: u32,
    format: &mut ArrayVec<u8, 130>,
) -> Result<(), Fault>
    requires room { array_vec_len format.old + 2 * left + 2 ≤ 130 }
    requires pairs { ArePairs format.old.items }
    ensures value { Reads (λ done. format.new.items) result
        (behind format.old.items (format_from (M.bytes memory.now) at left)) }
    ensures format { OnOk result (IsFormat format.new.items) }
{
    let width = memory.byte(at)?;
    let count = memory.byte(at + 1)?;
    match width {
        0 => {
            format.push(0);
            format.push(count);
            Ok(())
        }
        1 | 2 | 4 if left > 0 => {
            format.push(width);
            format.push(count);
            push_pairs(memory, at + 2, left - 1, format)
        }
        _ => Err(Fault::BadFunction),
    }
}

/// The locals format at an address.
#[tactic(auto, using(crate::proofs::Pairs::whole))]
pub fn format_at<M: Readable>(memory: &M, at: u32) -> Result<ArrayVec<u8, 130>, Fault>
    ensures value { Reads (λ format. format.items) result (format_from (M.bytes memory.now) at 64) }
    ensures format { IfOk result (λ format. IsFormat format.items) }
{
    let mut format = ArrayVec::new();
    push_pairs(memory, at, 64, &mut format)?;
    Ok(format)
}

/// Whether locals have this type.
#[inline(always)]
fn is_type(width: u8) -> bool
    ensures { result ≡ (width == 1 || width == 2 || width == 4) }
{
    width == 1 || width == 2 || width == 4
}

/// Where the locals format at an address ends.
#[inline(never)]
#[tactic(auto, using(crate::proofs::Pairs::end_turns))]
pub fn format_end<M: Readable>(memory: &M, at: u32) -> Result<u32, Fault>
    ensures value { Reads (λ end. slice_range (M.bytes memory.now) at end) result
        (format_from (M.bytes memory.now) at 64) }
    ensures format { IfOk result (λ end. IsFormat (slice_range (M.bytes memory.now) at end)) }
    ensures behind { IfOk result (λ end. at + 2 ≤ end) }
    ensures there { IfOk result (λ end. end ≤ length (M.bytes memory.now)) }
    ensures low { IfOk result (λ end. end ≤ ceiling) }
{
    let mut here = at;
    let mut left = 64u32;
    'pairs: loop {
        let width = memory.byte(here)?;
        let _count = memory.byte(here + 1)?; // both bytes of a pair have to be in memory
        here += 2;
        if width == 0 {
            return Ok(here);
        }
        if left == 0 {
            return Err(Fault::BadFunction);
        }
        if !is_type(width) {
            return Err(Fault::BadFunction);
        }
        left -= 1;
    }
}

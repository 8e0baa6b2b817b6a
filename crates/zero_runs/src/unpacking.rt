//! Reading: the bytes that packed bytes stand for over the old ones.
//!
//! The bytes are counted before memory is asked for, so what a file claims costs nothing.
ghost use Rattle.std.specs.Prelude.{◌≡◌, ◌≢◌, ◌<◌, ◌+◌, ◌++◌, ℕ, List, length, take, drop, replicate, Ok, Err, OnOk};
ghost use Rattle.std.specs.Prelude.{OnErr, IfOk, IfErr, IsOk};
ghost use Rattle.gx_words.specs.Results.{Gives};
ghost use Rattle.zero_runs.specs.Packing.{xored};
ghost use Rattle.zero_runs.specs.Unpacking.{expand, unpacked};
ghost use Rattle.zero_runs.specs.Laws.{expanded_len, expanded_onto, unpacked_onto};

use crate::faults::RunFault;
use crate::packing::byte_or_zero;
use gx_words::Bytes;
use std::alloc::{AllocError, Global};

/// How many bytes packed bytes stand for.
fn expanded_len(packed: &[u8]) -> Result<u128, RunFault>
    ensures value { result ≡ expanded_len packed.now }
    ensures cut { IfErr result (λ fault. fault ≡ RunFault.Cut) }
{
    let mut len = 0u128;
    let mut rest = packed;
    while let Some((byte, after)) = rest.split_first() {
        if *byte == 0 {
            let Some((more, after)) = after.split_first() else {
                return Err(RunFault::Cut);
            };
            len += u128::from(*more) + 1;
            rest = after;
        } else {
            len += 1;
            rest = after;
        }
    }
    Ok(len)
}

/// Adds zeros. After a refusal a part of them may be there.
#[tactic(auto, using(crate::proofs::PackingTurns::run_turns))]
fn push_zeros(count: usize, out: &mut Bytes) -> Result<(), AllocError>
    ensures ok { OnOk result (out.new ≡ out.old ++ replicate count 0) }
    ensures grows { take (length out.old) out.new ≡ out.old }
{
    for _zero in 0..count {
        out.push(0)?;
    }
    Ok(())
}

/// Adds so many of the old bytes, from the place that the output has come to. After a refusal a part of them may be
/// there.
fn push_old(old: &[u8], count: usize, out: &mut Bytes) -> Result<(), AllocError>
    ensures ok { OnOk result (out.new ≡ out.old ++ xored (replicate count 0) (drop (length out.old) old.now)) }
    ensures grows { take (length out.old) out.new ≡ out.old }
{
    let (_, ahead) = old.split_at(out.len().min(old.len()));
    let (there, _) = ahead.split_at(count.min(ahead.len()));
    out.extend_from_slice(there)?;
    push_zeros(count - there.len(), out)
}

/// Adds the list that packed bytes stand for, xor the old bytes from the place that the output has come to; none of
/// its counts is missing. After a refusal a part of it may be there.
fn push_expanded(packed: &[u8], old: &[u8], out: &mut Bytes) -> Result<(), AllocError>
    requires { IsOk (expand packed.now) }
    ensures ok { OnOk result (expanded_onto out.old packed.now old.now ≡ Ok out.new) }
    ensures grows { take (length out.old) out.new ≡ out.old }
{
    let mut rest = packed;
    while let Some((byte, after)) = rest.split_first() {
        if *byte == 0 {
            let Some((more, after)) = after.split_first() else {
                unreachable!();
            };
            push_old(old, usize::from(*more) + 1, out)?;
            rest = after;
        } else {
            out.push(*byte ^ byte_or_zero(old, out.len()))?;
            rest = after;
        }
    }
    Ok(())
}

/// Does what `unpack_onto` does where there is no fault, but after a refusal a part of it may be there.
fn push_unpacked(packed: &[u8], old: &[u8], size: usize, out: &mut Bytes) -> Result<(), AllocError>
    requires { IsOk (unpacked_onto out.old packed.now old.now size) }
    ensures ok { OnOk result (unpacked_onto out.old packed.now old.now size ≡ Ok out.new) }
    ensures grows { take (length out.old) out.new ≡ out.old }
{
    let before = out.len();
    push_expanded(packed, old, out)?;
    let added = out.len() - before;
    push_old(old, size - added, out)
}

/// Whether packed bytes stand for at most `size` bytes: the faults of `unpack`, over whatever old bytes. Takes no
/// memory.
#[tactic(auto, using(crate::proofs::UnpackingTurns::unpacked_parts), unfolding(crate::proofs::UnpackingTurns::opened))]
pub fn check(packed: &[u8], size: usize) -> Result<(), RunFault>
    ensures ok { OnOk result ((old : List ℕ) → IsOk (unpacked packed.now old size)) }
    ensures fault { IfErr result (λ fault. (old : List ℕ) → unpacked packed.now old size ≡ Err fault) }
    ensures memory { IfErr result (λ fault. fault ≢ RunFault.NoMemory) }
{
    if expanded_len(packed)? > size as u128 {
        Err(RunFault::TooMany)
    } else {
        Ok(())
    }
}

/// Adds the `size` bytes that packed bytes stand for. The old bytes are those of the whole list, so that the first byte
/// that is added is over the one at the list's end.
///
/// Memory is taken only where there is no fault, and none for no bytes. A refusal leaves the list as it was.
pub fn unpack_onto(out: &mut Bytes, packed: &[u8], old: &[u8], size: usize) -> Result<(), RunFault>
    ensures value { Gives RunFault.NoMemory (λ _. out.new) result (unpacked_onto out.old packed.now old.now size) }
    ensures len { OnOk result (length out.new ≡ length out.old + size) }
    ensures err { OnErr result (out.new ≡ out.old) }
    ensures memory { IfErr result (λ fault. fault ≡ RunFault.NoMemory → 0 < size) }
{
    check(packed, size)?;
    if size == 0 {
        return Ok(());
    }
    let before = out.len();
    match push_unpacked(packed, old, size, out) {
        Ok(()) => Ok(()),
        Err(_) => {
            out.truncate(before);
            Err(RunFault::NoMemory)
        }
    }
}

/// The `size` bytes that packed bytes stand for over the old ones. Memory is taken only where they do, once for all of
/// them, and none for no bytes.
pub fn unpack(alloc: Global, packed: &[u8], old: &[u8], size: usize) -> Result<Bytes, RunFault>
    ensures value { Gives RunFault.NoMemory (λ bytes. bytes) result (unpacked packed.now old.now size) }
    ensures len { IfOk result (λ bytes. length bytes ≡ size) }
    ensures memory { IfErr result (λ fault. fault ≡ RunFault.NoMemory → 0 < size) }
{
    check(packed, size)?;
    if size == 0 {
        return Ok(Bytes::new(alloc));
    }
    let mut out = Bytes::with_capacity(alloc, size)?;
    push_unpacked(packed, old, size, &mut out)?;
    Ok(out)
}

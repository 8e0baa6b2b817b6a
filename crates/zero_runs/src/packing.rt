//! Writing: what differs from the old bytes, with its runs of zeros written short.
//!
//! Each run is as long as may be, and zeros at the end are left out. A refusal leaves the output as
//! it was, and there is none where nothing is written.
ghost use Rattle.std.specs.Prelude.{◌≡◌, ◌≢◌, [], ◌++◌, length, take, slice_index, OnOk, OnErr};
ghost use Rattle.zero_runs.specs.Packing.{xored, run, packed};

use gx_words::Bytes;
use std::alloc::AllocError;

/// The byte at a place, 0 past the end.
pub(crate) fn byte_or_zero(bytes: &[u8], at: usize) -> u8
    ensures { result ≡ slice_index bytes.now at }
{
    if at < bytes.len() { bytes[at] } else { 0 }
}

/// Adds a run of zeros. After a refusal a part of it may be there.
#[tactic(auto, using(crate::proofs::PackingTurns::run_turns), unfolding(crate::specs::Packing::run))]
fn push_run(zeros: usize, out: &mut Bytes) -> Result<(), AllocError>
    ensures ok { OnOk result (out.new ≡ out.old ++ run zeros) }
    ensures grows { take (length out.old) out.new ≡ out.old }
{
    for _pair in 0..zeros / 256 {
        out.extend_from_slice(&[0, 0xFF])?;
    }
    let rest = zeros % 256;
    if rest > 0 {
        out.extend_from_slice(&[0, (rest - 1) as u8])?;
    }
    Ok(())
}

/// Does what `pack` does, but after a refusal a part of it may be there.
#[tactic(auto, using(crate::proofs::PackingTurns::pack_turns))]
fn push_packed(new: &[u8], old: &[u8], out: &mut Bytes) -> Result<(), AllocError>
    ensures ok { OnOk result (out.new ≡ out.old ++ packed (xored new.now old.now)) }
    ensures grows { take (length out.old) out.new ≡ out.old }
    ensures memory { OnErr result (packed (xored new.now old.now) ≢ []) }
{
    let mut zeros = 0usize;
    for (at, byte) in new.iter().enumerate() {
        let changed = *byte ^ byte_or_zero(old, at);
        if changed == 0 {
            zeros += 1;
        } else {
            push_run(zeros, out)?;
            out.push(changed)?;
            zeros = 0;
        }
    }
    Ok(())
}

/// Adds the packed bytes of `new` xor `old`.
pub fn pack(new: &[u8], old: &[u8], out: &mut Bytes) -> Result<(), AllocError>
    ensures ok { OnOk result (out.new ≡ out.old ++ packed (xored new.now old.now)) }
    ensures err { OnErr result (out.new ≡ out.old) }
    ensures memory { OnErr result (packed (xored new.now old.now) ≢ []) }
{
    let before = out.len();
    match push_packed(new, old, out) {
        Ok(()) => Ok(()),
        Err(refused) => {
            out.truncate(before);
            Err(refused)
        }
    }
}

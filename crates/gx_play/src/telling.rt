//! An output in one call of the sink: a line, a story or a listing, whole or not.
ghost use Rattle.std.specs.Prelude.{◌≢◌};
ghost use Rattle.gx_outside.specs.Chains.{IsCalled};
ghost use Rattle.gx_session.specs.Constants.{status_output_fault};
ghost use Rattle.gx_play.specs.Answers.{SendsOutput};
ghost use Rattle.gx_play.specs.Loading.{BlamesSink};

use crate::loading::without_machine;
use gx_outside::{SendFault, Sink};
use gx_session::{Ended, statuses};
use std::alloc::Allocator;

/// Sends all bytes; the answer with this status where they were sent whole.
pub fn send_output<A: Allocator + Clone, K: Sink>(
    output: &mut K,
    bytes: &[u8],
    status: u8,
) -> Ended<A>
    requires { status ≢ status_output_fault }
    ensures sends { IsCalled K.called output.old output.new
        (λ sends. SendsOutput status 0 0 0 bytes.now (K.seen output.old) (K.seen output.new) sends result) }
    ensures blames { BlamesSink (K.seen output.old) (K.seen output.new) result.status }
{
    match output.send(bytes) {
        Ok(()) => without_machine(status, 0, 0),
        Err(SendFault::Failed) => without_machine(statuses::OUTPUT_FAULT, 0, 0),
        Err(SendFault::NoMemory) => without_machine(statuses::NO_MEMORY, 0, 0),
    }
}

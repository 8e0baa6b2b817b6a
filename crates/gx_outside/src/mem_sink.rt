//! A sink in memory.
ghost use Rattle.std.specs.Prelude.{◌≡◌, [], ◌++◌, IfOk, OnOk, OnErr};
ghost use Rattle.gx_outside.specs.Fakes.{no_calls, fails_next, after_call, seen_sink};
ghost use Rattle.gx_outside.specs.Outside.{send_cause};
ghost use Rattle.gx_outside.specs.Sends.{SinkCall};

use crate::numbered::NumberedCalls;
use crate::{SendFault, Sink};
use gx_words::Bytes;
use std::alloc::{AllocError, Global};
use std::marker::Model;

/// A sink that keeps what it takes. Its calls are numbered from 1, and those whose numbers it was
/// given fail and take nothing.
#[derive(Drop)]
pub struct MemSink {
    taken: Bytes,
    calls: NumberedCalls,
}

impl Model for MemSink {
    ghost use Rattle.gx_outside.specs.Fakes.{HeldSink};

    ghost Value = { HeldSink };

    ghost view = { λ s. record { taken = s.taken; calls = s.calls } };
}

impl MemSink {
    /// An empty sink.
    pub fn new(alloc: Global, fails: &[u64]) -> Result<MemSink, AllocError>
        ensures { IfOk result (λ sink. sink ≡ record { taken = []; calls = no_calls fails.now }) }
    {
        Ok(MemSink {
            taken: Bytes::new(alloc),
            calls: NumberedCalls::new(alloc, fails)?,
        })
    }

    /// All bytes that it has taken.
    pub fn bytes(&self) -> &[u8]
        ensures { result.now ≡ self.now.taken }
    {
        self.taken.as_slice()
    }
}

impl Sink for MemSink {
    ghost seen = { seen_sink };

    ghost called = { λ before s now. SinkCall (seen_sink before) s (seen_sink now) };

    ghost called_so = { λ before s now does. does };

    fn send(&mut self, bytes: &[u8]) -> Result<(), SendFault>
        ensures fails { (send_cause result).0 ≡ fails_next self.old.calls }
        ensures calls { self.new.calls ≡ after_call self.old.calls (send_cause result).1 }
        ensures ok { OnOk result (self.new.taken ≡ self.old.taken ++ bytes.now) }
        ensures err { OnErr result (self.new.taken ≡ self.old.taken) }
        ensures does { SinkCall (seen_sink self.old) (bytes.now, result) (seen_sink self.new) }
    {
        if self.calls.begin() {
            return Err(SendFault::Failed);
        }
        let sent = self.taken.extend_from_slice(bytes);
        self.calls.end(sent.is_err());
        sent?;
        Ok(())
    }
}

//! Standard output, or another writer.
//!
//! After Ok the writer holds all the bytes after those that it held: proved for every writer whose
//! bytes std tells. Of standard output it tells none, and of a failed `write_all` not how much was
//! written.
ghost use Rattle.std.specs.Prelude.{◌≡◌, None, OnErr, OnOk, IsSome};
ghost use Rattle.std.specs.Io.KnownBytes.{Appends};
ghost use Rattle.gx_devices.specs.Devices.{seen_sink};
ghost use Rattle.gx_outside.specs.Outside.{no_call};
ghost use Rattle.gx_outside.specs.Sends.{SinkCall};

use gx_outside::{Calls, SendFault, Sink};
use std::io;
use std::io::Write;
use std::marker::Model;

/// Standard output, or another writer.
#[derive(Drop)]
pub struct StdSink<W> {
    writer: W,
    calls: Calls,
    error: Option<io::Error>,
}

impl<W> Model for StdSink<W> {
    ghost use Rattle.gx_devices.specs.Devices.{HeldSink};

    ghost Value = { HeldSink W };

    ghost view = { λ s. record { writer = s.writer; calls = s.calls; error = s.error } };
}

impl<W: Write> StdSink<W> {
    /// A sink over a writer; nothing was sent yet.
    pub fn new(writer: W) -> StdSink<W>
        ensures { result ≡ record { writer = writer; calls = no_call; error = None } }
    {
        StdSink {
            writer,
            calls: Calls::none(),
            error: None,
        }
    }

    /// Why the last send failed; None where none did.
    pub fn error(&self) -> Option<io::Error>
        ensures { result ≡ self.now.error }
    {
        self.error
    }
}

impl<W: Write> Sink for StdSink<W> {
    ghost seen = { seen_sink };

    // What a call does is said as far as std tells: how it is counted, and what a writer whose bytes std tells holds
    // then. That a run makes the session's calls is proved for every sink, whatever `called` says of it.
    ghost called = { λ before s now. SinkCall (seen_sink before) s (seen_sink now)
        × OnOk s.1 (Appends (W.contents before.writer) (W.contents now.writer) s.0)
        × OnOk s.1 (now.error ≡ before.error) × OnErr s.1 (IsSome now.error) };

    ghost called_so = { λ before s now does. does.0 };

    fn send(&mut self, bytes: &[u8]) -> Result<(), SendFault>
        ensures does { SinkCall (seen_sink self.old) (bytes.now, result) (seen_sink self.new) }
        ensures written { OnOk result (Appends (W.contents self.old.writer) (W.contents self.new.writer) bytes.now) }
        ensures ok { OnOk result (self.new.error ≡ self.old.error) }
        ensures err { OnErr result (IsSome self.new.error) }
    {
        let written = self.writer.write_all(bytes);
        self.calls.note(written.is_err(), false);
        match written {
            Ok(()) => Ok(()),
            Err(error) => {
                self.error = Some(error);
                Err(SendFault::Failed)
            }
        }
    }
}

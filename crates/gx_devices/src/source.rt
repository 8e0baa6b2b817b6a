//! Standard input, or another reader.
//!
//! What is handed out are the reader's next bytes, and it keeps the rest: proved for every reader
//! whose bytes std tells. Of standard input it tells none, nor when a read fails. That the
//! reader is handed the whole slice, as is noted, no clause on a reader can say.
ghost use Rattle.std.specs.Prelude.{◌≡◌, ◌≤◌, None, IfOk, IsSome, OnErr, OnOk, length};
ghost use Rattle.std.specs.Io.KnownBytes.{ReadConsumes};
ghost use Rattle.gx_devices.specs.Devices.{seen_source};
ghost use Rattle.gx_outside.specs.Outside.{no_call};
ghost use Rattle.gx_outside.specs.Reads.{SourceCall, given};

use gx_outside::{Calls, Failed, Source};
use std::io;
use std::io::Read;
use std::marker::Model;

/// Standard input, or another reader.
#[derive(Drop)]
pub struct StdSource<I> {
    reader: I,
    calls: Calls,
    offered: u64,
    error: Option<io::Error>,
}

impl<I> Model for StdSource<I> {
    ghost use Rattle.gx_devices.specs.Devices.{HeldSource};

    ghost Value = { HeldSource I };

    ghost view = { λ s. record { reader = s.reader; calls = s.calls; offered = s.offered; error = s.error } };
}

impl<I: Read> StdSource<I> {
    /// A source over a reader; nothing was read yet.
    pub fn new(reader: I) -> StdSource<I>
        ensures { result ≡ record { reader = reader; calls = no_call; offered = 0; error = None } }
    {
        StdSource {
            reader,
            calls: Calls::none(),
            offered: 0,
            error: None,
        }
    }

    /// Why the last read failed; None where none did.
    pub fn error(&self) -> Option<io::Error>
        ensures { result ≡ self.now.error }
    {
        self.error
    }
}

impl<I: Read> Source for StdSource<I> {
    ghost seen = { seen_source };

    // What a call does is said as far as std tells, which is how it is counted. That a run makes so many calls, with
    // so much room, is proved for every source, whatever `called` says of it.
    ghost called = { λ before r now. SourceCall (seen_source before) r (seen_source now)
        × OnOk r.1 (now.error ≡ before.error) × OnErr r.1 (IsSome now.error) };

    ghost called_so = { λ before r now does. does.0 };

    fn read(&mut self, into: &mut [u8]) -> Result<usize, Failed>
        ensures bound { IfOk result (λ count. count ≤ length into.old) }
        ensures does { SourceCall (seen_source self.old) (length into.old, given into.new result)
            (seen_source self.new) }
        ensures next { ReadConsumes (I.remaining self.old.reader) (I.remaining self.new.reader) result into.new }
        ensures ok { OnOk result (self.new.error ≡ self.old.error) }
        ensures err { OnErr result (IsSome self.new.error) }
    {
        self.offered = self.offered.saturating_add(into.len() as u64);
        let count = self.reader.read(into);
        self.calls.note(count.is_err(), false);
        match count {
            Ok(count) => Ok(count),
            Err(error) => {
                self.error = Some(error);
                Err(Failed)
            }
        }
    }
}

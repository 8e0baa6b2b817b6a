//! A device that is asked again: where a signal interrupts a call, and where the device isn't ready.
//!
//! A call that a signal interrupts has done nothing, and is made again at once. Standard input and
//! output are open to other programs too, and one of them may have set them so that a call never
//! waits. Such a call answers that it would have to, and is made again after a pause.
//!
//! So neither answer ever comes out, and the bytes are those of the device: proved for every reader
//! and writer whose bytes std tells. A call is made 2^64 - 1 times at most.
ghost use Rattle.std.specs.Prelude.{◌≡◌, ◌≢◌, ◌↔◌, ◌⊎◌, true, IfErr};
ghost use Rattle.std.specs.Io.{ReadsAtMost, WritesAtMost};
ghost use Rattle.std.specs.Io.KnownBytes.{ReadConsumes, WriteAppends};
ghost use Rattle.std.specs.IoError.{error_kind};

use std::io::{self, ErrorKind, Read, Write};
use std::marker::Model;
use std::thread;
use std::time::{Clock, Duration};

/// How many milliseconds a device that isn't ready is left alone.
const PAUSE: u64 = 10;

/// A reader or a writer that waits until it is ready.
#[derive(Drop)]
pub struct Patient<'a, C, D> {
    clock: &'a C,
    device: D,
}

impl<'a, C, D> Model for Patient<'a, C, D> {
    ghost Value = { D };

    ghost view = { λ s. s.device };
}

impl<'a, C: Clock, D> Patient<'a, C, D> {
    /// A device that isn't asked yet. The clock measures its pauses.
    pub fn new(clock: &'a C, device: D) -> Patient<'a, C, D>
        ensures { result ≡ device }
    {
        Patient { clock, device }
    }

    /// Whether the call is to be made again after this error, and the pause before it.
    fn goes_on(&self, error: &io::Error) -> bool
        ensures { result ≡ true
            ↔ ((error_kind error.now ≡ ErrorKind.Interrupted) ⊎ (error_kind error.now ≡ ErrorKind.WouldBlock)) }
    {
        match error.kind() {
            ErrorKind::Interrupted => true,
            ErrorKind::WouldBlock => {
                thread::sleep(self.clock, Duration::from_millis(PAUSE));
                true
            }
            _ => false,
        }
    }
}

impl<C: Clock, R: Read> Read for Patient<'_, C, R> {
    ghost remaining = { R.remaining };

    fn read(&mut self, buf: &mut [u8]) -> io::Result<usize>
        ensures bound { ReadsAtMost result buf.new }
        ensures bytes { ReadConsumes (R.remaining self.old) (R.remaining self.new) result buf.new }
        ensures ready { IfErr result (λ error. error_kind error ≢ ErrorKind.Interrupted
            × error_kind error ≢ ErrorKind.WouldBlock) }
    {
        for _ in 0..u64::MAX {
            match self.device.read(buf) {
                Ok(count) => return Ok(count),
                Err(error) if self.goes_on(&error) => {}
                Err(error) => return Err(error),
            }
        }
        Err(io::Error::from(ErrorKind::TimedOut))
    }
}

impl<C: Clock, W: Write> Write for Patient<'_, C, W> {
    ghost contents = { W.contents };

    fn write(&mut self, buf: &[u8]) -> io::Result<usize>
        ensures bound { WritesAtMost result buf.now }
        ensures bytes { WriteAppends (W.contents self.old) (W.contents self.new) result buf.now }
        ensures ready { IfErr result (λ error. error_kind error ≢ ErrorKind.Interrupted
            × error_kind error ≢ ErrorKind.WouldBlock) }
    {
        for _ in 0..u64::MAX {
            match self.device.write(buf) {
                Ok(count) => return Ok(count),
                Err(error) if self.goes_on(&error) => {}
                Err(error) => return Err(error),
            }
        }
        Err(io::Error::from(ErrorKind::TimedOut))
    }

    fn flush(&mut self) -> io::Result<()> {
        self.device.flush()
    }
}

/// Makes a call again as often as a signal interrupts it.
pub fn uninterrupted<T, F: FnMut() -> io::Result<T>>(mut call: F) -> io::Result<T>
    requires { F.IsAlwaysCallable call }
    ensures { IfErr result (λ error. error_kind error ≢ ErrorKind.Interrupted) }
{
    for _ in 0..u64::MAX {
        match call() {
            Ok(answer) => return Ok(answer),
            Err(error) if error.kind() == ErrorKind::Interrupted => {}
            Err(error) => return Err(error),
        }
    }
    Err(io::Error::from(ErrorKind::TimedOut))
}

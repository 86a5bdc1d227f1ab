//! Streams that try again. A call that a signal interrupted, or that would have had to wait, says
//! nothing of the stream: it is made again, so that nobody above takes it for a fault.

ghost use Rattle.std.specs.{
  Prelude.{◌≡◌, ◌≢◌, ◌⊎◌, true, IfErr},
  Io.{ReadsAtMost, WritesAtMost},
  Io.KnownBytes.{Keeps, ReadConsumes, WriteAppends},
  IoError.{error_kind},
  declared.io.ErrorKind.TheVariants.{Interrupted, WouldBlock},
};

use std::io::{self, Error, ErrorKind, Read, Write};
use std::thread;
use std::time::{Clock, Duration};

/// How long is waited until a call is made again that would have had to wait, in milliseconds.
const PAUSE_MILLIS: u64 = 1;

/// How often a call is made in a row before it fails. No run gets there: it would take 580 years of
/// calls of a nanosecond each.
const MAX_TRIES: u64 = u64::MAX;

/// A stream, such as standard input or output, whose calls are made again as long as a signal
/// interrupts them or they would have to wait.
#[derive(Drop)]
pub struct Patient<C, S> {
    clock: C,
    stream: S,
}

impl<C, S> Patient<C, S> {
    /// The stream, with the clock by which it waits.
    pub fn new(clock: C, stream: S) -> Patient<C, S>
        ensures { result.stream ≡ stream }
    {
        Patient { clock, stream }
    }
}

/// Whether a call that failed so is made again: exactly if a signal interrupted it, or it would
/// have had to wait. In the latter case this waits.
fn is_made_again<C: Clock>(clock: &C, error: &Error) -> bool
    ensures interrupted { error_kind error.now ≡ Interrupted → result ≡ true }
    ensures blocked { error_kind error.now ≡ WouldBlock → result ≡ true }
    ensures only { result ≡ true
        → (error_kind error.now ≡ Interrupted) ⊎ (error_kind error.now ≡ WouldBlock) }
{
    match error.kind() {
        ErrorKind::Interrupted => true,
        ErrorKind::WouldBlock => {
            thread::sleep(clock, Duration::from_millis(PAUSE_MILLIS));
            true
        }
        _ => false,
    }
}

/// Reads once; a read that is to be made again is none.
fn read_patiently<C: Clock, R: Read>(
    clock: &C,
    reader: &mut R,
    buffer: &mut [u8],
) -> io::Result<usize>
    ensures bound { ReadsAtMost result buffer.new }
    ensures bytes { ReadConsumes (R.remaining reader.old) (R.remaining reader.new) result
        buffer.new }
    ensures interrupted { IfErr result (λ error. error_kind error ≢ Interrupted) }
    ensures blocked { IfErr result (λ error. error_kind error ≢ WouldBlock) }
{
    for _ in 0..MAX_TRIES {
        match reader.read(buffer) {
            Ok(count) => return Ok(count),
            Err(error) => {
                if !is_made_again(clock, &error) {
                    return Err(error);
                }
            }
        }
    }
    Err(ErrorKind::TimedOut.into())
}

/// Writes once; a write that is to be made again is none.
fn write_patiently<C: Clock, W: Write>(clock: &C, writer: &mut W, bytes: &[u8]) -> io::Result<usize>
    ensures bound { WritesAtMost result bytes.now }
    ensures bytes { WriteAppends (W.contents writer.old) (W.contents writer.new) result bytes.now }
    ensures interrupted { IfErr result (λ error. error_kind error ≢ Interrupted) }
    ensures blocked { IfErr result (λ error. error_kind error ≢ WouldBlock) }
{
    for _ in 0..MAX_TRIES {
        match writer.write(bytes) {
            Ok(count) => return Ok(count),
            Err(error) => {
                if !is_made_again(clock, &error) {
                    return Err(error);
                }
            }
        }
    }
    Err(ErrorKind::TimedOut.into())
}

impl<C: Clock, R: Read> Read for Patient<C, R> {
    ghost remaining = { λ reader. R.remaining reader.stream };

    /// Reads once. It fails neither as interrupted nor for want of waiting.
    fn read(&mut self, buffer: &mut [u8]) -> io::Result<usize>
        ensures bound { ReadsAtMost result buffer.new }
        ensures bytes { ReadConsumes (R.remaining self.old.stream) (R.remaining self.new.stream)
            result buffer.new }
        ensures interrupted { IfErr result (λ error. error_kind error ≢ Interrupted) }
        ensures blocked { IfErr result (λ error. error_kind error ≢ WouldBlock) }
    {
        read_patiently(&self.clock, &mut self.stream, buffer)
    }
}

impl<C: Clock, W: Write> Write for Patient<C, W> {
    ghost contents = { λ writer. W.contents writer.stream };

    /// Writes once. It fails neither as interrupted nor for want of waiting.
    fn write(&mut self, bytes: &[u8]) -> io::Result<usize>
        ensures bound { WritesAtMost result bytes.now }
        ensures bytes { WriteAppends (W.contents self.old.stream) (W.contents self.new.stream)
            result bytes.now }
        ensures interrupted { IfErr result (λ error. error_kind error ≢ Interrupted) }
        ensures blocked { IfErr result (λ error. error_kind error ≢ WouldBlock) }
    {
        write_patiently(&self.clock, &mut self.stream, bytes)
    }

    fn flush(&mut self) -> io::Result<()>
        ensures bytes { Keeps (W.contents self.old.stream) (W.contents self.new.stream) }
    {
        self.stream.flush()
    }
}

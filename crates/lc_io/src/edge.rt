//! The edges over real streams. No contract can name the bytes of a real stream, so `left` and
//! `told` are not known here. If std knows the bytes of a stream, as it does of a slice or a vector
//! in memory, the clauses `reader` and `writer` say what becomes of them.

ghost use Rattle.std.specs.{
  Prelude.{◌≡◌, ℕ, ◌<◌, ◌≤◌, length, take, None, IfOk, IsErr},
  Io.KnownBytes.{ReadConsumes, Appends},
};
ghost use Rattle.lc_io.specs.{Disk.{Stays}, Outside.{Pulls, Tells}, Streams.{CountsFaults, Writes}};
ghost use Rattle.lc_base.specs.Faults.{HasCause};

use crate::outside::{Clock, Failed, Source, Wire};
use std::io::{Read, Write};

/// A stream of the host, such as standard input or output: a source if it is a reader, a wire if it
/// is a writer.
#[derive(Drop)]
pub struct HostStream<S> {
    stream: S,
    faults: u64,
}

/// A source over a reader of the host, such as standard input.
pub type HostSource<R> = HostStream<R>;

/// A wire over a writer of the host, such as standard output.
pub type HostWire<W> = HostStream<W>;

impl<S> HostStream<S> {
    /// The stream; none of its calls has failed yet.
    pub fn new(stream: S) -> HostStream<S>
        ensures stream { result.stream ≡ stream }
        ensures faults { result.faults ≡ 0 }
    {
        HostStream { stream, faults: 0 }
    }
}

impl<R: Read> Source for HostStream<R> {
    ghost left = { λ _. None };

    ghost source_faults = { λ s. s.faults };

    /// Reads once. A read that fails is a fault.
    fn pull(&mut self, buffer: &mut [u8]) -> Result<usize, Failed>
        requires { 0 < length buffer.old }
        ensures bound { IfOk result (λ n. n ≤ length buffer.new) }
        ensures bytes { Pulls None None result buffer.new }
        ensures cause { HasCause self.old.faults self.new.faults (IsErr result) }
        ensures reader { ReadConsumes (R.remaining self.old.stream) (R.remaining self.new.stream) result buffer.new }
        ensures faults { CountsFaults self.old.faults self.new.faults result }
    {
        match self.stream.read(buffer) {
            Ok(count) => Ok(count),
            Err(_) => {
                self.faults = self.faults.saturating_add(1);
                Err(Failed)
            }
        }
    }
}

impl<W> Clock for HostStream<W> {
    ghost now = { λ _. 0 };

    ghost told = { λ _. None };

    ghost wire_faults = { λ s. s.faults };

    ghost disk = { λ _ _. None };

    ghost disk_faults = { λ _. 0 };
}

/// Writes once, and returns how many bytes were taken, or 0 if the write failed.
fn write_once<W: Write>(writer: &mut W, bytes: &[u8]) -> usize
    ensures bound { result ≤ length bytes.now }
    ensures writer { Appends (W.contents writer.old) (W.contents writer.new) (take result bytes.now) }
{
    match writer.write(bytes) {
        Ok(count) => count,
        Err(_) => 0,
    }
}

/// Writes until all bytes are taken. A write that fails or takes nothing is a fault; some first
/// bytes may have been taken then.
pub fn write_whole<W: Write>(writer: &mut W, bytes: &[u8]) -> Result<(), Failed>
    ensures { Writes (W.contents writer.old) (W.contents writer.new) bytes.now result }
{
    let mut taken = 0;
    while taken < bytes.len() {
        let count = write_once(writer, &bytes[taken..]);
        if count == 0 {
            return Err(Failed);
        }
        taken += count;
    }
    Ok(())
}

impl<W: Write> Wire for HostStream<W> {
    /// Writes until all bytes are taken. A write that fails or takes nothing is a fault.
    fn tell(&mut self, bytes: &[u8]) -> Result<(), Failed>
        ensures disk { Stays (λ _. 0) (λ _ _. None) self.old self.new }
        ensures disk_faults { ◌≡◌ {A = ℕ} 0 0 }
        ensures told { Tells 0 bytes.now None None result }
        ensures cause { HasCause self.old.faults self.new.faults (IsErr result) }
        ensures writer { Writes (W.contents self.old.stream) (W.contents self.new.stream) bytes.now result }
        ensures faults { CountsFaults self.old.faults self.new.faults result }
    {
        match write_whole(&mut self.stream, bytes) {
            Ok(()) => Ok(()),
            Err(Failed) => {
                self.faults = self.faults.saturating_add(1);
                Err(Failed)
            }
        }
    }
}

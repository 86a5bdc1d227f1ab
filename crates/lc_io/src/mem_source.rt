//! A source in memory, whose pulls fail at given numbers.

ghost use Rattle.std.specs.Prelude.{◌≡◌, ◌++◌, ◌<◌, ◌≤◌, Some, length, take, drop, IfOk, IsErr};
ghost use Rattle.lc_base.specs.Faults.{HasCause};
ghost use Rattle.lc_io.specs.{Outside.{Pulls}, Fakes.{SourceState, PullsPiece, pulled_count}};

use crate::fakes::{is_failing, one_more};
use crate::outside::{Failed, Source};
use lc_base::Memory;
use std::alloc::Global;
use std::marker::Model;

/// A source over bytes in memory. It returns them in pieces, and fails at given calls.
#[derive(Drop)]
pub struct MemSource {
    bytes: Vec<u8>,
    start: usize,
    piece: usize,
    failing: Vec<u64>,
    calls: u64,
    faults: u64,
}

impl Model for MemSource {
    ghost use Rattle.std.specs.Prelude.{◌≤◌, ◌<◌, drop, length};
    ghost use Rattle.lc_io.specs.Fakes.{SourceState};

    ghost Value = { SourceState };

    ghost view = { λ s. record { left = drop s.start s.bytes.items; piece = s.piece; failing = s.failing.items; calls = s.calls; faults = s.faults } };

    ghost invariant = { λ s. (s.start ≤ length s.bytes.items) × (0 < s.piece) };
}

impl MemSource {
    /// A source of these bytes, at most `piece` per pull. The pulls whose numbers, from 0, are in
    /// `failing` fail.
    pub fn new(
        alloc: Global,
        bytes: &[u8],
        piece: usize,
        failing: &[u64],
    ) -> Result<MemSource, Memory>
        requires { 0 < piece }
        ensures { IfOk result (λ source. source ≡ record { left = bytes.now; piece = piece; failing = failing.now; calls = 0; faults = 0 }) }
    {
        let bytes = Vec::from_slice(alloc, bytes)?;
        let failing = Vec::from_slice(alloc, failing)?;
        Ok(MemSource {
            bytes,
            start: 0,
            piece,
            failing,
            calls: 0,
            faults: 0,
        })
    }

    /// The bytes that are left.
    pub fn rest(&self) -> &[u8]
        ensures { result.now ≡ self.now.left }
    {
        &self.bytes[self.start..]
    }

    /// How many bytes a pull into a buffer of this length returns.
    fn pulled_count(&self, room: usize) -> usize
        ensures { result ≡ pulled_count self.now room }
    {
        self.piece.min(room).min(self.rest().len())
    }
}

/// Copies the first `count` bytes to the start of the buffer.
fn put_prefix(buffer: &mut [u8], bytes: &[u8], count: usize)
    requires room { count ≤ length buffer.old }
    requires there { count ≤ length bytes.now }
    ensures { buffer.new ≡ take count bytes.now ++ drop count buffer.old }
{
    buffer[..count].copy_from_slice(&bytes[..count]);
}

impl Source for MemSource {
    ghost left = { λ s. Some s.left };

    ghost source_faults = { λ s. s.faults };

    /// Fails exactly if the number of the call is among the failing ones.
    fn pull(&mut self, buffer: &mut [u8]) -> Result<usize, Failed>
        requires { 0 < length buffer.old }
        ensures bound { IfOk result (λ n. n ≤ length buffer.new) }
        ensures bytes { Pulls (Some self.old.left) (Some self.new.left) result buffer.new }
        ensures cause { HasCause self.old.faults self.new.faults (IsErr result) }
        ensures exact { PullsPiece self.old self.new result buffer.old buffer.new }
    {
        let number = self.calls;
        self.calls = one_more(number);
        if is_failing(&self.failing, number) {
            self.faults = one_more(self.faults);
            return Err(Failed);
        }
        let count = self.pulled_count(buffer.len());
        put_prefix(buffer, self.rest(), count);
        self.start += count;
        Ok(count)
    }
}

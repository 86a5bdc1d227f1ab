//! The last bytes that were put, gathered in memory until there are enough of them to be written.

ghost use Rattle.std.specs.{
  Prelude.{◌≡◌, ◌+◌, ◌^◌, ◌<◌, ◌≤◌, ◌++◌, true, nat_le, [], length, IfOk},
  Vec.{vec_len, vec_capacity},
};
ghost use Rattle.file_scratch.specs.Gathered.{
  none_gathered,
  end_of,
  fits,
  with_bytes,
  all_written,
  all_passed,
};

use lc_base::Memory;
use std::alloc::Global;
use std::marker::Model;

/// How many bytes a scratch device over a file gathers in memory before it writes them.
pub const GATHERED_BYTES: usize = 65_536;

/// Bytes that go into a file one after another, from a place on at which the bytes before them end.
/// Their memory is taken at once.
#[derive(Drop)]
pub(crate) struct Gathered {
    place: u64,
    bytes: Vec<u8>,
}

impl Model for Gathered {
    ghost use Rattle.std.specs.Prelude.{◌^◌, ◌+◌, ◌<◌, ◌≤◌, length};
    ghost use Rattle.std.specs.Vec.{vec_capacity};
    ghost use Rattle.file_scratch.specs.Gathered.{GatheredState};
    ghost use Rattle.file_scratch.specs.declared.gathered.TheConstants.{GATHERED_BYTES};

    ghost Value = { GatheredState };

    ghost view = { λ g. record { place = g.place; bytes = g.bytes.items } };

    ghost invariant = { λ g. (GATHERED_BYTES ≤ vec_capacity g.bytes)
        × (length g.bytes.items ≤ GATHERED_BYTES) × (g.place + length g.bytes.items < 2 ^ 64) };
}

/// Appends bytes, for which there is room.
fn append(all: &mut Vec<u8>, bytes: &[u8])
    requires { vec_len all.old + length bytes.now ≤ vec_capacity all.old }
    ensures bytes { all.new.items ≡ all.old.items ++ bytes.now }
    ensures room_stays { vec_capacity all.old ≤ vec_capacity all.new }
{
    match all.extend_from_slice(bytes) {
        Ok(()) => {}
        Err(_) => unreachable!(),
    }
}

impl Gathered {
    /// Nothing is gathered, and the next bytes go to the start.
    pub(crate) fn new(alloc: Global) -> Result<Gathered, Memory>
        ensures { IfOk result (λ gathered. gathered ≡ none_gathered) }
    {
        Ok(Gathered {
            place: 0,
            bytes: Vec::with_capacity(alloc, GATHERED_BYTES)?,
        })
    }

    /// Where the gathered bytes go.
    pub(crate) fn place(&self) -> u64
        ensures { result ≡ self.now.place }
    {
        self.place
    }

    /// Where the next bytes go.
    pub(crate) fn end(&self) -> u64
        ensures { result ≡ end_of self.now }
    {
        self.place + self.bytes.len() as u64
    }

    /// The gathered bytes.
    pub(crate) fn bytes(&self) -> &[u8]
        ensures { result.now ≡ self.now.bytes }
    {
        &self.bytes
    }

    /// Whether there is room for `count` more bytes.
    pub(crate) fn fits(&self, count: usize) -> bool
        ensures { result ≡ fits self.now count }
    {
        count <= GATHERED_BYTES - self.bytes.len()
    }

    /// Gathers more bytes, for which there is room.
    pub(crate) fn push(&mut self, bytes: &[u8])
        requires room { fits self.old (length bytes.now) ≡ true }
        requires last { end_of self.old + length bytes.now < 2 ^ 64 }
        ensures { self.new ≡ with_bytes self.old bytes.now }
    {
        append(&mut self.bytes, bytes);
    }

    /// Whether the `count` bytes at a place are in the file.
    pub(crate) fn is_written(&self, place: u64, count: usize) -> bool
        ensures { result ≡ nat_le (place + count) self.now.place }
    {
        count as u64 <= self.place && place <= self.place - count as u64
    }

    /// The gathered bytes are in the file, too.
    pub(crate) fn flushed(&mut self)
        ensures { self.new ≡ all_written self.old }
    {
        self.place += self.bytes.len() as u64;
        self.bytes.clear();
    }

    /// While nothing is gathered, `count` more bytes are in the file.
    pub(crate) fn pass(&mut self, count: usize)
        requires none { self.old.bytes ≡ [] }
        requires last { end_of self.old + count < 2 ^ 64 }
        ensures { self.new ≡ all_passed self.old count }
    {
        self.place += count as u64;
    }
}

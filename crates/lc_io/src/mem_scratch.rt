//! A scratch device in memory, whose calls fail at given numbers.

ghost use Rattle.std.specs.{
  Prelude.{◌≡◌, ◌+◌, ◌^◌, ◌<◌, ◌≤◌, true, [], ◌++◌, length, take, drop, IfOk, OnOk, IsErr},
  Vec.{vec_len, vec_capacity},
};
ghost use Rattle.lc_io.specs.{
  Scratch.{HoldsAt, IsKeptAt},
  MemScratch.{state_over, PutsBytes, GetsBytes, ServesOver},
};

use crate::fakes::Calls;
use crate::mem_wire::Room;
use crate::outside::Failed;
use crate::scratch::Scratch;
use lc_base::Memory;
use std::alloc::Global;
use std::marker::Model;

/// A scratch device that keeps bytes in memory, which it takes when it is made. It fails at given
/// calls, and at those that do not fit its room; the latter take no number.
#[derive(Drop)]
pub struct MemScratch {
    bytes: Vec<u8>,
    calls: Calls,
    gets: u64,
}

impl Model for MemScratch {
    ghost use Rattle.std.specs.Prelude.{◌≤◌};
    ghost use Rattle.std.specs.Vec.{vec_capacity};
    ghost use Rattle.lc_io.specs.MemScratch.{MemScratchState};

    ghost Value = { MemScratchState };

    ghost view = { λ s. record {
      bytes = s.bytes.items;
      calls = s.calls.made;
      gets = s.gets;
      room_calls = s.calls.room.calls;
      room_bytes = s.calls.room.bytes;
      failing = s.calls.failing;
      faults = s.calls.faults;
    } };

    ghost invariant = { λ s. (s.calls.room.bytes ≤ vec_capacity s.bytes) × (s.gets ≤ s.calls.made) };
}

/// Appends bytes, for which there is room, and returns where they begin.
fn append(all: &mut Vec<u8>, bytes: &[u8]) -> u64
    requires { vec_len all.old + length bytes.now ≤ vec_capacity all.old }
    ensures place { result ≡ length all.old.items }
    ensures bytes { all.new.items ≡ all.old.items ++ bytes.now }
    ensures room_stays { vec_capacity all.old ≤ vec_capacity all.new }
{
    let place = all.len() as u64;
    match all.extend_from_slice(bytes) {
        Ok(()) => {}
        Err(_) => unreachable!(),
    }
    place
}

/// Fills the buffer with the bytes at a place.
fn fill(all: &[u8], place: usize, buffer: &mut [u8])
    requires { place + length buffer.old ≤ length all.now }
    ensures { buffer.new ≡ take (length buffer.old) (drop place all.now) }
{
    let count = buffer.len();
    buffer.copy_from_slice(&all[place..place + count]);
}

impl MemScratch {
    /// A device that keeps nothing yet. The calls whose numbers, from 0, are in `failing` fail, and
    /// so do those that do not fit the room.
    pub fn new(alloc: Global, room: Room, failing: &[u64]) -> Result<MemScratch, Memory>
        ensures { IfOk result (λ scratch. scratch ≡ record {
          bytes = [];
          calls = 0;
          gets = 0;
          room_calls = room.calls;
          room_bytes = room.bytes;
          failing = failing.now;
          faults = 0;
        }) }
    {
        let bytes = Vec::with_capacity(alloc, room.bytes as usize)?;
        let calls = Calls::new(alloc, room, failing)?;
        Ok(MemScratch {
            bytes,
            calls,
            gets: 0,
        })
    }

    /// How many calls of `get` took a number, including those that failed.
    pub fn gets(&self) -> u64
        ensures { result ≡ self.now.gets }
    {
        self.gets
    }
}

impl Scratch for MemScratch {
    ghost state = { λ s. state_over s.bytes };

    ghost scratch_faults = { λ s. s.faults };

    /// Fails exactly if the number of the call is among the failing ones, or the call does not fit
    /// the room.
    fn put(&mut self, bytes: &[u8]) -> Result<u64, Failed>
        ensures serves { ServesOver self.old self.new (IsErr result) }
        ensures put { IfOk result (λ place. IsKeptAt (state_over self.new.bytes) place bytes.now) }
        ensures exact { PutsBytes bytes.now self.old self.new result }
    {
        let number = self.calls.number(self.bytes.len(), bytes.len())?;
        self.calls.pass(number)?;
        Ok(append(&mut self.bytes, bytes))
    }

    /// Fails exactly if the number of the call is among the failing ones, or the call does not fit
    /// the room.
    fn get(&mut self, place: u64, buffer: &mut [u8]) -> Result<(), Failed>
        requires kept { (state_over self.old.bytes).kept place (length buffer.old) ≡ true }
        ensures serves { ServesOver self.old self.new (IsErr result) }
        ensures bytes { OnOk result (HoldsAt (state_over self.old.bytes) place buffer.new) }
        ensures exact { GetsBytes place self.old self.new result buffer.old buffer.new }
    {
        let number = self.calls.number(self.bytes.len(), 0)?;
        self.gets += 1;
        self.calls.pass(number)?;
        fill(&self.bytes, place as usize, buffer);
        Ok(())
    }
}

//! A wire in memory, which records what is printed and when.

ghost use Rattle.std.specs.{
  Prelude.{◌≡◌, ℕ, ◌+◌, ◌^◌, ◌<◌, ◌≤◌, Some, None, [], ◌∷◌, ◌++◌, length, IfOk, IsErr, MatchOption},
  Vec.{vec_len, vec_capacity},
  List.{slice_get},
};
ghost use Rattle.lc_io.specs.{
  Disk.{Stays},
  Outside.{Tells},
  Fakes.{WireState, TellsPiece},
};
ghost use Rattle.lc_base.specs.Faults.{HasCause};

use crate::fakes::Calls;
use crate::outside::{Clock, Failed, Wire};
use lc_base::Memory;
use std::alloc::Global;
use std::marker::Model;

/// How much a fake can record.
#[derive(Clone, Copy)]
pub struct Room {
    /// The number of calls.
    pub calls: u32,
    /// The number of bytes printed or written.
    pub bytes: u32,
}

/// Where a printed piece lies among all printed bytes, and the moment at which its printing began.
#[derive(Clone, Copy)]
struct Mark {
    at: u64,
    start: usize,
    end: usize,
}

/// A wire that records what is printed. It takes its memory when it is made, and fails at given
/// calls.
#[derive(Drop)]
pub struct MemWire {
    marks: Vec<Mark>,
    bytes: Vec<u8>,
    calls: Calls,
}

impl Model for MemWire {
    ghost use Rattle.std.specs.Prelude.{length};
    ghost use Rattle.lc_io.specs.Fakes.{WireState};
    ghost use Rattle.lc_io.specs.Marks.{pieces, IsRecord};

    ghost Value = { WireState };

    ghost view = { λ w. record {
      told = pieces w.bytes.items w.marks.items;
      calls = w.calls.made;
      bytes = length w.bytes.items;
      room_calls = w.calls.room.calls;
      room_bytes = w.calls.room.bytes;
      failing = w.calls.failing;
      faults = w.calls.faults;
    } };

    ghost invariant = { λ w. IsRecord w.calls.room.calls w.calls.room.bytes w.calls.made w.marks w.bytes };
}

impl MemWire {
    /// A wire on which nothing has been printed. The calls whose numbers, from 0, are in `failing`
    /// fail, and so do those that do not fit the room.
    pub fn new(alloc: Global, room: Room, failing: &[u64]) -> Result<MemWire, Memory>
        ensures { IfOk result (λ wire. wire ≡ record { told = []; calls = 0; bytes = 0; room_calls = room.calls; room_bytes = room.bytes; failing = failing.now; faults = 0 }) }
    {
        let marks = Vec::with_capacity(alloc, room.calls as usize)?;
        let bytes = Vec::with_capacity(alloc, room.bytes as usize)?;
        let calls = Calls::new(alloc, room, failing)?;
        Ok(MemWire {
            marks,
            bytes,
            calls,
        })
    }

    /// How many pieces were printed.
    pub fn told_count(&self) -> usize
        ensures { result ≡ length self.now.told }
    {
        self.marks.len()
    }

    /// The piece at an index, from 0, and the moment at which its printing began; `None` if the
    /// index is past the end.
    pub fn told_at(&self, index: usize) -> Option<(u64, &[u8])>
        ensures { MatchOption result (length self.now.told ≤ index) (λ tell. slice_get self.now.told index ≡ Some (record { at = tell.0; bytes = tell.1.now })) }
    {
        let mark = self.marks.get(index)?;
        Some((mark.at, &self.bytes[mark.start..mark.end]))
    }
}

/// Records a piece. There is room for it.
fn record(marks: &mut Vec<Mark>, bytes: &mut Vec<u8>, at: u64, piece: &[u8])
    requires mark_room { vec_len marks.old < vec_capacity marks.old }
    requires byte_room { vec_len bytes.old + length piece.now ≤ vec_capacity bytes.old }
    ensures bytes { bytes.new.items ≡ bytes.old.items ++ piece.now }
    ensures marks { marks.new.items ≡ marks.old.items ++ record { at = at; start = length bytes.old.items; end = length bytes.old.items + length piece.now } ∷ [] }
    ensures mark_room_stays { vec_capacity marks.old ≤ vec_capacity marks.new }
    ensures byte_room_stays { vec_capacity bytes.old ≤ vec_capacity bytes.new }
{
    let start = bytes.len();
    let end = start + piece.len();
    match marks.push(Mark { at, start, end }) {
        Ok(()) => {}
        Err(_) => unreachable!(),
    }
    match bytes.extend_from_slice(piece) {
        Ok(()) => {}
        Err(_) => unreachable!(),
    }
}

impl Clock for MemWire {
    ghost now = { λ w. w.calls };

    ghost told = { λ w. Some w.told };

    ghost wire_faults = { λ w. w.faults };

    ghost disk = { λ _ _. None };

    ghost disk_faults = { λ _. 0 };
}

impl Wire for MemWire {
    /// Fails exactly if the number of the call is among the failing ones, or the call does not fit
    /// the room.
    fn tell(&mut self, bytes: &[u8]) -> Result<(), Failed>
        ensures disk { Stays (λ w. w.calls) (λ _ _. None) self.old self.new }
        ensures disk_faults { ◌≡◌ {A = ℕ} 0 0 }
        ensures told { Tells self.old.calls bytes.now (Some self.old.told) (Some self.new.told) result }
        ensures cause { HasCause self.old.faults self.new.faults (IsErr result) }
        ensures exact { TellsPiece bytes.now self.old self.new result }
    {
        let number = self.calls.number(self.bytes.len(), bytes.len())?;
        self.calls.pass(number)?;
        record(&mut self.marks, &mut self.bytes, number, bytes);
        Ok(())
    }
}

//! What all fakes of the outside have in common: calls with given numbers fail, and the failures
//! are counted.

ghost use Rattle.std.specs.Prelude.{◌≡◌, ◌+◌, ◌<◌, ◌≤◌, ◌^◌, IfOk, IsErr};
ghost use Rattle.lc_base.specs.Faults.{HasCause};
ghost use Rattle.lc_io.specs.Fakes.{is_failing, one_more, no_calls, Numbers, Passes};

use crate::mem_wire::Room;
use crate::outside::Failed;
use lc_base::Memory;
use std::alloc::Global;
use std::marker::Model;

/// Whether the call of this number, from 0, is to fail.
pub fn is_failing(failing: &[u64], number: u64) -> bool
    ensures { result ≡ is_failing failing.now number }
{
    failing.iter().any(|n| *n == number)
}

/// One more, up to the last value of a `u64`.
pub fn one_more(count: u64) -> u64
    ensures { result ≡ one_more count }
{
    count.saturating_add(1)
}

/// The calls of a fake with limited room. Each call takes the next number, from 0, unless it does
/// not fit the room.
#[derive(Drop)]
pub struct Calls {
    room: Room,
    made: u64,
    failing: Vec<u64>,
    faults: u64,
}

impl Model for Calls {
    ghost use Rattle.lc_io.specs.Fakes.{CallsState};

    ghost Value = { CallsState };

    ghost view = { λ calls. record {
      room = calls.room;
      made = calls.made;
      failing = calls.failing.items;
      faults = calls.faults;
    } };
}

impl Calls {
    /// No call has been made. Calls whose numbers are in `failing` fail.
    pub fn new(alloc: Global, room: Room, failing: &[u64]) -> Result<Calls, Memory>
        ensures { IfOk result (λ calls. calls ≡ no_calls room failing.now) }
    {
        let failing = Vec::from_slice(alloc, failing)?;
        Ok(Calls {
            room,
            made: 0,
            failing,
            faults: 0,
        })
    }

    /// Takes the number of a call that keeps `count` bytes in addition to the `kept` ones. A call
    /// that does not fit the room fails.
    pub fn number(&mut self, kept: usize, count: usize) -> Result<u64, Failed>
        requires { kept + count < 2 ^ 64 }
        ensures exact { Numbers (kept + count) self.old self.new result }
        ensures cause { HasCause self.old.faults self.new.faults (IsErr result) }
        ensures few { IfOk result (λ number. self.old.made < 2 ^ 32) }
        ensures later { self.old.made ≤ self.new.made }
        ensures room { self.new.room ≡ self.old.room }
    {
        if self.made < u64::from(self.room.calls) && kept + count <= self.room.bytes as usize {
            let number = self.made;
            self.made += 1;
            Ok(number)
        } else {
            self.faults = one_more(self.faults);
            Err(Failed)
        }
    }

    /// Fails if the call of this number is to fail.
    pub fn pass(&mut self, number: u64) -> Result<(), Failed>
        ensures exact { Passes number self.old self.new result }
        ensures cause { HasCause self.old.faults self.new.faults (IsErr result) }
        ensures made { self.new.made ≡ self.old.made }
        ensures room { self.new.room ≡ self.old.room }
    {
        if is_failing(&self.failing, number) {
            self.faults = one_more(self.faults);
            Err(Failed)
        } else {
            Ok(())
        }
    }
}

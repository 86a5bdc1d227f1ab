//! Each put is recorded with its dependencies: a read that comes later changes no earlier put.

ghost use Rattle.std.specs.{
  Prelude.{◌≡◌, ◌≢◌, ◌≤◌, length, IfOk, OnErr},
  List.{AllPairs},
  Option.{option_copied},
};
ghost use Rattle.lc_base.specs.Answers.{Answers};
ghost use Rattle.dep_capture.specs.{
  declared.limits.TheConstants.{MAX_KEYS_PUT},
  declared.access.Put.{Put},
  Captured.{AreLawfulRows},
  Capture.{was_read, pending, captured_none, captured_after_read, captured_after_put, rows_of_puts, fault_of},
};

use crate::access::{Put, Read};
use crate::dependencies::{are_read, deps_of};
use crate::error::CaptureError;
use crate::keyed::Keyed;
use crate::limits::MAX_KEYS_READ;
use crate::puts::{is_one_too_many, pending, rows_of_puts};
use lc_base::{Key, KeyList, MAX_DEPS, Memory, RowList, Value};
use std::alloc::Global;
use std::marker::Model;

/// The reads and puts of one transaction.
#[derive(Drop)]
pub struct Capture {
    reads: Keyed<Read>,
    puts: Keyed<Put>,
}

impl Model for Capture {
    ghost use Rattle.dep_capture.specs.Captured.{Captured, IsCapture};

    ghost Value = { Captured };

    ghost view = { λ capture. record { reads = capture.reads; puts = capture.puts } };

    ghost invariant = { λ capture. IsCapture capture.reads capture.puts };
}

impl Capture {
    /// Nothing read and nothing put. It takes no memory.
    pub fn new(alloc: Global) -> Capture
        ensures { result ≡ captured_none }
    {
        Capture {
            reads: Keyed::new(alloc),
            puts: Keyed::new(alloc),
        }
    }

    /// The number of distinct keys put, at most `MAX_KEYS_PUT`.
    pub fn puts(&self) -> usize
        ensures count { result ≡ length self.now.puts }
        ensures few { result ≤ MAX_KEYS_PUT }
        ensures keys_once { AllPairs (λ (a b : Put). a.key ≢ b.key) self.now.puts }
    {
        self.puts.len()
    }

    /// Whether the key was read.
    pub fn was_read(&self, key: &Key) -> bool
        ensures { result ≡ was_read self.now.reads key.now }
    {
        self.reads.has(key)
    }

    /// The value that was put to the key; `None` exactly if none was.
    pub fn pending(&self, key: &Key) -> Option<&Value>
        ensures { option_copied result ≡ pending self.now.puts key.now }
    {
        pending(&self.puts, key)
    }

    /// Records that a key was read, with the block of its version, if it has one. A key that was
    /// read before changes nothing. `TooMany` if it would be one more than `MAX_KEYS_READ`. On an
    /// error nothing changes.
    pub fn read(&mut self, key: Key, version: Option<u32>) -> Result<(), CaptureError>
        ensures exact { Answers (λ _. self.new) fault_of result (captured_after_read self.old key version) }
        ensures unchanged { OnErr result (self.new ≡ self.old) }
    {
        if self.was_read(&key) {
            return Ok(());
        }
        if self.reads.len() >= MAX_KEYS_READ {
            return Err(CaptureError::TooMany);
        }
        Ok(self.reads.push(Read { key, version })?)
    }

    /// Puts a value to a key, derived from the named keys, or from all keys read so far if none are
    /// named. A second put of a key takes the place of the first. It is refused, in this order:
    /// `TooMany` if the key would be one more than `MAX_KEYS_PUT`, `NotRead` if a named key was not
    /// read, `TooMany` if it would have more than `MAX_DEPS` dependencies. On an error nothing
    /// changes.
    pub fn put(
        &mut self,
        key: Key,
        value: Value,
        named: Option<&KeyList>,
    ) -> Result<(), CaptureError>
        ensures exact { Answers (λ _. self.new) fault_of result (captured_after_put self.old key value (option_copied named.entry)) }
        ensures unchanged { OnErr result (self.new ≡ self.old) }
    {
        if is_one_too_many(&self.puts, &key) {
            return Err(CaptureError::TooMany);
        }
        if !are_read(&self.reads, named) {
            return Err(CaptureError::NotRead);
        }
        let deps = deps_of(self.reads.allocator(), &self.reads, named)?;
        if deps.len() > MAX_DEPS {
            return Err(CaptureError::TooMany);
        }
        Ok(self.puts.set(Put { key, value, deps })?)
    }

    /// A row of this block and transaction for each put, in the order of first put.
    pub fn take_rows(self, block: u32, tx: u16) -> Result<RowList, Memory>
        ensures rows { IfOk result (λ rows. rows ≡ rows_of_puts block tx self.puts) }
        ensures lawful { IfOk result (λ rows. AreLawfulRows self.reads rows) }
    {
        let alloc = self.puts.allocator();
        let rows = rows_of_puts(alloc, block, tx, self.puts.into_vec())?;
        Ok(RowList::from_vec(rows))
    }
}

//! The device over the calls of a file. No contract can name what the file holds, so it is not
//! known.

ghost use Rattle.std.specs.Prelude.{
  ◌≡◌,
  ◌⊎◌,
  ◌≤◌,
  ◌+◌,
  true,
  false,
  [],
  length,
  IfOk,
  OnOk,
  IsErr,
  IsOk,
};
ghost use Rattle.lc_io.specs.{Streams.{CountsFaults}, Scratch.{HoldsAt, IsKeptAt}};
ghost use Rattle.file_scratch.specs.{
  Gathered.{fits, Writes},
  FileScratch.{unknown_up_to, len_of, PutsAtEnd, ServesUnknown},
};

use crate::calls::{Calls, Created};
use crate::edge::HostCalls;
use crate::gathered::Gathered;
use lc_base::Memory;
use lc_io::{Failed, Scratch, one_more};
use std::alloc::Global;
use std::fs::File;

/// The name under which the file is made in its folder.
const NAME: &str = "chain.scratch";

/// What is appended to that name while a file of the name exists.
const MARK: char = '_';

/// How many names are tried, each with one mark more. A run holds a name only for an instant.
const NAMES: usize = 32;

/// The path of the name in a folder, with room for the marks, so that no memory is taken later.
fn path_in(alloc: Global, folder: &str) -> Result<String, Memory> {
    let mut path = String::with_capacity(
        alloc,
        folder.len().saturating_add(1 + NAME.len() + NAMES),
    )?;
    path.push_str(folder)?;
    path.push('/')?;
    path.push_str(NAME)?;
    Ok(path)
}

/// Makes a file at the path, or at the first path with marks appended at which nothing exists.
/// `path` has these marks afterwards.
fn create_named<C: Calls>(calls: &mut C, path: &mut String) -> Result<(), Failed> {
    for _ in 0..NAMES {
        match calls.create(path.as_str())? {
            Created::Made => return Ok(()),
            Created::Exists => path.push(MARK).map_err(|_| Failed)?,
        }
    }
    Err(Failed)
}

/// A scratch device over a file of its own, to which every put appends. The first call makes the
/// file, which no other run has, and removes its name, so that nothing is left of it when the
/// program ends, however it ends. If the system does not let an open file lose its name, the name
/// stays until the device is closed.
///
/// The last bytes that were put are gathered in memory, and written when there is no room for the
/// next ones, or when one of them is read.
#[derive(Drop)]
pub struct ScratchOver<C> {
    calls: C,
    path: String,
    is_made: bool,
    is_named: bool,
    gathered: Gathered,
    faults: u64,
}

/// A scratch device over a file of the host.
pub type FileScratch<'a> = ScratchOver<HostCalls<'a>>;

impl<'a> ScratchOver<HostCalls<'a>> {
    /// A device that has touched no file, and of which no call has failed. Its file will be made in
    /// `folder`; a relative path starts at the current folder.
    pub fn new(
        alloc: Global,
        rt: &'a HostRuntime,
        folder: &str,
    ) -> Result<ScratchOver<HostCalls<'a>>, Memory>
        ensures made { IfOk result (λ scratch. scratch.is_made ≡ false) }
        ensures named { IfOk result (λ scratch. scratch.is_named ≡ false) }
        ensures len { IfOk result (λ scratch. len_of scratch ≡ 0) }
        ensures faults { IfOk result (λ scratch. scratch.faults ≡ 0) }
    {
        Ok(ScratchOver {
            calls: HostCalls::new(rt, None),
            path: path_in(alloc, folder)?,
            is_made: false,
            is_named: false,
            gathered: Gathered::new(alloc)?,
            faults: 0,
        })
    }

    /// A device over an open, empty file that nobody else writes.
    pub fn over(
        alloc: Global,
        rt: &'a HostRuntime,
        file: File,
    ) -> Result<ScratchOver<HostCalls<'a>>, Memory>
        ensures made { IfOk result (λ scratch. scratch.is_made ≡ true) }
        ensures named { IfOk result (λ scratch. scratch.is_named ≡ false) }
        ensures len { IfOk result (λ scratch. len_of scratch ≡ 0) }
        ensures faults { IfOk result (λ scratch. scratch.faults ≡ 0) }
    {
        Ok(ScratchOver {
            calls: HostCalls::new(rt, Some(file)),
            path: String::new(alloc),
            is_made: true,
            is_named: false,
            gathered: Gathered::new(alloc)?,
            faults: 0,
        })
    }
}

impl<C: Calls + Drop> ScratchOver<C> {
    /// Removes the name of the file, if it still has one.
    pub fn close(self) -> Result<(), Failed>
        ensures untouched { self.is_named ≡ false → IsOk result }
    {
        let mut scratch = self;
        scratch.remove_name()
    }
}

impl<C: Calls> ScratchOver<C> {
    fn remove_name(&mut self) -> Result<(), Failed>
        ensures untouched { self.old.is_named ≡ false → IsOk result }
    {
        if self.is_named {
            self.calls.remove(self.path.as_str())
        } else {
            Ok(())
        }
    }

    /// Makes the file, and removes its name at once, before any other call can fail.
    fn make(&mut self) -> Result<(), Failed>
        ensures gathered { self.new.gathered ≡ self.old.gathered }
        ensures faults { self.new.faults ≡ self.old.faults }
    {
        create_named(&mut self.calls, &mut self.path)?;
        self.is_named = self.calls.remove(self.path.as_str()).is_err();
        self.calls.set_apart()
    }

    /// Makes the file, unless it has been made.
    fn open(&mut self) -> Result<(), Failed>
        ensures gathered { self.new.gathered ≡ self.old.gathered }
        ensures faults { self.new.faults ≡ self.old.faults }
        ensures made { OnOk result (self.new.is_made ≡ true) }
    {
        if !self.is_made {
            self.make()?;
            self.is_made = true;
        }
        Ok(())
    }

    /// Writes what is gathered. If that fails, all of it stays gathered, and a later call tries
    /// again.
    fn flush(&mut self) -> Result<(), Failed>
        ensures gathered { Writes self.old.gathered self.new.gathered result }
        ensures faults { self.new.faults ≡ self.old.faults }
    {
        self.calls
            .write(self.gathered.place(), self.gathered.bytes())?;
        self.gathered.flushed();
        Ok(())
    }

    /// Writes what is gathered, unless there is room for `count` more bytes.
    fn make_room(&mut self, count: usize) -> Result<(), Failed>
        ensures room { IfOk result (λ _. (fits self.new.gathered count ≡ true)
            ⊎ (self.new.gathered.bytes ≡ [])) }
        ensures len { len_of self.new ≡ len_of self.old }
        ensures faults { self.new.faults ≡ self.old.faults }
    {
        if self.gathered.fits(count) {
            return Ok(());
        }
        self.flush()
    }

    /// Writes what is gathered, unless the `count` bytes at a place are in the file.
    fn settle(&mut self, place: u64, count: usize) -> Result<(), Failed>
        requires put { place + count ≤ len_of self.old }
        ensures written { IfOk result (λ _. place + count ≤ self.new.gathered.place) }
        ensures len { len_of self.new ≡ len_of self.old }
        ensures faults { self.new.faults ≡ self.old.faults }
    {
        if self.gathered.is_written(place, count) {
            return Ok(());
        }
        self.flush()
    }

    /// Appends bytes, and returns their place. More bytes than can be gathered are written at once.
    fn write(&mut self, bytes: &[u8]) -> Result<u64, Failed>
        ensures len { PutsAtEnd (length bytes.now) (len_of self.old) (len_of self.new) result }
        ensures faults { self.new.faults ≡ self.old.faults }
    {
        let place = self.gathered.end();
        let _end = place.checked_add(bytes.len() as u64).ok_or(Failed)?;
        self.open()?;
        self.make_room(bytes.len())?;
        if self.gathered.fits(bytes.len()) {
            self.gathered.push(bytes);
        } else {
            self.calls.write(place, bytes)?;
            self.gathered.pass(bytes.len());
        }
        Ok(place)
    }

    /// Reads the bytes at a place. A file that ends earlier is a fault.
    fn read(&mut self, place: u64, buffer: &mut [u8]) -> Result<(), Failed>
        requires put { place + length buffer.old ≤ len_of self.old }
        ensures len { len_of self.new ≡ len_of self.old }
        ensures faults { self.new.faults ≡ self.old.faults }
    {
        self.open()?;
        self.settle(place, buffer.len())?;
        self.calls.read(place, buffer)
    }
}

impl<C: Calls> Scratch for ScratchOver<C> {
    ghost state = { λ s. unknown_up_to (len_of s) };

    ghost scratch_faults = { λ s. s.faults };

    /// Appends bytes to all that was put before. A put that would end past the last value of a
    /// `u64` is a fault.
    fn put(&mut self, bytes: &[u8]) -> Result<u64, Failed>
        ensures serves { ServesUnknown self.old self.new (IsErr result) }
        ensures put { IfOk result
            (λ place. IsKeptAt (unknown_up_to (len_of self.new)) place bytes.now) }
        ensures len { PutsAtEnd (length bytes.now) (len_of self.old) (len_of self.new) result }
        ensures faults { CountsFaults self.old.faults self.new.faults result }
    {
        match self.write(bytes) {
            Ok(place) => Ok(place),
            Err(Failed) => {
                self.faults = one_more(self.faults);
                Err(Failed)
            }
        }
    }

    fn get(&mut self, place: u64, buffer: &mut [u8]) -> Result<(), Failed>
        requires kept { (unknown_up_to (len_of self.old)).kept place (length buffer.old) ≡ true }
        ensures serves { ServesUnknown self.old self.new (IsErr result) }
        ensures bytes { OnOk result (HoldsAt (unknown_up_to (len_of self.old)) place buffer.new) }
        ensures len { len_of self.new ≡ len_of self.old }
        ensures faults { CountsFaults self.old.faults self.new.faults result }
    {
        match self.read(place, buffer) {
            Ok(()) => Ok(()),
            Err(Failed) => {
                self.faults = one_more(self.faults);
                Err(Failed)
            }
        }
    }
}

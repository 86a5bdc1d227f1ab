//! The machine over a file and a writer. No contract can name what these hold, so disk and wire of
//! it are not known. If std knows the bytes of a writer, such as a vector in memory, the clause
//! `writer` says what becomes of them.

ghost use Rattle.std.{
  specs.Prelude.{
    ◌≡◌,
    ◌+◌,
    ◌^◌,
    ◌<◌,
    ◌≤◌,
    ℕ,
    true,
    false,
    Some,
    None,
    List,
    length,
    take,
    drop,
    IfOk,
    IfSome,
    OnOk,
    IsErr,
    is_err,
  },
  proofs.Common.{rules},
};
ghost use Rattle.lc_base.specs.Faults.{HasCause};
ghost use Rattle.lc_io.specs.{
  Disk.{Stays},
  Outside.{Tells},
  Streams.{CountsFaults, Writes as WritesThrough},
};
ghost use Rattle.disk_model.specs.Disk.{Writes, Syncs, content_of};
ghost use Rattle.file_machine.specs.{
  Calls.{CallsDisk},
  LogFile.{IsHeld, IsLocked, IsSeen, is_in_place},
};

use crate::calls::Calls;
use crate::edge::HostCalls;
use crate::log_file::{Found, LogFile};
use disk_model::Disk;
use lc_io::{Clock, Failed, Wire, one_more, write_whole};
use std::io::Write;

/// A machine whose disk is the file at a path, and whose wire is a writer, such as standard output.
/// The first call of the disk touches the file. An absent file has length 0, and the first write
/// makes it. The first sync or write takes the file's lock, which the machine holds as long as it
/// lives; the call fails if another program holds the lock. Before each write and after each sync,
/// and at each call for the length, the path must lead to the file that was opened, or to none if
/// there was none, and a locked file must have the length that it had when the lock was taken, or
/// that was returned to the owner before, with what was written since; else the call fails. After a
/// write or a sync has failed, all later ones fail, and so do calls for the length: a system that
/// could not write once may report success at the next sync although the bytes are lost.
#[derive(Drop)]
pub struct MachineOver<C, W> {
    file: LogFile<C>,
    writer: W,
    disk_faults: u64,
    wire_faults: u64,
}

/// A machine over a file of the host.
pub type FileMachine<'a, W> = MachineOver<HostCalls<'a>, W>;

impl<'a, W> MachineOver<HostCalls<'a>, W> {
    /// A machine that has touched no file, and of which no call has failed. A relative path starts
    /// at the current folder.
    pub fn new(rt: &'a HostRuntime, path: &'a str, writer: W) -> MachineOver<HostCalls<'a>, W>
        ensures path { result.file.calls.path.now ≡ path.now }
        ensures opened { result.file.calls.file ≡ None }
        ensures file { result.file.found ≡ Found.NotLooked }
        ensures folder { result.file.is_folder_synced ≡ false }
        ensures failed { result.file.has_failed ≡ false }
        ensures writer { result.writer ≡ writer }
        ensures disk_faults { result.disk_faults ≡ 0 }
        ensures wire_faults { result.wire_faults ≡ 0 }
    {
        MachineOver {
            file: LogFile::new(HostCalls::new(rt, path)),
            writer,
            disk_faults: 0,
            wire_faults: 0,
        }
    }
}

impl<C, W> Clock for MachineOver<C, W> {
    ghost now = { λ _. 0 };

    ghost told = { λ _. None };

    ghost wire_faults = { λ m. m.wire_faults };

    ghost disk = { λ _ _. None };

    ghost disk_faults = { λ m. m.disk_faults };
}

impl<C, W: Write> Wire for MachineOver<C, W> {
    /// Writes until all bytes are taken. A write that takes nothing is a fault.
    fn tell(&mut self, bytes: &[u8]) -> Result<(), Failed>
        ensures disk { Stays (λ _. 0) (λ _ _. None) self.old self.new }
        ensures disk_faults { self.new.disk_faults ≡ self.old.disk_faults }
        ensures told { Tells 0 bytes.now None None result }
        ensures cause { HasCause self.old.wire_faults self.new.wire_faults (IsErr result) }
        ensures writer { WritesThrough (W.contents self.old.writer) (W.contents self.new.writer)
            bytes.now result }
        ensures faults { CountsFaults self.old.wire_faults self.new.wire_faults result }
        ensures failed { self.new.file.has_failed ≡ self.old.file.has_failed }
    {
        match write_whole(&mut self.writer, bytes) {
            Ok(()) => Ok(()),
            Err(Failed) => {
                self.wire_faults = one_more(self.wire_faults);
                Err(Failed)
            }
        }
    }
}

impl<C: Calls, W> Disk for MachineOver<C, W> {
    /// Looks at the path. 0 if there is no file.
    fn len(&mut self) -> Result<u64, Failed>
        ensures len { IfOk result (λ n. IfSome (content_of None) (λ content. n ≡ length content)) }
        ensures disk { Stays (λ _. 0) (λ _ _. None) self.old self.new }
        ensures calls { CallsDisk self.old self.new result }
        ensures looked { IfOk result (λ len. IfSome (C.seen self.new.file.calls)
            (λ seen. IsSeen self.new.file.found seen len)) }
        ensures stuck { self.old.file.has_failed ≡ true → IsErr result }
        ensures failed { self.new.file.has_failed ≡ self.old.file.has_failed }
    {
        match self.file.len() {
            Ok(len) => Ok(len),
            Err(Failed) => {
                self.disk_faults = one_more(self.disk_faults);
                Err(Failed)
            }
        }
    }

    /// Reads until the buffer is full or the file ends.
    fn read_at(&mut self, at: u64, buffer: &mut [u8]) -> Result<usize, Failed>
        ensures bound { IfOk result (λ n. n ≤ length buffer.new) }
        ensures size { length buffer.new ≡ length buffer.old }
        ensures bytes { IfOk result (λ n. IfSome (content_of None)
            (λ content. take n buffer.new ≡ take (length buffer.new) (drop at content))) }
        ensures disk { Stays (λ _. 0) (λ _ _. None) self.old self.new }
        ensures calls { CallsDisk self.old self.new result }
        ensures failed { self.new.file.has_failed ≡ self.old.file.has_failed }
    {
        match self.file.read_at(at, buffer) {
            Ok(count) => Ok(count),
            Err(Failed) => {
                self.disk_faults = one_more(self.disk_faults);
                Err(Failed)
            }
        }
    }

    /// Writes until the file has taken all bytes, and makes the file if there was none. A write
    /// that takes nothing is a fault.
    fn write_at(&mut self, at: u64, bytes: &[u8]) -> Result<(), Failed>
        requires within { (content : List ℕ) → content_of None ≡ Some content
            → at ≤ length content }
        requires fits { at + length bytes.now < 2 ^ 64 }
        ensures disk { Writes (λ _. 0) (λ _ _. None) self.old self.new at bytes.now result }
        ensures calls { CallsDisk self.old self.new result }
        ensures stuck { self.old.file.has_failed ≡ true → IsErr result }
        ensures failed { self.new.file.has_failed ≡ is_err result }
        ensures held { OnOk result (IsLocked self.new.file.found) }
    {
        match self.file.write_at(at, bytes) {
            Ok(()) => Ok(()),
            Err(Failed) => {
                self.disk_faults = one_more(self.disk_faults);
                Err(Failed)
            }
        }
    }

    /// Syncs the file's bytes and its length, and the first time also its folder. Does nothing if
    /// there is no file.
    fn sync(&mut self) -> Result<(), Failed>
        ensures disk { Syncs (λ _. 0) (λ _ _. None) self.old self.new result }
        ensures calls { CallsDisk self.old self.new result }
        ensures looked { OnOk result (IfSome (C.seen self.new.file.calls)
            (λ seen. is_in_place self.new.file.found seen ≡ true)) }
        ensures stuck { self.old.file.has_failed ≡ true → IsErr result }
        ensures failed { self.new.file.has_failed ≡ is_err result }
        ensures held { OnOk result (IsHeld self.new.file.found) }
    {
        match self.file.sync() {
            Ok(()) => Ok(()),
            Err(Failed) => {
                self.disk_faults = one_more(self.disk_faults);
                Err(Failed)
            }
        }
    }

    ghost sound = { Prim.search rules };
}

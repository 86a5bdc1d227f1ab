//! The file at a path, over the calls of the system: it is locked before it is written, and each
//! answer rests on a look at the path.

ghost use Rattle.std.specs.Prelude.{
  ◌≡◌,
  ◌≤◌,
  true,
  false,
  length,
  IfOk,
  IfSome,
  OnOk,
  IsErr,
  is_err,
};
ghost use Rattle.file_machine.specs.LogFile.{IsLooked, IsLocked, IsHeld, is_in_place, IsSeen};

use crate::calls::{CallError, Calls, Node, Stat};
use lc_io::Failed;

/// How often in a row a read or a write is tried that signals interrupt.
const TRIES: u32 = 1_048_576;

/// What is known about the file at the path.
#[derive(Clone, Copy)]
pub(crate) enum Found {
    /// It has not been looked for.
    NotLooked,
    /// There is none.
    Absent,
    /// It is open for reading, with the length that was last returned to the owner.
    Open(Node, Option<u64>),
    /// Its lock is held. From then on only this machine may change it, and it has this length.
    Locked(Node, u64),
}

/// A file at a path, which may be absent: it then has length 0. The first call looks for it, and
/// the first write makes it. The first sync or write takes its lock.
#[derive(Drop)]
pub(crate) struct LogFile<C> {
    calls: C,
    found: Found,
    is_folder_synced: bool,
    has_failed: bool,
}

/// Whether a path at which this was seen leads to the file that was opened, or to none if there was
/// none, and the file has the length that it must have.
fn is_in_place(found: Found, seen: Option<Stat>) -> bool
    ensures { result ≡ is_in_place found seen }
{
    match (found, seen) {
        (Found::Absent, None) => true,
        (Found::Open(node, _), Some(stat)) => stat.node == node,
        (Found::Locked(node, len), Some(stat)) => stat.node == node && stat.len == len,
        _ => false,
    }
}

/// Looks at the path, and returns the length of the file there, 0 if there is none. Another program
/// may have removed, replaced, cut, extended or made the file, and that is a fault. One call is
/// enough: if the path leads to the number of the file that was opened, it leads to that file,
/// since no other one has its number as long as it is open; so the length is that of the open file.
fn look_at<C: Calls>(calls: &mut C, found: Found) -> Result<u64, Failed>
    ensures looked { IfOk result (λ len. IfSome (C.seen calls.new)
        (λ seen. IsSeen found seen len)) }
{
    let seen = calls.look()?;
    if !is_in_place(found, seen) {
        return Err(Failed);
    }
    match seen {
        Some(stat) => Ok(stat.len),
        None => Ok(0),
    }
}

/// Which file is open. Only a regular file is a log: a pipe may make a call wait for ever, and a
/// device keeps nothing.
fn opened<C: Calls>(calls: &mut C) -> Result<Node, Failed> {
    let stat = calls.stat()?;
    if stat.is_regular {
        Ok(stat.node)
    } else {
        Err(Failed)
    }
}

/// Looks for the file at the path, and opens it for reading.
fn find<C: Calls>(calls: &mut C) -> Result<Found, Failed>
    ensures looked { IfOk result IsLooked }
{
    match calls.look()? {
        None => Ok(Found::Absent),
        Some(stat) if stat.is_regular => {
            calls.open()?;
            Ok(Found::Open(opened(calls)?, None))
        }
        Some(_) => Err(Failed),
    }
}

/// Opens the open file again, for writing. A file that may not be written stays open for reading,
/// and a write is then a fault.
fn open_again<C: Calls>(calls: &mut C, node: Node) -> Result<(), Failed> {
    if calls.open_for_writing()? && opened(calls)? != node {
        return Err(Failed);
    }
    Ok(())
}

/// Takes the lock of the open file, and returns the length that it must have: the one that was
/// returned to the owner, since another program may have written before the lock was taken; or else
/// the one that it has now.
fn lock_opened<C: Calls>(calls: &mut C, node: Node, len: Option<u64>) -> Result<u64, Failed> {
    open_again(calls, node)?;
    calls.lock()?;
    match len {
        Some(len) => Ok(len),
        None => look_at(calls, Found::Open(node, None)),
    }
}

/// Makes the file, and takes its lock. If one exists by now, another program made it, and that is a
/// fault.
fn create<C: Calls>(calls: &mut C) -> Result<Node, Failed> {
    calls.create()?;
    let node = opened(calls)?;
    calls.lock()?;
    Ok(node)
}

/// Reads once, and again if a signal interrupts that.
fn read_once<C: Calls>(calls: &mut C, at: u64, buffer: &mut [u8]) -> Result<usize, Failed>
    ensures bound { IfOk result (λ n. n ≤ length buffer.new) }
{
    for _ in 0..TRIES {
        match calls.read(at, buffer) {
            Ok(count) => return Ok(count),
            Err(CallError::Interrupted) => {}
            Err(CallError::Failed) => return Err(Failed),
        }
    }
    Err(Failed)
}

/// Writes once, right after a look at the path, and again if a signal interrupts that.
fn write_once<C: Calls>(
    calls: &mut C,
    node: Node,
    len: u64,
    at: u64,
    bytes: &[u8],
) -> Result<usize, Failed>
    ensures bound { IfOk result (λ n. n ≤ length bytes.now) }
{
    for _ in 0..TRIES {
        look_at(calls, Found::Locked(node, len))?;
        match calls.write(node, len, at, bytes) {
            Ok(count) => return Ok(count),
            Err(CallError::Interrupted) => {}
            Err(CallError::Failed) => return Err(Failed),
        }
    }
    Err(Failed)
}

/// Reads until the buffer is full or the file ends. A file has no byte at the last offset of a
/// `u64`, so an offset past it is a fault.
fn read_whole_at<C: Calls>(calls: &mut C, at: u64, buffer: &mut [u8]) -> Result<usize, Failed>
    ensures bound { IfOk result (λ n. n ≤ length buffer.new) }
{
    let mut filled = 0;
    while filled < buffer.len() {
        let place = at.saturating_add(filled as u64);
        let count = read_once(calls, place, &mut buffer[filled..])?;
        if count == 0 {
            return Ok(filled);
        }
        filled += count;
    }
    Ok(filled)
}

/// Writes to the locked file until it has taken all bytes, and returns its length then. A write
/// that takes nothing is a fault.
fn write_whole_at<C: Calls>(
    calls: &mut C,
    node: Node,
    len: u64,
    at: u64,
    bytes: &[u8],
) -> Result<u64, Failed> {
    let mut len = len;
    let mut taken = 0;
    while taken < bytes.len() {
        let place = at.saturating_add(taken as u64);
        let count = write_once(calls, node, len, place, &bytes[taken..])?;
        if count == 0 {
            return Err(Failed);
        }
        taken += count;
        len = len.max(place.saturating_add(count as u64));
    }
    Ok(len)
}

impl<C: Calls> LogFile<C> {
    /// A file that has not been looked for.
    pub(crate) fn new(calls: C) -> LogFile<C>
        ensures calls { result.calls ≡ calls }
        ensures found { result.found ≡ Found.NotLooked }
        ensures folder { result.is_folder_synced ≡ false }
        ensures failed { result.has_failed ≡ false }
    {
        LogFile {
            calls,
            found: Found::NotLooked,
            is_folder_synced: false,
            has_failed: false,
        }
    }

    /// Looks for the file, unless it has been looked for.
    fn find(&mut self) -> Result<(), Failed>
        ensures looked { OnOk result (IsLooked self.new.found) }
        ensures failed { self.new.has_failed ≡ self.old.has_failed }
    {
        if let Found::NotLooked = self.found {
            self.found = find(&mut self.calls)?;
        }
        Ok(())
    }

    /// Looks at the path, and returns the length of the file. A reader's file may have grown.
    pub(crate) fn len(&mut self) -> Result<u64, Failed>
        ensures looked { IfOk result (λ len. IfSome (C.seen self.new.calls)
            (λ seen. IsSeen self.new.found seen len)) }
        ensures stuck { self.old.has_failed ≡ true → IsErr result }
        ensures failed { self.new.has_failed ≡ self.old.has_failed }
    {
        if self.has_failed {
            return Err(Failed);
        }
        self.find()?;
        let len = look_at(&mut self.calls, self.found)?;
        if let Found::Open(node, _) = self.found {
            self.found = Found::Open(node, Some(len));
        }
        Ok(len)
    }

    pub(crate) fn read_at(&mut self, at: u64, buffer: &mut [u8]) -> Result<usize, Failed>
        ensures bound { IfOk result (λ n. n ≤ length buffer.new) }
        ensures failed { self.new.has_failed ≡ self.old.has_failed }
    {
        self.find()?;
        match self.found {
            Found::NotLooked | Found::Absent => Ok(0),
            _ => read_whole_at(&mut self.calls, at, buffer),
        }
    }

    /// Takes the file's lock, unless it is held or there is no file.
    fn lock(&mut self) -> Result<(), Failed>
        ensures held { OnOk result (IsHeld self.new.found) }
        ensures failed { self.new.has_failed ≡ self.old.has_failed }
    {
        self.find()?;
        if let Found::Open(node, len) = self.found {
            self.found = Found::Locked(node, lock_opened(&mut self.calls, node, len)?);
        }
        Ok(())
    }

    /// Which file is locked, and its length. If there is none, it is made.
    fn locked(&mut self) -> Result<(Node, u64), Failed> {
        self.lock()?;
        match self.found {
            Found::Locked(node, len) => Ok((node, len)),
            _ => Ok((create(&mut self.calls)?, 0)),
        }
    }

    /// Writes to the file, while it is in its place. If it is absent, it is made.
    fn write_now(&mut self, at: u64, bytes: &[u8]) -> Result<(), Failed>
        ensures held { OnOk result (IsLocked self.new.found) }
    {
        let (node, len) = self.locked()?;
        let len = write_whole_at(&mut self.calls, node, len, at, bytes)?;
        self.found = Found::Locked(node, len);
        Ok(())
    }

    /// Syncs the locked file's bytes and its length, and the first time also its folder.
    fn sync_locked(&mut self) -> Result<(), Failed>
        ensures found { self.new.found ≡ self.old.found }
    {
        self.calls.sync()?;
        if !self.is_folder_synced {
            self.calls.sync_folder()?;
            self.is_folder_synced = true;
        }
        Ok(())
    }

    /// Syncs the file, if there is one. It must then be in its place.
    fn sync_now(&mut self) -> Result<(), Failed>
        ensures looked { OnOk result (IfSome (C.seen self.new.calls)
            (λ seen. is_in_place self.new.found seen ≡ true)) }
        ensures held { OnOk result (IsHeld self.new.found) }
    {
        self.lock()?;
        if let Found::Locked(_, _) = self.found {
            self.sync_locked()?;
        }
        look_at(&mut self.calls, self.found)?;
        Ok(())
    }

    pub(crate) fn write_at(&mut self, at: u64, bytes: &[u8]) -> Result<(), Failed>
        ensures stuck { self.old.has_failed ≡ true → IsErr result }
        ensures failed { self.new.has_failed ≡ is_err result }
        ensures held { OnOk result (IsLocked self.new.found) }
    {
        if self.has_failed {
            return Err(Failed);
        }
        let done = self.write_now(at, bytes);
        self.has_failed = done.is_err();
        done
    }

    pub(crate) fn sync(&mut self) -> Result<(), Failed>
        ensures looked { OnOk result (IfSome (C.seen self.new.calls)
            (λ seen. is_in_place self.new.found seen ≡ true)) }
        ensures stuck { self.old.has_failed ≡ true → IsErr result }
        ensures failed { self.new.has_failed ≡ is_err result }
        ensures held { OnOk result (IsHeld self.new.found) }
    {
        if self.has_failed {
            return Err(Failed);
        }
        let done = self.sync_now();
        self.has_failed = done.is_err();
        done
    }
}

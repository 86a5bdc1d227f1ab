//! The edges: streams that fail once and then go on, and a file.

use disk_model::Disk;
use file_machine::FileMachine;
use lc_io::{Failed, HostStream, Source, Wire};
use std::fs;
use std::fs::File;
use std::io::{self, ErrorKind, Read, Write};

/// A reader of the bytes `ab`, one at each read. The second read fails.
#[derive(Drop)]
struct FailsOnce {
    reads: u32,
}

impl Read for FailsOnce {
    fn read(&mut self, buffer: &mut [u8]) -> io::Result<usize> {
        self.reads = self.reads.saturating_add(1);
        let byte = match self.reads {
            1 => b'a',
            2 => return Err(ErrorKind::Interrupted.into()),
            3 => b'b',
            _ => return Ok(0),
        };
        match buffer.first_mut() {
            Some(first) => {
                *first = byte;
                Ok(1)
            }
            None => Ok(0),
        }
    }
}

#[test]
fn edge_of_a_reader(rt: HostRuntime) {
    // A read that fails is not tried again, and what follows is still there.
    let mut buffer = [0; 2];
    let mut source = HostStream::new(FailsOnce { reads: 0 });
    let first = [source.pull(&mut buffer), source.pull(&mut buffer)];
    let then = buffer;
    let second = [source.pull(&mut buffer), source.pull(&mut buffer)];
    assert!(rt; first == [Ok(1), Err(Failed)] && then == [b'a', 0]);
    assert!(rt; second == [Ok(1), Ok(0)] && buffer == [b'b', 0]);
}

/// A writer that takes one byte at each write. The second write fails.
#[derive(Drop)]
struct TakesOne {
    writes: u32,
}

impl Write for TakesOne {
    fn write(&mut self, bytes: &[u8]) -> io::Result<usize> {
        self.writes = self.writes.saturating_add(1);
        if self.writes == 2 {
            return Err(ErrorKind::Interrupted.into());
        }
        Ok(bytes.len().min(1))
    }

    fn flush(&mut self) -> io::Result<()> {
        Ok(())
    }
}

#[test]
fn edge_of_a_writer(rt: HostRuntime) {
    // A write that fails is not tried again, and the next piece is printed.
    let mut wire = HostStream::new(TakesOne { writes: 0 });
    assert!(rt; [wire.tell(b"ab"), wire.tell(b"cd")] == [Err(Failed), Ok(())]);
}

/// Files of the current folder, which exist neither before the test nor after it.
const FILE: &str = "chain_tests.file";

const LONG_FILE: &str = "chain_tests.long";

/// The length of the long file, past the last offset of 32 bits. Nothing is written to most of it,
/// so it takes little space.
const LONG_LEN: u64 = 0x1_0000_0005;

/// The place that the last byte of the long file would have if its offset were cut to 32 bits.
const SHORT_PLACE: u64 = 4;

/// A call of a machine over a file, and what it must return.
#[derive(Clone, Copy)]
enum Act {
    Len(Result<u64, Failed>),
    /// From this place so many bytes are read into a buffer of ones, which is then this one.
    Read(u64, usize, [u8; 8]),
    Write(u64, &'static [u8], Result<(), Failed>),
    Sync(Result<(), Failed>),
    /// A line is printed.
    Tell,
    /// The file is made, and has this length.
    Make(u64),
    /// The file is removed.
    Remove,
    /// There is no file.
    Gone,
}

fn is_made(rt: &HostRuntime, name: &str, len: u64) -> bool {
    match File::create_new(rt, name) {
        Ok(file) => file.set_len(len).is_ok(),
        Err(_) => false,
    }
}

fn write_low<W>(machine: &mut FileMachine<W>, at: u64, bytes: &[u8]) -> Result<(), Failed> {
    if at > LONG_LEN || bytes.len() > 8 {
        return Err(Failed);
    }
    machine.write_at(at, bytes)
}

/// Whether a call of a machine over the file of a name returns what it must.
fn does<W: Write>(rt: &HostRuntime, name: &str, machine: &mut FileMachine<W>, act: &Act) -> bool {
    match act {
        Act::Len(len) => machine.len() == *len,
        Act::Read(at, count, wanted) => {
            let mut buffer = [1; 8];
            machine.read_at(*at, &mut buffer) == Ok(*count) && buffer == *wanted
        }
        Act::Write(at, bytes, wanted) => write_low(machine, *at, bytes) == *wanted,
        Act::Sync(wanted) => machine.sync() == *wanted,
        Act::Tell => machine.tell(b"line\n") == Ok(()),
        Act::Make(len) => is_made(rt, name, *len),
        Act::Remove => fs::remove_file(rt, name).is_ok(),
        Act::Gone => !fs::exists(rt, name).unwrap_or(true),
    }
}

/// Whether two machines over the file of a name return what they must; beside each call stands
/// whether it is one of the other machine.
fn do_all<W: Write>(
    rt: &HostRuntime,
    name: &str,
    one: &mut FileMachine<W>,
    other: &mut FileMachine<W>,
    acts: &[(bool, Act)],
) -> bool {
    for (is_other, act) in acts {
        let is_done = if *is_other {
            does(rt, name, other, act)
        } else {
            does(rt, name, one, act)
        };
        if !is_done {
            return false;
        }
    }
    true
}

/// The name of a file, the calls of two new machines over it, and what the first one prints.
type Script = (&'static str, &'static [(bool, Act)], &'static [u8]);

/// Whether the calls of two new machines over the file of a name return what they must.
fn do_all_anew<'a>(
    rt: &'a HostRuntime,
    name: &'a str,
    told: &mut Vec<u8>,
    other_told: &mut Vec<u8>,
    acts: &[(bool, Act)],
) -> bool {
    do_all(
        rt,
        name,
        &mut FileMachine::new(rt, name, told),
        &mut FileMachine::new(rt, name, other_told),
        acts,
    )
}

/// Whether the calls return and print what they must.
fn runs(rt: &HostRuntime, script: &Script) -> bool {
    let (name, acts, wanted) = *script;
    let mut told: Vec<u8> = Vec::new(rt.alloc());
    let mut other_told: Vec<u8> = Vec::new(rt.alloc());
    do_all_anew(rt, name, &mut told, &mut other_told, acts) && told.as_slice() == wanted
}

/// At first there is no file, and nothing to sync.
const WRITES: [(bool, Act); 6] = [
    (false, Act::Len(Ok(0))),
    (false, Act::Sync(Ok(()))),
    (false, Act::Write(0, b"abcdef", Ok(()))),
    (false, Act::Sync(Ok(()))),
    (false, Act::Write(4, b"xyz", Ok(()))),
    (false, Act::Tell),
];

/// Another machine finds just what the first one wrote.
const READS: [(bool, Act); 3] = [
    (false, Act::Len(Ok(7))),
    (false, Act::Read(3, 4, *b"dxyz\x01\x01\x01\x01")),
    (false, Act::Remove),
];

/// A folder in place of a file.
const FAILS: [(bool, Act); 2] = [
    (false, Act::Len(Err(Failed))),
    (false, Act::Write(0, b"a", Err(Failed))),
];

/// Bytes are written behind the end of the long file, and then over its last byte.
const WRITES_FAR: [(bool, Act); 7] = [
    (false, Act::Make(LONG_LEN)),
    (false, Act::Sync(Ok(()))),
    (false, Act::Len(Ok(LONG_LEN))),
    (false, Act::Write(LONG_LEN, b"xyz", Ok(()))),
    (false, Act::Sync(Ok(()))),
    (false, Act::Write(LONG_LEN - 1, b"w", Ok(()))),
    (false, Act::Sync(Ok(()))),
];

const READS_FAR: [(bool, Act); 4] = [
    (false, Act::Len(Ok(LONG_LEN + 3))),
    (false, Act::Read(LONG_LEN - 1, 4, *b"wxyz\x01\x01\x01\x01")),
    (true, Act::Read(SHORT_PLACE, 8, [0; 8])),
    (false, Act::Remove),
];

/// Of two machines over one file, the first one that syncs or writes locks it; the other may read,
/// but returns no length once its own sync has failed. Once the file is removed, nothing is written
/// to it.
const LOCKS: [(bool, Act); 10] = [
    (false, Act::Sync(Ok(()))),
    (true, Act::Len(Ok(7))),
    (true, Act::Sync(Err(Failed))),
    (true, Act::Write(7, b"!", Err(Failed))),
    (true, Act::Len(Err(Failed))),
    (false, Act::Write(7, b".", Ok(()))),
    (true, Act::Read(7, 1, *b".\x01\x01\x01\x01\x01\x01\x01")),
    (false, Act::Remove),
    (false, Act::Sync(Err(Failed))),
    (false, Act::Gone),
];

const SCRIPTS: [Script; 7] = [
    (FILE, &WRITES, b"line\n"),
    (FILE, &READS, b""),
    (".", &FAILS, b""),
    (LONG_FILE, &WRITES_FAR, b""),
    (LONG_FILE, &READS_FAR, b""),
    (FILE, &WRITES, b"line\n"),
    (FILE, &LOCKS, b""),
];

#[test]
fn edges_of_files(rt: HostRuntime) {
    for script in &SCRIPTS {
        assert!(rt; runs(&rt, script));
    }
}

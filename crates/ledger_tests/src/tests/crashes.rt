//! What crashes of a machine in memory leave: any part of what was not synced.

use disk_model::{Disk, MemMachine};
use lc_io::{Failed, Room, Wire};
use std::alloc::Global;

const ROOM: Room = Room {
    calls: 16,
    bytes: 64,
};

/// Writes six bytes, syncs, writes `XYZ` over the last two and one more, and prints a line: four
/// calls.
fn write_twice<M: Disk + Wire>(machine: &mut M) -> Result<(), Failed> {
    machine.write_at(0, b"abcdef")?;
    machine.sync()?;
    machine.write_at(4, b"XYZ")?;
    machine.tell(b"line\n")
}

/// A crash: the moment, how many of the bytes that were not synced are kept, whether the disk is cut
/// to what was synced, and the bytes that are left.
type Crash = (u64, u64, bool, &'static [u8]);

/// Whether a crash leaves these bytes.
fn leaves(alloc: Global, machine: &MemMachine, crash: &Crash) -> bool {
    let (moment, keep, short, image) = *crash;
    if machine.moment() < moment {
        return false;
    }
    match machine.crash(alloc, moment, keep, b'.', short) {
        Ok(crashed) => crashed.image() == image && crashed.moment() == 0,
        Err(_) => false,
    }
}

/// What crashes leave after four calls.
const CRASHES: [Crash; 14] = [
    // Before the first call.
    (0, 0, false, b"ab"),
    (0, 0, true, b"ab"),
    // After the first write, of six bytes that are not synced.
    (1, 0, false, b"......"),
    (1, 1, false, b"a....."),
    (1, 5, false, b"abcde."),
    (1, 6, false, b"abcdef"),
    (1, 1, true, b"a."),
    // After the sync.
    (2, 0, false, b"abcdef"),
    (2, 0, true, b"abcdef"),
    // After the second write, and after the line.
    (3, 0, false, b"abcd..."),
    (3, 2, false, b"abcdXY."),
    (3, 2, true, b"abcdXY"),
    (4, 9, false, b"abcdXYZ"),
    (4, 0, true, b"abcd.."),
];

/// What crashes leave after a write that failed, and a sync.
const LATER_CRASHES: [Crash; 3] = [
    (1, 0, false, b"a."),
    (1, 1, false, b"ab"),
    (2, 0, false, b"ab"),
];

fn all_leave(alloc: Global, machine: &MemMachine, crashes: &[Crash]) -> bool {
    for crash in crashes {
        if !leaves(alloc, machine, crash) {
            return false;
        }
    }
    true
}

/// Whether crashes leave what they must of a machine that has done its calls; the first write fails
/// or not.
fn are_left(alloc: Global, fails: bool) -> bool {
    let failing: &[u64] = if fails { &[0] } else { &[] };
    let Ok(mut machine) = MemMachine::new(alloc, b"ab", ROOM, failing) else {
        return false;
    };
    if fails {
        // A write that fails leaves its bytes as they were, and not synced.
        machine.write_at(1, b"xy") == Err(Failed)
            && machine.moment() == 1
            && machine.sync() == Ok(())
            && all_leave(alloc, &machine, &LATER_CRASHES)
    } else {
        write_twice(&mut machine) == Ok(())
            && machine.moment() == 4
            && all_leave(alloc, &machine, &CRASHES)
    }
}

#[test]
fn crashes_at_each_moment(rt: HostRuntime) {
    assert!(rt; are_left(rt.alloc(), false));
}

#[test]
fn crash_after_a_failed_write(rt: HostRuntime) {
    assert!(rt; are_left(rt.alloc(), true));
}

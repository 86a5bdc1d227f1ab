//! Scratch devices: in memory, and over files.

ghost use Rattle.std.specs.Prelude.{◌≡◌, length, IfSome};

use file_scratch::{Calls, FileScratch, GATHERED_BYTES, HostCalls};
use lc_io::{Failed, MemScratch, Room, Scratch};
use std::alloc::Global;
use std::fs;
use std::fs::File;

/// The name at which a device makes its file, in the current folder.
const FILE: &str = "chain.scratch";

/// A file of the tests, which exists neither before them nor after them.
const SHORT_FILE: &str = "chain_tests.short";

/// Another one.
const LONG_FILE: &str = "chain_tests.long";

/// A place that no 32 bits hold.
const FAR_PLACE: u64 = 1 << 32;

/// The bytes of a user's file.
const KEPT: &[u8] = b"a file of the same name";

/// Puts two texts, and gets the first one back.
fn put_two<S: Scratch>(scratch: &mut S, got: &mut [u8; 3]) -> Result<(u64, u64), Failed> {
    let first = scratch.put(b"abc")?;
    let second = scratch.put(b"de")?;
    scratch.get(first, got)?;
    Ok((first, second))
}

/// Puts a text, a body and a text, and gets the last two back, the last one first or not.
fn put_three<S: Scratch>(
    scratch: &mut S,
    body: &[u8],
    last: &[u8],
    got_body: &mut [u8],
    got_last: &mut [u8],
    is_last_first: bool,
) -> Result<(), Failed>
    requires alike { length got_body.old ≡ length body.now }
    requires last_alike { length got_last.old ≡ length last.now }
{
    let _first = scratch.put(b"abc")?;
    let place = scratch.put(body)?;
    let last_place = scratch.put(last)?;
    if is_last_first {
        scratch.get(last_place, got_last)?;
        scratch.get(place, got_body)
    } else {
        scratch.get(place, got_body)?;
        scratch.get(last_place, got_last)
    }
}

/// Does so on a device over a file, which is closed then.
fn put_on_file(
    rt: &HostRuntime,
    body: &[u8],
    last: &[u8],
    got_body: &mut [u8],
    got_last: &mut [u8],
    is_last_first: bool,
) -> bool
    requires alike { length got_body.old ≡ length body.now }
    requires last_alike { length got_last.old ≡ length last.now }
{
    let Ok(mut scratch) = FileScratch::new(rt.alloc(), rt, ".") else {
        return false;
    };
    let done = put_three(&mut scratch, body, last, got_body, got_last, is_last_first);
    let closed = scratch.close();
    done.is_ok() && closed.is_ok()
}

#[test]
fn scratch_file_at_later_places(rt: HostRuntime) {
    let (mut second, mut third) = ([0; 2], [0; 4]);
    assert!(rt; put_on_file(&rt, b"de", b"fghi", &mut second, &mut third, true));
    assert!(rt; second == *b"de" && third == *b"fghi");
}

/// As many bytes, each of them this one.
fn bytes_of(alloc: Global, byte: u8, count: usize) -> Option<Vec<u8>>
    ensures { IfSome result (λ bytes. length bytes.items ≡ count) }
{
    vec![in alloc; byte; count].ok()
}

/// Whether a body of `count` bytes and a text after it are got back from a device over a file.
fn are_got_back(rt: &HostRuntime, count: usize) -> bool {
    let Some(body) = bytes_of(rt.alloc(), 7, count) else {
        return false;
    };
    let Some(mut got) = bytes_of(rt.alloc(), 0, count) else {
        return false;
    };
    let mut last = [0; 2];
    let is_put = put_on_file(rt, &body, b"de", &mut got, &mut last, false);
    is_put && got.as_slice() == body.as_slice() && last == *b"de"
}

#[test]
fn scratch_file_of_gathered_bytes(rt: HostRuntime) {
    // The body is gathered behind the first text; is gathered once that is written; or is written
    // by itself.
    let most = GATHERED_BYTES;
    for count in [most - 3, most - 2, most, most + 1] {
        assert!(rt; are_got_back(&rt, count));
    }
}

/// Puts a text on each of two devices, and then gets both back.
fn put_on_both<A: Scratch, B: Scratch>(
    one: &mut A,
    other: &mut B,
    got_one: &mut [u8; 3],
    got_other: &mut [u8; 3],
) -> Result<(), Failed> {
    let place = one.put(b"abc")?;
    let other_place = other.put(b"xyz")?;
    one.get(place, got_one)?;
    other.get(other_place, got_other)
}

#[test]
fn scratch_in_memory(rt: HostRuntime) {
    let room = Room { calls: 4, bytes: 6 };
    let Ok(mut scratch) = MemScratch::new(rt.alloc(), room, &[3]) else {
        assert!(rt; false);
        return;
    };
    let mut got = [0; 3];
    let is_put = put_two(&mut scratch, &mut got) == Ok((0, 3));
    let gets = scratch.gets();
    // Two more bytes do not fit the room, and the call takes no number; the next one fails by its
    // number.
    let failing = [scratch.put(b"fg"), scratch.put(b"f")];
    assert!(rt; is_put && got == *b"abc" && gets == 1);
    assert!(rt; failing == [Err(Failed), Err(Failed)] && scratch.gets() == 1);
}

/// Whether there is a file of this name, or it can't be looked for.
fn is_there(rt: &HostRuntime, name: &str) -> bool {
    fs::exists(rt, name).unwrap_or(true)
}

/// Does so on a device and on one over a file, which is closed then. Whether a file of a device has
/// a name while both are open.
fn put_beside<S: Scratch>(
    rt: &HostRuntime,
    one: &mut S,
    got_one: &mut [u8; 3],
    got_other: &mut [u8; 3],
) -> Result<bool, Failed> {
    let Ok(mut other) = FileScratch::new(rt.alloc(), rt, ".") else {
        return Err(Failed);
    };
    let done = put_on_both(one, &mut other, got_one, got_other);
    let is_named = is_there(rt, "chain.scratch_") || is_there(rt, "chain.scratch__");
    let closed = other.close();
    done?;
    closed?;
    Ok(is_named)
}

/// Does so on two devices over files, which are closed then.
fn put_on_files(
    rt: &HostRuntime,
    got_one: &mut [u8; 3],
    got_other: &mut [u8; 3],
) -> Result<bool, Failed> {
    let Ok(mut one) = FileScratch::new(rt.alloc(), rt, ".") else {
        return Err(Failed);
    };
    let done = put_beside(rt, &mut one, got_one, got_other);
    let closed = one.close();
    closed?;
    done
}

/// Whether a file has these bytes.
fn holds(rt: &HostRuntime, name: &str, wanted: &[u8]) -> bool {
    match fs::read(rt, name) {
        Ok(bytes) => bytes.as_slice() == wanted,
        Err(_) => false,
    }
}

#[test]
fn scratch_files_without_names(rt: HostRuntime) {
    // A file that has the name of the scratch file stays as it is.
    assert!(rt; fs::write(&rt, FILE, KEPT).is_ok());
    // Each device has a file of its own. While they are open, none of them has a name.
    let (mut got_one, mut got_other) = ([0; 3], [0; 3]);
    assert!(rt; put_on_files(&rt, &mut got_one, &mut got_other) == Ok(false));
    assert!(rt; got_one == *b"abc" && got_other == *b"xyz");
    assert!(rt; holds(&rt, FILE, KEPT));
    assert!(rt; fs::remove_file(&rt, FILE).is_ok());
}

/// Puts two texts on a device over a file, gets the first one, so that both are in the file, cuts
/// the file to `len` bytes, and gets the second text.
fn get_after_cut<S: Scratch>(
    scratch: &mut S,
    file: &File,
    len: u64,
    got: &mut [u8; 2],
) -> Result<(), Failed> {
    let first = scratch.put(b"abc")?;
    let second = scratch.put(b"de")?;
    let mut got_first = [0; 3];
    scratch.get(first, &mut got_first)?;
    if file.set_len(len).is_err() {
        return Ok(());
    }
    scratch.get(second, got)
}

/// Does so on a new file, which is removed then.
fn get_from_short(rt: &HostRuntime, len: u64, got: &mut [u8; 2]) -> Result<(), Failed> {
    let Ok(file) = File::create_new(rt, SHORT_FILE) else {
        return Ok(());
    };
    let Ok(cut) = file.try_clone() else {
        return Ok(());
    };
    let Ok(mut scratch) = FileScratch::over(rt.alloc(), rt, file) else {
        return Ok(());
    };
    let done = get_after_cut(&mut scratch, &cut, len, got);
    let _removed = fs::remove_file(rt, SHORT_FILE);
    done
}

#[test]
fn scratch_file_that_was_cut(rt: HostRuntime) {
    let mut got = [0; 2];
    assert!(rt; get_from_short(&rt, 4, &mut got) == Err(Failed));
    assert!(rt; get_from_short(&rt, 5, &mut got) == Ok(()) && got == *b"de");
    assert!(rt; !is_there(&rt, SHORT_FILE));
}

/// Writes a text at a far place and one at the start, and reads both.
fn write_far<C: Calls>(calls: &mut C, near: &mut [u8; 3], far: &mut [u8; 2]) -> Result<(), Failed> {
    calls.write(FAR_PLACE, b"de")?;
    calls.write(0, b"abc")?;
    calls.read(0, near)?;
    calls.read(FAR_PLACE, far)
}

/// Does so on a new file, which is removed then. Between the texts nothing is written, so the file
/// takes little of the disk.
fn write_far_on_file(rt: &HostRuntime, near: &mut [u8; 3], far: &mut [u8; 2]) -> bool {
    let Ok(file) = File::create_new(rt, LONG_FILE) else {
        return false;
    };
    let mut calls = HostCalls::new(rt, Some(file));
    let done = write_far(&mut calls, near, far);
    fs::remove_file(rt, LONG_FILE).is_ok() && done.is_ok()
}

#[test]
fn scratch_file_past_four_gigabytes(rt: HostRuntime) {
    let (mut near, mut far) = ([0; 3], [0; 2]);
    assert!(rt; write_far_on_file(&rt, &mut near, &mut far));
    assert!(rt; near == *b"abc" && far == *b"de");
}

#[test]
fn scratch_that_makes_no_file(rt: HostRuntime) {
    // If there is no such folder, each put is a fault.
    let Ok(mut nowhere) = FileScratch::new(rt.alloc(), &rt, "no such folder") else {
        assert!(rt; false);
        return;
    };
    assert!(rt; nowhere.put(b"a") == Err(Failed));
    assert!(rt; nowhere.close() == Ok(()));
}

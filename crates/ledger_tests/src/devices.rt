//! Which bodies are read: a block of one row more than bodies are at hand, over devices in memory and
//! over a file; and a key with very many versions.

use crate::acts::{Act, holds_of};
use crate::lineages::{Question, blocks_of_numbers, lineage_of, tells};
use crate::long::{ASKED, numbered_blocks};
use file_scratch::{FileScratch, GATHERED_BYTES};
use lc_base::{Kind, TextList, zeros};
use lc_io::Scratch;
use merkle_dag::QueryError;
use std::alloc::Global;
use std::fs;
use std::fs::File;
use std::os::unix::fs::FileExt;

/// One more than the number of bodies at hand.
const KEYS: u32 = 1_025;

/// The number of the first call after the puts of these bodies.
const FIRST_GET: u64 = 1_025;

/// How many bytes are put before the bodies: with 1,000 of these, of ten bytes each, as many as are
/// gathered. So these bodies are in the file once the next one was put.
const BEFORE: usize = GATHERED_BYTES - 10_000;

/// The file of a device, in the current folder.
const FILE: &str = "lineage_tests.scratch";

/// The number of questions about the key with very many versions.
const QUESTIONS: u32 = 2_000_000;

/// One block, which writes the keys `raw/0`, `raw/1` and so on, each with the int 5.
fn block_of_keys(alloc: Global) -> Option<TextList> {
    let tx = (
        "{\"set\":{\"sender\":\"u\",\"key\":\"raw/",
        "\",\"value\":5}}",
    );
    blocks_of_numbers(alloc, ("[[", "]]"), tx, KEYS, 0, 0)
}

/// The first key has the int 5.
const FIRST: Question<'static> = Question {
    by_ask: true,
    kind: Kind::Hist,
    key: b"raw/0",
    at: 0,
    told: (b'i', 0, 0, 5),
    list: &[],
    error: None,
    steps: (0, u64::MAX),
};

/// The last key has the int 5.
const LAST: Question<'static> = Question {
    by_ask: true,
    kind: Kind::Hist,
    key: b"raw/1024",
    at: 0,
    told: (b'i', 0, 1_024, 5),
    list: &[],
    error: None,
    steps: (0, u64::MAX),
};

/// The first key has the int 7.
const CHANGED: Question<'static> = Question {
    by_ask: true,
    kind: Kind::Hist,
    key: b"raw/0",
    at: 0,
    told: (b'i', 0, 0, 7),
    list: &[],
    error: None,
    steps: (0, u64::MAX),
};

/// That of the first key can't be read.
const FAULT: Question<'static> = Question {
    by_ask: true,
    kind: Kind::Hist,
    key: b"raw/0",
    at: 0,
    told: (b'!', 0, 0, 0),
    list: &[],
    error: Some(QueryError::Fault),
    steps: (0, u64::MAX),
};

/// The first body is no longer at hand. It is again after it was read, and the last one still is.
const READ_ONCE: [Act<'static>; 7] = [
    Act::Gets(0, 0),
    Act::Ask(FIRST),
    Act::Gets(1, 1),
    Act::Ask(FIRST),
    Act::Gets(1, 1),
    Act::Ask(LAST),
    Act::Gets(1, 1),
];

#[test]
fn bodies_at_hand_are_not_read(rt: HostRuntime) {
    let blocks = block_of_keys(rt.alloc());
    assert!(rt; holds_of(rt.alloc(), blocks, &[], &READ_ONCE) == Some(true));
}

/// The first body is a fault twice. Then it is read, and is at hand; the last one always was.
const READ_LATER: [Act<'static>; 4] = [
    Act::Ask(FAULT),
    Act::Ask(LAST),
    Act::Ask(FAULT),
    Act::Ask(FIRST),
];

#[test]
fn failed_get_is_a_fault(rt: HostRuntime) {
    let blocks = block_of_keys(rt.alloc());
    let failing = [FIRST_GET, FIRST_GET + 1];
    assert!(rt; holds_of(rt.alloc(), blocks, &failing, &READ_LATER) == Some(true));
}

#[test]
fn failed_put_ends_the_block(rt: HostRuntime) {
    let blocks = block_of_keys(rt.alloc());
    assert!(rt; holds_of(rt.alloc(), blocks, &[FIRST_GET - 1], &[]).is_none());
}

/// Whether the int of the first key is 7 and that of the last one is 5 over a device on this file, in
/// which the first one is changed once it is in the file.
fn tells_of_change<S: Scratch>(
    alloc: Global,
    scratch: &mut S,
    file: &File,
    blocks: &TextList,
) -> bool {
    let is_put = match zeros(alloc, BEFORE) {
        Ok(before) => scratch.put(&before).is_ok(),
        Err(_) => false,
    };
    let Some(mut lineage) = lineage_of(alloc, scratch, blocks) else {
        return false;
    };
    // The body of the first row is ten bytes; its int ends at the ninth.
    let is_written = matches!(file.write_at(&[7], BEFORE as u64 + 8), Ok(1));
    let is_changed = tells(alloc, &mut lineage, scratch, &CHANGED);
    let is_kept = tells(alloc, &mut lineage, scratch, &LAST);
    lineage.give_up();
    is_put && is_written && is_changed && is_kept
}

/// The same over a device on a new file.
fn tells_of_changed_file(rt: &HostRuntime, blocks: &TextList) -> Option<bool> {
    let file = File::create_new(rt, FILE).ok()?;
    let changed = file.try_clone().ok()?;
    let mut scratch = FileScratch::over(rt.alloc(), rt, file).ok()?;
    Some(tells_of_change(rt.alloc(), &mut scratch, &changed, blocks))
}

#[test]
fn bodies_are_read_from_the_file(rt: HostRuntime) {
    let told = match block_of_keys(rt.alloc()) {
        Some(blocks) => tells_of_changed_file(&rt, &blocks),
        None => None,
    };
    assert!(rt; told == Some(true));
    assert!(rt; fs::remove_file(&rt, FILE).is_ok());
}

/// Each body is read once.
const OFTEN: [Act<'static>; 2] = [
    Act::AskOften(QUESTIONS),
    Act::Gets(ASKED as u64, ASKED as u64),
];

#[test]
fn bodies_at_hand_answer_very_many_questions(rt: HostRuntime) {
    let blocks = numbered_blocks(rt.alloc());
    assert!(rt; holds_of(rt.alloc(), blocks, &[], &OFTEN) == Some(true));
}

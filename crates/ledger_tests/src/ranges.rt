//! All versions of a key between two blocks, over chains of very many blocks: how many versions are
//! looked at to find them. These are the ones on the path to the last version up to the second
//! block, and, if there are versions between the blocks, the others of them, one less than their
//! number. Each path stands beside its question; it was worked out by hand, by the rule that a
//! version leads on by the highest of its links whose block is after the second one, or by link 0.

ghost use Rattle.lc_io.specs.MemScratch.{state_over};
ghost use Rattle.merkle_dag.specs.Lineage.{AgreesWith};

use crate::acts::{Act, holds_of};
use crate::lineages::blocks_of_numbers;
use crate::long::{BLOCKS, KEY, WRITING, numbered_blocks};
use crate::versions::Steps;
use lc_base::{Key, Value, Version};
use lc_io::MemScratch;
use merkle_dag::Lineage;
use range_proof::range;
use std::alloc::Global;

/// The number of the first blocks that write the key of a far chain.
const NEAR_BLOCKS: u32 = 64;

/// The first block after these that writes it; the next one does, too, and is the last of all.
const FAR_BLOCK: u32 = 524_287;

/// The versions of a key from one block to another: the key, the blocks, how many there are, and how
/// many versions are looked at to find them.
pub(crate) type Looked<'r> = (&'r [u8], u32, u32, usize, u64);

/// Whether these are the versions that one block after another wrote, from `first` on: the number of
/// each, by its only transaction.
fn are_numbered(versions: &[Version], first: u32) -> bool {
    let mut block = first;
    for version in versions {
        let number = match version.value {
            Value::Int(number) => number,
            _ => return false,
        };
        if (version.block, version.tx, number) != (block, 0, i64::from(block)) {
            return false;
        }
        block = block.saturating_add(1);
    }
    true
}

/// Whether the versions of a key between two blocks are those that one block after another wrote,
/// and are as many, and as many versions are looked at to find them.
pub(crate) fn has_versions(
    alloc: Global,
    lineage: &mut Lineage,
    scratch: &mut MemScratch,
    wanted: &Looked<'_>,
) -> bool
    requires agrees { AgreesWith lineage.old (state_over scratch.old.bytes) }
    ensures agrees { AgreesWith lineage.new (state_over scratch.new.bytes) }
{
    let (key, from, to, count, looked_at) = *wanted;
    let Ok(key) = Key::new(key) else {
        return false;
    };
    if from > to {
        return false;
    }
    let mut steps = Steps::new();
    match range(alloc, lineage, scratch, &key, from, to, &mut steps) {
        Ok(versions) => {
            (versions.len(), steps.count()) == (count, looked_at)
                && are_numbered(versions.as_slice(), from)
        }
        Err(_) => false,
    }
}

/// The ranges of the far chain, of which all but 66 blocks are empty.
const FAR: [Act<'static>; 4] = [
    // Three versions. The path to block 33 is 524288, 524287, 48, 40, 36, 34, 33, and then come 32
    // and 31.
    Act::Range((KEY, 31, 33, 3, 9)),
    // The path to block 63 is 524288, 524287, 63; then come the 63 versions before that.
    Act::Range((KEY, 0, 63, 64, 66)),
    // The path to block 524286 is the same; its last version is before block 64.
    Act::Range((KEY, 64, 524_286, 0, 3)),
    // A key without versions has no path.
    Act::Range((b"raw/b", 0, 524_288, 0, 0)),
];

#[test]
fn far_versions_are_found_in_few_steps(rt: HostRuntime) {
    let alloc = rt.alloc();
    let count = FAR_BLOCK + 2;
    let blocks = blocks_of_numbers(alloc, ("[", "]"), WRITING, count, NEAR_BLOCKS, FAR_BLOCK);
    assert!(rt; holds_of(alloc, blocks, &[], &FAR) == Some(true));
}

/// The ranges of very many versions, and how many bodies were read by then.
const LONG: [Act<'static>; 5] = [
    // The path to the last version has that one alone. The last ten bodies are at hand.
    Act::Range((KEY, 65_526, 65_535, 10, 10)),
    Act::Gets(0, 0),
    Act::Range((KEY, 0, 65_535, 65_536, 65_536)),
    Act::Gets(0, BLOCKS as u64),
    // The path to block 32255 is 65535, 65534, 65532, 65528, 65520, 65504, 65472, 65408, 65280,
    // 65024, 64512, 63488, 61440, 57344, 49152, 32768, 32256, 32255: 18 versions; then nine more.
    Act::Range((KEY, 32_246, 32_255, 10, 27)),
];

#[test]
fn very_many_versions_are_looked_at_once(rt: HostRuntime) {
    let blocks = numbered_blocks(rt.alloc());
    assert!(rt; holds_of(rt.alloc(), blocks, &[], &LONG) == Some(true));
}

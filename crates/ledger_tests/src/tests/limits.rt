//! The placement of a block in a chain that is full, by its blocks or by its rows, and in one that
//! is not yet: no chain of so many blocks or rows can be made here. And the placement of a block of
//! either version in a chain that is marked, and in one that isn't.

ghost use Rattle.std.specs.Prelude.{◌≡◌, ◌≤◌, true};
ghost use Rattle.block_codec.specs.Spelling.{is_version};

use crate::tests::encoded::{Made, NONE, encoded};
use block_codec::{
    Block, FIRST_VERSION, MAX_BLOCK_BUDGET, MAX_BLOCKS, MAX_CALL_BUDGET, MAX_MARKED_BLOCKS,
    MAX_ROWS_BEFORE_BLOCK, Misplaced, NO_PARENT, Placement, SECOND_VERSION, TxList, decode, place,
};
use lc_base::Digest;
use std::alloc::Global;

/// The placement of a block of this version and number, without transactions, after `held` blocks
/// with `rows` rows.
fn place_after(
    alloc: Global,
    version: u8,
    number: u32,
    held: u32,
    rows: u64,
    marked: bool,
) -> Placement
    requires version { is_version version ≡ true }
    requires new { held ≤ number }
{
    let block = Block {
        version,
        number,
        parent: NO_PARENT,
        txs: TxList::new(alloc),
    };
    place(held, rows, None, NO_PARENT, &block, NO_PARENT, marked)
}

/// The same of a block of the first version, in a chain that isn't marked.
fn place_of(alloc: Global, number: u32, held: u32, rows: u64) -> Placement
    requires { held ≤ number }
{
    place_after(alloc, FIRST_VERSION, number, held, rows, false)
}

/// The same of a block of the second version, in a chain that is marked.
fn place_marked(alloc: Global, number: u32, held: u32, rows: u64) -> Placement
    requires { held ≤ number }
{
    place_after(alloc, SECOND_VERSION, number, held, rows, true)
}

#[test]
fn limits_of_chains(rt: HostRuntime) {
    assert!(rt; MAX_BLOCKS == 1_048_576 && MAX_MARKED_BLOCKS == 4_294_967_295);
    assert!(rt; MAX_ROWS_BEFORE_BLOCK == 4_293_918_718);
}

#[test]
fn places_in_full_chains(rt: HostRuntime) {
    let alloc = rt.alloc();
    let full = Placement::Not(Misplaced::Full);
    assert!(rt; place_of(alloc, MAX_BLOCKS, MAX_BLOCKS, 0) == full);
    assert!(rt; place_of(alloc, MAX_BLOCKS - 1, MAX_BLOCKS - 1, 0) == Placement::Next);
    assert!(rt; place_of(alloc, 7, 7, MAX_ROWS_BEFORE_BLOCK) == Placement::Next);
    assert!(rt; place_of(alloc, 7, 7, MAX_ROWS_BEFORE_BLOCK + 1) == full);
    // That a chain is full is tested before the number of the block.
    assert!(rt; place_of(alloc, MAX_BLOCKS + 1, MAX_BLOCKS, 0) == full);
}

#[test]
fn places_in_full_marked_chains(rt: HostRuntime) {
    let alloc = rt.alloc();
    let full = Placement::Not(Misplaced::Full);
    let most = MAX_MARKED_BLOCKS;
    assert!(rt; place_marked(alloc, most, most, 0) == full);
    assert!(rt; place_marked(alloc, most - 1, most - 1, 0) == Placement::Next);
    assert!(rt; place_marked(alloc, MAX_BLOCKS, MAX_BLOCKS, 0) == Placement::Next);
    assert!(rt; place_marked(alloc, 7, 7, MAX_ROWS_BEFORE_BLOCK) == Placement::Next);
    assert!(rt; place_marked(alloc, 7, 7, MAX_ROWS_BEFORE_BLOCK + 1) == full);
    // That a chain is full is tested before the number of the block, and before its version.
    assert!(rt; place_marked(alloc, most, most - 1, MAX_ROWS_BEFORE_BLOCK + 1) == full);
    assert!(rt; place_after(alloc, FIRST_VERSION, most, most, 0, true) == full);
}

/// The placement of a block of this version and with this parent, without transactions, in a chain
/// that has no block yet.
fn place_version(alloc: Global, version: u8, parent: Digest, marked: bool) -> Placement
    requires { is_version version ≡ true }
{
    let block = Block {
        version,
        number: 0,
        parent,
        txs: TxList::new(alloc),
    };
    place(0, 0, None, NO_PARENT, &block, NO_PARENT, marked)
}

#[test]
fn places_by_versions(rt: HostRuntime) {
    let alloc = rt.alloc();
    let first = Placement::Not(Misplaced::Version {
        want: FIRST_VERSION,
    });
    let second = Placement::Not(Misplaced::Version {
        want: SECOND_VERSION,
    });
    assert!(rt; place_version(alloc, FIRST_VERSION, NO_PARENT, false) == Placement::Next);
    assert!(rt; place_version(alloc, FIRST_VERSION, NO_PARENT, true) == second);
    assert!(rt; place_version(alloc, SECOND_VERSION, NO_PARENT, false) == first);
    assert!(rt; place_version(alloc, SECOND_VERSION, NO_PARENT, true) == Placement::Next);
    // The parent of a block is tested before its version.
    let parent = Placement::Not(Misplaced::Parent { want: NO_PARENT });
    assert!(rt; place_version(alloc, FIRST_VERSION, Digest([1; 32]), true) == parent);
    assert!(rt; place_version(alloc, SECOND_VERSION, Digest([1; 32]), false) == parent);
}

/// The number of calls of the greatest budget, one more than a block may have.
const COSTLY: usize = (MAX_BLOCK_BUDGET / MAX_CALL_BUDGET as u64 + 1) as usize;

/// The placement of a block of this version with these calls, as it is decoded from its encoding, in
/// a chain that has no block yet and isn't marked.
fn place_costly(alloc: Global, version: u8) -> Option<Placement> {
    let calls = [(COSTLY, Made::Call(None, 0, MAX_CALL_BUDGET)), NONE];
    let Ok(bytes) = encoded(alloc, version, &calls) else {
        return None;
    };
    match decode(alloc, bytes.as_bytes()) {
        Ok(block) => Some(place(0, 0, None, NO_PARENT, &block, NO_PARENT, false)),
        Err(_) => None,
    }
}

#[test]
fn places_a_costly_block(rt: HostRuntime) {
    let first = Placement::Not(Misplaced::Version {
        want: FIRST_VERSION,
    });
    // The version of a block is tested before its budget.
    assert!(rt; place_costly(rt.alloc(), SECOND_VERSION) == Some(first));
    let sum = MAX_BLOCK_BUDGET + u64::from(MAX_CALL_BUDGET);
    let budget = Placement::Not(Misplaced::Budget { sum });
    assert!(rt; place_costly(rt.alloc(), FIRST_VERSION) == Some(budget));
}

//! Worked examples: how many links versions have, and what lookups look at.

use crate::versions::Versions;
use lc_base::Key;
use std::alloc::Global;

/// A lookup: up to which block, the version that it must find, and those that it must look at.
type Lookup = (u32, Option<u32>, &'static [u32]);

/// Versions of a key in as many blocks, from 0 on, and then in these blocks, with as many links; and
/// lookups.
type Case = (u32, &'static [(u32, usize)], &'static [Lookup]);

/// Whether a version can be added, and has as many links, and how many entries are read for it.
fn added(alloc: Global, versions: &mut Versions, block: u32, links: usize) -> Option<u64> {
    match versions.add(alloc, block) {
        Ok(Some(added)) if added.links == links => Some(added.read),
        _ => None,
    }
}

/// Adds versions in as many blocks, from 0 on, and returns the most entries that were read for one
/// of them; `None` if the height of one isn't the number of zeros at the end of its block's binary
/// digits, or the first has links.
fn most_added(alloc: Global, versions: &mut Versions, blocks: u32) -> Option<u64> {
    let mut most = 0;
    for block in 0..blocks {
        let links = if block == 0 {
            0
        } else {
            block.trailing_zeros() as usize + 1
        };
        match added(alloc, versions, block, links) {
            Some(read) => most = read.max(most),
            None => return None,
        }
    }
    Some(most)
}

/// Looks up the versions in as many blocks, from 0 on, and returns the most entries that were read
/// for one of them; `None` if one isn't found.
fn most_found(versions: &Versions, blocks: u32) -> Option<u64> {
    let mut most = 0;
    for block in 0..blocks {
        let (found, read) = versions.find(block);
        if found != Some(block) {
            return None;
        }
        most = read.max(most);
    }
    Some(most)
}

/// Whether versions can be added in these blocks, and have as many links as stand beside them.
fn adds_each(alloc: Global, versions: &mut Versions, wanted: &[(u32, usize)]) -> bool {
    for (block, links) in wanted {
        if added(alloc, versions, *block, *links).is_none() {
            return false;
        }
    }
    true
}

/// Whether a version is found by the path that it must be.
fn finds(alloc: Global, versions: &Versions, lookup: &Lookup) -> bool {
    let (at, found, wanted) = *lookup;
    let is_path = match versions.path(alloc, at) {
        Ok(path) => path.as_slice() == wanted,
        Err(_) => false,
    };
    is_path && versions.find(at) == (found, wanted.len() as u64)
}

fn finds_each(alloc: Global, versions: &Versions, lookups: &[Lookup]) -> bool {
    for lookup in lookups {
        if !finds(alloc, versions, lookup) {
            return false;
        }
    }
    true
}

/// Whether the versions can be added, and are found then as they must be; and the most entries that
/// were read to add one of the low ones, and to look up one.
fn most_read(alloc: Global, versions: &mut Versions, case: &Case) -> Option<(u64, u64)> {
    let (low, wanted, lookups) = *case;
    let adding = most_added(alloc, versions, low)?;
    if !adds_each(alloc, versions, wanted) || !finds_each(alloc, versions, lookups) {
        return None;
    }
    let finding = most_found(versions, low)?;
    Some((adding, finding))
}

/// The same of a key without versions.
fn most_read_of_key(alloc: Global, case: &Case) -> Option<(u64, u64)> {
    let Ok(key) = Key::new(b"raw/a") else {
        return None;
    };
    match Versions::new(alloc, key) {
        Ok(mut versions) => most_read(alloc, &mut versions, case),
        Err(_) => None,
    }
}

/// Three versions.
const THREE: Case = (
    0,
    &[(2, 0), (9, 4), (10, 2)],
    &[
        (1, None, &[10, 9, 2]),
        (2, Some(2), &[10, 9, 2]),
        (9, Some(9), &[10, 9]),
        (u32::MAX, Some(10), &[10]),
    ],
);

/// Versions in the blocks 0 to 63, and in two far ones.
const FAR: Case = (
    64,
    &[(524_287, 19), (524_288, 20)],
    &[
        (31, Some(31), &[524_288, 524_287, 32, 31]),
        (40, Some(40), &[524_288, 524_287, 48, 44, 42, 41, 40]),
    ],
);

/// Versions in the first and in the last block that a chain may have.
const FARTHEST: Case = (
    0,
    &[(0, 0), (4_294_967_294, 32)],
    &[
        (0, Some(0), &[4_294_967_294, 0]),
        (4_294_967_293, Some(0), &[4_294_967_294, 0]),
        (4_294_967_294, Some(4_294_967_294), &[4_294_967_294]),
    ],
);

/// Versions in very many blocks.
const MANY: Case = (65_536, &[], &[]);

#[test]
fn three_versions(rt: HostRuntime) {
    assert!(rt; most_read_of_key(rt.alloc(), &THREE).is_some());
}

#[test]
fn far_versions(rt: HostRuntime) {
    assert!(rt; most_read_of_key(rt.alloc(), &FAR).is_some());
}

#[test]
fn farthest_versions(rt: HostRuntime) {
    assert!(rt; most_read_of_key(rt.alloc(), &FARTHEST).is_some());
}

#[test]
fn many_versions(rt: HostRuntime) {
    assert!(rt; most_read_of_key(rt.alloc(), &MANY) == Some((16, 32)));
}

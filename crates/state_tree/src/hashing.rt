//! The hashes of leaves: only those that are stale are made again.

ghost use Rattle.std.specs.{Prelude.{◌≡◌, ◌<◌, ℕ, length, map, OnOk, OnErr, IfOk, IsPermutation}, List.{All}};
ghost use Rattle.root_laws.specs.{
  prov_entry.Spelling.{leaf_bytes, IsKeyIfAny},
  merkle_tree.Tree.{leaf_text},
  merkle_tree.Levels.{digest_of},
};
ghost use Rattle.state_tree.specs.{Leaves.{leaf_hashes}, Order.{AreHashedBut, hash_at}};

use crate::threaded::ThreadedLeaves;
use lc_base::{Digest, Memory};
use root_laws::{HashAt, Leaf, Levels, leaf_digest};
use std::alloc::Global;

/// The hash of a leaf (RFC 6962, section 2.1). It takes no memory.
pub(crate) fn hash_of(leaf: &Leaf) -> Digest
    ensures hash { result ≡ digest_of (leaf_text (leaf_bytes leaf.now)) }
    ensures lawful { IsKeyIfAny leaf.now.key }
{
    leaf_digest(leaf)
}

fn hash_at(leaves: &ThreadedLeaves, index: u32) -> HashAt
    requires { index < length leaves.now }
    ensures { result ≡ hash_at leaves.now index }
{
    HashAt {
        index,
        hash: hash_of(&leaves.leaf(index)),
    }
}

fn hashes_at(alloc: Global, leaves: &ThreadedLeaves, indexes: &[u32]) -> Result<Vec<HashAt>, Memory>
    requires { All (λ (index : ℕ). index < length leaves.now) indexes.now }
    ensures { IfOk result (λ hashes. hashes.items ≡ map (hash_at leaves.now) indexes.now) }
{
    let mut hashes = Vec::with_capacity(alloc, indexes.len())?;
    for index in indexes {
        hashes.push(hash_at(leaves, *index))?;
    }
    Ok(hashes)
}

/// Some indexes in ascending order.
fn ascending(alloc: Global, indexes: &[u32]) -> Result<Vec<u32>, Memory>
    ensures { IfOk result (λ sorted. IsPermutation indexes.now sorted.items) }
{
    let mut sorted = Vec::new(alloc);
    sorted.extend_from_slice(indexes)?;
    sorted.sort_unstable();
    Ok(sorted)
}

/// Hashes the leaves at these indexes, which are all whose hashes are stale, and each node over them
/// once. Out of memory, the hashes stay as they were.
pub(crate) fn hash_stale(
    alloc: Global,
    leaves: &ThreadedLeaves,
    levels: &mut Levels,
    stale: &[u32],
) -> Result<(), Memory>
    requires { AreHashedBut leaves.now levels.old stale.now }
    ensures ok { OnOk result (levels.new ≡ leaf_hashes leaves.now) }
    ensures err { OnErr result (levels.new ≡ levels.old) }
{
    let indexes = ascending(alloc, stale)?;
    let hashes = hashes_at(alloc, leaves, indexes.as_slice())?;
    levels.renew(leaves.count(), hashes)
}

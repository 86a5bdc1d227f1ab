//! The hashes of leaves and nodes: SHA-256 (FIPS 180-4) of a first byte, which differs for the two,
//! and of what follows it. They take no memory.

ghost use Rattle.std.specs.Prelude.{◌≡◌, []};
ghost use Rattle.sha2.specs.Sha256.{sha256};
ghost use Rattle.merkle_tree.specs.Tree.{leaf_text, node_hash};

use crate::limits::{LEAF, NODE};
use digest_kit::TagHasher;
use lc_base::Digest;
use sha2::{Digest as _, Sha256};

/// The hash of a tree with no leaf (RFC 6962, section 2.1): SHA-256 of no bytes.
pub fn empty_hash() -> Digest
    ensures { result.0 ≡ sha256 [] }
{
    Digest(Sha256::new().finalize())
}

/// The hash of a leaf (RFC 6962, section 2.1), from its bytes.
pub fn leaf_hash(leaf: &[u8]) -> Digest
    ensures { result.0 ≡ sha256 (leaf_text leaf.now) }
{
    let mut hasher = TagHasher::new(LEAF);
    hasher.add(leaf);
    hasher.finish()
}

/// The hash of a node (RFC 6962, section 2.1), from those of its two parts.
pub fn node_hash(left: &Digest, right: &Digest) -> Digest
    ensures { result.0 ≡ node_hash left.now.0 right.now.0 }
{
    let mut hasher = TagHasher::new(NODE);
    hasher.add(&left.0);
    hasher.add(&right.0);
    hasher.finish()
}

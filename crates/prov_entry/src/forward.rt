//! Digests of forward lists: each use is hashed with the digest of the list before it, so a list
//! may grow without being kept. None of these calls takes memory.

ghost use Rattle.std.specs.Prelude.{◌≡◌, [], ◌++◌};
ghost use Rattle.prov_entry.specs.ForwardLists.{no_uses, with_use};

use crate::limits::FORWARD_LINK;
use lc_base::{Dep, Digest};
use merkle_tree::TagHasher;

/// SHA-256 of the byte `FORWARD_START`.
const NO_USES: Digest = Digest([
    0xe5, 0x2d, 0x9c, 0x50, 0x8c, 0x50, 0x23, 0x47, 0x34, 0x4d, 0x8c, 0x07, 0xad, 0x91, 0xcb, 0xd6,
    0x06, 0x8a, 0xfc, 0x75, 0xff, 0x62, 0x92, 0xf0, 0x62, 0xa0, 0x9c, 0xa3, 0x81, 0xc8, 0x9e, 0x71,
]);

/// The digest of the empty forward list. It is a constant, so that nothing is hashed.
#[tactic(auto, using(crate::proofs::NoUses::no_uses_computed))]
pub fn no_uses() -> Digest
    ensures { result.0 ≡ no_uses }
{
    NO_USES
}

/// The digest of a forward list with one use more, from the digest of the list without it.
pub fn with_use(digest: &Digest, dep: &Dep) -> Digest
    ensures { result.0 ≡ with_use digest.now.0 dep.now }
{
    let key = dep.key.as_bytes();
    let mut hasher = TagHasher::new(FORWARD_LINK);
    hasher.add(&digest.0);
    hasher.add(&(key.len() as u16).to_be_bytes());
    hasher.add(key);
    hasher.add(&dep.block.to_be_bytes());
    hasher.finish()
}

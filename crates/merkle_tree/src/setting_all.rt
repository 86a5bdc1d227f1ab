//! Sets several hashes of one level, and computes those over them. It takes no memory.

ghost use Rattle.std.specs.Prelude.{◌≡◌, IfSome};
ghost use Rattle.merkle_tree.specs.Levels.{set_each, over_one, over_each, StandsOver};

use crate::pairing::hash_over;
use lc_base::Digest;

/// The hash of a new place before it is set, and what is taken for the hash over a place past the
/// end of a level.
pub(crate) const NO_HASH: Digest = Digest([0; 32]);

/// A hash, and its place in a level, from 0.
#[derive(Clone, Copy)]
pub struct HashAt {
    pub index: u32,
    pub hash: Digest,
}

/// Sets some hashes, one after another. Those past the end of the level are passed over.
pub(crate) fn set_each(level: &mut [Digest], hashes: &[HashAt])
    ensures { level.new ≡ set_each level.old hashes.now }
{
    for one in hashes {
        let place = one.index as usize;
        if place < level.len() {
            level[place] = one.hash;
        }
    }
}

/// The hash over `one`, with its place in the level above. If `before` has this place, it is the
/// hash, so that two neighbours are hashed once.
fn over_one(level: &[Digest], one: &HashAt, before: &Option<HashAt>) -> HashAt
    requires { IfSome before.now (StandsOver level.now) }
    ensures { result ≡ over_one level.now one.now }
{
    let index = one.index / 2;
    match before {
        Some(other) if other.index == index => *other,
        _ => HashAt {
            index,
            hash: hash_over(level, one.index as usize, NO_HASH),
        },
    }
}

/// Replaces each hash, and its place, by the hash over it and the place of that one.
pub(crate) fn raise_each(level: &[Digest], hashes: &mut [HashAt])
    ensures { hashes.new ≡ over_each level.now hashes.old }
{
    let mut before = None;
    for one in hashes.iter_mut() {
        *one = over_one(level, one, &before);
        before = Some(*one);
    }
}

//! Adds one leaf to all levels: room is taken in each level first, and from then on nothing can
//! fail.

ghost use Rattle.std.specs.Prelude.{◌≡◌, All, OnOk};
ghost use Rattle.merkle_tree.specs.Levels.{hash_over, put, put_through, hashes_in, HasRoom};

use crate::pairing::hash_over;
use lc_base::{Digest, Memory};

/// Takes room for one more hash in each level.
pub(crate) fn make_room(levels: &mut [Vec<Digest>]) -> Result<(), Memory>
    ensures same { hashes_in levels.new ≡ hashes_in levels.old }
    ensures room { OnOk result (All HasRoom levels.new) }
{
    for level in levels.iter_mut() {
        level.reserve(1)?;
    }
    Ok(())
}

/// Puts a hash in place of another, or at the end, and returns the hash over it.
#[tactic(auto, using(crate::proofs::Raising::put_within, crate::proofs::Raising::put_past))]
fn put_level(level: &mut Vec<Digest>, place: usize, hash: Digest) -> Digest
    requires { HasRoom level.old }
    ensures put { level.new.items ≡ put level.old.items place hash }
    ensures over { result ≡ hash_over (put level.old.items place hash) place hash }
{
    if place < level.len() {
        level[place] = hash;
    } else {
        match level.push(hash) {
            Ok(()) => {}
            Err(_) => unreachable!(),
        }
    }
    hash_over(level.as_slice(), place, hash)
}

/// Puts the hash of the leaf at `index`, and the hashes over it in the levels above. It takes no
/// memory.
pub(crate) fn put_through(levels: &mut [Vec<Digest>], index: usize, hash: Digest)
    requires { All HasRoom levels.old }
    ensures { hashes_in levels.new ≡ put_through index hash (hashes_in levels.old) }
{
    let mut place = index;
    let mut over = hash;
    for level in levels.iter_mut() {
        over = put_level(level, place, over);
        place /= 2;
    }
}

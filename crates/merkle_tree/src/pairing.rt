//! The rule by which one level follows from the one below: each pair is hashed, and a last hash
//! without a partner goes up as it is.

ghost use Rattle.std.specs.Prelude.{◌≡◌};
ghost use Rattle.merkle_tree.specs.Levels.{hash_over};

use crate::hash::node_hash;
use lc_base::Digest;

/// The hash over a place of a level; `none` if the place is past the end, and the one beside it
/// too.
#[tactic(auto, using(crate::proofs::Raising::above_last, crate::proofs::Raising::above_none))]
pub(crate) fn hash_over(level: &[Digest], place: usize, none: Digest) -> Digest
    ensures { result ≡ hash_over level.now place none }
{
    let left = place / 2 * 2;
    if left + 1 < level.len() {
        node_hash(&level[left], &level[left + 1])
    } else if left < level.len() {
        level[left]
    } else {
        none
    }
}

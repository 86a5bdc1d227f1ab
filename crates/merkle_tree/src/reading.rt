//! Reads the audit path of a leaf from the levels of its tree: from each level the hash beside the
//! way up, if there is one.

ghost use Rattle.std.specs.Prelude.{◌≡◌, ◌++◌, IfOk, OnOk};
ghost use Rattle.merkle_tree.specs.Levels.{sibling, siblings_up, hashes_in};

use lc_base::{Digest, Memory};
use std::alloc::Global;

#[tactic(auto, using(crate::proofs::Beside::sibling_after, crate::proofs::Beside::sibling_before, crate::proofs::Beside::no_sibling))]
fn push_sibling(path: &mut Vec<Digest>, level: &[Digest], place: usize) -> Result<(), Memory>
    ensures { OnOk result (path.new.items ≡ path.old.items ++ sibling level.now place) }
{
    let left = place / 2 * 2;
    if left + 1 >= level.len() {
        return Ok(());
    }
    let beside = if place == left { left + 1 } else { left };
    path.push(level[beside])?;
    Ok(())
}

/// The hashes beside the way up from a leaf, from the lowest level upward.
pub(crate) fn siblings_up(
    alloc: Global,
    levels: &[Vec<Digest>],
    index: usize,
) -> Result<Vec<Digest>, Memory>
    ensures { IfOk result (λ path. path.items ≡ siblings_up index (hashes_in levels.now)) }
{
    let mut path = Vec::with_capacity(alloc, levels.len())?;
    let mut place = index;
    for level in levels {
        push_sibling(&mut path, level.as_slice(), place)?;
        place /= 2;
    }
    Ok(path)
}

//! The nodes of a tree are hashed from below, each once, and the text of each comes after those of
//! its two sides.

ghost use Rattle.std.specs.Prelude.{◌≡◌, ◌<◌, ◌≤◌, [], ◌∷◌, length, map, OnOk, IfOk};
ghost use Rattle.merkle_tree.specs.{
  Tree.{leaf_text, node_text, node_hash, hash_to, node_texts_to},
  declared.limits.TheConstants.{MAX_HEIGHT},
};
ghost use Rattle.text_clashes.specs.Searching.{Searches};

use lc_base::{Bytes, Digest, Memory};
use merkle_tree::{MAX_HEIGHT, half_of, leaf_hash, node_hash};
use std::alloc::Global;
use text_clashes::{ClashSearch, node_text};

/// Adds the text of a node to a search and returns the node's hash.
fn search_parts(
    alloc: Global,
    search: &mut ClashSearch,
    left: &Digest,
    right: &Digest,
) -> Result<Digest, Memory>
    ensures hash { IfOk result (λ hash. hash.0 ≡ node_hash left.now.0 right.now.0) }
    ensures texts { OnOk result
        (Searches (node_text left.now.0 right.now.0 ∷ []) search.old search.new) }
{
    search.add(node_text(alloc, left, right)?);
    Ok(node_hash(left, right))
}

/// Adds the texts of the nodes over leaves with these bytes, in a tree of at most this height, to a
/// search, and returns the hash at its top. The texts of the left side come first, then those of
/// the right side, then that of the node over both. There must be at least one leaf.
#[tactic(auto, using(merkle_tree::proofs::Steps::plain, crate::proofs::TreeTexts::nodes_upward))]
pub(crate) fn search_nodes(
    alloc: Global,
    search: &mut ClashSearch,
    height: u32,
    leaves: &[Bytes],
) -> Result<Digest, Memory>
    requires some { 0 < length leaves.now }
    requires low { height ≤ MAX_HEIGHT }
    ensures hash { IfOk result (λ hash. hash.0 ≡ hash_to height (map leaf_text leaves.now)) }
    ensures texts { OnOk result
        (Searches (node_texts_to height (map leaf_text leaves.now)) search.old search.new) }
{
    if height == 0 {
        return Ok(leaf_hash(leaves[0].as_bytes()));
    }
    let half = half_of(height);
    if half < leaves.len() {
        let (first, rest) = leaves.split_at(half);
        let left = search_nodes(alloc, search, height - 1, first)?;
        let right = search_nodes(alloc, search, height - 1, rest)?;
        search_parts(alloc, search, &left, &right)
    } else {
        search_nodes(alloc, search, height - 1, leaves)
    }
}

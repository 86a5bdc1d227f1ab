//! The indexes of the leaves of the keys that a block touches: sorted, and each once, so that each
//! leaf is set once.

ghost use Rattle.std.specs.{
  Prelude.{◌≡◌, ◌++◌, ◌∷◌, [], OnOk, IfOk},
  List.Sorted.{IsStrictlyIncreasing},
};
ghost use Rattle.lineage_index.specs.{
  Growth.{deps_touched, keys_touched},
  Leaves.{leaf_indexes, HaveSameItems},
};

use lc_base::{Key, Memory, Row};
use state_tree::Tree;

/// Appends the index of the leaf of a key; nothing is appended for a key without a leaf.
fn add_index(tree: &Tree, indexes: &mut Vec<u32>, key: &Key) -> Result<(), Memory>
    ensures { OnOk result (indexes.new.items ≡ indexes.old.items ++ leaf_indexes tree.now (key.now ∷ [])) }
{
    match tree.index_of(key) {
        None => Ok(()),
        Some(index) => {
            indexes.push(index)?;
            Ok(())
        }
    }
}

/// The indexes of the leaves of all keys that the rows of a block touch, each once and in ascending
/// order: of those that the rows depend on, which are given, and of their own keys.
pub(crate) fn touched_indexes(tree: &Tree, deps: Vec<u32>, new: &[Row]) -> Result<Vec<u32>, Memory>
    requires { deps.items ≡ leaf_indexes tree.now (deps_touched new.now) }
    ensures all { IfOk result
        (λ indexes. HaveSameItems (leaf_indexes tree.now (keys_touched new.now)) indexes.items) }
    ensures ascending { IfOk result (λ indexes. IsStrictlyIncreasing indexes.items) }
{
    let mut indexes = deps;
    for row in new {
        add_index(tree, &mut indexes, &row.key)?;
    }
    indexes.sort_unstable();
    indexes.dedup();
    Ok(indexes)
}

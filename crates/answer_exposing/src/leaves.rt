//! The leaves of a tree are written once; their bytes serve for the leaves' texts and for the nodes
//! above.

ghost use Rattle.std.specs.Prelude.{◌≡◌, map, OnOk, IfOk};
ghost use Rattle.merkle_tree.specs.Tree.{leaf_text};
ghost use Rattle.prov_entry.specs.Spelling.{leaf_bytes};
ghost use Rattle.text_clashes.specs.Searching.{Searches};

use lc_base::{Bytes, Memory, TextList};
use merkle_tree::LEAF;
use prov_entry::write_leaf;
use state_tree::Tree;
use std::alloc::Global;
use text_clashes::{ClashSearch, tagged_text};

/// The bytes of all leaves, in order.
pub(crate) fn bytes_of_leaves(alloc: Global, tree: &Tree) -> Result<TextList, Memory>
    ensures { IfOk result (λ list. list ≡ map leaf_bytes tree.now) }
{
    let mut list = TextList::new(alloc);
    for index in 0..tree.count() {
        list.push(write_leaf(alloc, &tree.leaf(index))?)?;
    }
    Ok(list)
}

/// Adds the texts of the leaves with these bytes to a search.
pub(crate) fn search_leaves(
    alloc: Global,
    search: &mut ClashSearch,
    leaves: &[Bytes],
) -> Result<(), Memory>
    ensures { OnOk result (Searches (map leaf_text leaves.now) search.old search.new) }
{
    for leaf in leaves {
        search.add(tagged_text(alloc, LEAF, leaf.as_bytes())?);
    }
    Ok(())
}

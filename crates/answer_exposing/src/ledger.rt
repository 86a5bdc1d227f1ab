//! The texts of a ledger are everything that its root at a block rests on.

ghost use Rattle.std.specs.{
  Prelude.{◌≡◌, true, [], ◌∷◌, ◌++◌, OnOk, IsErrOf},
  List.{flat_map},
};
ghost use Rattle.lc_io.specs.Scratch.{is_known};
ghost use Rattle.root_laws.specs.Root.{root_text};
ghost use Rattle.merkle_tree.specs.Tree.{node_texts};
ghost use Rattle.merkle_dag.specs.Lineage.{AgreesWith, LeavesLineage};
ghost use Rattle.prov_entry.specs.ForwardLists.{start_text};
ghost use Rattle.proof_checks.specs.{
  ProofTexts.{joined_texts},
  LedgerTexts.{history_parts, texts_of_leaves, texts_of_row_uses},
};
ghost use Rattle.text_clashes.specs.Searching.{Searches};

use crate::leaves::{bytes_of_leaves, search_leaves};
use crate::nodes::search_nodes;
use crate::rows::{search_all_uses, search_rows};
use lc_base::{Digest, HostError, Memory};
use lc_io::Scratch;
use merkle_dag::Lineage;
use merkle_tree::MAX_HEIGHT;
use prov_entry::FORWARD_START;
use state_tree::Tree;
use std::alloc::Global;
use text_clashes::{ClashSearch, root_text, tagged_text};

/// Adds the texts of the leaves of a tree, of its nodes, and of the root over it at a block with
/// this digest to a search.
fn search_tree(
    alloc: Global,
    search: &mut ClashSearch,
    tree: &Tree,
    block: u32,
    block_digest: &Digest,
) -> Result<(), Memory>
    ensures { OnOk result (Searches (texts_of_leaves tree.now ++
        (node_texts (texts_of_leaves tree.now) ++ root_text block block_digest.now.0 tree.now ∷
        [])) search.old search.new) }
{
    let count = tree.count();
    let leaves = bytes_of_leaves(alloc, tree)?;
    search_leaves(alloc, search, leaves.as_slice())?;
    let top = search_nodes(alloc, search, MAX_HEIGHT, leaves.as_slice())?;
    search.add(root_text(alloc, block, block_digest, count, &top)?);
    Ok(())
}

/// Adds the texts of the empty forward list and of the uses of each row to a search.
fn search_lists(alloc: Global, search: &mut ClashSearch, lineage: &Lineage) -> Result<(), Memory>
    ensures { OnOk result (Searches
        (start_text ∷ flat_map (texts_of_row_uses lineage.now.rows) lineage.now.rows)
        search.old search.new) }
{
    search.add(tagged_text(alloc, FORWARD_START, &[])?);
    search_all_uses(alloc, search, lineage)
}

/// Adds the texts of the ledger of a lineage at its last block, which has this number and this
/// digest, to a search: those of the leaves, of the nodes over them, of the root, of the header and
/// the body of each row, of the empty forward list, and of the uses of each row. Beside the bytes of
/// the leaves, one text is made at a time. Bodies are read from the scratch device; of the lineage,
/// only which bodies are at hand may change.
pub fn search_ledger<S: Scratch>(
    alloc: Global,
    search: &mut ClashSearch,
    lineage: &mut Lineage,
    scratch: &mut S,
    block: u32,
    block_digest: &Digest,
) -> Result<(), HostError>
    requires agrees { AgreesWith lineage.old (S.state scratch.old) }
    // If it is known which bytes the scratch device holds:
    ensures texts { is_known (S.state scratch.old) ≡ true
        → OnOk result (Searches (joined_texts
        (history_parts lineage.old.rows block block_digest.now.0)) search.old search.new) }
    // Whether that is known or not:
    ensures leaves { LeavesLineage S.state S.scratch_faults lineage.old scratch.old lineage.new
        scratch.new (IsErrOf result HostError.Fault) }
{
    search_tree(alloc, search, lineage.tree(), block, block_digest)?;
    search_rows(alloc, search, lineage, scratch)?;
    search_lists(alloc, search, lineage)?;
    Ok(())
}

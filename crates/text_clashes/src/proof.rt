//! The texts of a proof are in the order in which a verifier computes their digests.

ghost use Rattle.std.specs.Prelude.{◌≡◌, [], ◌∷◌, ◌++◌, length, OnOk, IfOk};
ghost use Rattle.merkle_tree.specs.{
  Tree.{audit_length, leaf_text, climb_texts_to},
  declared.limits.TheConstants.{MAX_HEIGHT},
};
ghost use Rattle.prov_entry.specs.{Spelling.{leaf_bytes}, ForwardLists.{start_text}};
ghost use Rattle.proof_checks.specs.{
  Checks.{climb_of, root_text_of},
  ProofTexts.{leaf_proof_texts, proof_texts},
};

use crate::lists::{push_body, push_headers, push_uses};
use crate::text::{push_root, push_tagged};
use crate::way::push_way;
use entry_views::LeafView;
use lc_base::{Memory, TextList};
use merkle_tree::{LEAF, leaf_hash};
use proof_checks::{LeafProofView, ProofView};
use prov_entry::FORWARD_START;
use std::alloc::Global;

fn push_leaf(texts: &mut TextList, leaf: &LeafView) -> Result<(), Memory>
    ensures { OnOk result (texts.new ≡ texts.old ++ leaf_text (leaf_bytes leaf.now.value) ∷ []) }
{
    push_tagged(texts, LEAF, leaf.bytes())
}

/// Appends the texts of the nodes from the leaf upward, then that of the root.
fn push_upward(texts: &mut TextList, leaf_proof: &LeafProofView) -> Result<(), Memory>
    requires { length leaf_proof.now.audit ≡ audit_length leaf_proof.now.leaf_index leaf_proof.now.leaf_count }
    ensures { OnOk result (texts.new ≡ texts.old ++ (climb_texts_to MAX_HEIGHT leaf_proof.now.leaf_index leaf_proof.now.leaf_count (climb_of leaf_proof.now) ++ root_text_of leaf_proof.now ∷ [])) }
{
    let leaf = leaf_hash(leaf_proof.leaf().bytes());
    let place = leaf_proof.place();
    let top = push_way(
        texts,
        place.leaf_index,
        place.leaf_count,
        leaf,
        leaf_proof.audit(),
    )?;
    push_root(
        texts,
        place.root_at,
        &place.block_digest,
        place.leaf_count,
        &top,
    )
}

/// Appends the texts of a leaf proof: the leaf, the nodes from there upward, and the root. `Memory`
/// if the allocator has no room.
pub fn push_leaf_proof(texts: &mut TextList, leaf_proof: &LeafProofView) -> Result<(), Memory>
    requires { length leaf_proof.now.audit ≡ audit_length leaf_proof.now.leaf_index leaf_proof.now.leaf_count }
    ensures { OnOk result (texts.new ≡ texts.old ++ leaf_proof_texts leaf_proof.now) }
{
    push_leaf(texts, leaf_proof.leaf())?;
    push_upward(texts, leaf_proof)?;
    Ok(())
}

/// The texts of a proof: those of its leaf proof, the headers, the body, the empty forward list, and
/// the uses. `Memory` if the allocator has no room.
pub fn proof_texts(alloc: Global, proof: &ProofView) -> Result<TextList, Memory>
    requires { length proof.now.leaf_proof.audit ≡ audit_length proof.now.leaf_proof.leaf_index proof.now.leaf_proof.leaf_count }
    ensures { IfOk result (λ texts. texts ≡ proof_texts proof.now) }
{
    let mut texts = TextList::new(alloc);
    push_leaf_proof(&mut texts, proof.leaf_proof())?;
    push_headers(&mut texts, proof.headers())?;
    push_body(&mut texts, proof.body())?;
    push_tagged(&mut texts, FORWARD_START, &[])?;
    push_uses(&mut texts, proof.uses())?;
    Ok(texts)
}

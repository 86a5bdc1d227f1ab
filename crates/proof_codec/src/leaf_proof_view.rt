//! A leaf proof is the same in every format that has one; only the least block of its root depends on
//! what is asked.

ghost use Rattle.std.specs.Prelude.{◌≡◌};
ghost use Rattle.entry_views.specs.byte_fields.Reader.{fault_left, Reads, ReadsAs};
ghost use Rattle.proof_codec.specs.Reading.{place_at, leaf_proof_at};

use crate::audit_view::{AuditView, read_audit};
use crate::leaf::leaf;
use entry_views::{Fault, LeafView, Reader};
use lc_base::Digest;
use merkle_tree::audit_length;
use std::marker::Model;

/// Under which root a leaf is, and which leaf it is.
#[derive(Clone, Copy)]
pub struct LeafPlace {
    /// The block of the root.
    pub root_at: u32,
    /// The digest of the root's block.
    pub block_digest: Digest,
    /// The number of leaves of the tree.
    pub leaf_count: u32,
    /// The index of the leaf, from 0.
    pub leaf_index: u32,
}

/// A leaf proof read in place.
#[derive(Drop)]
pub struct LeafProofView<'p> {
    place: LeafPlace,
    leaf: LeafView<'p>,
    audit: AuditView<'p>,
}

impl<'p> Model for LeafProofView<'p> {
    ghost use Rattle.proof_codec.specs.declared.proof.LeafProof.{LeafProof};

    ghost Value = { LeafProof };

    ghost view = { λ leaf_proof. record {
      root_at = leaf_proof.place.root_at;
      block_digest = leaf_proof.place.block_digest;
      leaf_count = leaf_proof.place.leaf_count;
      leaf_index = leaf_proof.place.leaf_index;
      leaf = leaf_proof.leaf.value;
      audit = leaf_proof.audit;
    } };
}

impl<'p> LeafProofView<'p> {
    /// Under which root the leaf is, and which leaf it is.
    pub fn place(&self) -> LeafPlace
        ensures root_at { result.root_at ≡ self.now.root_at }
        ensures block_digest { result.block_digest ≡ self.now.block_digest }
        ensures leaf_count { result.leaf_count ≡ self.now.leaf_count }
        ensures leaf_index { result.leaf_index ≡ self.now.leaf_index }
    {
        self.place
    }

    /// The leaf.
    pub fn leaf(&self) -> &LeafView<'p>
        ensures { result.now.value ≡ self.now.leaf }
    {
        &self.leaf
    }

    /// The audit path of the leaf.
    pub fn audit(&self) -> AuditView<'p>
        ensures { result ≡ self.now.audit }
    {
        self.audit.again()
    }
}

/// Reads the place of a leaf under the root at a block that is at least `least`.
#[tactic(auto, unfolding(crate::specs::Reading::place_at))]
fn read_place(reader: &mut Reader, least: u32) -> Result<LeafPlace, Fault>
    ensures { ReadsAs (λ place. record { root_at = place.root_at; block_digest = place.block_digest.0; leaf_count = place.leaf_count; leaf_index = place.leaf_index }) fault_left result (place_at least reader.old) reader.new }
{
    let root_at = reader.u32_at_least(least)?;
    let block_digest = Digest(reader.digest_bytes()?);
    let leaf_count = reader.u32_at_least(1)?;
    let leaf_index = reader.u32_below(leaf_count)?;
    Ok(LeafPlace {
        root_at,
        block_digest,
        leaf_count,
        leaf_index,
    })
}

/// Reads a leaf proof under the root at a block that is at least `least`.
#[tactic(auto, unfolding(crate::specs::Reading::leaf_proof_at))]
pub fn read_leaf_proof<'p>(reader: &mut Reader<'p>, least: u32) -> Result<LeafProofView<'p>, Fault>
    ensures { Reads fault_left result (leaf_proof_at least reader.old) reader.new }
{
    let place = read_place(reader, least)?;
    let leaf = leaf(reader, place.leaf_index)?;
    let audit = read_audit(
        reader,
        audit_length(place.leaf_index, place.leaf_count) as u8,
    )?;
    Ok(LeafProofView { place, leaf, audit })
}

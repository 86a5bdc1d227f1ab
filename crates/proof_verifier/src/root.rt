//! A leaf proof leads to a root: its leaf is hashed, the audit path is climbed (RFC 6962, section
//! 2.1.1), and the text of the root is hashed.

ghost use Rattle.std.specs.Prelude.{◌≡◌, length};
ghost use Rattle.sha2.specs.Sha256.{sha256};
ghost use Rattle.merkle_tree.specs.{Tree.{audit_length}, Climbing.{start_at, top_of}};
ghost use Rattle.proof_checks.specs.Checks.{root_text_of};

use crate::hashing::leaf_digest;
use lc_base::Digest;
use merkle_tree::{MAX_HEIGHT, root_from_leaf};
use proof_checks::{AuditView, LeafProofView};
use prov_entry::root_digest;

/// The greatest number of hashes that an audit path can have.
const MAX_PATH_HASHES: usize = MAX_HEIGHT as usize;

/// The hash at the top of the tree, climbed to from the leaf.
fn top(index: u32, count: u32, leaf: &Digest, audit: AuditView) -> Digest
    requires { length audit ≡ audit_length index count }
    ensures { result.0 ≡ top_of index count (start_at leaf.now audit.entry) }
{
    let mut audit = audit;
    let mut path = [Digest([0; 32]); MAX_PATH_HASHES];
    let mut length = 0;
    while let Some(digest) = audit.next() {
        path[length] = digest;
        length += 1;
    }
    root_from_leaf(index, count, leaf, &path[..length])
}

/// The root that a leaf proof leads to.
pub(crate) fn root_of(leaf_proof: &LeafProofView) -> Digest
    requires { length leaf_proof.now.audit ≡ audit_length leaf_proof.now.leaf_index leaf_proof.now.leaf_count }
    ensures { result.0 ≡ sha256 (root_text_of leaf_proof.now) }
{
    let leaf = leaf_digest(leaf_proof.leaf());
    let place = leaf_proof.place();
    let top = top(
        place.leaf_index,
        place.leaf_count,
        &leaf,
        leaf_proof.audit(),
    );
    root_digest(place.root_at, &place.block_digest, place.leaf_count, &top)
}

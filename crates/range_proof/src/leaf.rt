//! The leaf that covers a key, with its audit path.

ghost use Rattle.std.specs.Prelude.{◌≡◌, IfOk};
ghost use Rattle.proof_checks.specs.Making.{made_leaf};

use crate::asked::Asked;
use lc_base::Memory;
use proof_codec::LeafProof;
use prov_query::Lineage;

/// The leaf proof made of all rows of a lineage, which must be those up to the root's block.
pub(crate) fn leaf_proof_of(lineage: &Lineage, asked: &Asked) -> Result<LeafProof, Memory>
    ensures { IfOk result (λ leaf_proof. leaf_proof ≡ made_leaf lineage.now.rows asked.now.root_at
        asked.now.block_digest.0 asked.now.key) }
{
    // By these calls contracts know that the rows are typed and that the key is one.
    let _rows = lineage.row_count();
    let _key = asked.key.as_bytes();
    let tree = lineage.tree();
    let leaf_index = tree.covering(&asked.key);
    let audit = tree.audit(leaf_index)?;
    Ok(LeafProof {
        root_at: asked.root_at,
        block_digest: asked.block_digest,
        leaf_count: tree.count(),
        leaf_index,
        leaf: tree.leaf(leaf_index),
        audit,
    })
}

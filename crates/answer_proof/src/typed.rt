//! Arguments are within the ranges of their types. These calls do nothing; contracts learn the
//! ranges from them.

ghost use Rattle.std.specs.Prelude.{◌≡◌, ◌<◌, ◌^◌, length};
ghost use Rattle.lc_base.specs.KeyBytes.{IsKey};
ghost use Rattle.root_laws.specs.TypedLedger.{IsTypedLedger};

use crate::asked::Asked;
use lc_base::check_digest;
use merkle_dag::Lineage;

fn check_block(block: u32)
    ensures { block < 2 ^ 32 }
{}

/// A lineage is a typed ledger, a query is of a key, a block number fits in 32 bits, and a digest
/// has 32 bytes.
pub(crate) fn check_types(lineage: &Lineage, asked: &Asked)
    ensures ledger { IsTypedLedger lineage.now.rows lineage.now.digests }
    ensures key { IsKey asked.now.query.key }
    ensures block { asked.now.root_at < 2 ^ 32 }
    ensures digest { length asked.now.block_digest.0 ≡ 32 }
{
    let _rows = lineage.row_count();
    let _key = asked.query.key.as_bytes();
    check_block(asked.root_at);
    check_digest(&asked.block_digest);
}

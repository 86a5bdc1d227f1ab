//! A range proof is made under the root at any block: if it isn't the last one, the lineage up to
//! it is made first.

ghost use Rattle.std.specs.{
  Prelude.{◌≡◌, ◌==◌, ◌≤◌, ◌+◌, true, Some, length, slice_get, IfOk, IsErrOf},
  List.{concat},
};
ghost use Rattle.lc_io.specs.Scratch.{is_known};
ghost use Rattle.prov_query.specs.merkle_dag.Lineage.{ledger_in, AgreesWith, LeavesLineage};
ghost use Rattle.proof_checks.specs.{RangeMaking.{made_range}, RangeSpelling.{range_fields}};
ghost use Rattle.range_proof.specs.Proving.{IsButForBodies, IsRangeRefused, ShowsRange};

use crate::asked::Asked;
use crate::gathering::bytes_of_rows;
use lc_base::{Bytes, HostError, Key, Memory};
use lc_io::Scratch;
use proof_checks::{made_ranges_are_accepted, made_ranges_are_proofs};
use prov_query::{Lineage, QueryError};
use std::alloc::Global;

/// Whether a block is the last one.
fn is_last(lineage: &Lineage, block: u32) -> bool
    ensures { result ≡ block + 1 == length lineage.now.digests }
{
    match lineage.head() {
        None => false,
        Some(head) => head == block,
    }
}

/// The bytes of the range proof made at the root's block. If that is the last block, the lineage is
/// used as it is; else the lineage of the blocks up to it is made.
fn bytes_at<S: Scratch>(
    alloc: Global,
    lineage: &mut Lineage,
    scratch: &mut S,
    asked: &Asked,
) -> Result<Bytes, HostError>
    requires within { slice_get lineage.old.digests asked.now.root_at
        ≡ Some asked.now.block_digest }
    requires early { asked.now.to ≤ asked.now.root_at }
    requires in_order { asked.now.from ≤ asked.now.to }
    requires agrees { AgreesWith lineage.old (S.state scratch.old) }
    // If it is known which bytes the scratch device holds:
    ensures bytes { is_known (S.state scratch.old) ≡ true → IfOk result
        (λ bytes. bytes ≡ concat (range_fields (made_range lineage.old.rows lineage.old.digests
        asked.now.root_at asked.now.key asked.now.from asked.now.to))) }
    // Whether that is known or not:
    ensures always { IfOk result (IsButForBodies (made_range lineage.old.rows lineage.old.digests
        asked.now.root_at asked.now.key asked.now.from asked.now.to)) }
    ensures leaves { LeavesLineage S.state S.scratch_faults lineage.old scratch.old lineage.new
        scratch.new (IsErrOf result HostError.Fault) }
{
    if is_last(lineage, asked.root_at) {
        return bytes_of_rows(alloc, lineage, scratch, asked);
    }
    match lineage.rewind(asked.root_at) {
        Ok(mut rewound) => {
            let bytes = bytes_of_rows(alloc, &mut rewound, scratch, asked);
            rewound.give_up();
            bytes
        }
        Err(Memory) => Err(HostError::Memory),
    }
}

/// The bytes of the proof of all versions of a key from block `from` to block `to`, both included,
/// for one who has the root at `root_at`: the leaf that covers the key, the header of each version
/// on the path of the lookup up to `to` and of each earlier version down to `from`, and the bodies
/// of the versions between the blocks, the newest first. `Beyond` exactly if the root's block is
/// past the last one, or `to` is past the root's.
///
/// Each body is read from the scratch device once; if it is not known which bytes that holds,
/// nothing is promised of the bodies in the proof but how many there are, and of its other parts as
/// much as else. Of the lineage, only which bodies are at hand may change.
pub fn prove_range<S: Scratch>(
    alloc: Global,
    lineage: &mut Lineage,
    scratch: &mut S,
    key: &Key,
    from: u32,
    to: u32,
    root_at: u32,
) -> Result<Bytes, QueryError>
    requires in_order { from ≤ to }
    requires agrees { AgreesWith lineage.old (S.state scratch.old) }
    // If it is known which bytes the scratch device holds:
    ensures proved { is_known (S.state scratch.old) ≡ true → IfOk result
        (λ bytes. bytes ≡ concat (range_fields (made_range lineage.old.rows lineage.old.digests
        root_at key.now from to))) }
    // The bytes spell a range proof, and whoever has the root accepts it with all versions of the
    // key between the blocks in the rows up to the root's block.
    ensures accepted { is_known (S.state scratch.old) ≡ true
        → IfOk result (ShowsRange (ledger_in lineage.old) key.now from to root_at) }
    // Whether that is known or not:
    ensures always { IfOk result (IsButForBodies (made_range lineage.old.rows lineage.old.digests
        root_at key.now from to)) }
    ensures beyond { IsRangeRefused (ledger_in lineage.old) key.now to root_at result }
    ensures leaves { LeavesLineage S.state S.scratch_faults lineage.old scratch.old lineage.new
        scratch.new (IsErrOf result QueryError.Fault) }
{
    // By these calls contracts know that the lineage is a typed ledger, that the key is one, and
    // that the range proof that is made can be spelled and is accepted.
    let _rows = lineage.row_count();
    let _key = key.as_bytes();
    made_ranges_are_proofs();
    made_ranges_are_accepted();
    let Some(block_digest) = lineage.digest(root_at) else {
        return Err(QueryError::Beyond {
            head: lineage.head(),
        });
    };
    if root_at < to {
        return Err(QueryError::Beyond {
            head: lineage.head(),
        });
    }
    let asked = Asked {
        key: *key,
        from,
        to,
        root_at,
        block_digest,
    };
    Ok(bytes_at(alloc, lineage, scratch, &asked)?)
}

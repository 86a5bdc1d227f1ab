//! A range proof is gathered from a lineage whose last block is the root's.

ghost use Rattle.std.specs.{
  Prelude.{◌≡◌, ◌≤◌, ◌+◌, ◌++◌, true, Some, drop, length, slice_get, IfOk, OnOk, IsErrOf},
  List.{concat},
};
ghost use Rattle.lc_io.specs.Scratch.{is_known};
ghost use Rattle.prov_query.specs.merkle_dag.Lineage.{AgreesWith, LeavesLineage};
ghost use Rattle.proof_checks.specs.{
  RangeMaking.{rows_back, made_range},
  RangeSpelling.{range_fields},
};
ghost use Rattle.range_proof.specs.{
  Finding.{AreRowsAt},
  Proving.{IsButForBodies, fields_before_bodies},
};

use crate::asked::Asked;
use crate::between::indexes_between;
use crate::leaf::leaf_proof_of;
use crate::writing::{put_bodies, put_front, put_headers};
use lc_base::{Bytes, HostError, Memory};
use lc_io::Scratch;
use proof_checks::made_ranges_are_proofs;
use proof_codec::put_leaf_proof;
use prov_query::{Counter, Lineage, Steps};
use std::alloc::Global;

/// The counter of the entries that are read for a proof, which nobody asks for. Counts of it are
/// begun in this file alone.
struct Proving;

impl Counter for Proving {
    ghost use Rattle.std.specs.Prelude.{true};

    ghost may_begin = { true };
}

/// All indexes but the first one.
fn after_first(indexes: &[u32]) -> &[u32]
    ensures { result.now ≡ drop 1 indexes.now }
{
    match indexes {
        [] => indexes,
        [_, further @ ..] => further,
    }
}

/// Appends all that comes before the bodies. `between` are the indexes of the rows of the versions
/// between the blocks, the last one first; that one ends the path of the lookup, if there is one,
/// so its header is on the path.
fn put_before_bodies<C: Counter>(
    alloc: Global,
    lineage: &Lineage,
    out: &mut Vec<u8>,
    asked: &Asked,
    between: &[u32],
    steps: &mut Steps<C>,
) -> Result<(), Memory>
    requires last { asked.now.root_at + 1 ≡ length lineage.now.digests }
    requires digest { slice_get lineage.now.digests asked.now.root_at
        ≡ Some asked.now.block_digest }
    requires early { asked.now.to ≤ asked.now.root_at }
    requires in_order { asked.now.from ≤ asked.now.to }
    requires back { AreRowsAt lineage.now.rows between.now
        (rows_back lineage.now.rows asked.now.key asked.now.from asked.now.to) }
    ensures { OnOk result (out.new.items ≡ out.old.items
        ++ concat (fields_before_bodies (made_range lineage.now.rows lineage.now.digests
        asked.now.root_at asked.now.key asked.now.from asked.now.to))) }
{
    // By these calls contracts know that the lineage is a typed ledger, that the key is one, and
    // that the range proof that is made can be spelled.
    let _rows = lineage.row_count();
    let _key = asked.key.as_bytes();
    made_ranges_are_proofs();
    let leaf_proof = leaf_proof_of(lineage, asked)?;
    let path = lineage.path(&asked.key, asked.to, steps)?;
    let further = after_first(between);
    put_front(out, asked)?;
    put_leaf_proof(alloc, out, &leaf_proof)?;
    put_headers(alloc, lineage, out, path.as_slice(), further, steps)?;
    Ok(())
}

/// The bytes of the range proof made of all rows of a lineage, which must be those up to the root's
/// block.
pub(crate) fn bytes_of_rows<S: Scratch>(
    alloc: Global,
    lineage: &mut Lineage,
    scratch: &mut S,
    asked: &Asked,
) -> Result<Bytes, HostError>
    requires last { asked.now.root_at + 1 ≡ length lineage.old.digests }
    requires digest { slice_get lineage.old.digests asked.now.root_at
        ≡ Some asked.now.block_digest }
    requires early { asked.now.to ≤ asked.now.root_at }
    requires in_order { asked.now.from ≤ asked.now.to }
    requires agrees { AgreesWith lineage.old (S.state scratch.old) }
    // If it is known which bytes the scratch device holds:
    ensures bytes { is_known (S.state scratch.old) ≡ true → IfOk result
        (λ bytes. bytes ≡ concat (range_fields (made_range lineage.old.rows lineage.old.digests
        asked.now.root_at asked.now.key asked.now.from asked.now.to))) }
    // Whether that is known or not:
    ensures always { IfOk result (IsButForBodies (made_range lineage.old.rows lineage.old.digests
        asked.now.root_at asked.now.key asked.now.from asked.now.to)) }
    ensures leaves { LeavesLineage S.state S.scratch_faults lineage.old scratch.old lineage.new
        scratch.new (IsErrOf result HostError.Fault) }
{
    // By these calls contracts know that the lineage is a typed ledger, that the key is one, and
    // that the range proof that is made can be spelled.
    let _rows = lineage.row_count();
    let _key = asked.key.as_bytes();
    made_ranges_are_proofs();
    let mut steps = Steps::<Proving>::new();
    let found = indexes_between(alloc, lineage, &asked.key, asked.from, asked.to, &mut steps)?;
    let between = found.as_slice();
    let mut out = Vec::new(alloc);
    put_before_bodies(alloc, lineage, &mut out, asked, between, &mut steps)?;
    put_bodies(alloc, lineage, scratch, &mut out, between)?;
    Ok(Bytes::from_vec(out))
}

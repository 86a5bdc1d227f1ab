//! A proof of all ancestors is made under the root at any block: if it isn't the last one, the
//! lineage up to it is made first.

ghost use Rattle.std.specs.{
  Prelude.{◌≡◌, ◌==◌, ◌<◌, ◌≤◌, ◌+◌, true, length, IfOk, IsErrOf},
  List.{concat},
};
ghost use Rattle.lc_io.specs.Scratch.{is_known};
ghost use Rattle.prov_query.specs.merkle_dag.Lineage.{ledger_in, AgreesWith, LeavesLineage};
ghost use Rattle.answer_proof.specs.Proving.{IsRefusedBeyond};
ghost use Rattle.proof_checks.specs.{
  TraceChecks.{start_query},
  TraceMaking.{made_trace},
  TraceSpelling.{trace_fields},
};
ghost use Rattle.lineage_trace.specs.Proving.{IsButForBodies, ShowsTrace};

use crate::gathering::bytes_of_rows;
use lc_base::{Bytes, HostError, Key, Memory};
use lc_io::Scratch;
use proof_checks::{made_traces_are_accepted, made_traces_are_proofs};
use prov_query::{Lineage, QueryError};
use std::alloc::Global;

/// Whether a block is the last one.
fn is_last(lineage: &Lineage, block: u32) -> bool
    ensures { result ≡ block + 1 == length lineage.now.digests }
{
    match lineage.head() {
        None => false,
        Some(head) => head == block,
    }
}

/// The bytes of the proof made at the root's block. If that is the last block, the lineage is used
/// as it is; else the lineage of the blocks up to it is made.
fn bytes_at<S: Scratch>(
    alloc: Global,
    lineage: &mut Lineage,
    scratch: &mut S,
    key: &Key,
    at: u32,
    root_at: u32,
) -> Result<Bytes, HostError>
    requires within { root_at < length lineage.old.digests }
    requires early { at ≤ root_at }
    requires agrees { AgreesWith lineage.old (S.state scratch.old) }
    // If it is known which bytes the scratch device holds:
    ensures bytes { is_known (S.state scratch.old) ≡ true → IfOk result
        (λ bytes. bytes ≡ concat (trace_fields (made_trace lineage.old.rows lineage.old.digests
        root_at key.now at))) }
    // Whether that is known or not:
    ensures always { IfOk result (IsButForBodies (made_trace lineage.old.rows lineage.old.digests
        root_at key.now at)) }
    ensures leaves { LeavesLineage S.state S.scratch_faults lineage.old scratch.old lineage.new
        scratch.new (IsErrOf result HostError.Fault) }
{
    if is_last(lineage, root_at) {
        return bytes_of_rows(alloc, lineage, scratch, key, at, root_at);
    }
    match lineage.rewind(root_at) {
        Ok(mut rewound) => {
            let bytes = bytes_of_rows(alloc, &mut rewound, scratch, key, at, root_at);
            rewound.give_up();
            bytes
        }
        Err(Memory) => Err(HostError::Memory),
    }
}

/// The bytes of the proof of all ancestors of the newest version of a key up to `at`, for one who
/// has the root at `root_at`: a proof of what the version was derived from directly, and the header
/// and the body of each ancestor, the last one first. Bodies are read from the scratch device; if
/// it is not known which bytes that holds, nothing is promised of the bodies in the proof and of
/// which versions it lists, and of its other parts as much as else. Of the lineage, only which
/// bodies are at hand may change.
pub fn prove_trace<S: Scratch>(
    alloc: Global,
    lineage: &mut Lineage,
    scratch: &mut S,
    key: &Key,
    at: u32,
    root_at: u32,
) -> Result<Bytes, QueryError>
    requires agrees { AgreesWith lineage.old (S.state scratch.old) }
    // If it is known which bytes the scratch device holds:
    ensures proved { is_known (S.state scratch.old) ≡ true → IfOk result
        (λ bytes. bytes ≡ concat (trace_fields (made_trace lineage.old.rows lineage.old.digests
        root_at key.now at))) }
    // The bytes spell a proof, and whoever has the root accepts it with the ancestors in the rows
    // up to the root's block.
    ensures accepted { is_known (S.state scratch.old) ≡ true
        → IfOk result (ShowsTrace (ledger_in lineage.old) key.now at root_at) }
    // Whether that is known or not:
    ensures always { IfOk result (IsButForBodies (made_trace lineage.old.rows lineage.old.digests
        root_at key.now at)) }
    ensures beyond { IsRefusedBeyond (ledger_in lineage.old) (start_query key.now at) root_at
        result }
    ensures leaves { LeavesLineage S.state S.scratch_faults lineage.old scratch.old lineage.new
        scratch.new (IsErrOf result QueryError.Fault) }
{
    // By these calls contracts know that the lineage is a typed ledger, that the key is one, and
    // that the proof that is made can be spelled and is accepted.
    let _rows = lineage.row_count();
    let _key = key.as_bytes();
    made_traces_are_proofs();
    made_traces_are_accepted();
    let Some(_) = lineage.digest(root_at) else {
        return Err(QueryError::Beyond {
            head: lineage.head(),
        });
    };
    if root_at < at {
        return Err(QueryError::Beyond {
            head: lineage.head(),
        });
    }
    Ok(bytes_at(alloc, lineage, scratch, key, at, root_at)?)
}

//! A proof of all ancestors is gathered from a lineage whose last block is the root's.

ghost use Rattle.std.specs.{
  Prelude.{◌≡◌, ◌<◌, ◌≤◌, ◌+◌, true, length, reverse, IfOk, IsErrOf},
  List.{concat},
};
ghost use Rattle.lc_io.specs.Scratch.{is_known};
ghost use Rattle.prov_query.specs.merkle_dag.Lineage.{AgreesWith, LeavesLineage};
ghost use Rattle.proof_codec.specs.Spelling.{proof_fields};
ghost use Rattle.proof_checks.specs.{
  Making.{made_proof},
  TraceChecks.{start_query},
  TraceMaking.{made_trace},
  TraceSpelling.{trace_fields},
};
ghost use Rattle.answer_proof.specs.Proving.{IsButForBody};
ghost use Rattle.lineage_trace.specs.{Tracing.{ancestors_in}, Proving.{IsButForBodies}};

use crate::items::items_of;
use crate::tracing::trace_rows;
use crate::writing::write_trace;
use answer_proof::prove;
use lc_base::{Bytes, Dep, HostError, Key, Kind, Query};
use lc_io::Scratch;
use prov_query::{Counter, Lineage, QueryError, Steps};
use root_laws::Trace;
use std::alloc::Global;

/// The counter of the entries that are read for a proof, which nobody asks for. Counts of it are
/// begun in this file alone.
struct Proving;

impl Counter for Proving {
    ghost use Rattle.std.specs.Prelude.{true};

    ghost may_begin = { true };
}

/// The bytes of the proof of what the version was derived from directly.
fn start_bytes<S: Scratch>(
    alloc: Global,
    lineage: &mut Lineage,
    scratch: &mut S,
    key: &Key,
    at: u32,
    root_at: u32,
) -> Result<Bytes, HostError>
    requires within { root_at < length lineage.old.digests }
    requires early { at ≤ root_at }
    requires agrees { AgreesWith lineage.old (S.state scratch.old) }
    // If it is known which bytes the scratch device holds:
    ensures bytes { is_known (S.state scratch.old) ≡ true → IfOk result
        (λ bytes. bytes ≡ concat (proof_fields (made_proof lineage.old.rows lineage.old.digests
        root_at (start_query key.now at)))) }
    // Whether that is known or not:
    ensures always { IfOk result (IsButForBody (made_proof lineage.old.rows lineage.old.digests
        root_at (start_query key.now at))) }
    ensures leaves { LeavesLineage S.state S.scratch_faults lineage.old scratch.old lineage.new
        scratch.new (IsErrOf result HostError.Fault) }
{
    let query = Query {
        kind: Kind::Back,
        key: *key,
        at,
    };
    match prove(alloc, lineage, scratch, &query, root_at) {
        Ok(bytes) => Ok(bytes),
        Err(QueryError::Beyond { .. }) => unreachable!(),
        Err(QueryError::Fault) => Err(HostError::Fault),
        Err(QueryError::Memory) => Err(HostError::Memory),
    }
}

/// The ancestors in a trace, the last one first; none if there is no version.
fn from_last(alloc: Global, trace: Option<Trace>) -> Vec<Dep>
    ensures { result.items ≡ reverse (ancestors_in trace) }
{
    match trace {
        None => Vec::new(alloc),
        Some(trace) => {
            let mut versions = trace.ancestors.into_vec();
            versions.reverse();
            versions
        }
    }
}

/// The bytes of the proof made of all rows of a lineage, which must be those up to the root's
/// block.
pub(crate) fn bytes_of_rows<S: Scratch>(
    alloc: Global,
    lineage: &mut Lineage,
    scratch: &mut S,
    key: &Key,
    at: u32,
    root_at: u32,
) -> Result<Bytes, HostError>
    requires last { root_at + 1 ≡ length lineage.old.digests }
    requires early { at ≤ root_at }
    requires agrees { AgreesWith lineage.old (S.state scratch.old) }
    // If it is known which bytes the scratch device holds:
    ensures bytes { is_known (S.state scratch.old) ≡ true → IfOk result
        (λ bytes. bytes ≡ concat (trace_fields (made_trace lineage.old.rows lineage.old.digests
        root_at key.now at))) }
    // Whether that is known or not:
    ensures always { IfOk result (IsButForBodies (made_trace lineage.old.rows lineage.old.digests
        root_at key.now at)) }
    ensures leaves { LeavesLineage S.state S.scratch_faults lineage.old scratch.old lineage.new
        scratch.new (IsErrOf result HostError.Fault) }
{
    // By this call contracts know that the rows are a ledger.
    let _rows = lineage.row_count();
    let start = start_bytes(alloc, lineage, scratch, key, at, root_at)?;
    let mut steps = Steps::<Proving>::new();
    let trace = trace_rows(alloc, lineage, scratch, key, at, &mut steps)?;
    let versions = from_last(alloc, trace);
    let items = items_of(alloc, lineage, scratch, versions.as_slice(), &mut steps)?;
    let bytes = write_trace(alloc, start.as_bytes(), items.as_slice())?;
    Ok(bytes)
}

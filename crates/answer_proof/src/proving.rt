//! A proof is made under the root at any block: if it isn't the last one, the lineage up to it is
//! made first.

ghost use Rattle.std.specs.{
  Prelude.{◌≡◌, ◌==◌, ◌≤◌, ◌+◌, true, Some, length, slice_get, IfOk, IsErrOf},
  List.{concat},
};
ghost use Rattle.lc_io.specs.Scratch.{is_known};
ghost use Rattle.merkle_dag.specs.Lineage.{ledger_in, AgreesWith, LeavesLineage};
ghost use Rattle.proof_codec.specs.Spelling.{proof_fields};
ghost use Rattle.proof_checks.specs.Making.{made_proof};
ghost use Rattle.answer_proof.specs.Proving.{IsProved, Shows, IsButForBody, IsRefusedBeyond};

use crate::asked::Asked;
use crate::gathering::bytes_of_rows;
use crate::typed::check_types;
use lc_base::{Bytes, HostError, Memory, Query};
use lc_io::Scratch;
use merkle_dag::{Lineage, QueryError};
use std::alloc::Global;

/// Whether a block is the last one.
fn is_last(lineage: &Lineage, block: u32) -> bool
    ensures { result ≡ block + 1 == length lineage.now.digests }
{
    match lineage.head() {
        None => false,
        Some(head) => head == block,
    }
}

/// The bytes of the proof made at the root's block. If that is the last block, the lineage is used
/// as it is; else the lineage of the blocks up to it is made.
fn bytes_at<S: Scratch>(
    alloc: Global,
    lineage: &mut Lineage,
    scratch: &mut S,
    asked: &Asked,
) -> Result<Bytes, HostError>
    requires within { slice_get lineage.old.digests asked.now.root_at ≡ Some asked.now.block_digest }
    requires early { asked.now.query.at ≤ asked.now.root_at }
    requires agrees { AgreesWith lineage.old (S.state scratch.old) }
    // If it is known which bytes the scratch device holds:
    ensures bytes { is_known (S.state scratch.old) ≡ true
        → IfOk result (λ bytes. bytes ≡ concat (proof_fields (made_proof lineage.old.rows
        lineage.old.digests asked.now.root_at asked.now.query))) }
    // Whether that is known or not:
    ensures always { IfOk result (IsButForBody (made_proof lineage.old.rows lineage.old.digests
        asked.now.root_at asked.now.query)) }
    ensures leaves { LeavesLineage S.state S.scratch_faults lineage.old scratch.old lineage.new
        scratch.new (IsErrOf result HostError.Fault) }
{
    check_types(lineage, asked);
    if is_last(lineage, asked.root_at) {
        return bytes_of_rows(alloc, lineage, scratch, asked);
    }
    match lineage.rewind(asked.root_at) {
        Ok(mut rewound) => {
            let bytes = bytes_of_rows(alloc, &mut rewound, scratch, asked);
            rewound.give_up();
            bytes
        }
        Err(Memory) => Err(HostError::Memory),
    }
}

/// The bytes of the proof for a query, for one who has the root at `root_at`. Bodies are read from
/// the scratch device; if it is not known which bytes that holds, nothing is promised of the body
/// in the proof, and of its other parts as much as else. Of the lineage, only which bodies are at
/// hand may change.
pub fn prove<S: Scratch>(
    alloc: Global,
    lineage: &mut Lineage,
    scratch: &mut S,
    query: &Query,
    root_at: u32,
) -> Result<Bytes, QueryError>
    requires agrees { AgreesWith lineage.old (S.state scratch.old) }
    // If it is known which bytes the scratch device holds:
    ensures proved { is_known (S.state scratch.old) ≡ true → IsProved (ledger_in lineage.old) query.now root_at result }
    // The bytes spell a proof, and whoever has the root accepts it with the answer of scanning the
    // rows up to the root's block.
    ensures accepted { is_known (S.state scratch.old) ≡ true → IfOk result (Shows (ledger_in lineage.old) query.now root_at) }
    // Whether that is known or not:
    ensures always { IfOk result
        (IsButForBody (made_proof lineage.old.rows lineage.old.digests root_at query.now)) }
    ensures beyond { IsRefusedBeyond (ledger_in lineage.old) query.now root_at result }
    ensures leaves { LeavesLineage S.state S.scratch_faults lineage.old scratch.old lineage.new
        scratch.new (IsErrOf result QueryError.Fault) }
{
    let Some(block_digest) = lineage.digest(root_at) else {
        return Err(QueryError::Beyond {
            head: lineage.head(),
        });
    };
    if root_at < query.at {
        return Err(QueryError::Beyond {
            head: lineage.head(),
        });
    }
    let asked = Asked {
        query: *query,
        root_at,
        block_digest,
    };
    check_types(lineage, &asked);
    Ok(bytes_at(alloc, lineage, scratch, &asked)?)
}

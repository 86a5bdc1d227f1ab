//! If an accepted proof answers wrongly, a text of the proof and one of the ledger clash; `expose`
//! finds the first such pair.

ghost use Rattle.std.specs.Prelude.{◌≡◌, true, Some, ℕ, List, [], length, slice_get, IfOk, IsErrOf};
ghost use Rattle.lc_io.specs.Scratch.{is_known};
ghost use Rattle.merkle_tree.specs.Tree.{audit_length};
ghost use Rattle.merkle_dag.specs.{
  Lineage.{ledger_in, AgreesWith, LeavesLineage},
  Questions.{TellsPastHead},
};
ghost use Rattle.proof_checks.specs.{
  ProofTexts.{joined_texts, proof_texts},
  LedgerTexts.{history_parts, ledger_texts},
};
ghost use Rattle.text_clashes.specs.Searching.{HasSearched};
ghost use Rattle.answer_exposing.specs.Exposing.{IsFound, IsExposed, Clears};

use crate::ledger::search_ledger;
use lc_base::{Bytes, Digest, HostError, Memory};
use lc_io::Scratch;
use merkle_dag::{Lineage, QueryError};
use proof_codec::ProofView;
use std::alloc::Global;
use text_clashes::{ClashSearch, proof_texts};

/// Two texts that differ and have one digest.
#[derive(Drop)]
pub struct Clash {
    /// A text that the proof shows.
    pub proof_text: Bytes,
    /// A text of the ledger.
    pub chain_text: Bytes,
}

/// A search for the first clash of the texts of a proof with others.
fn search_of(alloc: Global, view: &ProofView) -> Result<ClashSearch, Memory>
    requires { length view.now.leaf_proof.audit ≡ audit_length view.now.leaf_proof.leaf_index view.now.leaf_proof.leaf_count }
    ensures { IfOk result (HasSearched (proof_texts view.now) []) }
{
    let given = proof_texts(alloc, view)?;
    ClashSearch::new(alloc, given)
}

/// The first clash that a search found.
fn found_by(search: ClashSearch) -> Result<Option<Clash>, Memory>
    ensures { IfOk result (λ found. (given own : List (List ℕ)) → HasSearched given own search
        → IsFound given own found) }
{
    match search.finish()? {
        None => Ok(None),
        Some((proof_text, chain_text)) => {
            let clash = Clash {
                proof_text,
                chain_text,
            };
            Ok(Some(clash))
        }
    }
}

/// The first clash with all rows of a lineage, which must be those up to `root_at`, a block with
/// this digest.
fn exposed_by_rows<S: Scratch>(
    alloc: Global,
    lineage: &mut Lineage,
    scratch: &mut S,
    root_at: u32,
    block_digest: &Digest,
    view: &ProofView,
) -> Result<Option<Clash>, HostError>
    requires long { length view.now.leaf_proof.audit ≡ audit_length view.now.leaf_proof.leaf_index view.now.leaf_proof.leaf_count }
    requires agrees { AgreesWith lineage.old (S.state scratch.old) }
    // If it is known which bytes the scratch device holds:
    ensures found { is_known (S.state scratch.old) ≡ true
        → IfOk result (IsFound (proof_texts view.now)
        (joined_texts (history_parts lineage.old.rows root_at block_digest.now.0))) }
    // Whether that is known or not:
    ensures leaves { LeavesLineage S.state S.scratch_faults lineage.old scratch.old lineage.new
        scratch.new (IsErrOf result HostError.Fault) }
{
    match search_of(alloc, view) {
        Ok(mut search) => {
            match search_ledger(alloc, &mut search, lineage, scratch, root_at, block_digest) {
                Ok(()) => Ok(found_by(search)?),
                Err(error) => Err(error),
            }
        }
        Err(Memory) => Err(HostError::Memory),
    }
}

/// The first clash with the ledger at a block with this digest. If that is the last block, the
/// lineage is used as it is; else the lineage of the blocks up to it is made.
fn exposed_at<S: Scratch>(
    alloc: Global,
    lineage: &mut Lineage,
    scratch: &mut S,
    root_at: u32,
    block_digest: &Digest,
    view: &ProofView,
) -> Result<Option<Clash>, HostError>
    requires within { slice_get lineage.old.digests root_at ≡ Some block_digest.now }
    requires long { length view.now.leaf_proof.audit ≡ audit_length view.now.leaf_proof.leaf_index view.now.leaf_proof.leaf_count }
    requires agrees { AgreesWith lineage.old (S.state scratch.old) }
    // If it is known which bytes the scratch device holds:
    ensures found { is_known (S.state scratch.old) ≡ true
        → IfOk result (IsFound (proof_texts view.now)
        (ledger_texts lineage.old.rows lineage.old.digests root_at)) }
    // Whether that is known or not:
    ensures leaves { LeavesLineage S.state S.scratch_faults lineage.old scratch.old lineage.new
        scratch.new (IsErrOf result HostError.Fault) }
{
    // The call makes it known that no row is of a block after the last one.
    let _ledger = lineage.row_count();
    if lineage.head() == Some(root_at) {
        return exposed_by_rows(alloc, lineage, scratch, root_at, block_digest, view);
    }
    match lineage.rewind(root_at) {
        Ok(mut rewound) => {
            let found = exposed_by_rows(alloc, &mut rewound, scratch, root_at, block_digest, view);
            rewound.give_up();
            found
        }
        Err(Memory) => Err(HostError::Memory),
    }
}

/// The first clash of the texts of a proof with those of the ledger at a block: two texts that
/// differ and have one digest; `None` exactly if they don't clash. The audit path must have as many
/// hashes as the leaf's index implies, which holds of each proof that was read from bytes. Bodies
/// are read from the scratch device; of the lineage, only which bodies are at hand may change.
pub fn expose<S: Scratch>(
    alloc: Global,
    lineage: &mut Lineage,
    scratch: &mut S,
    root_at: u32,
    view: &ProofView,
) -> Result<Option<Clash>, QueryError>
    requires long { length view.now.leaf_proof.audit ≡ audit_length view.now.leaf_proof.leaf_index view.now.leaf_proof.leaf_count }
    requires agrees { AgreesWith lineage.old (S.state scratch.old) }
    // If it is known which bytes the scratch device holds:
    ensures exposed { is_known (S.state scratch.old) ≡ true
        → IsExposed (ledger_in lineage.old) root_at view.now result }
    // If there is no clash, each answer with which the proof is accepted under the root at the
    // block is that of scanning the rows up to it.
    ensures clears { is_known (S.state scratch.old) ≡ true
        → IfOk result (Clears (ledger_in lineage.old) root_at view.now) }
    // Whether that is known or not:
    ensures beyond { TellsPastHead lineage.old.digests root_at result }
    ensures leaves { LeavesLineage S.state S.scratch_faults lineage.old scratch.old lineage.new
        scratch.new (IsErrOf result QueryError.Fault) }
{
    // The call makes it known that the rows are typed.
    let _typed = lineage.row_count();
    let Some(block_digest) = lineage.digest(root_at) else {
        return Err(QueryError::Beyond {
            head: lineage.head(),
        });
    };
    Ok(exposed_at(alloc, lineage, scratch, root_at, &block_digest, view)?)
}

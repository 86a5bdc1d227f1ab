//! The command `expose`: the first clash of an accepted proof with the blocks of a chain. The input
//! is not read unless the chain reaches the block of the root.

ghost use Rattle.std.specs.Prelude.{
  ◌≡◌,
  ◌<◌,
  ◌≤◌,
  ◌++◌,
  ℕ,
  List,
  Option,
  true,
  length,
  codes,
  string_bytes,
  Some,
  IfOk,
  IfSome,
  IsErrOf,
};
ghost use Rattle.lc_base.specs.Faults.{HasCause};
ghost use Rattle.hex.specs.Hex.{encode_lower};
ghost use Rattle.merkle_tree.specs.Tree.{audit_length};
ghost use Rattle.block_codec.specs.declared.block.Block.{Block as Blocks};
ghost use Rattle.chain_replay.specs.Chain.{ChainState, StandsFor};
ghost use Rattle.lc_io.specs.Scratch.{is_known};
ghost use Rattle.merkle_dag.specs.Lineage.{AgreesWith, ledger_in};
ghost use Rattle.proof_checks.specs.ProofTexts.{proof_texts};
ghost use Rattle.answer_exposing.specs.{
  Exposing.{IsFound},
  declared.exposing.Clash.{Clash as Clashes},
};
ghost use Rattle.cli_output.specs.{
  cli_lines.declared.whole.TheConstants.{MAX_WHOLE_INPUT_BYTES},
  Proofs.{clash_line},
  Scanning.{EndsExposed, IsExposeOutcome},
};
ghost use Rattle.cli_proofs.specs.Exposing.{
  IsHeld,
  found_outcome,
  ledger_kept,
  reaches,
  texts_kept,
};

use crate::lines::line_of;
use crate::verifying::{bad_hex, rejected_outcome};
use answer_exposing::{Clash, expose as expose_proof};
use cli_output::{
    Ending, Outcome, OutcomeStop, Refused, beyond, decode_hex, hex_after, read_whole,
};
use lc_base::{Bytes, Digest, Memory, Query};
use lc_io::{Scratch, Source};
use merkle_dag::{Lineage, QueryError};
use proof_codec::ProofView;
use proof_verifier::accept;
use std::alloc::{AllocError, Global};

/// The text of two texts that clash, in lower-case hex.
fn clash_text(alloc: Global, given: &[u8], own: &[u8]) -> Result<String, AllocError>
    ensures { IfOk result (λ text. string_bytes text ≡ codes "clash " ++ encode_lower given.now ++ codes " " ++ encode_lower own.now) }
{
    let mut text = hex_after(alloc, "clash ", given)?;
    text.push_str(" ")?;
    hex_after(alloc, text.as_str(), own)
}

fn clash_line(alloc: Global, clash: &Clash) -> Result<Bytes, Memory>
    ensures { IfOk result (λ line. line ≡ clash_line clash.now.proof_text clash.now.chain_text) }
{
    let text = clash_text(
        alloc,
        clash.proof_text.as_bytes(),
        clash.chain_text.as_bytes(),
    )?;
    line_of(text)
}

/// The outcome for two texts that clash, or for none.
fn found_outcome(alloc: Global, found: &Option<Clash>) -> Result<Outcome, Memory>
    ensures { IfOk result (λ outcome. outcome ≡ found_outcome found.now) }
{
    match found {
        None => {
            let line = line_of(String::from_str(alloc, "no clash")?)?;
            Outcome::from_line(alloc, line, Ending::Done)
        }
        Some(clash) => Outcome::from_line(alloc, clash_line(alloc, clash)?, Ending::Done),
    }
}

/// The outcome for a proof that is accepted.
fn accepted_outcome<S: Scratch>(
    alloc: Global,
    root_at: u32,
    lineage: &mut Lineage,
    scratch: &mut S,
    proof: &ProofView,
) -> Result<Outcome, OutcomeStop>
    requires within { root_at < length lineage.old.digests }
    requires long { length proof.now.leaf_proof.audit ≡ audit_length proof.now.leaf_proof.leaf_index proof.now.leaf_proof.leaf_count }
    requires agrees { AgreesWith lineage.old (S.state scratch.old) }
    // Holds if it is known which bytes the scratch device holds.
    ensures outcome { is_known (S.state scratch.old) ≡ true → IfOk result (λ outcome. (found : Option Clashes) × IsFound (proof_texts proof.now) (texts_kept (ledger_in lineage.old) root_at) found × (outcome ≡ found_outcome found)) }
    // Holds in either case.
    ensures ends { IfOk result (λ outcome. EndsExposed outcome.ending) }
    ensures reads { IsErrOf result OutcomeStop.Unreadable → ⊥ }
    ensures disk { IsErrOf result OutcomeStop.DiskFault → ⊥ }
    ensures cause { HasCause (S.scratch_faults scratch.old) (S.scratch_faults scratch.new) (IsErrOf result OutcomeStop.ScratchFault) }
{
    match expose_proof(alloc, lineage, scratch, root_at, proof) {
        Ok(found) => Ok(found_outcome(alloc, &found)?),
        Err(QueryError::Beyond { .. }) => unreachable!(),
        Err(QueryError::Fault) => Err(OutcomeStop::ScratchFault),
        Err(QueryError::Memory) => Err(OutcomeStop::Memory),
    }
}

/// The outcome for an input that was read whole.
fn input_outcome<S: Scratch>(
    alloc: Global,
    root: &Digest,
    query: &Query,
    root_at: u32,
    lineage: &mut Lineage,
    scratch: &mut S,
    input: &[u8],
) -> Result<Outcome, OutcomeStop>
    requires within { root_at < length lineage.old.digests }
    requires agrees { AgreesWith lineage.old (S.state scratch.old) }
    ensures outcome { is_known (S.state scratch.old) ≡ true → IfOk result (IsHeld (ledger_in lineage.old) root.now.0 query.now root_at input.now) }
    ensures ends { IfOk result (λ outcome. EndsExposed outcome.ending) }
    ensures reads { IsErrOf result OutcomeStop.Unreadable → ⊥ }
    ensures disk { IsErrOf result OutcomeStop.DiskFault → ⊥ }
    ensures cause { HasCause (S.scratch_faults scratch.old) (S.scratch_faults scratch.new) (IsErrOf result OutcomeStop.ScratchFault) }
{
    match decode_hex(alloc, input)? {
        Ok(bytes) => match accept(root, query, bytes.as_bytes()) {
            Ok(proof) => accepted_outcome(alloc, root_at, lineage, scratch, &proof),
            Err(reject) => Ok(rejected_outcome(alloc, &Refused::Version(reject))?),
        },
        Err(fault) => Ok(bad_hex(alloc, &fault)?),
    }
}

/// Whether a lineage has the block of the root, and the question is about no later one.
fn reaches(lineage: &Lineage, query: &Query, root_at: u32) -> bool
    ensures { result ≡ reaches (ledger_in lineage.now) query.now root_at }
{
    match lineage.head() {
        None => false,
        Some(head) => root_at <= head && query.at <= root_at,
    }
}

/// The outcome of `expose` over the lineage of a chain: the first clash of the proof that the input
/// is, in hex, under this root, with the blocks up to `root_at`; or why the proof is not accepted.
/// Nothing of the input is read if the lineage doesn't have the block of the root, or if the
/// question is about a later one.
pub fn expose<I: Source, S: Scratch>(
    alloc: Global,
    root: &Digest,
    query: &Query,
    root_at: u32,
    lineage: &mut Lineage,
    source: &mut I,
    scratch: &mut S,
) -> Result<Outcome, OutcomeStop>
    requires agrees { AgreesWith lineage.old (S.state scratch.old) }
    ensures outcome { is_known (S.state scratch.old) ≡ true → (kept : ChainState) → ledger_in lineage.old ≡ ledger_kept kept
        → IfSome (I.left source.old) (λ input. IfOk result (λ outcome. (blocks : List Blocks) → StandsFor kept blocks → IsExposeOutcome root.now.0 query.now root_at blocks outcome (I.left source.new) input)) }
    ensures ends { IfOk result (λ outcome. EndsExposed outcome.ending) }
    ensures disk { IsErrOf result OutcomeStop.DiskFault → ⊥ }
    ensures unreadable { HasCause (I.source_faults source.old) (I.source_faults source.new) (IsErrOf result OutcomeStop.Unreadable) }
    ensures scratch_fault { HasCause (S.scratch_faults scratch.old) (S.scratch_faults scratch.new) (IsErrOf result OutcomeStop.ScratchFault) }
{
    if !reaches(lineage, query, root_at) {
        return Ok(beyond(alloc, lineage.head())?);
    }
    match read_whole(alloc, source)? {
        None => Ok(Outcome::bad_input(alloc, "long")?),
        Some(bytes) => {
            let input = bytes.as_bytes();
            input_outcome(alloc, root, query, root_at, lineage, scratch, input)
        }
    }
}

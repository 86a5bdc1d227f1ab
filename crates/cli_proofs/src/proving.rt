//! The command `prove`: a proof of what is shown for a question, for one who has a root of the log.

ghost use Rattle.std.specs.Prelude.{◌≡◌, true, List, IfOk, IsErrOf};
ghost use Rattle.lc_base.specs.Faults.{HasCause};
ghost use Rattle.hex.specs.Hex.{encode_lower};
ghost use Rattle.block_codec.specs.declared.block.Block.{Block as Blocks};
ghost use Rattle.chain_exec.specs.Compiled.{compiled_in};
ghost use Rattle.chain_replay.specs.Chain.{ChainState, StandsFor};
ghost use Rattle.lc_io.specs.Scratch.{is_known};
ghost use Rattle.merkle_dag.specs.Lineage.{AgreesWith, ledger_in};
ghost use Rattle.cli_output.specs.{
  cli_lines.Lines.{line},
  Output.{prove_outcome},
  Questions.{IsInOrder, made_bytes},
  Scanning.{EndsAsked},
};
ghost use Rattle.cli_proofs.specs.{Exposing.{ledger_kept}, Proving.{IsRefusedBeyond}};

use crate::lines::line_of;
use cli_output::{Ending, Outcome, OutcomeStop, beyond};
use cli_words::Question;
use lc_base::{Bytes, Memory};
use lc_io::Scratch;
use lineage_trace::{prove as prove_answer, prove_trace};
use merkle_dag::{Lineage, QueryError};
use range_proof::prove_range;
use std::alloc::Global;

/// The line of bytes in lower-case hex.
pub fn hex_line(alloc: Global, bytes: &[u8]) -> Result<Bytes, Memory>
    ensures { IfOk result (λ told. told ≡ line (encode_lower bytes.now)) }
{
    line_of(hex::encode(alloc, bytes)?)
}

/// The bytes of the proof of what is shown for a question, by its kind.
fn proof_of<S: Scratch>(
    alloc: Global,
    question: &Question,
    root_at: u32,
    lineage: &mut Lineage,
    scratch: &mut S,
) -> Result<Bytes, QueryError>
    requires in_order { IsInOrder question.now }
    requires agrees { AgreesWith lineage.old (S.state scratch.old) }
    ensures made { is_known (S.state scratch.old) ≡ true → IfOk result (λ bytes. bytes
        ≡ made_bytes lineage.old.rows lineage.old.digests root_at question.now) }
    ensures beyond { IsRefusedBeyond (ledger_in lineage.old) question.now root_at result }
    ensures cause { HasCause (S.scratch_faults scratch.old) (S.scratch_faults scratch.new)
        (IsErrOf result QueryError.Fault) }
{
    match question {
        Question::Version(query) => prove_answer(alloc, lineage, scratch, query, root_at),
        Question::Ancestors { key, at } => prove_trace(alloc, lineage, scratch, key, *at, root_at),
        Question::Between { key, from, to } => {
            prove_range(alloc, lineage, scratch, key, *from, *to, root_at)
        }
    }
}

/// The outcome of `prove` over the lineage of a chain: a proof of what is shown for the question, for
/// one who has the root at a block, or that a block is beyond the chain.
pub fn prove<S: Scratch>(
    alloc: Global,
    question: &Question,
    root_at: u32,
    lineage: &mut Lineage,
    scratch: &mut S,
) -> Result<Outcome, OutcomeStop>
    requires in_order { IsInOrder question.now }
    requires agrees { AgreesWith lineage.old (S.state scratch.old) }
    // Holds if it is known which bytes the scratch device holds.
    ensures outcome { is_known (S.state scratch.old) ≡ true → (kept : ChainState)
        → ledger_in lineage.old ≡ ledger_kept kept
        → IfOk result (λ outcome. (blocks : List Blocks) → StandsFor kept blocks → outcome
        ≡ prove_outcome compiled_in question.now root_at blocks) }
    // Hold in either case.
    ensures ends { IfOk result (λ outcome. EndsAsked outcome.ending) }
    ensures reads { IsErrOf result OutcomeStop.Unreadable → ⊥ }
    ensures disk { IsErrOf result OutcomeStop.DiskFault → ⊥ }
    ensures cause { HasCause (S.scratch_faults scratch.old) (S.scratch_faults scratch.new)
        (IsErrOf result OutcomeStop.ScratchFault) }
{
    match proof_of(alloc, question, root_at, lineage, scratch) {
        Ok(proof) => {
            let line = hex_line(alloc, proof.as_bytes())?;
            Ok(Outcome::from_line(alloc, line, Ending::Done)?)
        }
        Err(QueryError::Beyond { head }) => Ok(beyond(alloc, head)?),
        Err(QueryError::Fault) => Err(OutcomeStop::ScratchFault),
        Err(QueryError::Memory) => Err(OutcomeStop::Memory),
    }
}

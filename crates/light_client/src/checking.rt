//! A proof is read, the block of its root is looked up in a light file, and the root there judges
//! it.

ghost use Rattle.std.specs.Prelude.{◌≡◌, ◌≢◌, ◌≤◌, ◌↔◌, List, length, Some, None, Ok, Err};
ghost use Rattle.std.specs.Prelude.{slice_get, IfOk, IfErr, IsOkAnd, IsErrAnd, IsSomeAnd};
ghost use Rattle.lc_base.specs.{
  Answers.{Answers},
  declared.answer.Answer.{Answer},
  declared.digest.Digest.{Digest as DigestValue},
  declared.row.Row.{Row},
};
ghost use Rattle.byte_fields.specs.Prefixes.{IsLongestPrefix};
ghost use Rattle.proof_codec.specs.{
  Viewing.{Spells},
  Spelling.{IsProof, proof_fields},
  declared.proof.Proof.{Proof as ProofValue},
};
ghost use Rattle.root_laws.specs.TypedLedger.{IsTypedHistory};
ghost use Rattle.proof_verifier.specs.{
  proof_checks.Checks.{judgement},
  proof_checks.ProofTexts.{proof_texts},
  proof_checks.Soundness.{AnswersOrClashes},
  proof_checks.declared.reject.Reject.{Reject as RejectValue},
  Answering.{answer_seen, HasValue},
};
ghost use Rattle.light_client.specs.{
  declared.block_root.BlockRoot.{BlockRoot as BlockRootValue},
  Checking.{light_answer, light_verdict, checked_seen, reject_told, malformed_at, HasBlockOf},
  Ledgers.{IsFileOf},
  declared.reject.LightReject.TheVariants.{Unknown, DigestDiffers, Rejected},
};

use crate::light_file::LightFile;
use crate::reject::LightReject;
use lc_base::Query;
use proof_codec::{ViewError, view};
use proof_verifier::{Found, judge};

/// What a proof that a light file accepts answers.
#[derive(Drop)]
pub struct Checked<'p> {
    /// The query that the proof answers: its own.
    pub query: Query,
    /// The block of the root under which it is answered.
    pub root_at: u32,
    /// The answer. Texts, dependencies, and uses are read in place, from the bytes of the proof.
    pub found: Found<'p>,
}

#[tactic(auto, unfolding(crate::specs::Checking::light_verdict))]
fn light_verdict<'p>(file: &LightFile, proof: &'p [u8]) -> Result<Checked<'p>, LightReject>
    ensures { Answers checked_seen reject_told result (light_verdict file.now proof.now) }
{
    let view = match view(proof) {
        Ok(view) => view,
        Err(ViewError::Malformed { at }) => return Err(LightReject::Malformed { at }),
    };
    let place = view.leaf_proof().place();
    let Some(known) = file.block_root(place.root_at) else {
        return Err(LightReject::Unknown {
            count: file.count(),
        });
    };
    if known.digest.0 != place.block_digest.0 {
        return Err(LightReject::DigestDiffers { have: known.digest });
    }
    match judge(&known.root, &view) {
        Ok(found) => Ok(Checked {
            query: view.query(),
            root_at: place.root_at,
            found,
        }),
        Err(fault) => Err(LightReject::Rejected(fault)),
    }
}

/// Checks a proof for one who has a light file: returns the proof's query, the block of its root,
/// and the answer under the root that the file has at that block; or the first check that fails.
pub fn check<'p>(file: &LightFile, proof: &'p [u8]) -> Result<Checked<'p>, LightReject>
    // If the bytes aren't a proof, the offset of the first invalid field is reported.
    ensures malformed { ((given : ProofValue) → Spells proof.now given → ⊥)
        → IsErrAnd result (λ reject.
        IsSomeAnd (malformed_at reject) (IsLongestPrefix proof_fields IsProof proof.now)) }
    // If they are, no such offset is reported, and `Unknown` exactly if the file doesn't have the
    // block of the proof's root.
    ensures readable { (given : ProofValue) → Spells proof.now given
        → IfErr result (λ reject. malformed_at reject ≡ None) }
    ensures unknown { (given : ProofValue) → Spells proof.now given
        → (result ≡ Err (Unknown (length file.now)))
        ↔ (length file.now ≤ given.leaf_proof.root_at) }
    // If the file has it, its digest in the file is reported exactly if the proof has another.
    ensures differs { (given : ProofValue) → Spells proof.now given → (known : BlockRootValue)
        → slice_get file.now given.leaf_proof.root_at ≡ Some known
        → (result ≡ Err (DigestDiffers known.digest))
        ↔ (known.digest ≢ given.leaf_proof.block_digest) }
    // If the proof has the same, a fault is reported exactly if it is that of the first check that
    // fails under the root in the file.
    ensures rejected { (given : ProofValue) → Spells proof.now given → (known : BlockRootValue)
        → HasBlockOf file.now given known → (fault : RejectValue)
        → (result ≡ Err (Rejected fault)) ↔ (judgement known.root.0 given ≡ Err fault) }
    // If none fails, the answer is returned, with the proof's own query and the block of its root.
    ensures accepted { (given : ProofValue) → Spells proof.now given → (known : BlockRootValue)
        → HasBlockOf file.now given known → (answer : Answer)
        → judgement known.root.0 given ≡ Ok answer
        → IsOkAnd result (λ checked. checked_seen checked ≡ light_answer given answer) }
    // The answer is that of every typed history of which the file tells, up to the block; or a text
    // of the proof and one of the history differ and have one digest.
    ensures sound { (given : ProofValue) → Spells proof.now given
        → (rows : List Row) (digests : List DigestValue) → IsTypedHistory rows
        → IsFileOf rows digests file.now → IfOk result (λ checked.
        AnswersOrClashes rows digests checked.root_at checked.query (proof_texts given)
        (answer_seen checked.found)) }
    // If the answer has a value, the value is lawful.
    ensures value { IfOk result (λ checked. HasValue (answer_seen checked.found)) }
    // The result is that of the function that defines what bytes answer.
    ensures exact { Answers checked_seen reject_told result (light_verdict file.now proof.now) }
{
    light_verdict(file, proof)
}

//! The checks of a proof run in a fixed order: the query, the root, the leaf, the headers, the
//! body, the uses.

ghost use Rattle.std.specs.Prelude.{
  ◌≡◌,
  ◌<◌,
  ◌^◌,
  ℕ,
  List,
  Err,
  true,
  is_ok,
  IfOk,
  IfErr,
  IsErrAnd,
  IsSomeAnd,
};
ghost use Rattle.lc_base.specs.{
  Answers.{Answers},
  declared.digest.Digest.{Digest as DigestValue},
  declared.row.Row.{Row},
};
ghost use Rattle.proof_checks.specs.{
  root_laws.Root.{root_of},
  root_laws.TypedLedger.{IsTypedHistory},
  proof_codec.Spelling.{IsProof, proof_fields},
  proof_codec.declared.proof.Proof.{Proof as ProofValue},
  proof_codec.Viewing.{Spells},
  Checks.{is_same_query, judgement, verdict},
  ProofTexts.{proof_texts},
  Soundness.{AnswersOrClashes},
};
ghost use Rattle.byte_fields.specs.Prefixes.{IsLongestPrefix};
ghost use Rattle.proof_verifier.specs.Answering.{
  answer_seen,
  fault_told,
  HasValue,
  malformed_at,
  fault_of_view,
  verdict_on,
};

use crate::answers::answer;
use crate::found::Found;
use crate::leaf::{claim_of_leaf, expected_first, fault_of_leaf};
use crate::path::{Lookup, walk};
use lc_base::{Digest, Query};
use proof_checks::{ProofView, Reject, ViewError, kind_byte, view};

/// Whether the proof's own query is the one that is asked.
fn is_same_query(asked: &Query, own: &Query) -> bool
    ensures { result ≡ is_same_query asked.now own.now }
{
    if kind_byte(own.kind) != kind_byte(asked.kind) {
        return false;
    }
    if own.key.as_bytes() != asked.key.as_bytes() {
        return false;
    }
    own.at == asked.at
}

/// The fault for bytes that aren't a proof.
fn fault_of_view(error: ViewError) -> Reject
    ensures { result ≡ fault_of_view error }
{
    match error {
        ViewError::Malformed { at } => Reject::Malformed { at },
    }
}

/// What a proof answers to its own query for one who has the root at its block, or the first check
/// that fails.
pub fn judge<'p>(root: &Digest, proof: &ProofView<'p>) -> Result<Found<'p>, Reject>
    requires { IsProof proof.now }
    // The answer is returned exactly if no check fails; else the first check that fails is reported.
    ensures { Answers answer_seen fault_told result (judgement root.now.0 proof.now) }
{
    let query = proof.query();
    let leaf_proof = proof.leaf_proof();
    if let Some(fault) = fault_of_leaf(root, &query.key, leaf_proof) {
        return Err(fault);
    }
    let leaf = leaf_proof.leaf();
    let rule = Lookup { at: query.at };
    let first = expected_first(&query.key, leaf);
    let claim = claim_of_leaf(leaf);
    match walk(&query.key, &rule, first, claim, proof.headers()) {
        Err(fault) => Err(fault),
        Ok(None) => Ok(Found::Nothing),
        Ok(Some(told)) => match proof.body() {
            None => Ok(Found::Nothing),
            Some(body) => answer(query.kind, &told, body, proof.uses()),
        },
    }
}

/// What a proof answers to a query, or the first check that fails.
fn judge_for<'p>(root: &Digest, query: &Query, proof: &ProofView<'p>) -> Result<Found<'p>, Reject>
    requires { IsProof proof.now }
    ensures { Answers answer_seen fault_told result (verdict root.now.0 query.now proof.now) }
{
    if !is_same_query(query, &proof.query()) {
        return Err(Reject::OtherQuery);
    }
    judge(root, proof)
}

/// Checks a proof for one who has the root at a block: returns the answer to the query, or the
/// first check that fails.
pub fn verify<'p>(root: &Digest, query: &Query, proof: &'p [u8]) -> Result<Found<'p>, Reject>
    // If the bytes are a proof, the answer is returned exactly if no check fails; else the first
    // check that fails is reported.
    ensures spelled { (given : ProofValue) → Spells proof.now given → Answers answer_seen fault_told result (verdict root.now.0 query.now given) }
    // If they aren't, the offset of the first invalid field is reported.
    ensures malformed { ((given : ProofValue) → Spells proof.now given → ⊥)
        → IsErrAnd result (λ fault. IsSomeAnd (malformed_at fault) (IsLongestPrefix proof_fields IsProof proof.now)) }
    // The answer is that of every typed history that has the root at some block; or a text of the
    // proof and one of the history differ and have one digest.
    ensures sound { (given : ProofValue) → Spells proof.now given
        → (rows : List Row) (digests : List DigestValue) (block : ℕ) → IsTypedHistory rows → block < 2 ^ 32 → root_of rows digests block ≡ root.now.0
        → IfOk result (λ found. AnswersOrClashes rows digests block query.now (proof_texts given) (answer_seen found)) }
    // If the answer has a value, the value is lawful.
    ensures value { IfOk result (λ found. HasValue (answer_seen found)) }
    // The result is that of the function that defines what bytes answer.
    ensures exact { Answers answer_seen fault_told result (verdict_on root.now.0 query.now proof.now) }
{
    match view(proof) {
        Ok(view) => judge_for(root, query, &view),
        Err(error) => Err(fault_of_view(error)),
    }
}

/// The proof that the bytes spell, if `verify` accepts it; else the first check that fails.
pub fn accept<'p>(root: &Digest, query: &Query, proof: &'p [u8]) -> Result<ProofView<'p>, Reject>
    // The bytes spell the proof that is returned, and no check of it fails.
    ensures spelled { IfOk result (λ given. Spells proof.now given) }
    ensures passes { IfOk result (λ given. is_ok (verdict root.now.0 query.now given) ≡ true) }
    // A fault is the one that `verify` reports.
    ensures fails { IfErr result (λ fault. verdict_on root.now.0 query.now proof.now ≡ Err fault) }
{
    match view(proof) {
        Ok(view) => match judge_for(root, query, &view) {
            Ok(_found) => Ok(view),
            Err(fault) => Err(fault),
        },
        Err(error) => Err(fault_of_view(error)),
    }
}

//! A range proof is read, then checked as a whole, and only then are its versions copied.

ghost use Rattle.std.specs.Prelude.{◌≡◌, ◌<◌, ◌^◌, ℕ, List, Ok, Err};
ghost use Rattle.std.specs.Prelude.{IfOk, IfErr, IsErrAnd, IsSomeAnd};
ghost use Rattle.lc_base.specs.{
  Answers.{Answers},
  declared.digest.Digest.{Digest as DigestValue},
  declared.row.Row.{Row},
};
ghost use Rattle.range_verifier.specs.{
  Reading.{IsInvalidAt},
  Errors.{fault_told},
  Verdicts.{fault_of_view, malformed_at, range_verdict_on},
  declared.error.RangeError.TheVariants.{Rejected},
};
ghost use Rattle.root_laws.specs.{Root.{root_of}, TypedLedger.{IsTypedHistory}};
ghost use Rattle.proof_verifier.specs.{
  proof_checks.RangeChecks.{range_verdict},
  proof_checks.RangeTexts.{IsRangeProof, range_texts},
  proof_checks.RangeSpelling.{SpellsRange},
  proof_checks.RangeSoundness.{RangesOrClashes},
  proof_checks.declared.range_proof.RangeProof.{RangeProof as RangeValue},
};

use crate::checks::first_fault;
use crate::error::RangeError;
use crate::range_view::{RangeView, view_range};
use crate::shown::ShownVersions;
use crate::versions::copied;
use lc_base::{Digest, Key, VersionList};
use proof_codec::ViewError;
use proof_verifier::RangeReject;
use std::alloc::Global;

/// The fault for bytes that aren't a range proof.
fn fault_of_view(error: ViewError) -> RangeReject
    ensures { result ≡ fault_of_view error }
{
    match error {
        ViewError::Malformed { at } => RangeReject::Malformed { at },
    }
}

/// What a range proof that was read shows, or the first check that fails.
fn judge_range(
    alloc: Global,
    root: &Digest,
    key: &Key,
    from: u32,
    to: u32,
    range: &RangeView,
) -> Result<VersionList, RangeError>
    requires { IsRangeProof range.now }
    ensures judged { Answers (λ versions. versions) fault_told result
        (range_verdict root.now.0 key.now from to range.now) }
    ensures refused { IfErr (range_verdict root.now.0 key.now from to range.now)
        (λ fault. result ≡ Err (Rejected fault)) }
{
    if let Some(fault) = first_fault(root, key, from, to, range) {
        return Err(RangeError::Rejected(fault));
    }
    Ok(copied(alloc, ShownVersions::of(range))?)
}

/// Checks a proof of all versions of a key from the block `from` to the block `to`, both included,
/// for one who has the root at a block. Returns the block, the transaction and the value of each
/// version, the first one first, or the first check that fails.
pub fn verify_range(
    alloc: Global,
    root: &Digest,
    key: &Key,
    from: u32,
    to: u32,
    bytes: &[u8],
) -> Result<VersionList, RangeError>
    // If the bytes are such a proof, what it shows is returned exactly if no check fails, unless
    // memory ran out; else the first check that fails is reported.
    ensures spelled { (given : RangeValue) → SpellsRange bytes.now given
        → Answers (λ versions. versions) fault_told result
        (range_verdict root.now.0 key.now from to given) }
    // A check that fails is reported whatever memory there is.
    ensures refused { (given : RangeValue) → SpellsRange bytes.now given
        → IfErr (range_verdict root.now.0 key.now from to given)
        (λ fault. result ≡ Err (Rejected fault)) }
    // If they aren't, so is the offset of the first invalid field.
    ensures malformed { ((given : RangeValue) → SpellsRange bytes.now given → ⊥)
        → IsErrAnd result (λ error.
        IsSomeAnd (malformed_at error) (IsInvalidAt bytes.now)) }
    // What is shown are all versions of the key between the blocks in every typed history that has
    // the root at some block, up to that block; or a text of the proof and one of the history
    // differ and have one digest.
    ensures sound { (given : RangeValue) → SpellsRange bytes.now given
        → (rows : List Row) (digests : List DigestValue) (block : ℕ) → IsTypedHistory rows
        → block < 2 ^ 32 → root_of rows digests block ≡ root.now.0
        → IfOk result (λ versions.
        RangesOrClashes rows digests block key.now from to (range_texts given) versions) }
    // The result is that of the function that defines what bytes show.
    ensures exact { Answers (λ versions. versions) fault_told result
        (range_verdict_on root.now.0 key.now from to bytes.now) }
    // Where that function has a fault, memory doesn't matter.
    ensures exact_fault { IfErr (range_verdict_on root.now.0 key.now from to bytes.now)
        (λ fault. result ≡ Err (Rejected fault)) }
{
    match view_range(bytes) {
        Ok(range) => judge_range(alloc, root, key, from, to, &range),
        Err(error) => Err(RangeError::Rejected(fault_of_view(error))),
    }
}

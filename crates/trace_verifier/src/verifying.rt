//! The checks of a proof of ancestors run in a fixed order: the bytes, the start, what the start
//! wants, the items. What is shown is copied after them.

ghost use Rattle.std.specs.Prelude.{◌≡◌, ◌≤◌, ◌<◌, ◌^◌, ℕ, List, Ok, Err, reverse, length};
ghost use Rattle.std.specs.Prelude.{IfOk, IfErr, IsOk, IsErrAnd, IsSomeAnd};
ghost use Rattle.lc_base.specs.{
  Answers.{Answers},
  declared.digest.Digest.{Digest as DigestValue},
  declared.limits.TheConstants.{MAX_ROWS},
  declared.row.Row.{Row},
};
ghost use Rattle.proof_verifier.specs.{
  proof_checks.Checks.{verdict},
  proof_checks.TraceChecks.{start_query, trace_verdict},
  proof_checks.TraceTexts.{IsTraceProof, trace_texts},
  proof_checks.TraceSpelling.{SpellsTrace},
  proof_checks.TraceSoundness.{TracesOrClashes},
  proof_checks.declared.trace_proof.TraceProof.{TraceProof as TraceValue},
  proof_checks.declared.trace_reject.TraceReject.TheVariants.{Start},
};
ghost use Rattle.root_laws.specs.{Root.{root_of}, TypedLedger.{IsTypedHistory}};
ghost use Rattle.trace_verifier.specs.{
  Malformed.{IsInvalidAt},
  Errors.{fault_told},
  declared.error.TraceError.TheVariants.{Rejected},
  Items.{shown_in, shown_after},
  Wanting.{AnyWants, Wants, MayRunOut},
  Verdicts.{fault_of_view, malformed_at, trace_verdict_on},
};

use crate::error::TraceError;
use crate::items::{check_items, versions_of, wanted_by_start};
use crate::start::judge_start;
use crate::trace_view::{TraceView, view_trace};
use lc_base::{DepList, Digest, Key};
use proof_codec::ViewError;
use proof_verifier::TraceReject;
use root_laws::Trace;
use std::alloc::Global;

/// The fault for bytes that aren't a proof of ancestors.
fn fault_of_view(error: ViewError) -> TraceReject
    ensures { result ≡ fault_of_view error }
{
    match error {
        ViewError::Malformed { at } => TraceReject::Malformed { at },
    }
}

/// The versions from the last to the first.
fn reversed(versions: DepList) -> DepList
    ensures { result ≡ reverse versions }
{
    let mut versions = versions.into_vec();
    versions.reverse();
    DepList::from_vec(versions)
}

/// What is shown of a version in this block, given the versions of its items in their order; `None`
/// if there is no version.
fn shown(block: Option<u32>, versions: DepList) -> Option<Trace>
    ensures { result ≡ shown_in block versions }
{
    match block {
        None => None,
        Some(block) => Some(Trace {
            block,
            ancestors: reversed(versions),
        }),
    }
}

/// What a proof shows whose start is of a version in this block, or of none; or the first check
/// after those of the start that fails.
#[tactic(auto, using(crate::proofs::Wanting::start_short, crate::proofs::Wanting::items_short))]
fn judge_items(
    alloc: Global,
    block: Option<u32>,
    trace: &TraceView,
) -> Result<Option<Trace>, TraceError>
    requires { length trace.now.items ≤ MAX_ROWS }
    ensures judged { Answers (λ shown. shown) fault_told result
        (shown_after block trace.now.start.body trace.now.items) }
    ensures refused { IfErr result (MayRunOut
        (AnyWants block trace.now.start.body trace.now.items)
        (IsOk (shown_after block trace.now.start.body trace.now.items))) }
{
    let start = trace.start();
    let wanted = wanted_by_start(alloc, block, start.body())?;
    check_items(trace.items(), wanted)?;
    Ok(shown(block, versions_of(alloc, trace.items())?))
}

/// What a proof that was read shows, or the first check that fails.
fn judge_trace(
    alloc: Global,
    root: &Digest,
    key: &Key,
    at: u32,
    trace: &TraceView,
) -> Result<Option<Trace>, TraceError>
    requires { IsTraceProof trace.now }
    ensures judged { Answers (λ shown. shown) fault_told result
        (trace_verdict root.now.0 key.now at trace.now) }
    ensures start { IfErr (verdict root.now.0 (start_query key.now at) trace.now.start)
        (λ fault. result ≡ Err (Rejected (Start fault))) }
    ensures refused { IfErr result (MayRunOut (Wants trace.now)
        (IsOk (trace_verdict root.now.0 key.now at trace.now))) }
{
    match judge_start(root, key, at, trace.start()) {
        Ok(block) => judge_items(alloc, block, trace),
        Err(fault) => Err(TraceError::Rejected(TraceReject::Start(fault))),
    }
}

/// Checks a proof of all ancestors of the last version of a key in a block up to `at`, for one who
/// has the root at a block. Returns the block of that version and its ancestors, `None` if there is
/// no such version, or the first check that fails.
pub fn verify_trace(
    alloc: Global,
    root: &Digest,
    key: &Key,
    at: u32,
    bytes: &[u8],
) -> Result<Option<Trace>, TraceError>
    // If the bytes are such a proof, what it shows is returned exactly if no check fails; else the
    // first check that fails is reported, unless memory ran out.
    ensures spelled { (given : TraceValue) → SpellsTrace bytes.now given
        → Answers (λ shown. shown) fault_told result (trace_verdict root.now.0 key.now at given) }
    // A start that isn't accepted is reported whatever memory there is.
    ensures start { (given : TraceValue) → SpellsTrace bytes.now given
        → IfErr (verdict root.now.0 (start_query key.now at) given.start)
        (λ fault. result ≡ Err (Rejected (Start fault))) }
    // So is any other check that fails, unless memory runs out before it for what an item wants:
    // for a version that becomes wanted there, where no check before fails. Memory for the versions
    // that are shown runs out only if no check fails.
    ensures refused { (given : TraceValue) → SpellsTrace bytes.now given
        → IfErr result (MayRunOut (Wants given)
        (IsOk (trace_verdict root.now.0 key.now at given))) }
    // If they aren't, so is the offset of the first invalid field.
    ensures malformed { ((given : TraceValue) → SpellsTrace bytes.now given → ⊥)
        → IsErrAnd result (λ error. IsSomeAnd (malformed_at error) (IsInvalidAt bytes.now)) }
    // Only one offset is that of an invalid field.
    ensures one_offset { (a b : ℕ) → IsInvalidAt bytes.now a → IsInvalidAt bytes.now b → a ≡ b }
    // What is shown are all ancestors of the version in every typed history that has the root at
    // some block, up to that block; or a text of the proof and one of the history differ and have
    // one digest.
    ensures sound { (given : TraceValue) → SpellsTrace bytes.now given
        → (rows : List Row) (digests : List DigestValue) (block : ℕ) → IsTypedHistory rows
        → block < 2 ^ 32 → root_of rows digests block ≡ root.now.0
        → IfOk result (λ shown.
        TracesOrClashes rows digests block key.now at (trace_texts given) shown) }
    // The result is that of the function that defines what bytes show.
    ensures exact { Answers (λ shown. shown) fault_told result
        (trace_verdict_on root.now.0 key.now at bytes.now) }
{
    match view_trace(bytes) {
        Ok(trace) => judge_trace(alloc, root, key, at, &trace),
        Err(error) => Err(TraceError::Rejected(fault_of_view(error))),
    }
}

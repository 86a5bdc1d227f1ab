//! The start is a proof of its own, which is checked before all items. An accepted one shows which
//! version it is whose ancestors follow, and what it was derived from directly.

ghost use Rattle.std.specs.Prelude.{◌≡◌};
ghost use Rattle.proof_codec.specs.Spelling.{IsProof};
ghost use Rattle.proof_verifier.specs.{
  proof_checks.Checks.{is_same_query, verdict},
  Answering.{answer_seen},
  proof_checks.TraceChecks.{start_query},
};
ghost use Rattle.trace_verifier.specs.Starting.{block_of_answer, block_if};

use lc_base::{Digest, Key, Kind, Query};
use proof_codec::{ProofView, kind_byte};
use proof_verifier::{Found, Reject, judge};

/// Whether a query is the one that the start must answer.
fn is_start_query(key: &Key, at: u32, own: &Query) -> bool
    ensures { result ≡ is_same_query (start_query key.now at) own.now }
{
    if kind_byte(own.kind) != kind_byte(Kind::Back) {
        return false;
    }
    if own.key.as_bytes() != key.as_bytes() {
        return false;
    }
    own.at == at
}

/// The block of the version that an answer about what it was derived from is of; `None` for any
/// other answer.
fn block_of(found: &Found) -> Option<u32>
    ensures { result ≡ block_of_answer (answer_seen found.now) }
{
    match found {
        Found::Back { block, .. } => Some(*block),
        _ => None,
    }
}

/// The block of the version that the start shows, or `None` if it answers that there is none; or
/// the first check of the start that fails.
pub(crate) fn judge_start(
    root: &Digest,
    key: &Key,
    at: u32,
    start: &ProofView,
) -> Result<Option<u32>, Reject>
    requires { IsProof start.now }
    ensures { result ≡ block_if (verdict root.now.0 (start_query key.now at) start.now) }
{
    if !is_start_query(key, at, &start.query()) {
        return Err(Reject::OtherQuery);
    }
    match judge(root, start) {
        Ok(found) => Ok(block_of(&found)),
        Err(fault) => Err(fault),
    }
}

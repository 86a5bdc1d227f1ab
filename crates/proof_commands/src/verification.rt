//! An input is either not hex, or a proof that is accepted or rejected.

use lc_base::{Answer, VersionList};
use proof_checks::{RangeReject, Reject, TraceReject};
use root_laws::Trace;

/// What is shown for a question.
#[derive(Drop)]
pub enum Shown {
    /// The answer to a question about a version.
    Answer(Answer),
    /// The version with its ancestors, or `None` if there is no version.
    Ancestors(Option<Trace>),
    /// All versions between the blocks, the first one first.
    Versions(VersionList),
}

/// The first check that fails of a proof, by the kind of its question.
#[derive(Clone, Copy)]
pub enum Refused {
    /// Of an answer about a version.
    Version(Reject),
    /// Of the ancestors of a version.
    Ancestors(TraceReject),
    /// Of all versions between two blocks.
    Between(RangeReject),
}

/// Why a text isn't hex.
#[derive(Clone, Copy)]
pub enum HexFault {
    /// The number of its bytes is odd.
    Odd,
    /// The offset of the first byte that isn't a hex digit.
    At(usize),
}

/// The outcome for a proof in hex.
#[derive(Drop)]
pub enum Verification {
    /// The proof is accepted, and this is what it shows.
    Accepted(Shown),
    /// The proof isn't accepted: this is the first check that fails.
    Rejected(Refused),
    /// The input isn't hex.
    BadHex(HexFault),
}

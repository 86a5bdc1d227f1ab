//! The checks of a range proof run in a fixed order: the query, the root, the leaf, the headers,
//! the bodies. None of them takes memory.

ghost use Rattle.std.specs.{Prelude.{◌≡◌}, Option.{option_or}};
ghost use Rattle.proof_verifier.specs.{
  proof_checks.RangeChecks.{
    is_same_range,
    query_fault,
    as_range_reject,
    path_fault,
    shown_fault,
    fault_in,
  },
  proof_checks.RangeTexts.{IsRangeProof},
};

use crate::bodies::bodies_fault;
use crate::range_view::RangeView;
use crate::rule::InRange;
use crate::shown::ShownVersions;
use lc_base::{Digest, Key};
use proof_verifier::{RangeReject, Reject, claim_of_leaf, expected_first, fault_of_leaf, walk};

/// Whether a range proof is of this key and these blocks.
fn is_same_range(key: &Key, from: u32, to: u32, range: &RangeView) -> bool
    ensures { result ≡ is_same_range key.now from to range.now }
{
    if range.key().as_bytes() != key.as_bytes() {
        return false;
    }
    if range.from() != from {
        return false;
    }
    range.to() == to
}

/// A fault of the leaf proof or of the headers as one of a range proof.
fn as_range_reject(fault: Reject) -> RangeReject
    ensures { result ≡ as_range_reject fault }
{
    match fault {
        Reject::Malformed { at } => RangeReject::Malformed { at },
        Reject::OtherQuery => RangeReject::OtherQuery,
        Reject::RootDiffers { computed } => RangeReject::RootDiffers { computed },
        Reject::LeafShape => RangeReject::LeafShape,
        Reject::LinkDiffers { step, computed } => RangeReject::LinkDiffers { step, computed },
        Reject::PathShape { step } => RangeReject::PathShape { step },
        // The leaf proof and the headers have no body and no list.
        Reject::BodyDiffers { computed } => RangeReject::BodyDiffers { item: 0, computed },
        Reject::ListDiffers { computed } => RangeReject::BodyDiffers { item: 0, computed },
    }
}

/// The first fault of the headers.
fn path_fault(range: &RangeView) -> Option<Reject>
    requires { IsRangeProof range.now }
    ensures { result ≡ path_fault range.now }
{
    let leaf = range.leaf_proof().leaf();
    let rule = InRange {
        from: range.from(),
        to: range.to(),
    };
    let first = expected_first(range.key(), leaf);
    let claim = claim_of_leaf(leaf);
    walk(range.key(), &rule, first, claim, range.headers()).err()
}

/// The first fault of the leaf proof and of the headers.
fn shown_fault(root: &Digest, range: &RangeView) -> Option<Reject>
    requires { IsRangeProof range.now }
    ensures { result ≡ shown_fault root.now.0 range.now }
{
    if let Some(fault) = fault_of_leaf(root, range.key(), range.leaf_proof()) {
        return Some(fault);
    }
    path_fault(range)
}

/// The first check of a range proof by its own query that fails.
fn fault_in(root: &Digest, range: &RangeView) -> Option<RangeReject>
    requires { IsRangeProof range.now }
    ensures { result ≡ fault_in root.now.0 range.now }
{
    if let Some(fault) = shown_fault(root, range) {
        return Some(as_range_reject(fault));
    }
    bodies_fault(ShownVersions::of(range))
}

/// The first check that fails of a range proof for one who has the root at its block and asks for
/// the versions of this key between these blocks.
pub(crate) fn first_fault(
    root: &Digest,
    key: &Key,
    from: u32,
    to: u32,
    range: &RangeView,
) -> Option<RangeReject>
    requires { IsRangeProof range.now }
    ensures { result ≡ option_or (query_fault key.now from to range.now)
        (fault_in root.now.0 range.now) }
{
    if !is_same_range(key, from, to, range) {
        return Some(RangeReject::OtherQuery);
    }
    fault_in(root, range)
}

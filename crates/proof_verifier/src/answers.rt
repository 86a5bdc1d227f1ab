//! The body must be the one that the last header names, and the uses those that the header before
//! it records.

ghost use Rattle.std.specs.Prelude.{◌≡◌, Some};
ghost use Rattle.lc_base.specs.Answers.{Answers};
ghost use Rattle.prov_entry.specs.ForwardLists.{uses_digest};
ghost use Rattle.proof_checks.specs.Checks.{fault_of_body, fault_of_uses, answer_by};
ghost use Rattle.proof_verifier.specs.Answering.{answer_seen, fault_told, version_answer};

use crate::found::Found;
use crate::hashing::body_digest;
use crate::path::ToldHeader;
use lc_base::{Digest, Kind};
use proof_checks::{BodyView, Claim, HeaderView, Reject, UseView};
use prov_entry::{no_uses, with_use};

/// What is wrong with a body that a header names.
fn fault_of_body(header: &HeaderView, body: &BodyView) -> Option<Reject>
    ensures { result ≡ fault_of_body (Some header.now.value) (Some body.now.value) }
{
    let computed = body_digest(body);
    if computed.0 != header.fields().body.0 {
        return Some(Reject::BodyDiffers { computed });
    }
    None
}

/// The digest of a list of uses: the empty list's, extended by each use in order.
fn uses_digest(uses: &UseView) -> Digest
    ensures { result.0 ≡ uses_digest uses.now }
{
    let mut rest = uses.again();
    let mut digest = no_uses();
    while let Some(dep) = rest.next() {
        digest = with_use(&digest, &dep);
    }
    digest
}

/// What is wrong with uses that have this claim: their number is checked before their digest.
fn fault_of_uses(claim: &Claim, uses: &UseView) -> Option<Reject>
    ensures { result ≡ fault_of_uses claim.now (Some uses.now) }
{
    let computed = uses_digest(uses);
    if uses.len() as u64 != claim.count {
        return Some(Reject::ListDiffers { computed });
    }
    if computed.0 != claim.digest.0 {
        return Some(Reject::ListDiffers { computed });
    }
    None
}

/// What a version answers, given its header, its body, and its uses if they are asked for.
fn answer_by<'p>(
    kind: Kind,
    header: &HeaderView,
    body: &BodyView<'p>,
    uses: Option<UseView<'p>>,
) -> Found<'p>
    ensures { answer_seen result ≡ answer_by kind header.now.value body.now.value uses.entry }
{
    match kind {
        Kind::Hist => Found::Hist {
            block: header.fields().block,
            tx: header.fields().tx,
            value: body.value(),
        },
        Kind::Back => Found::Back {
            block: header.fields().block,
            deps: body.deps(),
        },
        Kind::Fwd => match uses {
            None => Found::Nothing,
            Some(uses) => Found::Fwd {
                block: header.fields().block,
                uses,
            },
        },
    }
}

/// What is wrong with the uses, if there are any.
fn fault_of_any_uses(claim: &Claim, uses: &Option<UseView>) -> Option<Reject>
    ensures { result ≡ fault_of_uses claim.now uses.now }
{
    match uses {
        None => None,
        Some(uses) => fault_of_uses(claim, uses),
    }
}

/// What a proof answers, given its last header, its body, and its uses; or what is wrong with
/// these.
pub(crate) fn answer<'p>(
    kind: Kind,
    told: &ToldHeader<'p>,
    body: &BodyView<'p>,
    uses: Option<UseView<'p>>,
) -> Result<Found<'p>, Reject>
    ensures { Answers answer_seen fault_told result (version_answer kind told.now body.now.value uses.entry) }
{
    if let Some(fault) = fault_of_body(&told.header, body) {
        return Err(fault);
    }
    if let Some(fault) = fault_of_any_uses(&told.claim, &uses) {
        return Err(fault);
    }
    Ok(answer_by(kind, &told.header, body, uses))
}

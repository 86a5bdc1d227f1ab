//! The words for a range proof that isn't accepted name the check that failed, and the digest that
//! was computed.

ghost use Rattle.std.specs.Prelude.{◌≡◌, string_bytes, IfOk};
ghost use Rattle.proof_commands.specs.RangeLines.{range_reject_text};

use crate::lines::reject_text;
use digest_kit::digest_text;
use lc_base::Digest;
use proof_checks::{RangeReject, Reject};
use std::alloc::{AllocError, Global};

fn body_text(alloc: Global, item: u32, computed: &Digest) -> Result<String, AllocError>
    ensures { IfOk result (λ text. string_bytes text
        ≡ range_reject_text (RangeReject.BodyDiffers item computed.now)) }
{
    let text = format!(in alloc; "body {item} ")?;
    digest_text(alloc, text.as_str(), computed)
}

/// The words for the check that failed.
pub(crate) fn range_reject_text(alloc: Global, reject: RangeReject) -> Result<String, AllocError>
    ensures { IfOk result (λ text. string_bytes text ≡ range_reject_text reject) }
{
    match reject {
        RangeReject::Malformed { at } => reject_text(alloc, &Reject::Malformed { at }),
        RangeReject::OtherQuery => reject_text(alloc, &Reject::OtherQuery),
        RangeReject::RootDiffers { computed } => {
            reject_text(alloc, &Reject::RootDiffers { computed })
        }
        RangeReject::LeafShape => reject_text(alloc, &Reject::LeafShape),
        RangeReject::LinkDiffers { step, computed } => {
            reject_text(alloc, &Reject::LinkDiffers { step, computed })
        }
        RangeReject::PathShape { step } => reject_text(alloc, &Reject::PathShape { step }),
        RangeReject::BodyDiffers { item, computed } => body_text(alloc, item, &computed),
    }
}

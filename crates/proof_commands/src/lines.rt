//! The words for a proof of an answer that isn't accepted name the check that failed and the digest
//! that was computed.

ghost use Rattle.std.specs.Prelude.{◌≡◌, string_bytes, IfOk};
ghost use Rattle.proof_commands.specs.Lines.{reject_text};

use digest_kit::digest_text;
use lc_base::Digest;
use proof_checks::Reject;
use std::alloc::{AllocError, Global};

fn link_text(alloc: Global, step: u32, computed: &Digest) -> Result<String, AllocError>
    ensures { IfOk result (λ text. string_bytes text ≡ reject_text (Reject.LinkDiffers step computed.now)) }
{
    let word = format!(in alloc; "link {step} ")?;
    digest_text(alloc, word.as_str(), computed)
}

/// The words for the check of a proof of an answer that failed, without a line end.
pub fn reject_text(alloc: Global, reject: &Reject) -> Result<String, AllocError>
    ensures { IfOk result (λ text. string_bytes text ≡ reject_text reject.now) }
{
    match reject {
        Reject::Malformed { at } => format!(in alloc; "malformed {at}"),
        Reject::OtherQuery => String::from_str(alloc, "query"),
        Reject::RootDiffers { computed } => digest_text(alloc, "root ", computed),
        Reject::LeafShape => String::from_str(alloc, "leaf"),
        Reject::LinkDiffers { step, computed } => link_text(alloc, *step, computed),
        Reject::PathShape { step } => format!(in alloc; "path {step}"),
        Reject::BodyDiffers { computed } => digest_text(alloc, "body ", computed),
        Reject::ListDiffers { computed } => digest_text(alloc, "list ", computed),
    }
}

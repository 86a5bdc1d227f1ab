//! Each body must be the one that its header names.

ghost use Rattle.std.specs.Prelude.{◌≡◌, ◌<◌, ◌^◌, length, map};
ghost use Rattle.proof_verifier.specs.proof_checks.RangeChecks.{body_fault, bodies_fault};
ghost use Rattle.range_verifier.specs.Shown.{header_shown, body_shown};

use crate::shown::{ShownVersion, ShownVersions};
use proof_verifier::{RangeReject, body_digest};

/// What is wrong with the body at this index.
fn body_fault(item: u32, version: &ShownVersion) -> Option<RangeReject>
    ensures { result ≡ body_fault item (header_shown version.now) (body_shown version.now) }
{
    let computed = body_digest(&version.body);
    if computed.0 != version.header.fields().body.0 {
        return Some(RangeReject::BodyDiffers { item, computed });
    }
    None
}

/// The first body that isn't the one that its header names.
pub(crate) fn bodies_fault(shown: ShownVersions) -> Option<RangeReject>
    requires { length shown < 2 ^ 32 }
    ensures { result ≡ bodies_fault 0 (map header_shown shown.entry) (map body_shown shown.entry) }
{
    let mut shown = shown;
    let mut item = 0;
    while let Some(version) = shown.next() {
        if let Some(fault) = body_fault(item, &version) {
            return Some(fault);
        }
        item += 1;
    }
    None
}

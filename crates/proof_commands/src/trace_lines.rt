//! The words for a proof of ancestors that isn't accepted name the check that failed, the item, and
//! the digest that was computed.

ghost use Rattle.std.specs.Prelude.{◌≡◌, string_bytes, IfOk};
ghost use Rattle.proof_commands.specs.TraceLines.{trace_reject_text};

use crate::lines::reject_text;
use digest_kit::digest_text;
use lc_base::Digest;
use proof_checks::TraceReject;
use std::alloc::{AllocError, Global};

fn header_text(alloc: Global, item: u32, computed: &Digest) -> Result<String, AllocError>
    ensures { IfOk result (λ text. string_bytes text ≡ trace_reject_text (TraceReject.Header item computed.now)) }
{
    let text = format!(in alloc; "trace header {item} ")?;
    digest_text(alloc, text.as_str(), computed)
}

fn body_text(alloc: Global, item: u32, computed: &Digest) -> Result<String, AllocError>
    ensures { IfOk result (λ text. string_bytes text ≡ trace_reject_text (TraceReject.Body item computed.now)) }
{
    let text = format!(in alloc; "trace body {item} ")?;
    digest_text(alloc, text.as_str(), computed)
}

/// The words for the check that failed.
pub(crate) fn trace_reject_text(alloc: Global, reject: &TraceReject) -> Result<String, AllocError>
    ensures { IfOk result (λ text. string_bytes text ≡ trace_reject_text reject.now) }
{
    match reject {
        TraceReject::Malformed { at } => format!(in alloc; "malformed {at}"),
        TraceReject::Start(reject) => reject_text(alloc, reject),
        TraceReject::Late { item } => format!(in alloc; "trace late {item}"),
        TraceReject::Two { item } => format!(in alloc; "trace two {item}"),
        TraceReject::Extra { item } => format!(in alloc; "trace extra {item}"),
        TraceReject::Order { item } => format!(in alloc; "trace order {item}"),
        TraceReject::Header { item, computed } => header_text(alloc, *item, computed),
        TraceReject::Body { item, computed } => body_text(alloc, *item, computed),
        TraceReject::Missing { item } => format!(in alloc; "trace missing {item}"),
    }
}

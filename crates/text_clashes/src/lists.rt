//! The texts of a proof's headers, body, and uses, each appended in the order in which it is read.

ghost use Rattle.std.specs.{Prelude.{◌≡◌, [], ◌∷◌, ◌++◌, map, OnOk}, Option.{option_map}};
ghost use Rattle.merkle_tree.specs.Chains.{chain_texts};
ghost use Rattle.prov_entry.specs.{Spelling.{header_text, body_text}, ForwardLists.{use_text}};
ghost use Rattle.proof_checks.specs.ProofTexts.{body_texts, uses_texts};

use crate::text::{push_tagged, push_use};
use entry_views::{BodyView, HeaderView};
use lc_base::{Digest, Memory, TextList};
use proof_checks::{HeadersView, UseView};
use prov_entry::{BODY, HEADER, no_uses, with_use};

fn push_header(texts: &mut TextList, header: &HeaderView) -> Result<(), Memory>
    ensures { OnOk result (texts.new ≡ texts.old ++ header_text header.now.value ∷ []) }
{
    push_tagged(texts, HEADER, header.bytes())
}

/// Appends the texts of headers. `Memory` if the allocator has no room.
pub fn push_headers(texts: &mut TextList, headers: HeadersView) -> Result<(), Memory>
    ensures { OnOk result (texts.new ≡ texts.old ++ map header_text headers.entry) }
{
    let mut headers = headers;
    while let Some(header) = headers.next() {
        push_header(texts, &header)?;
    }
    Ok(())
}

fn push_one_body(texts: &mut TextList, body: &BodyView) -> Result<(), Memory>
    ensures { OnOk result (texts.new ≡ texts.old ++ body_text body.now.value ∷ []) }
{
    push_tagged(texts, BODY, body.bytes())
}

/// Appends the text of the body, if there is one.
pub(crate) fn push_body(texts: &mut TextList, body: Option<&BodyView>) -> Result<(), Memory>
    ensures { OnOk result (texts.new ≡ texts.old ++ body_texts (option_map (λ body. body.now.value) body.entry)) }
{
    match body {
        None => Ok(()),
        Some(body) => push_one_body(texts, body),
    }
}

/// Appends the texts of uses; `digest` is that of the uses before them.
fn push_uses_after(texts: &mut TextList, digest: Digest, uses: UseView) -> Result<(), Memory>
    ensures { OnOk result (texts.new ≡ texts.old ++ chain_texts use_text digest.0 uses.entry) }
{
    let mut digest = digest;
    let mut uses = uses;
    while let Some(one) = uses.next() {
        push_use(texts, &digest, &one)?;
        digest = with_use(&digest, &one);
    }
    Ok(())
}

/// Appends the texts of the uses, if there are any.
pub(crate) fn push_uses(texts: &mut TextList, uses: Option<UseView>) -> Result<(), Memory>
    ensures { OnOk result (texts.new ≡ texts.old ++ uses_texts uses.entry) }
{
    match uses {
        None => Ok(()),
        Some(uses) => push_uses_after(texts, no_uses(), uses),
    }
}

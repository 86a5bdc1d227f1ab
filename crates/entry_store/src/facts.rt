//! The facts of a new entry: its header is digested with the digests of the headers that its hops
//! lead to.

ghost use Rattle.std.specs.{Prelude.{◌≡◌, ◌≤◌, ◌<◌, ◌∷◌, length, map, slice_get, IfOk}, List.{All}};
ghost use Rattle.sha2.specs.Sha256.{sha256};
ghost use Rattle.prov_entry.specs.declared.limits.TheConstants.{BODY, MAX_LINKS};
ghost use Rattle.entry_store.specs.{
  declared.entry.Hop.{Hop},
  Entries.{entry_digest, named_link, facts_of},
};

use crate::entry::{Facts, Hop};
use crate::kept::Kept;
use digest_kit::TagHasher;
use lc_base::{Digest, Memory};
use prov_entry::{BODY, Header, Link, LinkList, header_digest};
use shared_list::Shared;
use std::alloc::Global;

/// The digest of a body, by the bytes of its fields.
pub(crate) fn body_digest(body: &[u8]) -> Digest
    ensures { result.0 ≡ sha256 (BODY ∷ body.now) }
{
    let mut hasher = TagHasher::new(BODY);
    hasher.add(body);
    hasher.finish()
}

fn digest_at(entries: &Shared<Kept>, index: u32) -> Digest
    requires { index < length entries.now }
    ensures { result ≡ entry_digest (slice_get entries.now index) }
{
    entries.at(index as usize).facts().digest
}

fn named_link(entries: &Shared<Kept>, hop: &Hop) -> Link
    requires { hop.now.id.0 < length entries.now }
    ensures { result ≡ named_link entries.now hop.now }
{
    Link {
        block: hop.block,
        digest: digest_at(entries, hop.id.0),
    }
}

/// The links of a header: the hops, each with the digest of the header that it leads to.
pub(crate) fn links_of(
    alloc: Global,
    entries: &Shared<Kept>,
    hops: &[Hop],
) -> Result<LinkList, Memory>
    requires { All (λ (hop : Hop). hop.id.0 < length entries.now) hops.now }
    ensures { IfOk result (λ links. links ≡ map (named_link entries.now) hops.now) }
{
    let mut links = LinkList::new(alloc);
    for hop in hops {
        links.push(named_link(entries, hop))?;
    }
    Ok(links)
}

/// What is kept of a header: its fields but for the links, and its digest.
pub(crate) fn facts_of(header: &Header) -> Facts
    requires { length header.now.links ≤ MAX_LINKS }
    ensures { result ≡ facts_of header.now }
{
    Facts {
        key: header.key,
        block: header.block,
        tx: header.tx,
        body: header.body,
        closed: header.closed,
        closed_digest: header.closed_digest,
        digest: header_digest(header),
    }
}

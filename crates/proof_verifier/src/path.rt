//! Every header names the versions that may come next, so the headers are checked in one pass.

ghost use Rattle.std.specs.Prelude.{◌≡◌, ◌<◌, ◌+◌, ◌^◌, None, length, Option};
ghost use Rattle.prov_entry.specs.declared.entry.{Header.{Header}, Link.{Link as LinkValue}};
ghost use Rattle.proof_checks.specs.Checks.{next_link, claim_of_header, header_fault};
ghost use Rattle.proof_verifier.specs.Walking.{higher, walk_end, HeaderClaim};

use crate::hashing::header_digest;
use lc_base::Key;
use proof_checks::{Claim, HeaderView, HeadersView, LinkView, Reject};
use prov_entry::Link;
use std::marker::Model;

/// How the version whose header must follow a header is found from it.
pub trait NextHeader {
    /// The version whose header must follow; `None` if none must.
    ghost next: { Self → Header → Option LinkValue };

    /// The version whose header must follow; `None` if none must.
    fn expected(&self, header: &HeaderView) -> Option<Link>
        ensures { result ≡ next self.now header.now.value };
}

/// A header, and what was recorded of its version's uses before it: by the header before, or by the
/// leaf.
#[derive(Drop)]
pub struct ToldHeader<'p> {
    pub header: HeaderView<'p>,
    pub claim: Claim,
}

impl<'p> Model for ToldHeader<'p> {
    ghost use Rattle.proof_verifier.specs.Walking.{HeaderClaim};

    ghost Value = { HeaderClaim };

    ghost view = { λ told. record { header = told.header.value; claim = told.claim } };
}

/// Replaces the link chosen so far by `link` if that leads to a block after `at`.
fn higher(at: u32, best: Option<Link>, link: Option<Link>) -> Option<Link>
    ensures { result ≡ higher at best link }
{
    match link {
        None => best,
        Some(link) => { if at < link.block { Some(link) } else { best } }
    }
}

/// The link to follow: the highest one to a block after `at`, or else the lowest one.
fn next_link(links: &LinkView, at: u32) -> Option<Link>
    ensures { result ≡ next_link at links.now }
{
    let mut best = links.get(0);
    for i in 0..links.len() {
        best = higher(at, best, links.get(i));
    }
    best
}

/// The lookup of the latest version of a key up to a block: from a header of a later block, the
/// highest link to a later block leads on, or else the lowest link.
#[derive(Clone, Copy)]
pub struct Lookup {
    /// The block.
    pub at: u32,
}

impl NextHeader for Lookup {
    ghost use Rattle.proof_checks.specs.Checks.{expected_after};

    ghost next = { λ lookup. expected_after lookup.at };

    /// `None` if this version answers or has no link.
    fn expected(&self, header: &HeaderView) -> Option<Link> {
        if header.fields().block <= self.at {
            return None;
        }
        next_link(&header.fields().links, self.at)
    }
}

fn claim_of_header(header: &HeaderView) -> Claim
    ensures { result ≡ claim_of_header header.now.value }
{
    Claim {
        count: header.fields().closed,
        digest: header.fields().closed_digest,
    }
}

/// What is wrong with a header at a step where this version's is expected.
fn header_fault(key: &Key, step: u32, expected: &Link, header: &HeaderView) -> Option<Reject>
    ensures { result ≡ header_fault key.now step expected.now header.now.value }
{
    let computed = header_digest(header);
    if computed.0 != expected.digest.0 {
        return Some(Reject::LinkDiffers { step, computed });
    }
    if header.fields().key.as_bytes() != key.as_bytes() {
        return Some(Reject::PathShape { step });
    }
    if header.fields().block != expected.block {
        return Some(Reject::PathShape { step });
    }
    None
}

/// Checks the headers, the first of which must be `first`'s, and each later one that which `rule`
/// finds from the header before it. The last header, or the first fault. `claim` is what the leaf
/// records of the uses of the first version.
pub fn walk<'p, R: NextHeader>(
    key: &Key,
    rule: &R,
    first: Option<Link>,
    claim: Claim,
    headers: HeadersView<'p>,
) -> Result<Option<ToldHeader<'p>>, Reject>
    requires { length headers < 2 ^ 32 }
    ensures { result ≡ walk_end (R.next rule.now) key.now 0 first claim None headers.entry }
{
    let mut headers = headers;
    let mut expected = first;
    let mut claim = claim;
    let mut last = None;
    let mut step = 0;
    while let Some(header) = headers.next() {
        let Some(link) = expected else {
            return Err(Reject::PathShape { step });
        };
        if let Some(fault) = header_fault(key, step, &link, &header) {
            return Err(fault);
        }
        expected = rule.expected(&header);
        let next_claim = claim_of_header(&header);
        last = Some(ToldHeader { header, claim });
        claim = next_claim;
        step += 1;
    }
    if expected.is_some() {
        return Err(Reject::PathShape { step });
    }
    Ok(last)
}

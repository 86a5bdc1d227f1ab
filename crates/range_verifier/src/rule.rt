//! From a header of a block after the last one, the headers go on as those of a lookup; from there
//! on each is of the version before, down to the first block.

ghost use Rattle.std.specs.Prelude.{◌≡◌};
ghost use Rattle.proof_verifier.specs.proof_checks.RangeChecks.{if_from, version_before};

use entry_views::HeaderView;
use proof_verifier::{Lookup, NextHeader};
use prov_entry::Link;

/// All versions of a key between two blocks, those in the two blocks included.
#[derive(Clone, Copy)]
pub(crate) struct InRange {
    /// The first block.
    pub(crate) from: u32,
    /// The last block.
    pub(crate) to: u32,
}

/// A link, if it leads to a block from `from` on.
fn if_from(from: u32, link: Option<Link>) -> Option<Link>
    ensures { result ≡ if_from from link }
{
    match link {
        None => None,
        Some(link) => { if from <= link.block { Some(link) } else { None } }
    }
}

/// The version before that of a header, if both are of blocks from `from` on.
fn version_before(from: u32, header: &HeaderView) -> Option<Link>
    ensures { result ≡ version_before from header.now.value }
{
    if header.fields().block < from {
        return None;
    }
    if_from(from, header.fields().links.get(0))
}

impl NextHeader for InRange {
    ghost use Rattle.proof_verifier.specs.proof_checks.RangeChecks.{next_in_range};

    ghost next = { λ range. next_in_range range.from range.to };

    /// `None` if this is the last version that is wanted, or has no link.
    fn expected(&self, header: &HeaderView) -> Option<Link> {
        if header.fields().block <= self.to {
            return version_before(self.from, header);
        }
        let lookup = Lookup { at: self.to };
        lookup.expected(header)
    }
}

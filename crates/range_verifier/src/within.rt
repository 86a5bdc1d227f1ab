//! The number of bodies isn't spelled: there is one for each header that is between the blocks.

ghost use Rattle.std.specs.Prelude.{◌≡◌};
ghost use Rattle.proof_verifier.specs.proof_checks.RangeChecks.{is_within};
ghost use Rattle.range_verifier.specs.Reading.{count_within};

use entry_views::HeaderView;
use proof_codec::HeadersView;

/// Whether a header is of a block from `from` to `to`.
pub fn is_within(header: &HeaderView, from: u32, to: u32) -> bool
    ensures { result ≡ is_within from to header.now.value }
{
    let block = header.fields().block;
    from <= block && block <= to
}

/// How many of the headers are of blocks from `from` to `to`: all but those that aren't.
pub(crate) fn count_within(headers: &HeadersView, from: u32, to: u32) -> usize
    ensures { result ≡ count_within from to headers.now }
{
    let mut rest = headers.again();
    let mut count = headers.len();
    while let Some(header) = rest.next() {
        if !is_within(&header, from, to) {
            count -= 1;
        }
    }
    count
}

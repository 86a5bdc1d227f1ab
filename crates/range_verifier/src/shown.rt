//! Each header of a block between the two has a body; both stand in the same order, the last
//! version first.

ghost use Rattle.std.specs.{
  Prelude.{◌≡◌, ◌∷◌, [], filter, MatchOption},
  List.{zip},
};
ghost use Rattle.proof_verifier.specs.proof_checks.RangeChecks.{is_within, headers_within};

use crate::bodies_view::BodiesView;
use crate::range_view::RangeView;
use crate::within::is_within;
use entry_views::{BodyView, HeaderView};
use proof_codec::HeadersView;
use std::marker::Model;

/// A version that a range proof shows, read in place.
#[derive(Drop)]
pub(crate) struct ShownVersion<'p> {
    pub(crate) header: HeaderView<'p>,
    pub(crate) body: BodyView<'p>,
}

impl<'p> Model for ShownVersion<'p> {
    ghost use Rattle.prov_entry.specs.declared.entry.{Header.{Header}, Body.{Body}};

    ghost Value = { Header × Body };

    ghost view = { λ version. (version.header.value, version.body.value) };
}

/// The versions that a range proof shows, read in place, the last one first.
#[derive(Drop)]
pub(crate) struct ShownVersions<'p> {
    from: u32,
    to: u32,
    headers: HeadersView<'p>,
    bodies: BodiesView<'p>,
}

impl<'p> Model for ShownVersions<'p> {
    ghost use Rattle.std.specs.{Prelude.{List, filter}, List.{zip}};
    ghost use Rattle.prov_entry.specs.declared.entry.{Header.{Header}, Body.{Body}};
    ghost use Rattle.proof_verifier.specs.proof_checks.RangeChecks.{is_within};

    ghost Value = { List (Header × Body) };

    ghost view = { λ list. zip (filter (is_within list.from list.to) list.headers) list.bodies };
}

/// Removes and returns the first header of a block from `from` to `to`, and removes those before
/// it; `None` if there is no such header.
fn next_within<'p>(from: u32, to: u32, headers: &mut HeadersView<'p>) -> Option<HeaderView<'p>>
    ensures { MatchOption result (filter (is_within from to) headers.old ≡ [])
        (λ header. filter (is_within from to) headers.old
        ≡ header.value ∷ filter (is_within from to) headers.new) }
{
    while let Some(header) = headers.next() {
        if is_within(&header, from, to) {
            return Some(header);
        }
    }
    None
}

impl<'p> ShownVersions<'p> {
    /// Those of a range proof.
    pub(crate) fn of(range: &RangeView<'p>) -> ShownVersions<'p>
        ensures { result ≡ zip (headers_within range.now) range.now.bodies }
    {
        ShownVersions {
            from: range.from(),
            to: range.to(),
            headers: range.headers(),
            bodies: range.bodies(),
        }
    }

    /// Removes and returns the first version, or `None` if the list is empty.
    pub(crate) fn next(&mut self) -> Option<ShownVersion<'p>>
        ensures { MatchOption result (self.old ≡ []) (λ version. self.old ≡ version ∷ self.new) }
    {
        match next_within(self.from, self.to, &mut self.headers) {
            None => None,
            Some(header) => match self.bodies.next() {
                None => None,
                Some(body) => Some(ShownVersion { header, body }),
            },
        }
    }
}

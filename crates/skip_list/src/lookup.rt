//! Looks up the last version of a key up to a block: from each version above that block by the
//! highest link that leads to another one above it, or else by the lowest link.

ghost use Rattle.std.specs.{
  Prelude.{◌≡◌, ◌^◌, ◌<◌, ◌≤◌, List, ◌∷◌, length, nat_lt, reverse, slice_get, IfSome},
  List.{find},
  Option.{option_copied, option_map},
};
ghost use Rattle.skip_links.specs.Paths.{onward, path_over};
ghost use Rattle.entry_store.specs.{
  declared.entry.Hop.{Hop},
  Steps.{raised_count},
};
ghost use Rattle.skip_list.specs.{
  declared.lookup.Found.{Found},
  Towered.{block_of, blocks_of, IsTowered},
  Lookups.{turn_at, IsTurnTowered, IsBack, IsPrevious, latest_version, most_steps},
};

use entry_store::{Counter, EntryId, Hop, Links, Steps, Store};

/// The outcome of a look at a version.
#[derive(Clone, Copy)]
pub enum Turn {
    /// The version is the answer.
    Answer,
    /// The lookup goes on to this entry.
    Hop(EntryId),
    /// There is no version up to the block.
    Nothing,
}

/// A look at a version.
#[derive(Clone, Copy)]
pub(crate) struct Look {
    pub turn: Turn,
    /// The link to the version before it; `None` if it is the first one.
    pub previous: Option<Hop>,
}

/// The version that a lookup ends at. It was read, so the link that it begins with is known.
#[derive(Clone, Copy)]
pub struct Found {
    pub id: EntryId,
    /// The link to the version before it; `None` if it is the first one.
    pub previous: Option<Hop>,
}

/// The link to the version before: the lowest one.
fn previous_of(links: &Links) -> Option<Hop>
    ensures { result ≡ slice_get links.now.hops 0 }
{
    links.hops.as_slice().first().copied()
}

/// The hop of the highest level that leads above a block.
fn highest_above(hops: &[Hop], at: u32) -> Option<&Hop>
    ensures { option_copied result ≡ find (λ (hop : Hop). nat_lt at (block_of hop)) (reverse hops.now) }
{
    hops.iter().rev().find(|hop| at < hop.block)
}

/// The hop by which a lookup goes on.
fn onward(hops: &[Hop], at: u32) -> Option<Hop>
    ensures { result ≡ onward block_of at hops.now }
{
    match highest_above(hops, at) {
        Some(hop) => Some(*hop),
        None => hops.first().copied(),
    }
}

/// Looks at one version on the way to the last one in a block up to `at`.
pub(crate) fn look_at<C: Counter>(store: &Store, id: EntryId, at: u32, steps: &mut Steps<C>) -> Look
    requires towered { (versions : List Hop) × IsTowered store.now id versions }
    ensures turn { (versions : List Hop) → IsTowered store.now id versions → result.turn ≡ turn_at at versions }
    ensures previous { IsPrevious store.now id result.previous }
    ensures towered { IsTurnTowered store.now result.turn }
    ensures back { IsBack id result.turn }
    ensures small { (version : Hop) (older : List Hop) → IsTowered store.now id (version ∷ older) → version.block < 2 ^ 32 }
    ensures step { steps.new ≡ raised_count steps.old 1 }
{
    let links = store.entry(id, steps);
    let previous = previous_of(links);
    if links.block <= at {
        return Look {
            turn: Turn::Answer,
            previous,
        };
    }
    match onward(links.hops.as_slice(), at) {
        Some(hop) => Look {
            turn: Turn::Hop(hop.id),
            previous,
        },
        None => Look {
            turn: Turn::Nothing,
            previous,
        },
    }
}

/// Looks at one version on the way to the last one in a block up to `at`.
pub fn path_next<C: Counter>(store: &Store, id: EntryId, at: u32, steps: &mut Steps<C>) -> Turn
    requires towered { (versions : List Hop) × IsTowered store.now id versions }
    ensures turn { (versions : List Hop) → IsTowered store.now id versions → result ≡ turn_at at versions }
    ensures towered { IsTurnTowered store.now result }
    ensures back { IsBack id result }
    ensures small { (version : Hop) (older : List Hop) → IsTowered store.now id (version ∷ older) → version.block < 2 ^ 32 }
    ensures step { steps.new ≡ raised_count steps.old 1 }
{
    look_at(store, id, at, steps).turn
}

/// The last version in a block up to `at`, from the newest one on; `None` exactly if there is none.
/// It reads at most 2 · B + 2 entries, where B is the number of binary digits of the newest
/// version's block.
pub fn find<C: Counter>(
    store: &Store,
    newest: EntryId,
    at: u32,
    steps: &mut Steps<C>,
) -> Option<Found>
    requires towered { (versions : List Hop) × IsTowered store.now newest versions }
    ensures found { (versions : List Hop) → IsTowered store.now newest versions
        → option_map (λ (found : Found). found.id) result ≡ latest_version at versions }
    ensures previous { IfSome result (λ found. IsPrevious store.now found.id found.previous) }
    ensures count { (versions : List Hop) → IsTowered store.now newest versions → steps.new ≡ raised_count steps.old (length (path_over (blocks_of versions) at)) }
    ensures few { (versions : List Hop) → IsTowered store.now newest versions → length (path_over (blocks_of versions) at) ≤ most_steps versions }
    ensures towered { IfSome result (λ found. (versions : List Hop) × IsTowered store.now found.id versions) }
{
    let mut id = newest;
    loop {
        let Look { turn, previous } = look_at(store, id, at, steps);
        match turn {
            Turn::Answer => return Some(Found { id, previous }),
            Turn::Hop(next) => id = next,
            Turn::Nothing => return None,
        }
    }
}

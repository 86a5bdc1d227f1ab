//! Laws of towered stores, each the contract of a function that does nothing.

ghost use Rattle.std.specs.Prelude.{◌≡◌, List, [], ◌∷◌, ◌++◌, length};
ghost use Rattle.entry_store.specs.{
  declared.entry.EntryId.{EntryId},
  declared.entry.Hop.{Hop},
  Entries.{Entry},
};
ghost use Rattle.skip_list.specs.Towered.{IsTowered, HaveTowers, links_over, AreOlder};

/// A store stays towered at its entries when more are added.
#[tactic(auto, using(crate::proofs::Pushing::stays_towered))]
pub fn towered_entries_stay_towered()
    ensures { (entries more : List Entry) (id : EntryId) (versions : List Hop) → IsTowered entries id versions → IsTowered (entries ++ more) id versions }
{}

/// A store is towered at a new entry that has the links over the versions before it.
#[tactic(auto, using(crate::proofs::Pushing::new_towered))]
pub fn new_entry_is_towered()
    ensures { (entries : List Entry) (entry : Entry) (older : List Hop) → HaveTowers entries older → AreOlder entry.links.block older
        → entry.links.hops ≡ links_over entry.links.block older
        → IsTowered (entries ++ entry ∷ []) (record { 0 = length entries }) (record { block = entry.links.block; id = record { 0 = length entries } } ∷ older) }
{}

/// At an entry a store is towered with at most one list of versions.
#[tactic(auto, using(crate::proofs::OneList::one_list))]
pub fn versions_are_determined()
    ensures { (entries : List Entry) (id : EntryId) (versions others : List Hop) → IsTowered entries id versions → IsTowered entries id others → versions ≡ others }
{}

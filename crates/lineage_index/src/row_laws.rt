//! Laws of the entries of a history, each the contract of a function that does nothing.

ghost use Rattle.std.specs.{
  Prelude.{◌≡◌, ◌≢◌, ◌<◌, ◌≤◌, ℕ, List, ◌∷◌, ◌++◌, length, map, take, None, slice_get, MatchOption},
  List.{All},
  Option.{option_map},
};
ghost use Rattle.lc_base.specs.{declared.row.Row.{Row}, History.{IsLawful, latest}};
ghost use Rattle.skip_links.specs.{Links.{links}, Versions.{newest_index}, Paths.{path, path_over}};
ghost use Rattle.entry_views.specs.prov_entry.Spelling.{IsBody};
ghost use Rattle.plain_rows.specs.{
  root_laws.Naming.{header_of, body_of},
  root_laws.NamingLaws.{digest_of_row},
  root_laws.GrowthLaws.{AreFrom},
};
ghost use Rattle.skip_list.specs.{
  entry_store.declared.entry.EntryId.{EntryId},
  entry_store.Entries.{Entry, named_link},
  Towered.{blocks_of, links_over, AreVersions},
  Lookups.{latest_version},
};
ghost use Rattle.lineage_index.specs.{
  Versions.{versions_of_key, newest_entry},
  Entries.{entries_of},
  ReadBack.{rows_read},
};

// ---- lookups

/// The store of a lawful history is towered at the newest version of each key.
#[tactic(auto, using(crate::proofs::StoreEntries::all_towered))]
pub fn entries_are_towered()
    ensures { (all rows : List Row) (key : List ℕ) → IsLawful rows → AreVersions (entries_of all rows) (newest_entry rows key) (versions_of_key rows key) }
{}

/// The id of the entry of a key's newest version is the index of its newest row.
#[tactic(auto, using(crate::proofs::Versions::newest_is_index))]
pub fn newest_entry_is_the_newest_row()
    ensures { (rows : List Row) (key : List ℕ) → option_map (λ (id : EntryId). id.0) (newest_entry rows key) ≡ newest_index rows key }
{}

/// The links of a row are those of its version over the whole history.
#[tactic(auto, using(crate::proofs::Versions::links_of_row))]
pub fn links_are_those_of_the_rows()
    ensures { (before after : List Row) (row : Row) → IsLawful (before ++ row ∷ after)
        → blocks_of (links_over row.block (versions_of_key before row.key)) ≡ links (before ++ row ∷ after) row.key row.block }
{}

/// The path of a lookup over the rows is the one over the entries.
#[tactic(auto, using(crate::proofs::Versions::path_of_versions))]
pub fn path_is_over_the_versions()
    ensures { (rows : List Row) (key : List ℕ) (at : ℕ) → IsLawful rows → path rows key at ≡ path_over (blocks_of (versions_of_key rows key)) at }
{}

/// A lookup finds the entry of the last row of the key up to a block.
#[tactic(auto, using(crate::proofs::Versions::lookup_latest))]
pub fn lookup_ends_at_the_latest()
    ensures { (rows : List Row) (key : List ℕ) (at : ℕ)
        → MatchOption (latest_version at (versions_of_key rows key)) (latest rows key at ≡ None) (λ (id : EntryId). slice_get rows id.0 ≡ latest rows key at) }
{}

/// The store is towered at the newest versions of its first rows too.
pub fn earlier_versions_are_towered()
    ensures { (rows more : List Row) (key : List ℕ) → IsLawful rows
        → AreVersions (entries_of (rows ++ more) (rows ++ more)) (newest_entry rows key) (versions_of_key rows key) }
{}

/// A lookup up to a block finds the newest version of the rows up to it.
pub fn lookup_gives_the_newest_of_the_rows_up_to_the_block()
    ensures { (rows more : List Row) (key : List ℕ) (at : ℕ) → All (λ (row : Row). row.block ≤ at) rows → All (λ (row : Row). at < row.block) more
        → latest_version at (versions_of_key (rows ++ more) key) ≡ newest_entry rows key }
{}

// ---- what entries say

/// The hops of a row, with the digests of the headers that they lead to, are the links of its header.
pub fn hops_name_the_headers_of_the_links()
    ensures { (before after : List Row) (row : Row) → IsLawful (before ++ row ∷ after)
        → map (named_link (entries_of (before ++ row ∷ after) before)) (links_over row.block (versions_of_key before row.key)) ≡ (header_of (before ++ row ∷ after) row).links }
{}

/// The digests that the store computes are those of the headers of the rows.
pub fn digests_are_those_of_the_headers()
    ensures { (all rows : List Row) → map (λ (entry : Entry). entry.facts.digest) (entries_of all rows) ≡ map (digest_of_row all) rows }
{}

/// The rows are read back from their entries, if their bodies can be spelled.
pub fn rows_are_read_back()
    ensures { (all rows : List Row) → All (λ (row : Row). IsBody (body_of all row)) rows → rows_read (entries_of all rows) ≡ rows }
{}

// ---- histories that grow

/// The versions of a key stay when rows of other keys are appended.
pub fn versions_stay_where_other_keys_are_added()
    ensures { (rows more : List Row) (key : List ℕ) → All (λ (row : Row). row.key ≢ key) more → versions_of_key (rows ++ more) key ≡ versions_of_key rows key }
{}

/// The entries of rows stay when rows of later blocks are appended to the history.
pub fn entries_stay_where_later_blocks_are_added()
    ensures { (all more rows : List Row) (n : ℕ) → All (λ (row : Row). row.block < n) rows → AreFrom n more → entries_of (all ++ more) rows ≡ entries_of all rows }
{}

/// The first entries are those of the first rows.
pub fn first_entries_are_of_the_first_rows()
    ensures { (all rows : List Row) (n : ℕ) → take n (entries_of all rows) ≡ entries_of all (take n rows) }
{}

/// The entries of the blocks before one are those of the history that ends there.
pub fn earlier_entries_are_of_the_earlier_history()
    ensures { (rows more : List Row) (n : ℕ) → All (λ (row : Row). row.block < n) rows → AreFrom n more
        → take (length rows) (entries_of (rows ++ more) (rows ++ more)) ≡ entries_of rows rows }
{}

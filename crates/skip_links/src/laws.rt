//! Laws of levels, links and newest rows, each the contract of a function that does nothing.

ghost use Rattle.std.specs.{
  Prelude.{◌≡◌, ℕ, true, false, ◌==◌, ◌+◌, ◌*◌, ◌^◌, ◌<◌, ◌≤◌, not, if◌then◌else◌, List, [], ◌∷◌, ◌++◌, length, map, Option, Some, None, slice_get, MatchOption, bit_xor},
  List.{range_with_len, AllByRecursion},
  Option.{option_map},
  Cmp.Lexicographic.{pointwise},
};
ghost use Rattle.lc_base.specs.{declared.row.Row.{Row}, History.{IsLawful, below, up_to, newest}};
ghost use Rattle.skip_links.specs.{
  Links.{is_at_level, height, link, links},
  Falling.{IsFalling, older_blocks, last_at_level},
  Versions.{newest_index},
  Laws.{has_older, has_older_in},
};

/// The links of a block's versions are those over the rows up to this block: later rows change
/// none.
#[tactic(auto, using(crate::proofs::Towers::links_up_to))]
pub fn links_are_of_rows_up_to_the_block()
    ensures { (rows : List Row) (key : List ℕ) (block : ℕ) → IsLawful rows → links (up_to rows block) key block ≡ links rows key block }
{}

/// They are also those over the rows of earlier blocks alone.
#[tactic(auto, using(crate::proofs::Towers::links_below))]
pub fn links_are_of_rows_before_the_block()
    ensures { (rows : List Row) (key : List ℕ) (block : ℕ) → IsLawful rows → links (below rows block) key block ≡ links rows key block }
{}

/// The height of a later version is the place of the highest binary digit, from 0, in which its
/// block and that of the version before it differ.
#[tactic(auto, using(crate::proofs::LinkLaws::height_is_difference))]
pub fn height_is_the_highest_difference()
    ensures { (rows : List Row) (key : List ℕ) (block : ℕ) (version : Row) → IsLawful rows → block < 2 ^ 32 → newest (below rows block) key ≡ Some version
        → (2 ^ height rows key block ≤ bit_xor version.block block) × (bit_xor version.block block < 2 * 2 ^ height rows key block) }
{}

/// If a block is in the first interval of a level, only the key's first version is at this level.
/// So no later version is at a level above `MAX_LEVEL`.
#[tactic(auto, using(crate::proofs::LinkLaws::first_alone))]
pub fn first_version_alone_is_at_the_top()
    ensures { (rows : List Row) (key : List ℕ) (block level : ℕ) → block < 2 ^ level → is_at_level rows key block level ≡ not (has_older rows key block) }
{}

/// Each link is to an older version of the key.
#[tactic(auto, using(crate::proofs::LinkLaws::links_older))]
pub fn links_are_to_older_versions()
    ensures { (rows : List Row) (key : List ℕ) (block : ℕ)
        → AllByRecursion (λ (older : ℕ). has_older_in rows key block older ≡ true) (links rows key block) }
{}

/// A first version has no links.
#[tactic(auto, using(crate::proofs::LinkLaws::first_has_none))]
pub fn first_version_has_no_links()
    ensures { (rows : List Row) (key : List ℕ) (block : ℕ) → has_older rows key block ≡ false → links rows key block ≡ [] }
{}

/// A later version has one link for each level from 0 to its height.
#[tactic(auto, using(crate::proofs::LinkLaws::link_at_each))]
pub fn later_version_has_a_link_at_each_level()
    ensures { (rows : List Row) (key : List ℕ) (block : ℕ) → IsLawful rows → has_older rows key block ≡ true
        → map Some (links rows key block) ≡ map (link rows key block) (range_with_len 0 (height rows key block + 1)) }
{}

/// The link of level 0 is to the version before.
#[tactic(auto, using(crate::proofs::LinkLaws::first_link))]
pub fn first_link_is_to_the_version_before()
    ensures { (rows : List Row) (key : List ℕ) (block : ℕ) → IsLawful rows
        → slice_get (links rows key block) 0 ≡ option_map (λ (row : Row). row.block) (newest (below rows block) key) }
{}

/// The blocks of a key's versions, the newest first, fall.
#[tactic(auto, using(crate::proofs::Towers::blocks_fall))]
pub fn blocks_of_a_key_fall()
    ensures { (rows : List Row) (key : List ℕ) (block : ℕ) → IsLawful rows → IsFalling (block ∷ older_blocks rows key block) }
{}

/// The link of a level is found in the blocks of the key alone.
#[tactic(auto, using(crate::proofs::Towers::lawful_link))]
pub fn links_are_over_the_blocks_of_the_key()
    ensures { (rows : List Row) (key : List ℕ) (block level : ℕ) → IsLawful rows
        → link rows key block level ≡ last_at_level (older_blocks rows key block) level }
{}

/// A row that is appended becomes the newest of its key; the newest rows of other keys stay.
#[tactic(auto, using(crate::proofs::Threads::newest_more))]
pub fn newest_index_grows_row_by_row()
    ensures { (rows : List Row) (row : Row) (key : List ℕ)
        → newest_index (rows ++ row ∷ []) key ≡ (if pointwise ◌==◌ row.key key then Some (length rows) else newest_index rows key) }
{}

/// The index is `None` if the key has no row, and else that of the key's newest row.
#[tactic(auto, using(crate::proofs::Threads::newest_found))]
pub fn newest_index_is_of_the_newest()
    ensures { (rows : List Row) (key : List ℕ)
        → MatchOption (newest_index rows key) (newest rows key ≡ None) (λ index. slice_get rows index ≡ newest rows key) }
{}

//! Laws of paths, each the contract of a function that does nothing.

ghost use Rattle.std.specs.{
  Prelude.{◌≡◌, ℕ, ◌+◌, ◌*◌, ◌^◌, ◌<◌, ◌≤◌, nat_le, List, [], ◌∷◌, length, Some, None, slice_get},
  List.{find},
  Option.{option_map},
};
ghost use Rattle.lc_base.specs.{declared.row.Row.{Row}, History.{IsLawful, newest, latest}};
ghost use Rattle.skip_links.specs.{Links.{links}, Falling.{IsFalling, older_blocks}};
ghost use Rattle.skip_links.specs.{
  Towers.{tower},
  Paths.{next_block, path, path_over, blocks_of_key, binary_digits},
};

/// The links of a version of a lawful history are over the blocks of the key's versions before it.
#[tactic(auto, using(crate::proofs::OverRows::links_tower))]
pub fn links_are_a_tower()
    ensures { (rows : List Row) (key : List ℕ) (block : ℕ) → IsLawful rows → links rows key block ≡ tower (λ (older : ℕ). older) block (older_blocks rows key block) }
{}

/// So the path is found in the blocks of the key alone.
#[tactic(auto, using(crate::proofs::OverRows::path_of_blocks))]
pub fn path_is_over_the_blocks_of_the_key()
    ensures { (rows : List Row) (key : List ℕ) (at : ℕ) → IsLawful rows → path rows key at ≡ path_over (blocks_of_key rows key) at }
{}

/// A path has at most 2 · B + 2 versions, where B is the number of binary digits of the newest
/// version's block.
#[tactic(auto, using(crate::proofs::OverRows::path_short))]
pub fn path_is_short()
    ensures { (rows : List Row) (key : List ℕ) (at : ℕ) (version : Row) → IsLawful rows → newest rows key ≡ Some version → version.block < 2 ^ 32
        → length (path rows key at) ≤ 2 * binary_digits version.block + 2 }
{}

/// The first version of a path that is in a block up to `at` is the last one of all rows.
#[tactic(auto, using(crate::proofs::OverRows::path_latest))]
pub fn path_ends_at_the_latest()
    ensures { (rows : List Row) (key : List ℕ) (at : ℕ) → IsLawful rows
        → find (λ (block : ℕ). nat_le block at) (path rows key at) ≡ option_map (λ (row : Row). row.block) (latest rows key at) }
{}

/// A path over falling blocks has the same bound.
#[tactic(auto, using(crate::proofs::Walks::path_over_short))]
pub fn path_over_is_short()
    ensures { (block : ℕ) (older : List ℕ) (at : ℕ) → IsFalling (block ∷ older) → block < 2 ^ 32 → length (path_over (block ∷ older) at) ≤ 2 * binary_digits block + 2 }
{}

/// The first block up to `at` of a path over falling blocks is the first such block of all.
#[tactic(auto, using(crate::proofs::Walks::path_over_latest))]
pub fn path_over_ends_at_the_latest()
    ensures { (blocks : List ℕ) (at : ℕ) → IsFalling blocks
        → find (λ (block : ℕ). nat_le block at) (path_over blocks at) ≡ find (λ (block : ℕ). nat_le block at) blocks }
{}

/// If a lookup goes on to a version in a block up to `at`, it takes the lowest link.
pub fn answers_are_reached_by_the_lowest_link()
    ensures { (links_of : ℕ → List ℕ) (at block next : ℕ) → next_block links_of at block ≡ Some next → next ≤ at → slice_get (links_of block) 0 ≡ Some next }
{}

/// A key without versions has no path.
#[tactic(auto, using(crate::proofs::OverRows::path_none))]
pub fn path_of_no_version_is_empty()
    ensures { (rows : List Row) (key : List ℕ) (at : ℕ) → newest rows key ≡ None → path rows key at ≡ [] }
{}

//! Worked paths, each the contract of a function that does nothing.

ghost use Rattle.std.specs.Prelude.{◌≡◌, ◌∷◌, []};
ghost use Rattle.skip_links.specs.{
  Paths.{path_over, links_among, binary_digits},
  Examples.{far_blocks},
};

/// Versions in the blocks 2, 9 and 10: the second has four links, the third two, and no version is in
/// a block up to 1.
#[tactic(auto, unfolding(crate::specs::Paths::path_over, crate::specs::Paths::path_from, crate::specs::Towers::tower, crate::specs::Towers::from_last, crate::specs::Towers::height_up_to))]
pub fn three_versions()
    ensures second { links_among (10 ∷ 9 ∷ 2 ∷ []) 9 ≡ 2 ∷ 2 ∷ 2 ∷ 2 ∷ [] }
    ensures third { links_among (10 ∷ 9 ∷ 2 ∷ []) 10 ≡ 9 ∷ 9 ∷ [] }
    ensures path { path_over (10 ∷ 9 ∷ 2 ∷ []) 1 ≡ 10 ∷ 9 ∷ 2 ∷ [] }
{}

/// Far versions: a path goes up to high levels and down again.
#[tactic(auto, unfolding(crate::specs::Examples::far_blocks, crate::specs::Paths::path_over, crate::specs::Paths::path_from, crate::specs::Paths::digits_up_to, crate::specs::Towers::tower, crate::specs::Towers::from_last, crate::specs::Towers::height_up_to))]
pub fn far_versions()
    ensures to_31 { path_over far_blocks 31 ≡ 524288 ∷ 524287 ∷ 32 ∷ 31 ∷ [] }
    ensures to_40 { path_over far_blocks 40 ≡ 524288 ∷ 524287 ∷ 48 ∷ 44 ∷ 42 ∷ 41 ∷ 40 ∷ [] }
    ensures digits { binary_digits 524288 ≡ 20 }
{}

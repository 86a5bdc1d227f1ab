//! Worked heights, each the contract of a function that does nothing.

ghost use Rattle.std.specs.Prelude.{◌≡◌, ◌∷◌, []};
ghost use Rattle.skip_links.specs.{Towers.{height_over}, Examples.{down_from}};
ghost use Rattle.skip_list.specs.{Examples.{heights_down_from}, Lookups.{most_steps}};

/// With a version in each of the blocks 0 to 63, the height of each but the first is the number of zeros
/// at the end of its block's binary digits.
#[tactic(auto, unfolding(crate::specs::Examples::heights_down_from, skip_links::specs::Towers::height_up_to))]
pub fn low_heights()
    ensures { heights_down_from 63 ≡ 0 ∷ 1 ∷ 0 ∷ 2 ∷ 0 ∷ 1 ∷ 0 ∷ 3 ∷ 0 ∷ 1 ∷ 0 ∷ 2 ∷ 0 ∷ 1 ∷ 0 ∷ 4 ∷ 0 ∷ 1 ∷ 0 ∷ 2 ∷ 0 ∷ 1 ∷ 0 ∷ 3 ∷ 0 ∷ 1 ∷ 0 ∷ 2 ∷ 0 ∷ 1 ∷ 0 ∷ 5 ∷ 0 ∷ 1 ∷ 0 ∷ 2 ∷ 0 ∷ 1 ∷ 0 ∷ 3 ∷ 0 ∷ 1 ∷ 0 ∷ 2 ∷ 0 ∷ 1 ∷ 0 ∷ 4 ∷ 0 ∷ 1 ∷ 0 ∷ 2 ∷ 0 ∷ 1 ∷ 0 ∷ 3 ∷ 0 ∷ 1 ∷ 0 ∷ 2 ∷ 0 ∷ 1 ∷ 0 ∷ [] }
{}

/// Versions far after these, on both sides of 2 ^ 19, are high; a lookup among them reads at most
/// 42 entries.
#[tactic(auto, unfolding(skip_links::specs::Towers::height_up_to, skip_links::specs::Paths::digits_up_to))]
pub fn far_heights()
    ensures before { height_over 524287 (down_from 63) ≡ 18 }
    ensures after { height_over 524288 (524287 ∷ down_from 63) ≡ 19 }
    ensures bound { most_steps (record { block = 524288; id = record { 0 = 65 } } ∷ []) ≡ 42 }
{}

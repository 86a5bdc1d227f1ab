//! Worked ranges, each the contract of a function that does nothing.

ghost use Rattle.std.specs.Prelude.{◌≡◌, ◌∷◌, []};
ghost use Rattle.root_laws.specs.{
  Ranges.{between},
  RangeSteps.{range_steps},
  RangeExamples.{version_at, four_rows},
};

/// The key `a` is written in blocks 2, 5 and 9, and `b` in block 5. Both blocks of a range are
/// included, and another key isn't. Between two versions there is none.
pub fn blocks_are_included()
    ensures all { between four_rows (97 ∷ []) 2 9
        ≡ version_at 2 ∷ version_at 5 ∷ version_at 9 ∷ [] }
    ensures one { between four_rows (97 ∷ []) 3 8 ≡ version_at 5 ∷ [] }
    ensures none { between four_rows (97 ∷ []) 6 8 ≡ [] }
    ensures other { between four_rows (98 ∷ []) 2 9 ≡ version_at 5 ∷ [] }
{}

/// Of these rows, a range up to block 9 looks at the three versions of `a` once each. One up to
/// block 8 looks at that of block 9 too, since lookups begin at the newest version. A key without
/// versions has none to look at.
pub fn looked_at_once()
    ensures all { range_steps four_rows (97 ∷ []) 2 9 ≡ 3 }
    ensures one { range_steps four_rows (97 ∷ []) 3 8 ≡ 2 }
    ensures none { range_steps four_rows (97 ∷ []) 6 8 ≡ 2 }
    ensures unwritten { range_steps four_rows (99 ∷ []) 2 9 ≡ 0 }
{}

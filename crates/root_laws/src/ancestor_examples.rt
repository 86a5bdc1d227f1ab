//! Worked ancestors, each the contract of a function that does nothing.

ghost use Rattle.std.specs.Prelude.{◌≡◌, ◌∷◌, [], Some, None};
ghost use Rattle.root_laws.specs.{
  Ancestors.{trace_at},
  AncestorSteps.{trace_steps},
  AncestorExamples.{version, four_rows},
};

/// Of the rows `a`; `c` and `b`, both derived from `a`; and `d`, derived from `b` and `c`: `d` has
/// three ancestors, `a` once among them, and `b` before `c`. Each lookup looks at one version. Up
/// to block 1 there is no `d`, so there is no trace.
pub fn two_ways_to_one()
    ensures traced { trace_at four_rows (100 ∷ []) 5
        ≡ Some (record { block = 2; ancestors = version 97 0 ∷ version 98 1 ∷ version 99 1 ∷ [] }) }
    ensures steps { trace_steps four_rows (100 ∷ []) 5 ≡ 4 }
    ensures early { trace_at four_rows (100 ∷ []) 1 ≡ None }
{}

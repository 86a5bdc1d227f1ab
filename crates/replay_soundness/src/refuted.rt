//! The laws with one premise left out are false: each premise is needed.

ghost use Rattle.replay_soundness.specs.FalseLaws.{PlacesDoNotMatter, LimitsDoNotMatter, CompilersDoNotMatter};

/// Two blocks with one number may write one key, and then their rows are no history.
pub fn places_matter()
    ensures { PlacesDoNotMatter → ⊥ }
{}

/// A block that exceeds the limits of blocks may write what is no value.
pub fn limits_matter()
    ensures { LimitsDoNotMatter → ⊥ }
{}

/// Contracts whose literals are no values may write them.
pub fn compilers_matter()
    ensures { CompilersDoNotMatter → ⊥ }
{}

//! A law of the definitions, the contract of a function that does nothing.

ghost use Rattle.state_tree.specs.Laws.{CoveringsAreUnique};

/// If no two leaves have one key, at most one leaf covers a key.
pub fn coverings_are_unique()
    ensures { CoveringsAreUnique }
{}

//! A law of clashes, the contract of a function that does nothing.

ghost use Rattle.text_clashes.specs.PartClash.{ClashOfAPart};

/// A clash of a part of some texts with a part of others is a clash of all of them: so a clash of a
/// part of a proof's texts is a clash of the proof's.
pub fn clash_of_a_part()
    ensures { ClashOfAPart }
{}

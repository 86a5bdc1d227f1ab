//! Laws of the versions between two blocks, each the contract of a function that does nothing.

ghost use Rattle.root_laws.specs.{
  RangeLaws.{VersionsRise, RangesEndAtTheLatest, RangesMayBeEmpty},
  RangeSteps.{NoVersionsNoSteps, RangeStepsAreFew, RangeStepsAreOfRows},
};

/// The versions between two blocks are in strictly rising order of their blocks.
pub fn versions_rise()
    ensures { VersionsRise }
{}

/// The last version up to the last block is the last one between the blocks, if it isn't before the
/// first block.
pub fn ranges_end_at_the_latest()
    ensures { RangesEndAtTheLatest }
{}

/// If it is before the first block, or there is none, no version is between them.
pub fn ranges_may_be_empty()
    ensures { RangesMayBeEmpty }
{}

/// A key without versions takes no steps.
pub fn no_versions_no_steps()
    ensures { NoVersionsNoSteps }
{}

/// Besides the versions between the blocks, at most 2 · B + 2 are looked at, where B is the number
/// of binary digits of the newest version's block.
pub fn range_steps_are_few()
    ensures { RangeStepsAreFew }
{}

/// No more versions are looked at than the history has rows.
pub fn range_steps_are_of_rows()
    ensures { RangeStepsAreOfRows }
{}

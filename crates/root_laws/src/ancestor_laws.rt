//! Laws of ancestors, each the contract of a function that does nothing.

ghost use Rattle.root_laws.specs.{
  AncestorLaws.{AncestorsAreReached, ReachedVersionsAreAncestors, AncestorsRise, AncestorsAreFew},
  AncestorSteps.{TraceStepsAreFew},
};

/// Each ancestor of a version is reached from it by one or more dependencies.
pub fn ancestors_are_reached()
    ensures { AncestorsAreReached }
{}

/// Each version that is reached from a version by one or more dependencies is its ancestor.
pub fn reached_versions_are_ancestors()
    ensures { ReachedVersionsAreAncestors }
{}

/// Ancestors are in order of their blocks, and in one block in byte order of their keys; none is
/// there twice.
pub fn ancestors_rise()
    ensures { AncestorsRise }
{}

/// A version has no more ancestors than the history has rows.
pub fn ancestors_are_few()
    ensures { AncestorsAreFew }
{}

/// Tracing a version with N ancestors looks at (N + 1) · (2 · B + 2) versions at most, where B is
/// the number of binary digits of a block after which there is no row.
pub fn trace_steps_are_few()
    ensures { TraceStepsAreFew }
{}

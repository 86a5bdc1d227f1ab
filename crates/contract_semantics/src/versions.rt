//! The dependencies of what a call puts are versions that it read, each the newest before its
//! block.

ghost use Rattle.contract_semantics.specs.Laws.{
  ReadsAreOnlyAdded,
  ReadsAreOfVersionsBefore,
  DependenciesAreReads,
  DependenciesAreNewestRows,
  PutsAreOwnAndUnwritten,
  FailuresAreNotOk,
};

/// What was read before is a prefix of what is read after.
pub fn reads_are_only_added()
    ensures { ReadsAreOnlyAdded }
{}

/// Each read has the version that its key had before the block.
pub fn reads_are_of_versions_before()
    ensures { ReadsAreOfVersionsBefore }
{}

/// Each dependency was read, and names the version that its key had before the block.
pub fn dependencies_are_reads()
    ensures { DependenciesAreReads }
{}

/// Over a history, each dependency names the block of the newest row of its key.
pub fn dependencies_are_newest_rows()
    ensures { DependenciesAreNewestRows }
{}

/// Each key that is put is the contract's own, and the block hasn't written it before.
pub fn puts_are_own_and_unwritten()
    ensures { PutsAreOwnAndUnwritten }
{}

/// Statements that fail have a status other than `Ok`.
pub fn failures_are_not_ok()
    ensures { FailuresAreNotOk }
{}

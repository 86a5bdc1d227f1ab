//! Laws about the promises of printed lines, each the contract of a function that does nothing.

ghost use Rattle.block_log.specs.Standing.{NextBlock};
ghost use Rattle.cli_promises.specs.Laws.{BegunIsPrefix, RunsHold, StopLeaves};

use lc_io::Wire;

/// What was printed of lines is a prefix of them.
pub fn begun_is_prefix()
    ensures { BegunIsPrefix }
{}

/// After any number of runs and stops, the last chain begins with the first one, and has every
/// block and the mark that were acknowledged.
pub fn runs_hold()
    ensures { RunsHold }
{}

/// A stop at any moment of a run leaves a disk that the next run may begin with.
pub fn stop_leaves<M: Wire>(old: &M, new: &M)
    ensures { (next : NextBlock) → StopLeaves next M.now M.disk M.told old.now new.now }
{
    let _old = old;
    let _new = new;
}

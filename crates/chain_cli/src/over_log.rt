//! The commands over the log: `append` and `follow`, and what is found for `root`.

ghost use Rattle.std.specs.Prelude.{
  ◌≡◌,
  ◌≤◌,
  ◌<◌,
  ℕ,
  true,
  List,
  length,
  Option,
  Some,
  IfOk,
  IsErrOf,
  MatchOption,
};
ghost use Rattle.lc_base.specs.Faults.{HasCause};
ghost use Rattle.disk_model.specs.Disk.{IsSettled, Keeps, content_of};
ghost use Rattle.block_codec.specs.{Reading.{block_in}, declared.block.Block.{Block as Blocks}};
ghost use Rattle.block_log.specs.Log.{next_in_log};
ghost use Rattle.chain_exec.specs.Compiled.{compiled_in};
ghost use Rattle.chain_replay.specs.Chain.{ChainState, StandsFor};
ghost use Rattle.lc_io.specs.Scratch.{is_known};
ghost use Rattle.cli_append.specs.recovery.Node.{next_in_chain};
ghost use Rattle.cli_proofs.specs.Exposing.{ledger_kept};
ghost use Rattle.merkle_dag.specs.{Ledger.{IsHead}, Lineage.{ledger_in}};
ghost use Rattle.root_laws.specs.Root.{root_of};
ghost use Rattle.cli_output.specs.{
  Output.{root_outcome, at_or_last},
  Running.{HeldIsGiven, IsRun, MayEnd, MayLeaveBy, found_no_log},
  Scanning.{EndsAsked},
  Telling.{run_answer, status_of_result},
  Uses.{appends_log},
};

use cli_append::{RunEnd, RunStop, append, follow, start};
use cli_lines::{Ending, Outcome, root_line};
use cli_output::{beyond, start_outcome, tell};
use cli_words::Command;
use disk_model::Disk;
use lc_base::{Digest, Memory, Resources};
use lc_io::{Scratch, Source, Wire};
use merkle_dag::Lineage;
use std::alloc::Global;

/// How the commands `append` and `follow` end, by the result of taking all frames.
fn run_answer(answer: Result<RunEnd, RunStop>) -> Result<Ending, RunStop>
    ensures { result ≡ run_answer answer }
{
    match answer {
        Ok(RunEnd::Whole) => Ok(Ending::Done),
        Ok(RunEnd::Refused { .. }) => Ok(Ending::Refused),
        Err(stop) => Err(stop),
    }
}

/// Takes the blocks of the input into the chain of the log, in order, and prints a line for each;
/// or delivers them to a follower, and prints a line for each of its turns. Both begin with a sync:
/// so that a block of which is printed that it is there rests on bytes that no crash can take.
pub fn extend_log<I: Source, M: Disk + Wire, S: Scratch>(
    resources: Resources,
    command: &Command,
    source: &mut I,
    machine: &mut M,
    scratch: &mut S,
) -> Result<Ending, RunStop>
    requires appends { appends_log (Some command.now) ≡ true }
    requires settled { IsSettled (M.disk machine.old (M.now machine.old)) }
    ensures run { IsRun M.now M.disk M.told machine.old machine.new (status_of_result result)
        (I.left source.old) (I.left source.new) (is_known (S.state scratch.old)) block_in
        compiled_in (Some command.now) }
    ensures goes_on { HeldIsGiven (is_known (S.state scratch.old)) (Some command.now)
        → (content : List ℕ)
        → content_of (M.disk machine.old (M.now machine.old)) ≡ Some content
        → Keeps M.now M.disk machine.old machine.new
        (MayLeaveBy next_in_chain (Some command.now) content) }
    ensures log_goes_on { (content : List ℕ)
        → content_of (M.disk machine.old (M.now machine.old)) ≡ Some content
        → Keeps M.now M.disk machine.old machine.new
        (MayLeaveBy next_in_log (Some command.now) content) }
    ensures ends { MayEnd (status_of_result result) (Some command.now) }
    ensures no_log { found_no_log (status_of_result result) ≡ true → source.new ≡ source.old }
    ensures unreadable { HasCause (I.source_faults source.old) (I.source_faults source.new)
        (IsErrOf result RunStop.Unreadable) }
    ensures disk_fault { HasCause (M.disk_faults machine.old) (M.disk_faults machine.new)
        (IsErrOf result RunStop.DiskFault) }
    ensures scratch_fault { HasCause (S.scratch_faults scratch.old) (S.scratch_faults scratch.new)
        (IsErrOf result RunStop.ScratchFault) }
    ensures untold { HasCause (M.wire_faults machine.old) (M.wire_faults machine.new)
        (IsErrOf result RunStop.Untold) }
{
    let alloc = resources.alloc;
    match start(resources, machine, scratch) {
        Ok(node) => match command {
            Command::Append => run_answer(append(alloc, source, machine, scratch, node)),
            Command::Follow => run_answer(follow(alloc, source, machine, scratch, node)),
            _ => unreachable!(),
        },
        Err(error) => tell(machine, start_outcome(alloc, error)),
    }
}

/// The root at a block of a lineage, by the number of its last block; `None` exactly if the block
/// is past that. At an earlier block it is the root at the last block of the lineage up to it,
/// which is made for this, and discarded.
fn root_at(lineage: &Lineage, last: u32, at: u32) -> Result<Option<Digest>, Memory>
    requires { IsHead lineage.now.digests (Some last) }
    ensures { IfOk result (λ found. MatchOption found (length lineage.now.digests ≤ at)
        (λ root. (at < length lineage.now.digests)
        × (root.0 ≡ root_of lineage.now.rows lineage.now.digests at))) }
{
    if last <= at {
        return Ok(lineage.root(at));
    }
    match lineage.rewind(at) {
        Ok(rewound) => {
            let root = rewound.root(at);
            rewound.give_up();
            Ok(root)
        }
        Err(Memory) => Err(Memory),
    }
}

/// The root at a block of a chain: `at`, or else the last one.
pub fn root_outcome(alloc: Global, at: Option<u32>, lineage: &Lineage) -> Result<Outcome, Memory>
    ensures outcome { (kept : ChainState) → ledger_in lineage.now ≡ ledger_kept kept
        → IfOk result (λ outcome. (blocks : List Blocks) → StandsFor kept blocks → outcome ≡ root_outcome compiled_in (at_or_last at blocks) blocks) }
    ensures ends { IfOk result (λ outcome. EndsAsked outcome.ending) }
{
    let Some(last) = lineage.head() else {
        return beyond(alloc, None);
    };
    let at = at.unwrap_or(last);
    match root_at(lineage, last, at)? {
        Some(root) => Outcome::from_line(alloc, root_line(alloc, at, &root)?, Ending::Done),
        None => beyond(alloc, Some(last)),
    }
}

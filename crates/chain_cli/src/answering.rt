//! What is found for a command that prints at its end. All that such a command works over is opened
//! here, and discarded.

ghost use Rattle.std.specs.Prelude.{
  ◌≡◌,
  ℕ,
  Bool,
  true,
  false,
  List,
  Option,
  Some,
  IfOk,
  IsErrOf,
};
ghost use Rattle.lc_base.specs.Faults.{HasCause};
ghost use Rattle.disk_model.specs.Disk.{IsSettled};
ghost use Rattle.block_codec.specs.declared.block.Block.{Block as Blocks};
ghost use Rattle.chain_replay.specs.Chain.{ChainState, StandsFor};
ghost use Rattle.lc_io.specs.Scratch.{is_known};
ghost use Rattle.cli_append.specs.recovery.Restoring.{ReadsLog};
ghost use Rattle.cli_proofs.specs.Exposing.{ledger_kept};
ghost use Rattle.merkle_dag.specs.Lineage.{AgreesWith, ledger_in};
ghost use Rattle.chain_exec.specs.Compiled.{compiled_in};
ghost use Rattle.cli_words.specs.{
  Words.{CanBeGiven},
  declared.words.Command.TheVariants.{Ask},
};
ghost use Rattle.cli_output.specs.{
  Output.{ask_outcome, question_in},
  Running.{MayEnd, found_no_log},
  Scanning.{EndsAsked, IsFoundFor, IsFoundOver},
  Telling.{status_of_found},
  Uses.{
    asks_lineage,
    changes_log,
    reads_input,
    uses_disk,
    uses_scratch,
    tells_as_it_goes,
  },
};

use crate::asking::asked_outcome;
use crate::fmt::fmt;
use crate::loading::load_outcome;
use crate::over_log::root_outcome;
use crate::packing::pack;
use crate::scan::scan;
use chain_replay::{Chain, Replay};
use cli_append::{Node, stored_chain};
use cli_lines::Outcome;
use cli_output::{OutcomeStop, start_outcome};
use cli_proofs::{expose, prove, verify};
use cli_words::{Asked, Command};
use disk_model::Disk;
use lc_base::{Memory, Resources};
use lc_io::{Scratch, Source};
use merkle_dag::Lineage;
use std::alloc::Global;

/// What is found over the rows of a chain, which is discarded.
fn stored_outcome(alloc: Global, asked: &Asked, chain: Chain) -> Result<Outcome, Memory>
    ensures outcome { IfOk result (λ outcome. (blocks : List Blocks) → StandsFor chain blocks
        → outcome ≡ ask_outcome compiled_in (question_in asked.now blocks) blocks) }
    ensures ends { IfOk result (λ outcome. EndsAsked outcome.ending) }
{
    let mut chain = chain;
    let outcome = asked_outcome(alloc, asked, &mut chain);
    chain.give_up();
    outcome
}

/// What is found over the rows of the log's blocks.
fn ask_rows<M: Disk>(
    resources: Resources,
    asked: &Asked,
    machine: &mut M,
) -> Result<Outcome, OutcomeStop>
    requires settled { IsSettled (M.disk machine.old (M.now machine.old)) }
    ensures found { (left : Option (List ℕ)) (held : Bool)
        → IsFoundFor (M.disk machine.old (M.now machine.old)) left left held
        (Some (Ask asked.now)) result }
    ensures ends { MayEnd (status_of_found result) (Some (Ask asked.now)) }
    ensures reads { IsErrOf result OutcomeStop.Unreadable → ⊥ }
    ensures keeps { IsErrOf result OutcomeStop.ScratchFault → ⊥ }
    ensures machine { ReadsLog M.now M.disk M.disk_faults M.told M.wire_faults machine.old machine.new (IsErrOf result OutcomeStop.DiskFault) }
{
    let alloc = resources.alloc;
    match stored_chain(resources, machine) {
        Ok(chain) => Ok(stored_outcome(alloc, asked, chain)?),
        Err(error) => start_outcome(alloc, error),
    }
}

/// What is found over the lineage of a chain.
fn lineage_outcome<I: Source, S: Scratch>(
    alloc: Global,
    command: &Command,
    lineage: &mut Lineage,
    source: &mut I,
    scratch: &mut S,
) -> Result<Outcome, OutcomeStop>
    requires given { CanBeGiven command.now }
    requires asks { asks_lineage (Some command.now) ≡ true }
    requires agrees { AgreesWith lineage.old (S.state scratch.old) }
    // Holds if it is known which bytes the scratch device holds.
    ensures found { is_known (S.state scratch.old) ≡ true → (kept : ChainState) → ledger_in lineage.old ≡ ledger_kept kept
        → IsFoundOver kept (I.left source.old) (I.left source.new) command.now result }
    // Hold in either case.
    ensures ends { MayEnd (status_of_found result) (Some command.now) }
    ensures has_log { found_no_log (status_of_found result) ≡ false }
    ensures disk { IsErrOf result OutcomeStop.DiskFault → ⊥ }
    ensures unread { reads_input (Some command.now) ≡ false → source.new ≡ source.old }
    ensures unreadable { HasCause (I.source_faults source.old) (I.source_faults source.new) (IsErrOf result OutcomeStop.Unreadable) }
    ensures scratch_fault { HasCause (S.scratch_faults scratch.old) (S.scratch_faults scratch.new) (IsErrOf result OutcomeStop.ScratchFault) }
{
    match command {
        Command::Root(at) => Ok(root_outcome(alloc, *at, lineage)?),
        Command::Prove { question, root_at } => prove(alloc, question, *root_at, lineage, scratch),
        Command::Expose {
            root,
            query,
            root_at,
        } => expose(alloc, root, query, *root_at, lineage, source, scratch),
        _ => unreachable!(),
    }
}

/// What is found over the lineage of the log's blocks, which is discarded.
fn ask_lineage<I: Source, M: Disk, S: Scratch>(
    resources: Resources,
    command: &Command,
    source: &mut I,
    machine: &mut M,
    scratch: &mut S,
) -> Result<Outcome, OutcomeStop>
    requires given { CanBeGiven command.now }
    requires settled { IsSettled (M.disk machine.old (M.now machine.old)) }
    requires asks { asks_lineage (Some command.now) ≡ true }
    ensures found { IsFoundFor (M.disk machine.old (M.now machine.old)) (I.left source.old) (I.left source.new) (is_known (S.state scratch.old)) (Some command.now) result }
    ensures ends { MayEnd (status_of_found result) (Some command.now) }
    ensures no_log { found_no_log (status_of_found result) ≡ true → source.new ≡ source.old }
    ensures unread { reads_input (Some command.now) ≡ false → source.new ≡ source.old }
    ensures machine { ReadsLog M.now M.disk M.disk_faults M.told M.wire_faults machine.old machine.new (IsErrOf result OutcomeStop.DiskFault) }
    ensures unreadable { HasCause (I.source_faults source.old) (I.source_faults source.new) (IsErrOf result OutcomeStop.Unreadable) }
    ensures scratch_fault { HasCause (S.scratch_faults scratch.old) (S.scratch_faults scratch.new) (IsErrOf result OutcomeStop.ScratchFault) }
{
    let alloc = resources.alloc;
    match Node::start(resources, machine, scratch) {
        Ok(node) => {
            let mut lineage = node.into_lineage();
            let found = lineage_outcome(alloc, command, &mut lineage, source, scratch);
            lineage.give_up();
            found
        }
        Err(error) => start_outcome(alloc, error),
    }
}

/// What is found for a command that prints at its end and leaves the log as it is: its outcome, or
/// why it stops without one.
pub fn find<I: Source, M: Disk, S: Scratch>(
    resources: Resources,
    command: &Command,
    source: &mut I,
    machine: &mut M,
    scratch: &mut S,
) -> Result<Outcome, OutcomeStop>
    requires given { CanBeGiven command.now }
    requires settled { IsSettled (M.disk machine.old (M.now machine.old)) }
    requires at_end { tells_as_it_goes (Some command.now) ≡ false }
    requires unchanged { changes_log (Some command.now) ≡ false }
    ensures found { IsFoundFor (M.disk machine.old (M.now machine.old)) (I.left source.old) (I.left source.new) (is_known (S.state scratch.old)) (Some command.now) result }
    ensures ends { MayEnd (status_of_found result) (Some command.now) }
    ensures no_log { found_no_log (status_of_found result) ≡ true → source.new ≡ source.old }
    ensures unread { reads_input (Some command.now) ≡ false → source.new ≡ source.old }
    ensures unused { uses_disk (Some command.now) ≡ false → M.disk_faults machine.new ≡ M.disk_faults machine.old }
    ensures unused_scratch { uses_scratch (Some command.now) ≡ false → scratch.new ≡ scratch.old }
    ensures machine { ReadsLog M.now M.disk M.disk_faults M.told M.wire_faults machine.old machine.new (IsErrOf result OutcomeStop.DiskFault) }
    ensures unreadable { HasCause (I.source_faults source.old) (I.source_faults source.new) (IsErrOf result OutcomeStop.Unreadable) }
    ensures scratch_fault { HasCause (S.scratch_faults scratch.old) (S.scratch_faults scratch.new) (IsErrOf result OutcomeStop.ScratchFault) }
{
    let alloc = resources.alloc;
    match command {
        Command::Scan(query) => scan(resources, query, source),
        Command::Fmt(edition) => fmt(alloc, *edition, source),
        Command::Pack(version) => pack(alloc, *version, source),
        Command::Load(generation) => load_outcome(resources, scratch, generation),
        Command::Ask(asked) => ask_rows(resources, asked, machine),
        Command::Verify { root, question } => verify(alloc, root, question, source),
        Command::Root(_) | Command::Prove { .. } | Command::Expose { .. } => {
            ask_lineage(resources, command, source, machine, scratch)
        }
        Command::Gen(_)
        | Command::Append
        | Command::Follow
        | Command::Upgrade
        | Command::MakeLight
        | Command::Light => unreachable!(),
    }
}

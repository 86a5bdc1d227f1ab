//! The top call: everything that the program does follows from the words, the input and the disk.

ghost use Rattle.std.specs.Prelude.{
  ◌≡◌,
  ℕ,
  List,
  Option,
  Some,
  map,
  string_bytes,
  true,
  false,
  IfSome,
  IsErrOf,
};
ghost use Rattle.lc_base.specs.{Faults.{HasCause}, declared.answer.Query.{Query}};
ghost use Rattle.lc_io.specs.{Disk.{Stays}, Scratch.{is_known}};
ghost use Rattle.disk_model.specs.Disk.{IsSettled, Keeps, content_of};
ghost use Rattle.byte_fields.specs.Spelling.{IsBytes};
ghost use Rattle.block_codec.specs.{Reading.{block_in}, Spelling.{Decoder, IsDecoder}};
ghost use Rattle.block_log.specs.Log.{next_in_log};
ghost use Rattle.chain_exec.specs.Compiled.{Compiler, IsCompiler, compiled_in};
ghost use Rattle.cli_words.specs.{
  declared.words.Command.{Command as Commands},
  declared.question.Question.{Question},
  Words.{CanBeGiven, IsCommand, IsOneCommand},
};
ghost use Rattle.cli_append.specs.recovery.Node.{next_in_chain};
ghost use Rattle.cli_output.specs.{
  Output.{FormatsAgain, IsWanted, IsOneOutput, log_next_by, next_by},
  Running.{HeldIsGiven, IsRun, IsSilent, MayEnd, MayLeaveBy, found_no_log},
  Showing.{
    ProvedAnswersHold,
    AncestorsAreTheReached,
    WrongAnswersAreTold,
    LightAnswersHold,
    MadeLightFilesAreWhole,
    FollowedChainsArePrefixes,
  },
  Telling.{status_of_result},
  Uses.{reads_input, uses_disk, uses_scratch, changes_log, tells_as_it_goes},
};

use crate::answering::find;
use crate::generating::generate;
use crate::lighting::make_light;
use crate::over_log::extend_log;
use crate::upgrading::upgrade_log;
use cli_append::RunStop;
use cli_lines::{Ending, Status};
use cli_output::{status_of_stop, tell, tell_usage};
use cli_proofs::light;
use cli_words::{Command, command_of};
use disk_model::Disk;
use lc_base::Resources;
use lc_io::{Scratch, Source, Wire};

/// Runs a command. What is found for one that prints at its end is printed once all of it is made.
fn run_command<I: Source, M: Disk + Wire, S: Scratch>(
    resources: Resources,
    command: &Command,
    source: &mut I,
    machine: &mut M,
    scratch: &mut S,
) -> Result<Ending, RunStop>
    requires given { CanBeGiven command.now }
    requires settled { IsSettled (M.disk machine.old (M.now machine.old)) }
    ensures run { IsRun M.now M.disk M.told machine.old machine.new (status_of_result result)
        (I.left source.old) (I.left source.new) (is_known (S.state scratch.old)) block_in
        compiled_in (Some command.now) }
    ensures untouched { changes_log (Some command.now) ≡ false
        → Stays M.now M.disk machine.old machine.new }
    ensures silent { tells_as_it_goes (Some command.now) ≡ false
        → IsSilent (status_of_result result) (M.told machine.old) (M.told machine.new) }
    ensures unwritten { tells_as_it_goes (Some command.now) ≡ false
        → IsErrOf result RunStop.Memory → Stays M.now M.disk machine.old machine.new }
    ensures unread { reads_input (Some command.now) ≡ false → source.new ≡ source.old }
    ensures goes_on { changes_log (Some command.now) ≡ true
        → HeldIsGiven (is_known (S.state scratch.old)) (Some command.now) → (content : List ℕ)
        → content_of (M.disk machine.old (M.now machine.old)) ≡ Some content
        → Keeps M.now M.disk machine.old machine.new
        (MayLeaveBy next_in_chain (Some command.now) content) }
    ensures log_goes_on { changes_log (Some command.now) ≡ true → (content : List ℕ)
        → content_of (M.disk machine.old (M.now machine.old)) ≡ Some content
        → Keeps M.now M.disk machine.old machine.new
        (MayLeaveBy next_in_log (Some command.now) content) }
    ensures unused { uses_disk (Some command.now) ≡ false
        → M.disk_faults machine.new ≡ M.disk_faults machine.old }
    ensures unused_scratch { uses_scratch (Some command.now) ≡ false → scratch.new ≡ scratch.old }
    ensures ends { MayEnd (status_of_result result) (Some command.now) }
    ensures no_log { found_no_log (status_of_result result) ≡ true → source.new ≡ source.old }
    ensures unreadable { HasCause (I.source_faults source.old) (I.source_faults source.new)
        (IsErrOf result RunStop.Unreadable) }
    ensures untold { HasCause (M.wire_faults machine.old) (M.wire_faults machine.new)
        (IsErrOf result RunStop.Untold) }
    ensures disk_fault { HasCause (M.disk_faults machine.old) (M.disk_faults machine.new)
        (IsErrOf result RunStop.DiskFault) }
    ensures scratch_fault { HasCause (S.scratch_faults scratch.old)
        (S.scratch_faults scratch.new) (IsErrOf result RunStop.ScratchFault) }
{
    match command {
        Command::Gen(generation) => generate(resources.alloc, machine, generation),
        Command::MakeLight => make_light(resources, machine, scratch),
        Command::Light => light(resources.alloc, source, machine),
        Command::Upgrade => upgrade_log(resources, machine),
        Command::Append | Command::Follow => {
            extend_log(resources, command, source, machine, scratch)
        }
        _ => {
            let found = find(resources, command, source, machine, scratch);
            tell(machine, found)
        }
    }
}

/// Runs a command, or prints `usage` for words that are none.
fn run_words<I: Source, M: Disk + Wire, S: Scratch>(
    resources: Resources,
    command: Option<Command>,
    source: &mut I,
    machine: &mut M,
    scratch: &mut S,
) -> Status
    requires given { IfSome command CanBeGiven }
    requires settled { IsSettled (M.disk machine.old (M.now machine.old)) }
    ensures run { IsRun M.now M.disk M.told machine.old machine.new result (I.left source.old)
        (I.left source.new) (is_known (S.state scratch.old)) block_in compiled_in command }
    ensures untouched { changes_log command ≡ false → Stays M.now M.disk machine.old machine.new }
    ensures silent { tells_as_it_goes command ≡ false
        → IsSilent result (M.told machine.old) (M.told machine.new) }
    ensures unwritten { tells_as_it_goes command ≡ false → result ≡ Status.Memory
        → Stays M.now M.disk machine.old machine.new }
    ensures unread { reads_input command ≡ false → source.new ≡ source.old }
    ensures goes_on { changes_log command ≡ true
        → HeldIsGiven (is_known (S.state scratch.old)) command → (content : List ℕ)
        → content_of (M.disk machine.old (M.now machine.old)) ≡ Some content
        → Keeps M.now M.disk machine.old machine.new (MayLeaveBy next_in_chain command content) }
    ensures log_goes_on { changes_log command ≡ true → (content : List ℕ)
        → content_of (M.disk machine.old (M.now machine.old)) ≡ Some content
        → Keeps M.now M.disk machine.old machine.new (MayLeaveBy next_in_log command content) }
    ensures unused { uses_disk command ≡ false
        → M.disk_faults machine.new ≡ M.disk_faults machine.old }
    ensures unused_scratch { uses_scratch command ≡ false → scratch.new ≡ scratch.old }
    ensures ends { MayEnd result command }
    ensures no_log { found_no_log result ≡ true → source.new ≡ source.old }
    ensures unreadable { HasCause (I.source_faults source.old) (I.source_faults source.new)
        (result ≡ Status.Unreadable) }
    ensures untold { HasCause (M.wire_faults machine.old) (M.wire_faults machine.new)
        (result ≡ Status.Untold) }
    ensures disk_fault { HasCause (M.disk_faults machine.old) (M.disk_faults machine.new)
        (result ≡ Status.DiskFault) }
    ensures scratch_fault { HasCause (S.scratch_faults scratch.old)
        (S.scratch_faults scratch.new) (result ≡ Status.ScratchFault) }
{
    match command {
        None => match tell_usage(resources.alloc, machine) {
            Ok(()) => Status::Usage,
            Err(stop) => status_of_stop(stop),
        },
        Some(command) => match run_command(resources, &command, source, machine, scratch) {
            Ok(ending) => ending.status(),
            Err(stop) => status_of_stop(stop),
        },
    }
}

/// Everything that the program does: it reads the words, the input and the disk, keeps bodies of
/// versions on the scratch device, prints the lines, and appends to the log or marks it.
#[tactic(auto, using(crate::proofs::OneOutput::one_output, crate::proofs::Formatted::formats_again, crate::proofs::Held::proved_answers_hold, crate::proofs::HeldLights::light_answers_hold, cli_output::proofs::WrongTold::wrong_answers_are_told, block_codec::proofs::WholeBlocks::decided, crate::proofs::OneOutput::compiled_by))]
pub fn run<I: Source, M: Disk + Wire, S: Scratch>(
    resources: Resources,
    words: &[String],
    source: &mut I,
    machine: &mut M,
    scratch: &mut S,
) -> Status
    // If the disk is known, nothing is pending.
    requires settled { IsSettled (M.disk machine.old (M.now machine.old)) }
    // The words are one command, or none.
    ensures command { (command : Option Commands)
        × IsOneCommand (map string_bytes words.now) command }
    // What is printed, the status, what is left of the input, and what a crash at any moment may
    // leave of the log, are determined by the words, the input and the content of the disk; for a
    // command that uses the scratch device, if it is known which bytes that holds.
    ensures output { (read : Decoder) × IsDecoder read × ((compile : Compiler) × IsCompiler compile
        × ((command : Option Commands) → IsCommand (map string_bytes words.now) command
        → IsRun M.now M.disk M.told machine.old machine.new result (I.left source.old)
        (I.left source.new) (is_known (S.state scratch.old)) read compile command)) }
    // For a command, an input of bytes and a disk of bytes there is exactly one output.
    ensures one { (command : Option Commands) (input content : List ℕ) → IsBytes input
        → IsBytes content
        → IsOneOutput (IsWanted command input content) }
    // The canonical text that `fmt` prints in an edition, it prints again for that text.
    ensures formats_again { (edition : ℕ) (input : List ℕ) → FormatsAgain edition input }
    // What `verify` prints is what replaying any chain with the root shows, up to the block at which
    // the chain has it: the answer about a version (`verify`), a version with all its ancestors
    // (`trace verify`), or all versions of a key between two blocks (`range verify`); or a text of
    // the proof and one of that chain's ledger differ and have one digest.
    ensures proved { (root : List ℕ) (question : Question) (input : List ℕ)
        → ProvedAnswersHold root question input }
    // For a proof that is accepted with another answer than that of a chain with the root, `expose`
    // prints a text of the proof and one of that chain's ledger that differ and have one digest.
    ensures exposed { (root : List ℕ) (query : Query) (root_at : ℕ) (input : List ℕ)
        → WrongAnswersAreTold root query root_at input }
    // The ancestors of a version are those versions that are reached from it by one or more
    // dependencies, each once, in the order of their blocks and keys.
    ensures ancestors { AncestorsAreTheReached }
    // The answer that `light` prints for a proof is that of replaying any chain of which the light
    // file is, up to the block of the proof's root; or a text of the proof and one of that chain's
    // ledger differ and have one digest.
    ensures checked { (input : List ℕ) → LightAnswersHold input }
    // Where the chain of the log is a prefix of a leader's, and the input has only blocks of the
    // leader, in any order, the chain with the blocks that `follow` appends is a prefix of it, too,
    // and so is it with any first ones of these.
    ensures followed { (input : List ℕ) → FollowedChainsArePrefixes input }
    // The bytes that `light make` prints over the blocks of a log are their light file; by it each
    // proof that is made of these blocks, if they are a chain, is accepted with the replay's answer.
    ensures light_made { MadeLightFilesAreWhole }
    // Whatever the source has left, if the disk is known, and, for a command that uses the scratch
    // device, which bytes that holds: a crash at any moment leaves what the disk held; or, by a
    // command that appends, its chain with further blocks, marked exactly if it was; or, by the one
    // that marks, its chain, marked.
    ensures goes_on { (read : Decoder) × IsDecoder read × ((compile : Compiler) × IsCompiler compile
        × ((command : Option Commands) → IsCommand (map string_bytes words.now) command
        → HeldIsGiven (is_known (S.state scratch.old)) command → (content : List ℕ)
        → content_of (M.disk machine.old (M.now machine.old)) ≡ Some content
        → Keeps M.now M.disk machine.old machine.new
        (MayLeaveBy (next_by read compile) command content))) }
    // The same whatever the scratch device returns, with rows not counted: the blocks from before
    // stay, and only blocks follow them, each placed by its digest, its number, its version and its
    // budget.
    ensures log_goes_on { (read : Decoder) × IsDecoder read
        × ((command : Option Commands) → IsCommand (map string_bytes words.now) command
        → (content : List ℕ) → content_of (M.disk machine.old (M.now machine.old)) ≡ Some content
        → Keeps M.now M.disk machine.old machine.new
        (MayLeaveBy (log_next_by read) command content)) }
    // Whatever the source has left and the disk holds: a command that does not change the log
    // leaves the disk as it is;
    ensures untouched { (command : Option Commands) → IsCommand (map string_bytes words.now) command
        → changes_log command ≡ false → Stays M.now M.disk machine.old machine.new }
    // if a command does not use the disk, no call of the disk fails;
    ensures unused { (command : Option Commands) → IsCommand (map string_bytes words.now) command
        → uses_disk command ≡ false → M.disk_faults machine.new ≡ M.disk_faults machine.old }
    // a command that does not use the scratch device leaves it as it is, so no call of it fails;
    ensures unused_scratch { (command : Option Commands)
        → IsCommand (map string_bytes words.now) command
        → uses_scratch command ≡ false → scratch.new ≡ scratch.old }
    // a command that reads no input leaves the source as it is;
    ensures unread { (command : Option Commands) → IsCommand (map string_bytes words.now) command
        → reads_input command ≡ false → source.new ≡ source.old }
    // and so does one that found no log that it could read;
    ensures no_log { found_no_log result ≡ true → source.new ≡ source.old }
    // a command that the source, the disk or the scratch device fails, or that runs out of memory,
    // prints nothing, unless it prints lines while it makes others;
    ensures silent { (command : Option Commands) → IsCommand (map string_bytes words.now) command
        → tells_as_it_goes command ≡ false
        → IsSilent result (M.told machine.old) (M.told machine.new) }
    // and if it runs out of memory, it leaves the disk as it is;
    ensures unwritten { (command : Option Commands) → IsCommand (map string_bytes words.now) command
        → tells_as_it_goes command ≡ false → result ≡ Status.Memory
        → Stays M.now M.disk machine.old machine.new }
    // each command ends only with a status that it may end with;
    ensures ends { (command : Option Commands) → IsCommand (map string_bytes words.now) command
        → MayEnd result command }
    // and a source, a wire, a disk or a scratch device is blamed exactly if it failed.
    ensures unreadable { HasCause (I.source_faults source.old) (I.source_faults source.new)
        (result ≡ Status.Unreadable) }
    ensures untold { HasCause (M.wire_faults machine.old) (M.wire_faults machine.new)
        (result ≡ Status.Untold) }
    ensures disk_fault { HasCause (M.disk_faults machine.old) (M.disk_faults machine.new)
        (result ≡ Status.DiskFault) }
    ensures scratch_fault { HasCause (S.scratch_faults scratch.old)
        (S.scratch_faults scratch.new) (result ≡ Status.ScratchFault) }
{
    let command = command_of(words);
    run_words(resources, command, source, machine, scratch)
}

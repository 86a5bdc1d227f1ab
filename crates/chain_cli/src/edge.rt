//! The edge of the program: which file is the log, which streams are the input and the output, and
//! which folder has the scratch file. No contract can name these.

ghost use Rattle.std.specs.Prelude.{map, string_bytes, Option, None};
ghost use Rattle.cli_words.specs.{declared.words.Command.{Command}, Words.{IsCommand}};
ghost use Rattle.cli_output.specs.Running.{MayEnd};

use crate::run::run;
use cli_lines::Status;
use cli_output::{status_of_stop, tell_usage};
use file_machine::FileMachine;
use file_scratch::FileScratch;
use lc_base::{Memory, Resources};
use lc_io::{HostSource, HostWire, Patient};
use std::env::{self, VarError};

/// The file of the log, in the current folder.
const LOG_FILE: &str = "chain.log";

/// The environment variable that names the folder of temporary files.
const SCRATCH_FOLDER: &str = "TMPDIR";

/// The folder of the scratch file if the variable is unset, empty or no text.
const PRESENT_FOLDER: &str = ".";

/// The scratch device of a run. It has not touched a file yet.
fn scratch_of(rt: &HostRuntime) -> Result<FileScratch<'_>, Memory> {
    match env::var(rt, SCRATCH_FOLDER) {
        Ok(folder) if !folder.is_empty() => FileScratch::new(rt.alloc(), rt, folder.as_str()),
        Err(VarError::OutOfMemory) => Err(Memory),
        _ => FileScratch::new(rt.alloc(), rt, PRESENT_FOLDER),
    }
}

/// Runs on the words, over standard input, standard output, the log and a scratch file.
pub(crate) fn run_on_words(rt: &HostRuntime, resources: Resources, words: &[String]) -> Status
    // Each command ends only with a status that it may end with.
    ensures ends { (command : Option Command) → IsCommand (map string_bytes words.now) command
        → MayEnd result command }
{
    let mut scratch = match scratch_of(rt) {
        Ok(scratch) => scratch,
        Err(Memory) => return Status::Memory,
    };
    let mut source = HostSource::new(Patient::new(rt, rt.stdin()));
    let mut machine = FileMachine::new(rt, LOG_FILE, Patient::new(rt, rt.stdout()));
    let status = run(resources, words, &mut source, &mut machine, &mut scratch);
    let _closed = scratch.close();
    status
}

/// Prints `usage` on standard output.
pub(crate) fn tell_usage_on_host(rt: &HostRuntime) -> Status
    ensures ends { MayEnd result None }
{
    let mut wire = HostWire::new(Patient::new(rt, rt.stdout()));
    match tell_usage(rt.alloc(), &mut wire) {
        Ok(()) => Status::Usage,
        Err(stop) => status_of_stop(stop),
    }
}

//! The program's exit: the number of its status.

ghost use Rattle.std.specs.{Prelude.{◌≡◌}, Process.{exit_status}};
ghost use Rattle.cli_lines.specs.Status.{status_number};

use cli_lines::Status;
use std::process::ExitCode;

/// The exit code with the number of the status.
pub fn exit_of(status: Status) -> ExitCode
    ensures { exit_status result ≡ status_number status }
{
    ExitCode::from(status.number())
}

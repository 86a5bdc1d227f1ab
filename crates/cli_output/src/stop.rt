//! Why a command stops before its end, as an exit status.

ghost use Rattle.std.specs.Prelude.{◌≡◌};
ghost use Rattle.cli_output.specs.Telling.{status_of_stop, stop_of_outcome, stop_of_source};

use cli_promises::{RunStop, Status};
use lc_base::{HostError, Memory};

/// The exit status of a stop.
pub fn status_of_stop(stop: RunStop) -> Status
    ensures { result ≡ status_of_stop stop }
{
    match stop {
        RunStop::Unreadable => Status::Unreadable,
        RunStop::Untold => Status::Untold,
        RunStop::DiskFault => Status::DiskFault,
        RunStop::ScratchFault => Status::ScratchFault,
        RunStop::Memory => Status::Memory,
    }
}

/// Why a command has no outcome to print.
#[derive(Clone, Copy)]
pub enum OutcomeStop {
    /// Reading the input failed.
    Unreadable,
    /// A call of the disk failed.
    DiskFault,
    /// A call of the scratch device failed.
    ScratchFault,
    /// Memory ran out.
    Memory,
}

impl OutcomeStop {
    /// Why the command stops.
    pub fn run_stop(self) -> RunStop
        ensures { result ≡ stop_of_outcome self }
    {
        match self {
            OutcomeStop::Unreadable => RunStop::Unreadable,
            OutcomeStop::DiskFault => RunStop::DiskFault,
            OutcomeStop::ScratchFault => RunStop::ScratchFault,
            OutcomeStop::Memory => RunStop::Memory,
        }
    }
}

impl From<Memory> for OutcomeStop {
    ghost use Rattle.cli_output.specs.declared.stop.OutcomeStop.TheVariants.{Memory};

    ghost from_gives = { λ _ stop. stop ≡ Memory };

    fn from(_memory: Memory) -> OutcomeStop {
        OutcomeStop::Memory
    }
}

impl From<HostError> for OutcomeStop {
    ghost from_gives = { λ failed stop. stop ≡ stop_of_source failed };

    fn from(error: HostError) -> OutcomeStop {
        match error {
            HostError::Fault => OutcomeStop::Unreadable,
            HostError::Memory => OutcomeStop::Memory,
        }
    }
}

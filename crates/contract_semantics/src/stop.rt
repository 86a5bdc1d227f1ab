//! Only a status belongs to the ledger; a fault or a want of memory ends the evaluation without
//! one.

ghost use Rattle.std.specs.Prelude.{◌≡◌};
ghost use Rattle.contract_semantics.specs.declared.stop.EvalStop.TheVariants as stops;

use lc_base::{Memory, TxStatus};
use std::alloc::AllocFailed;

/// Why an evaluation stopped before its end.
#[derive(Clone, Copy)]
pub enum EvalStop {
    /// The transaction fails with this status.
    Status(TxStatus),
    /// The host failed.
    Fault,
    /// Out of memory.
    Memory,
}

impl From<TxStatus> for EvalStop {
    ghost from_gives = { λ status stop. stop ≡ stops.Status status };

    fn from(status: TxStatus) -> EvalStop {
        EvalStop::Status(status)
    }
}

impl From<Memory> for EvalStop {
    ghost from_gives = { λ _ stop. stop ≡ stops.Memory };

    fn from(_memory: Memory) -> EvalStop {
        EvalStop::Memory
    }
}

impl<T: Drop> From<AllocFailed<T>> for EvalStop {
    ghost from_gives = { λ _ stop. stop ≡ stops.Memory };

    fn from(_error: AllocFailed<T>) -> EvalStop {
        EvalStop::Memory
    }
}

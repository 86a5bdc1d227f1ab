//! Why a contract is not well kinded.

ghost use Rattle.std.specs.Prelude.{◌≡◌};
ghost use Rattle.contract_check.specs.declared.fault.CheckError.TheVariants as CheckErrors;

use lc_base::Memory;

/// What is wrong with a contract.
#[derive(Clone, Copy)]
pub enum CheckKind {
    /// A name that is not visible where it is used or assigned, or a call of something that is no
    /// builtin.
    Unknown,
    /// A function whose name was used before, or a parameter or a `let` whose name is visible.
    Again,
    /// A builtin that is called with a wrong number of arguments.
    Count,
    /// An operand, argument, condition, key or assigned value of the wrong kind.
    Kind,
}

/// The first fault of a contract in the order of checking.
#[derive(Clone, Copy)]
pub struct Fault {
    /// The offset of the name, operand or call that is invalid.
    pub at: u32,
    /// What is wrong with it.
    pub kind: CheckKind,
}

/// Why a contract did not pass the check.
#[derive(Clone, Copy)]
pub enum CheckError {
    /// The contract has a fault.
    Refused {
        /// The offset of the name, operand or call that is invalid.
        at: u32,
        /// What is wrong with it.
        kind: CheckKind,
    },
    /// Out of memory.
    Memory,
}

impl From<Fault> for CheckError {
    ghost from_gives = { λ fault error. error ≡ CheckErrors.Refused fault.at fault.kind };

    fn from(fault: Fault) -> CheckError {
        CheckError::Refused {
            at: fault.at,
            kind: fault.kind,
        }
    }
}

impl From<Memory> for CheckError {
    ghost from_gives = { λ _ error. error ≡ CheckErrors.Memory };

    fn from(_error: Memory) -> CheckError {
        CheckError::Memory
    }
}

use lc_base::{Key, Name, TxStatus};

/// A call: which function is called, by whom, in which block, and with what budget.
#[derive(Clone, Copy)]
pub struct CallSite {
    /// The contract that is called.
    pub contract: Name,
    /// The function of the contract that is called.
    pub function: Name,
    /// The key of the caller.
    pub sender: Key,
    /// The number of the block that the call is in.
    pub number: u32,
    /// The most that the call may cost.
    pub budget: u32,
}

/// How a call ended, and what it cost.
#[derive(Clone, Copy)]
pub struct Outcome {
    /// The status; other than `Ok` if the call failed.
    pub status: TxStatus,
    /// The sum of the charges that were taken, at most the budget.
    pub cost: u32,
}

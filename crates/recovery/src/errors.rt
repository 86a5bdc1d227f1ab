//! Why a node was not started, or did not take a block. Only a refusal leaves the node usable.

use rooted_chain::Refusal;

/// Why no node could be started.
#[derive(Clone, Copy)]
pub enum StartError {
    /// The disk holds something other than a log.
    NotALog,
    /// The bytes at the gate at this offset are no record of the chain's next block.
    Damaged { at: u64 },
    /// A call of the disk failed.
    DiskFault,
    /// A call of the scratch device failed.
    ScratchFault,
    /// Memory ran out.
    Memory,
}

/// Why a block was not taken.
#[derive(Clone, Copy)]
pub enum AppendError {
    /// The chain refuses it, for this reason.
    Refused(Refusal),
    /// A call of the disk failed.
    DiskFault,
    /// A call of the scratch device failed.
    ScratchFault,
    /// Memory ran out.
    Memory,
}

//! What becomes of a block, and why a follower stops.

use chain_exec::ReceiptList;
use follower_steps::Cause;
use lc_base::Digest;

/// What became of a block in one turn.
#[derive(Drop)]
pub enum Turn {
    /// It was stored at this number. It wrote `rows` rows, there is a receipt for each of its
    /// transactions, and this is the root at it.
    Block {
        number: u32,
        rows: u32,
        receipts: ReceiptList,
        root: Digest,
    },
    /// The chain holds it already, at this number.
    Known {
        number: u32,
    },
    /// It waits until the blocks before this number, its own, are held.
    Kept {
        number: u32,
    },
    /// It was dropped; `index` is that of the frame that brought it, from 0.
    Dropped {
        index: u32,
        cause: Cause,
    },
}

/// Why a follower was discarded.
#[derive(Clone, Copy)]
pub enum FollowFault {
    /// A call of the disk failed.
    DiskFault,
    /// A call of the scratch device failed.
    ScratchFault,
    /// Memory ran out.
    Memory,
}

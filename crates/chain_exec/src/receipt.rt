//! Receipts of transactions: the only trace that a failed transaction leaves.

use lc_base::{Seq, TxStatus};

/// How a transaction ended, and what it cost.
#[derive(Clone, Copy)]
pub struct Receipt {
    pub status: TxStatus,
    /// In steps: at most the budget of a Call, and 0 for a Set or a Deploy.
    pub cost: u32,
}

/// The receipts of a block, one for each of its transactions, in order.
pub type ReceiptList = Seq<Receipt>;

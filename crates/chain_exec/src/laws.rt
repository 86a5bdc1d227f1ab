//! Laws of what transactions and blocks do, each the contract of an empty function.

ghost use Rattle.std.specs.Prelude.{List};
ghost use Rattle.block_codec.specs.declared.block.Block.{Block};
ghost use Rattle.chain_exec.specs.{
  Compiled.{Compiler},
  Laws.{OneCompiler, ReceiptsIgnoreIndexes, FailuresLeaveNothing, CostsAreWithinBudgets, NextBlocksAreWithinBudget, ReplayGrows, BlocksKeepLawful, BlocksKeepOrder},
};

/// There is one right compiler, so each source is deployed as one contract, or is refused.
pub fn one_compiler()
    ensures { OneCompiler }
{}

/// How a transaction ends and what it costs does not depend on its index in the block.
pub fn receipts_ignore_indexes()
    ensures { ReceiptsIgnoreIndexes }
{}

/// A transaction that fails leaves no row and no code.
pub fn failures_leave_nothing()
    ensures { FailuresLeaveNothing }
{}

/// A transaction costs at most its budget, and a block that is placed as the next one costs at most
/// `MAX_BLOCK_BUDGET` in all.
pub fn costs_are_within_budgets()
    ensures each { CostsAreWithinBudgets }
    ensures block { NextBlocksAreWithinBudget }
{}

/// Another block changes nothing of what was replayed before it.
pub fn replay_grows()
    ensures { (compile : Compiler) (blocks : List Block) (block : Block)
        → ReplayGrows compile blocks block }
{}

/// The rows of a block keep a lawful history lawful, and all rows are then of blocks up to this
/// one.
pub fn blocks_keep_lawful()
    ensures lawful { BlocksKeepLawful }
    ensures order { BlocksKeepOrder }
{}

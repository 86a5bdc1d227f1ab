//! Laws of what calls, blocks and replays write, each the contract of an empty function.

ghost use Rattle.replay_soundness.specs.TypedLaws.{CallsWriteTypedRows, CompilersGiveValues, BlocksAddTypedRows, ChainsOfValuesAreTyped, ReplaysAreTyped};

/// What a call writes over a typed history is lawful and typed.
pub fn calls_write_typed_rows()
    ensures { CallsWriteTypedRows }
{}

/// The literals of every contract that a right compiler makes are values.
pub fn compilers_give_values()
    ensures { CompilersGiveValues }
{}

/// The rows that a block adds to a typed history are rows of a block, and typed.
pub fn blocks_add_typed_rows()
    ensures { BlocksAddTypedRows }
{}

/// The rows of a chain and the digests of its blocks are a typed ledger, under each compiler whose
/// contracts have literals that are values.
pub fn chains_of_values_are_typed()
    ensures { ChainsOfValuesAreTyped }
{}

/// The rows of a chain and the digests of its blocks are a typed ledger, under each right compiler.
pub fn replays_are_typed()
    ensures { ReplaysAreTyped }
{}

//! Laws of what accepted proofs of ancestors say of chains, each the contract of an empty function.

ghost use Rattle.replay_soundness.specs.Traces.{AcceptedTracesAreOfReplays};

/// An accepted proof shows the last version of the key up to the block, with all of its ancestors,
/// of replaying any chain with the root, up to the block at which the chain has it; or a text of the
/// proof and one of that chain's ledger differ and have one digest.
pub fn accepted_traces_are_of_replays()
    ensures { AcceptedTracesAreOfReplays }
{}

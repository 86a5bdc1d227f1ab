//! Laws of what accepted range proofs say of chains, each the contract of an empty function.

ghost use Rattle.replay_soundness.specs.Ranges.{AcceptedRangesAreOfReplays};

/// An accepted range proof shows all versions of the key between the blocks, of replaying any chain
/// with the root, up to the block at which the chain has it; or a text of the proof and one of that
/// chain's ledger differ and have one digest.
pub fn accepted_ranges_are_of_replays()
    ensures { AcceptedRangesAreOfReplays }
{}

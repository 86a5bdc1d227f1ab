//! Laws of which proofs of ancestors are accepted and made. Each is the contract of a function that
//! does nothing.

ghost use Rattle.proof_checks.specs.{
  TraceSoundness.{AcceptedTracesAreSound},
  TraceMaking.{MadeTracesAreAccepted, MadeTracesAreProofs},
};

/// What an accepted proof shows are all ancestors of the version in every typed history that has
/// the root at some block, up to that block; or a text of the proof and one of the history differ
/// and have one digest.
pub fn accepted_traces_are_sound()
    ensures { AcceptedTracesAreSound }
{}

/// Whoever has the root at a block accepts the proof that is made of the ledger there, with the
/// ancestors in the rows up to that block.
pub fn made_traces_are_accepted()
    ensures { MadeTracesAreAccepted }
{}

/// The proof that is made of a ledger can be spelled, so it has at most `MAX_ROWS` items, and its
/// start fewer than 2^32 bytes.
pub fn made_traces_are_proofs()
    ensures { MadeTracesAreProofs }
{}

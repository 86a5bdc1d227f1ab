//! Laws of which range proofs are accepted and made. Each is the contract of a function that does
//! nothing.

ghost use Rattle.proof_checks.specs.{
  RangeSoundness.{AcceptedRangesAreSound},
  RangeMaking.{MadeRangesAreAccepted, MadeRangesAreProofs},
};

/// What an accepted range proof shows are all versions of the key between the blocks in every typed
/// history that has the root at some block, up to that block; or a text of the range proof and one
/// of the history differ and have one digest.
pub fn accepted_ranges_are_sound()
    ensures { AcceptedRangesAreSound }
{}

/// Whoever has the root at a block accepts the range proof that is made of the ledger there, with
/// all versions of the key between the blocks in the rows up to that block.
pub fn made_ranges_are_accepted()
    ensures { MadeRangesAreAccepted }
{}

/// The range proof that is made of a ledger can be spelled, so four bytes count its headers.
pub fn made_ranges_are_proofs()
    ensures { MadeRangesAreProofs }
{}

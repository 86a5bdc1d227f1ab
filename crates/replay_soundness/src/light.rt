//! Laws of proofs that a light file accepts, each the contract of an empty function.

ghost use Rattle.replay_soundness.specs.LightSoundness.{
  LightAnswersAreOfReplays,
  MadeProofsAreAcceptedByFiles,
};

/// What bytes answer by a light file is what replaying any chain of which the file is answers, up
/// to the block of the proof's root; or a text of the proof and one of that chain's ledger differ
/// and have one digest.
pub fn light_answers_are_of_replays()
    ensures { LightAnswersAreOfReplays }
{}

/// Every proof that is made of a chain at a block of a light file of the chain can be spelled, and
/// is accepted by the file, with the answer of replaying the chain up to that block.
pub fn made_proofs_are_accepted_by_files()
    ensures { MadeProofsAreAcceptedByFiles }
{}

//! Laws of accepted proofs, each the contract of an empty function. Each says what holds unless two
//! texts clash: differ and have one digest.

ghost use Rattle.replay_soundness.specs.Soundness.{AcceptedProofsAnswerAsReplays, AcceptedProofsAnswerAsLogs, AcceptedAnswersAgree, NothingAndSomethingClash, ChainsWithOneRootAnswerAlike, WrongAnswersAreExposed};

/// An accepted proof has the answer of replaying any chain with the root, up to the block at which
/// the chain has it; or a text of the proof and one of that chain's ledger differ and have one
/// digest.
pub fn accepted_proofs_answer_as_replays()
    ensures { AcceptedProofsAnswerAsReplays }
{}

/// The same for the chain that a log stands for, and the root at one of its blocks.
pub fn accepted_proofs_answer_as_logs()
    ensures { AcceptedProofsAnswerAsLogs }
{}

/// Two proofs that are accepted for one query, under a root that a chain has, have one answer; or a
/// text of one of them and one of the chain's ledger differ and have one digest.
pub fn accepted_answers_agree()
    ensures { AcceptedAnswersAgree }
{}

/// Two accepted proofs, one of which answers nothing and the other something, do clash.
pub fn nothing_and_something_clash()
    ensures { NothingAndSomethingClash }
{}

/// Two chains with one root answer a query alike if a proof is accepted for it under the root; or a
/// text of the proof and one of the ledger of either chain differ and have one digest.
pub fn chains_with_one_root_answer_alike()
    ensures { ChainsWithOneRootAnswerAlike }
{}

/// If an accepted proof answers otherwise than a chain with the root, the search for the first
/// clash of its texts with those of the chain's ledger finds one.
pub fn wrong_answers_are_exposed()
    ensures { WrongAnswersAreExposed }
{}

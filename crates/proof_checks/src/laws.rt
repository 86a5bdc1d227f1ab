//! Laws of which proofs are accepted and made. Each is the contract of a function that does
//! nothing.

ghost use Rattle.proof_checks.specs.{
  Named.{NamedHeadersAreOfRows, NamedBodiesAreOfRows},
  Soundness.{AcceptedProofsAreSound, JudgedProofsAreSound, AcceptedProofsShowVersions, LeafProofsShowLeaves},
  Making.{MadeProofIsMade, MadeProofIsAccepted, MadeProofsAreUnique, MadeProofsAreAccepted, MadeProofsAreProofs},
};

/// The answer of an accepted proof is that of scanning every typed history that has the root at
/// some block, up to that block; or a text of the proof and one of the history differ and have one
/// digest.
pub fn accepted_proofs_are_sound()
    ensures { AcceptedProofsAreSound }
{}

/// The same of a proof that is judged by its own query.
pub fn judged_proofs_are_sound()
    ensures { JudgedProofsAreSound }
{}

/// A leaf proof that leads to a root shows a leaf of every typed history that has the root at some
/// block, and that block; or a text of the leaf proof and one of the history differ and have one
/// digest.
pub fn leaf_proofs_show_leaves()
    ensures { LeafProofsShowLeaves }
{}

/// The last header and the body of an accepted proof are those of the version that answers in every
/// typed history that has the root at some block; or a text of the proof and one of the history
/// differ and have one digest.
pub fn accepted_proofs_show_versions()
    ensures { AcceptedProofsShowVersions }
{}

/// A header that has the digest by which a row of a typed history is named is the row's header; or
/// the texts of the two headers differ and have one digest.
pub fn named_headers_are_of_rows()
    ensures { NamedHeadersAreOfRows }
{}

/// A body that has the digest in the header of a row of a typed history is the row's body; or the
/// texts of the two bodies differ and have one digest.
pub fn named_bodies_are_of_rows()
    ensures { NamedBodiesAreOfRows }
{}

/// The result of `made_proof` is a proof that is made of the ledger, if the query is of a key.
pub fn made_proof_is_made()
    ensures { MadeProofIsMade }
{}

/// Only one proof is made for a query.
pub fn made_proofs_are_unique()
    ensures { MadeProofsAreUnique }
{}

/// Whoever has the root at a block accepts the proof that is made of the ledger there, with the
/// answer of scanning the rows up to that block.
pub fn made_proofs_are_accepted()
    ensures { MadeProofsAreAccepted }
{}

/// A proof that is made can be spelled: its path is short enough for one byte to count the headers.
pub fn made_proofs_are_proofs()
    ensures { MadeProofsAreProofs }
{}

/// The result of `made_proof` can be spelled and is accepted if the query is of a key and its block
/// isn't after the root's.
pub fn made_proof_is_accepted()
    ensures { MadeProofIsAccepted }
{}

//! Which proofs are accepted by one who has the root at a block, what they show, and which proof is
//! made of a ledger: of an answer, of all ancestors of a version, and of all versions of a key
//! between two blocks. Definitions, and the laws that bind them together.
#![tactic(auto)]

mod claim;
mod laws;
mod range_laws;
mod range_limits;
mod range_proof;
mod range_reject;
mod reject;
mod trace_laws;
mod trace_limits;
mod trace_proof;
mod trace_reject;

pub use claim::Claim;
pub use laws::{
    accepted_proofs_are_sound, accepted_proofs_show_versions, judged_proofs_are_sound,
    leaf_proofs_show_leaves, made_proof_is_accepted, made_proof_is_made, made_proofs_are_accepted,
    made_proofs_are_proofs, made_proofs_are_unique, named_bodies_are_of_rows,
    named_headers_are_of_rows,
};
pub use proof_codec::{
    AuditView, BodyDepView, BodyView, HeaderView, HeadersView, LeafProofView, LeafView, LinkView,
    ProofView, UseView, ViewError, kind_byte, view,
};
pub use range_laws::{accepted_ranges_are_sound, made_ranges_are_accepted, made_ranges_are_proofs};
pub use range_limits::RANGE_MAGIC;
pub use range_proof::{BodyList, RangeProof};
pub use range_reject::RangeReject;
pub use reject::Reject;
pub use trace_laws::{accepted_traces_are_sound, made_traces_are_accepted, made_traces_are_proofs};
pub use trace_limits::TRACE_MAGIC;
pub use trace_proof::{TraceItem, TraceItemList, TraceProof};
pub use trace_reject::TraceReject;

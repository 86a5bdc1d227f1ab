//! Checks proofs of all ancestors of a version. Their bytes are read in place; memory is taken for
//! the versions that are wanted and for those that are shown, each of which the bytes spell.
#![tactic(auto)]

mod error;
mod item_view;
mod items;
mod items_view;
mod start;
mod trace_view;
mod verifying;
mod wanted;

pub use error::TraceError;
pub use item_view::ItemView;
pub use items_view::ItemsView;
pub use proof_verifier::{Found, verify};
pub use trace_view::{TraceView, view_trace};
pub use verifying::verify_trace;
pub use wanted::Wanted;

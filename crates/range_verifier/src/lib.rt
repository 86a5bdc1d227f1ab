//! Checks proofs of all versions of a key between two blocks. Their bytes are read in place; memory
//! is taken for the versions that are shown alone, and only once all checks have passed.
#![tactic(auto)]

mod bodies;
mod bodies_view;
mod checks;
mod error;
mod front;
mod range_view;
mod rule;
mod shown;
mod verifying;
mod versions;
mod within;

pub use bodies_view::BodiesView;
pub use error::RangeError;
pub use range_view::{RangeView, view_range};
pub use verifying::verify_range;
pub use within::is_within;

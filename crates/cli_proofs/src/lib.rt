//! The commands about proofs and light files: what each of them prints, over the input and the
//! lineage of a chain.
#![tactic(auto)]

mod checking;
mod exposing;
mod judging;
mod light_lines;
mod lines;
mod making;
mod proving;
mod taking;
mod verifying;

pub use checking::light;
pub use exposing::expose;
pub use making::make_light;
pub use proving::{hex_line, prove};
pub use verifying::{bad_hex, verify};

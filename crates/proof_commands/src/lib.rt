//! Verifies proofs in hex, of each kind of question, and says in a line why one isn't accepted.
#![tactic(auto)]

mod answering;
mod lines;
mod range_lines;
mod refusing;
mod trace_lines;
mod verification;
mod verifying;

pub use answering::answer_of;
pub use lines::reject_text;
pub use refusing::rejected_line;
pub use verification::{HexFault, Refused, Shown, Verification};
pub use verifying::{decode_hex, verify_hex};

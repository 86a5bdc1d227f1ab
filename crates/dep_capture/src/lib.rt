//! The reads and puts of one transaction, and what each put depends on.
#![tactic(auto)]

mod access;
mod capture;
mod dependencies;
mod error;
mod keyed;
mod limits;
mod puts;

pub use access::{Put, Read};
pub use capture::Capture;
pub use error::CaptureError;
pub use limits::{MAX_KEYS_PUT, MAX_KEYS_READ};

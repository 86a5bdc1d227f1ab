//! Digests of tagged bytes: a leading tag separates the kinds of what is digested. And digests as
//! text.
#![tactic(auto)]

mod hasher;
mod hex_text;

pub use hasher::TagHasher;
pub use hex_text::digest_text;

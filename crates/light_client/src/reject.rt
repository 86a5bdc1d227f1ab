//! The checks of a proof by a light file run in a fixed order; each has its own way to fail, and
//! the first one that fails is reported.

use lc_base::Digest;
use proof_verifier::Reject;

/// The first check of a proof by a light file that fails.
#[derive(Clone, Copy)]
pub enum LightReject {
    /// The bytes aren't a proof.
    Malformed {
        /// The offset of the first field that is cut short or breaks its rule.
        at: usize,
    },
    /// The file doesn't have the block of the proof's root.
    Unknown {
        /// The number of blocks in the file.
        count: u32,
    },
    /// The file has another digest of that block than the proof.
    DigestDiffers {
        /// The digest in the file.
        have: Digest,
    },
    /// The proof fails this check under the root that the file has at that block.
    Rejected(Reject),
}

//! Each check of a range proof has its own way to fail; the first one that fails is reported.

use lc_base::Digest;

/// The first check of a range proof that fails.
#[derive(Clone, Copy)]
pub enum RangeReject {
    /// The bytes aren't a range proof.
    Malformed {
        /// The offset of the first field that is cut short or breaks its rule.
        at: usize,
    },
    /// The range proof is of another key or of other blocks.
    OtherQuery,
    /// The range proof leads to another root, whose digest is `computed`.
    RootDiffers {
        computed: Digest,
    },
    /// The leaf doesn't cover the key.
    LeafShape,
    /// The digest of a header isn't the one that the header before it names, or the leaf for the
    /// first.
    LinkDiffers {
        /// The index of the header, from 0.
        step: u32,
        computed: Digest,
    },
    /// A header is missing, there is one too many, or it is another version's.
    PathShape {
        /// The index of the header, from 0.
        step: u32,
    },
    /// The digest of a body isn't the one that its header names.
    BodyDiffers {
        /// The index of the body, from 0.
        item: u32,
        computed: Digest,
    },
}

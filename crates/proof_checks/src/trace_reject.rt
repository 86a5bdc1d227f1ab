//! Each check of a proof of ancestors has its own way to fail; the first one that fails is
//! reported.

use crate::reject::Reject;
use lc_base::Digest;

/// The first check of a proof of all ancestors that fails. The version whose ancestors they are is
/// item 0; its ancestors are items 1, 2, and so on, in the order of the proof. A version is wanted
/// from the body that names it until its own item.
#[derive(Clone, Copy)]
pub enum TraceReject {
    /// The bytes aren't a proof of ancestors.
    Malformed {
        /// The offset of the first field that is cut short or breaks its rule, from the first byte
        /// of all.
        at: usize,
    },
    /// The proof of the version isn't accepted.
    Start(Reject),
    /// The item's body names a version that isn't of an earlier block.
    Late {
        /// The number of the item.
        item: u32,
    },
    /// The item's body names a version that is wanted already, by another digest.
    Two {
        /// The number of the item.
        item: u32,
    },
    /// No version is wanted any more where the item comes.
    Extra {
        /// The number of the item, from 1.
        item: u32,
    },
    /// The item isn't the last version that is wanted, by block and then by key.
    Order {
        /// The number of the item, from 1.
        item: u32,
    },
    /// The digest of the item's header isn't the one by which the version is wanted.
    Header {
        /// The number of the item, from 1.
        item: u32,
        /// The digest of the header.
        computed: Digest,
    },
    /// The digest of the item's body isn't the one that its header names.
    Body {
        /// The number of the item, from 1.
        item: u32,
        /// The digest of the body.
        computed: Digest,
    },
    /// A version is still wanted after the last item.
    Missing {
        /// The number that the next item would have, from 1.
        item: u32,
    },
}

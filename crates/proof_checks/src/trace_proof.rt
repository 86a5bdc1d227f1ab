//! A proof of all ancestors of a version has a proof of what it was derived from directly, and of
//! each ancestor what names that ancestor's own ancestors.

use lc_base::Seq;
use proof_codec::Proof;
use root_laws::{Body, Header};

/// The header and the body of an ancestor.
#[derive(Drop)]
pub struct TraceItem {
    pub header: Header,
    pub body: Body,
}

/// A list of ancestors.
pub type TraceItemList = Seq<TraceItem>;

/// Shows all ancestors of a version to a reader who has the root at a block.
#[derive(Drop)]
pub struct TraceProof {
    /// Shows which version it is, and what it was derived from directly: a proof of kind `back`.
    pub start: Proof,
    /// The ancestors, at most `MAX_ROWS`: the latest block first, and in one block the greatest
    /// key in byte order.
    pub items: TraceItemList,
}

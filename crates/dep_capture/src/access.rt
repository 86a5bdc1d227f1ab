//! What a capture keeps of a key that a transaction read or put.

use lc_base::{DepList, Key, Value};

/// A key that was read.
#[derive(Clone, Copy)]
pub struct Read {
    pub key: Key,
    /// The number of the block of the version that the key had, if it had one.
    pub version: Option<u32>,
}

/// A key that was put.
#[derive(Drop)]
pub struct Put {
    pub key: Key,
    pub value: Value,
    /// The versions that the value was derived from. In a capture at most `MAX_DEPS`, none twice.
    pub deps: DepList,
}

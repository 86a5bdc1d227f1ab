//! A clash is named by the place of the first list's text, and by the second list's text itself,
//! since no more of that list is kept.

use lc_base::Bytes;

/// Two texts that differ and have one digest.
#[derive(Drop)]
pub(crate) struct Found {
    /// The place of the first list's text, from 0.
    pub(crate) place: usize,
    /// The second list's text.
    pub(crate) text: Bytes,
}

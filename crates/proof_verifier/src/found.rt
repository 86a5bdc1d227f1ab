//! What an accepted proof answers, borrowed from the bytes of the proof.

use byte_fields::ValueView;
use proof_checks::{BodyDepView, UseView};

/// What an accepted proof answers. Texts, dependencies, and uses are read in place, from its bytes.
#[derive(Drop)]
pub enum Found<'p> {
    /// The key has no version up to the block of the query.
    Nothing,
    /// The version's block, the index of its transaction there, and its value.
    Hist {
        block: u32,
        tx: u16,
        value: ValueView<'p>,
    },
    /// The version's block, and the versions that it was derived from.
    Back {
        block: u32,
        deps: BodyDepView<'p>,
    },
    /// The version's block, and the versions that were derived from it.
    Fwd {
        block: u32,
        uses: UseView<'p>,
    },
}

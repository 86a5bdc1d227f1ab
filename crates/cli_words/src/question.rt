//! Questions about the versions of a chain, of which there are three kinds.

use lc_base::{Key, Kind, Query};

/// A question about the versions of a chain.
#[derive(Clone, Copy)]
pub enum Question {
    /// `KIND KEY BLOCK`: about the last version of a key up to a block.
    Version(Query),
    /// `trace KEY BLOCK`: about all ancestors of the last version of a key up to a block.
    Ancestors { key: Key, at: u32 },
    /// `range KEY FROM TO`: about all versions of a key between two blocks, both included; FROM is
    /// at most TO.
    Between { key: Key, from: u32, to: u32 },
}

/// What is asked of the log.
#[derive(Clone, Copy)]
pub enum Asked {
    /// A question, which names its blocks.
    At(Question),
    /// `KIND KEY`: a question about the last version of a key up to the last block of the log.
    AtLast { kind: Kind, key: Key },
}

//! A log and the state that it keeps between calls.

ghost use Rattle.std.specs.Prelude.{◌≡◌, ◌≤◌};
ghost use Rattle.block_codec.specs.Placement.{most_blocks};
ghost use Rattle.block_log.specs.Log.{LogState};

use lc_base::Digest;
use std::marker::Model;

/// A log: where its next block goes, and which block precedes that. It keeps the buffer in which
/// records are put together, so that appending takes no memory.
#[derive(Drop)]
pub struct Log {
    pub(crate) buffer: Vec<u8>,
    pub(crate) gate: u64,
    pub(crate) count: u32,
    pub(crate) last: Digest,
    pub(crate) is_ready: bool,
    pub(crate) is_begun: bool,
    pub(crate) is_marked: bool,
}

impl Model for Log {
    ghost use Rattle.std.specs.Prelude.{◌≡◌, length};
    ghost use Rattle.block_log.specs.Log.{LogState, IsKeptLog};
    ghost use Rattle.block_log.specs.declared.layout.TheConstants.{MAX_RECORD_BYTES};

    ghost Value = { LogState };

    ghost view = { λ log. record { gate = log.gate; count = log.count; last = log.last; is_ready = log.is_ready; is_begun = log.is_begun; is_marked = log.is_marked } };

    ghost invariant = { λ log. (length log.buffer.items ≡ MAX_RECORD_BYTES) × IsKeptLog (record { gate = log.gate; count = log.count; last = log.last; is_ready = log.is_ready; is_begun = log.is_begun; is_marked = log.is_marked }) };
}

impl Log {
    /// Whether the log has a head, so that blocks can be appended. It has none if the disk held no
    /// log and `create` has not been called.
    pub fn ready(&self) -> bool
        ensures { result ≡ self.now.is_ready }
    {
        self.is_ready
    }

    /// Whether the log is marked, so that its next block has the second version. Else it has the
    /// first.
    #[tactic(auto, using(crate::proofs::Marks::kept_few))]
    pub fn marked(&self) -> bool
        ensures is { result ≡ self.now.is_marked }
        ensures few { self.now.count ≤ most_blocks self.now.is_marked }
    {
        self.is_marked
    }
}

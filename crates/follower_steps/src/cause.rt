//! Why a follower drops a block.

use chain_replay::Refusal;

/// Why a follower drops a block, or bytes that spell none.
#[derive(Clone, Copy)]
pub enum Cause {
    /// The chain refuses it, for this reason. That is never `Misplaced::Number`
    /// (`refuses_none_for_number`): a block is judged only if its number is held, or is the next.
    Refused(Refusal),
    /// Its number is more than `MAX_AHEAD` above `held`, the number of blocks that are held.
    Far { held: u32 },
    /// A block with its number waits already.
    Taken,
}

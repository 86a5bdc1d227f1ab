//! Judging a block by its placement: it is held already, it is the next one, or it is refused.

ghost use Rattle.chain_replay.specs.Judging.{judged_by_placement, IsJudged, IsPlacedBlock, IfNext};

use crate::refusal::Refusal;
use block_codec::{Block, Placement};
use lc_base::Digest;

/// What bytes are to a chain.
#[derive(Drop)]
pub enum Judged {
    /// They spell the block that the chain holds at this number.
    Known { number: u32 },
    /// They spell the chain's next block, which has this digest.
    Next { block: Block, digest: Digest },
    /// They spell no block that the chain takes.
    Refused(Refusal),
}

/// Judges a block with this digest by its placement in a chain.
pub fn judge_block(block: Block, digest: Digest, placement: Placement) -> Judged
    ensures judged { IsJudged result (judged_by_placement block placement) }
    ensures next { IfNext result (IsPlacedBlock block digest placement) }
{
    match placement {
        Placement::Known => Judged::Known {
            number: block.number,
        },
        Placement::Next => Judged::Next { block, digest },
        Placement::Not(why) => Judged::Refused(Refusal::Placed(why)),
    }
}

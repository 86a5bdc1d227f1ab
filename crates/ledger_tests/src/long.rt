//! A key that very many blocks write, and questions about each of many of them.

ghost use Rattle.std.specs.Prelude.{◌<◌, ◌≤◌};
ghost use Rattle.merkle_dag.specs.Lineage.{AgreesWith};

use crate::lineages::{Ends, Question, blocks_of_numbers, tells};
use lc_base::{Kind, TextList};
use lc_io::Scratch;
use merkle_dag::Lineage;
use std::alloc::Global;

/// The number of blocks, each of which writes the key.
pub(crate) const BLOCKS: u32 = 65_536;

/// The first block that is asked about.
const FIRST: u32 = 32_256;

/// The number of blocks that are asked about: as many as there are bodies at hand.
pub(crate) const ASKED: u32 = 1_024;

/// The most versions that may be looked at for a question: twice the number of binary digits of the
/// last block's number, and two.
const MOST_STEPS: u64 = 34;

/// The key that the blocks write.
pub(crate) const KEY: &[u8] = b"raw/a";

/// What stands before and after the number in a block that writes it to the key.
pub(crate) const WRITING: Ends<'static> = (
    "[{\"set\":{\"sender\":\"u\",\"key\":\"raw/a\",\"value\":",
    "}}]",
);

/// The blocks, each of which writes its number to the key.
pub(crate) fn numbered_blocks(alloc: Global) -> Option<TextList> {
    blocks_of_numbers(alloc, ("[", "]"), WRITING, BLOCKS, 0, 0)
}

/// Whether the version of the key at each block is that block's, and is found in few steps, for as
/// many questions, which go over `asked` blocks in turn, from `FIRST` on.
pub(crate) fn tells_numbers<S: Scratch>(
    alloc: Global,
    lineage: &mut Lineage,
    scratch: &mut S,
    questions: u32,
    asked: u32,
) -> bool
    requires some { 0 < asked }
    requires few { asked ≤ 32768 }
    requires agrees { AgreesWith lineage.old (S.state scratch.old) }
    ensures agrees { AgreesWith lineage.new (S.state scratch.new) }
{
    for number in 0..questions {
        let at = FIRST + number % asked;
        let question = Question {
            by_ask: true,
            kind: Kind::Hist,
            key: KEY,
            at,
            told: (b'i', at, 0, i64::from(at)),
            list: &[],
            error: None,
            steps: (0, MOST_STEPS),
        };
        if !tells(alloc, lineage, scratch, &question) {
            return false;
        }
    }
    true
}

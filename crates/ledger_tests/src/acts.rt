//! What is done with a lineage, one after another, and what must come of it. A lineage has many
//! parts, so few functions keep one, and nothing can fail in them while it lives.

ghost use Rattle.lc_io.specs.MemScratch.{state_over};
ghost use Rattle.merkle_dag.specs.Lineage.{AgreesWith};

use crate::alike::{has_same_answers, has_same_roots};
use crate::asked::has_audit_path;
use crate::gone::is_proved_gone;
use crate::lineages::{Question, device, lineage_of, tells};
use crate::lists::{has_closed_list, has_open_list};
use crate::long::{ASKED, tells_numbers};
use crate::ranges::{Looked, has_versions};
use lc_base::TextList;
use lc_io::MemScratch;
use merkle_dag::Lineage;
use std::alloc::Global;

/// What is done with a lineage, and what must come of it.
#[derive(Clone, Copy)]
pub(crate) enum Act<'a> {
    /// A question is asked.
    Ask(Question<'a>),
    /// As many questions are asked about the blocks of a long chain.
    AskOften(u32),
    /// The number of bodies that were read by now is from the first number to the second one.
    Gets(u64, u64),
    /// All versions of a key between two blocks are looked up.
    Range(Looked<'a>),
    /// The open list of a key, if it has rows.
    OpenList(&'a [u8], Option<&'a [u32]>),
    /// The list of the row of this index, which is closed, if there are as many rows.
    ClosedList(usize, u32, &'a [u32]),
    /// The audit path of the last of seven leaves.
    AuditPath,
    /// It is proved that a key is gone.
    ProveGone,
    /// Plain rows answer as the lineage does.
    AskAlike,
    /// A chain that makes each root with its block has the same roots.
    RootsAlike,
}

/// Whether what is done with a lineage, which is that of these blocks, has come of it.
fn comes_of(
    alloc: Global,
    blocks: &TextList,
    lineage: &mut Lineage,
    scratch: &mut MemScratch,
    act: &Act<'_>,
) -> bool
    requires agrees { AgreesWith lineage.old (state_over scratch.old.bytes) }
    ensures agrees { AgreesWith lineage.new (state_over scratch.new.bytes) }
{
    match act {
        Act::Ask(question) => tells(alloc, lineage, scratch, question),
        Act::AskOften(questions) => tells_numbers(alloc, lineage, scratch, *questions, ASKED),
        Act::Gets(least, most) => *least <= scratch.gets() && scratch.gets() <= *most,
        Act::Range(looked) => has_versions(alloc, lineage, scratch, looked),
        Act::OpenList(key, wanted) => has_open_list(lineage, key, *wanted),
        Act::ClosedList(rows, index, wanted) => has_closed_list(lineage, *rows, *index, wanted),
        Act::AuditPath => has_audit_path(lineage),
        Act::ProveGone => is_proved_gone(alloc, lineage, scratch),
        Act::AskAlike => has_same_answers(alloc, blocks, lineage, scratch),
        Act::RootsAlike => has_same_roots(alloc, blocks, lineage),
    }
}

/// Whether this holds of all that is done with a lineage, one after another.
fn all_come_of(
    alloc: Global,
    blocks: &TextList,
    lineage: &mut Lineage,
    scratch: &mut MemScratch,
    acts: &[Act<'_>],
) -> bool
    requires agrees { AgreesWith lineage.old (state_over scratch.old.bytes) }
    ensures agrees { AgreesWith lineage.new (state_over scratch.new.bytes) }
{
    for act in acts {
        if !comes_of(alloc, blocks, lineage, scratch, act) {
            return false;
        }
    }
    true
}

/// Whether this holds of the lineage of these blocks over a device; `None` if it can't be made.
fn holds_over(
    alloc: Global,
    blocks: &TextList,
    scratch: &mut MemScratch,
    acts: &[Act<'_>],
) -> Option<bool> {
    let Some(mut lineage) = lineage_of(alloc, scratch, blocks) else {
        return None;
    };
    let good = all_come_of(alloc, blocks, &mut lineage, scratch, acts);
    lineage.give_up();
    Some(good)
}

/// Whether this holds over a device in memory, whose calls of these numbers fail; `None` if the
/// lineage can't be made. It doesn't hold if there are no blocks.
pub(crate) fn holds_of(
    alloc: Global,
    blocks: Option<TextList>,
    failing: &[u64],
    acts: &[Act<'_>],
) -> Option<bool> {
    let Some(blocks) = blocks else {
        return Some(false);
    };
    match device(alloc, failing) {
        Some(mut scratch) => holds_over(alloc, &blocks, &mut scratch, acts),
        None => Some(false),
    }
}

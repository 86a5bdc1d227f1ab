//! A rewound lineage shares entries and the places of bodies with the longer one; the rest of its
//! index is made again of the entries.

ghost use Rattle.std.specs.Prelude.{◌≡◌, ◌+◌, ◌≤◌, ◌<◌, length, take, IfOk};
ghost use Rattle.lc_base.specs.History.{up_to};
ghost use Rattle.lc_io.specs.Scratch.{ScratchState};
ghost use Rattle.body_store.specs.Agreement.{Agrees};
ghost use Rattle.merkle_dag.specs.{Kept.{IsWhole, rows_kept}, Lineage.{first_bodies}};

use crate::kept::Kept;
use lc_base::Memory;
use lineage_rewind::front;
use std::alloc::{AllocError, Global};

/// The first `count` items.
fn first_items<T: Copy>(alloc: Global, items: &[T], count: usize) -> Result<Vec<T>, AllocError>
    requires { count ≤ length items.now }
    ensures { IfOk result (λ first. first.items ≡ take count items.now) }
{
    Vec::from_slice(alloc, &items[..count])
}

/// What is kept of the blocks 0 to `at`. No row and no body is read: entries, and where bodies are
/// kept, are shared with the lineage of all blocks. Of their roots it has those that were made.
pub(crate) fn first_blocks(alloc: Global, kept: &Kept, at: u32) -> Result<Kept, Memory>
    requires whole { IsWhole kept.now }
    requires within { at < length kept.now.digests.items }
    ensures whole { IfOk result IsWhole }
    ensures rows { IfOk result
        (λ first. rows_kept first.index ≡ up_to (rows_kept kept.now.index) at) }
    ensures digests { IfOk result
        (λ first. first.digests.items ≡ take (at + 1) kept.now.digests.items) }
    ensures agrees { IfOk result
        (λ first. (scratch : ScratchState) → Agrees kept.now.bodies scratch
        → Agrees first.bodies scratch) }
    ensures bodies { IfOk result
        (λ first. first.bodies ≡ first_bodies (length (up_to (rows_kept kept.now.index) at))
        kept.now.bodies) }
{
    let count = at as usize + 1;
    let digests = first_items(alloc, &kept.digests, count)?;
    let roots = first_items(alloc, &kept.roots, count)?;
    let index = front(alloc, &kept.index, at)?;
    let bodies = kept.bodies.front(index.store().count())?;
    Ok(Kept {
        index,
        bodies,
        digests,
        roots,
    })
}

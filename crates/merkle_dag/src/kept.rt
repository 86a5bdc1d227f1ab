//! All that a lineage keeps belongs together (`IsWhole`), and does so again after each block.

ghost use Rattle.std.specs.{
  Prelude.{◌≡◌, ◌<◌, ◌++◌, ◌∷◌, [], length, OnOk, IsErrOf},
  List.{All},
};
ghost use Rattle.lc_base.specs.{
  Faults.{HasCause},
  History.{IsLawful},
  declared.row.Row.{Row},
  declared.host_error.HostError.TheVariants.{Fault},
};
ghost use Rattle.lc_io.specs.Scratch.{Retains};
ghost use Rattle.body_store.specs.Agreement.{Agrees};
ghost use Rattle.merkle_dag.specs.{
  declared.limits.TheConstants.{MAX_LINEAGE_BLOCKS},
  Kept.{IsWhole, rows_kept},
};

use crate::adding::{add_bodies, check_rows};
use body_store::Bodies;
use lc_base::{Digest, HostError, Memory, RowList, check_digest};
use lc_io::Scratch;
use lineage_rewind::LineageIndex;

/// The index over the rows of all blocks, where the bodies of the rows are kept, and for each block
/// its digest, and the root at it if that was made.
#[derive(Drop)]
pub(crate) struct Kept {
    pub index: LineageIndex,
    pub bodies: Bodies,
    pub digests: Vec<Digest>,
    pub roots: Vec<Option<Digest>>,
}

/// Adds the next block: its number, its digest and its rows. The root at it is not made. The bytes
/// of the bodies are those that were hashed for the headers. On an error only a part of the block
/// may be there: discard what is kept.
pub(crate) fn grow<S: Scratch>(
    kept: &mut Kept,
    scratch: &mut S,
    number: u32,
    digest: Digest,
    new: &RowList,
) -> Result<(), HostError>
    requires whole { IsWhole kept.old }
    requires next { number ≡ length kept.old.digests.items }
    requires low { number < MAX_LINEAGE_BLOCKS }
    requires block { All (λ (row : Row). row.block ≡ number) new.now }
    requires lawful { IsLawful (rows_kept kept.old.index ++ new.now) }
    requires agrees { Agrees kept.old.bodies (S.state scratch.old) }
    ensures whole { OnOk result (IsWhole kept.new) }
    ensures rows { OnOk result (rows_kept kept.new.index ≡ rows_kept kept.old.index ++ new.now) }
    ensures digests { OnOk result (kept.new.digests.items ≡ kept.old.digests.items ++ digest ∷ []) }
    ensures agrees { OnOk result (Agrees kept.new.bodies (S.state scratch.new)) }
    ensures retains { Retains (S.state scratch.old) (S.state scratch.new) }
    ensures cause { HasCause (S.scratch_faults scratch.old) (S.scratch_faults scratch.new)
        (IsErrOf result Fault) }
{
    check_digest(&digest);
    check_rows(new.as_slice());
    let alloc = *kept.digests.allocator();
    let spelled = kept.index.add_block(new.as_slice())?;
    kept.digests.push(digest)?;
    kept.roots.push(None)?;
    let added = add_bodies(alloc, &mut kept.bodies, scratch, spelled.as_slice());
    match added {
        Ok(()) => Ok(()),
        Err(error) => Err(error),
    }
}

/// Hashes what is stale of the leaves. What is kept stays that of the same blocks, also out of
/// memory.
pub(crate) fn settle(kept: &mut Kept) -> Result<(), Memory>
    requires whole { IsWhole kept.old }
    ensures whole { IsWhole kept.new }
    ensures rows { rows_kept kept.new.index ≡ rows_kept kept.old.index }
    ensures digests { kept.new.digests.items ≡ kept.old.digests.items }
    ensures bodies { kept.new.bodies ≡ kept.old.bodies }
{
    kept.index.settle()
}

/// Drops what was kept: its many parts are dropped in this function alone.
pub(crate) fn discard(_kept: Kept) {}

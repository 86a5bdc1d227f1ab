//! What the leaf of a key said, at an older block, of the uses of the key's version: those of later
//! blocks aren't counted. Nothing here takes memory.

ghost use Rattle.std.specs.Prelude.{◌≡◌, ◌∷◌, [], ◌++◌, ◌+◌, ◌<◌, ◌≤◌, ◌^◌, ℕ, List, length, Some, slice_get};
ghost use Rattle.lc_base.specs.{
  declared.limits.TheConstants.{MAX_ROWS},
  declared.row.Dep.{Dep},
  declared.row.Row.{Row},
  History.{up_to, uses},
};
ghost use Rattle.lineage_index.specs.{
  plain_rows.Users.{AreVersionsAt},
  Index.{IsIndexOf},
  Settling.{IsStoreOf},
};
ghost use Rattle.lineage_rewind.specs.LeavesAt.{told_of, versions_up_to};

use crate::lists::version_of;
use lc_base::Dep;
use lineage_index::{LineageIndex, OpenList, Store};
use prov_entry::with_use;

/// What is told of uses with one more, if that is of a block up to `at`.
fn told_with(told: OpenList, version: &Dep, at: u32) -> OpenList
    requires { told.count + 1 < 2 ^ 64 }
    ensures { (uses : List Dep) → told ≡ told_of uses
        → result ≡ told_of (uses ++ versions_up_to at (version.now ∷ [])) }
{
    if version.block <= at {
        OpenList {
            count: told.count + 1,
            digest: with_use(&told.digest, version),
        }
    } else {
        told
    }
}

/// What is told of the versions of the rows at these indexes that are of blocks up to `at`.
fn told_of_users(store: &Store, users: &[u32], at: u32) -> OpenList
    requires { (rows : List Row) × (versions : List Dep) × IsStoreOf rows store.now
        × AreVersionsAt rows users.now versions × (length versions ≤ MAX_ROWS) }
    ensures { (rows : List Row) (versions : List Dep) → IsStoreOf rows store.now
        → AreVersionsAt rows users.now versions
        → result ≡ told_of (versions_up_to at versions) }
{
    let mut told = OpenList::new();
    for user in users {
        told = told_with(told, &version_of(store, *user), at);
    }
    told
}

/// The number and the digest of the uses of the row at an index up to the block `at`.
pub(crate) fn told_uses(index: &LineageIndex, row: u32, at: u32) -> OpenList
    requires { (rows : List Row) × (n : ℕ) × IsIndexOf rows n index.now × (row < length rows) }
    ensures { (rows : List Row) (n : ℕ) (version : Row) → IsIndexOf rows n index.now
        → slice_get rows row ≡ Some version
        → result ≡ told_of (uses (up_to rows at) version.key version.block) }
{
    told_of_users(index.store(), index.uses(row), at)
}

//! The root of a block binds the block's number and its digest to the leaves of all keys. It is made
//! where it is asked for.

ghost use Rattle.std.specs.Prelude.{
  ◌≡◌,
  ◌+◌,
  ◌<◌,
  ◌≤◌,
  Some,
  length,
  slice_get,
  slice_set,
  IfOk,
  MatchOption,
};
ghost use Rattle.sha2.specs.Sha256.{sha256};
ghost use Rattle.lineage_rewind.specs.root_laws.Root.{root_of, root_text};
ghost use Rattle.merkle_dag.specs.Kept.{IsWhole, rows_kept};

use crate::kept::{Kept, settle};
use lc_base::{Digest, Memory};
use lineage_rewind::{Tree, root_digest, tree_hash_at};

/// The root of a block over the leaves of a tree. It takes no memory.
fn root_of_tree(tree: &Tree, block: u32, digest: &Digest) -> Digest
    ensures { result.0 ≡ sha256 (root_text block digest.now.0 tree.now) }
{
    root_digest(block, digest, tree.count(), &tree.root_hash())
}

/// Makes the root at a block: at the last one of the tree, at another one by a walk over the index.
/// It takes no memory.
fn made_root(kept: &Kept, at: u32) -> Digest
    requires whole { IsWhole kept.now }
    requires within { at < length kept.now.digests.items }
    ensures { result.0 ≡ root_of (rows_kept kept.now.index) kept.now.digests.items at }
{
    let digest = kept.digests[at as usize];
    if at as usize + 1 == kept.digests.len() {
        root_of_tree(kept.index.tree(), at, &digest)
    } else {
        let (count, hash) = tree_hash_at(&kept.index, at);
        root_digest(at, &digest, count, &hash)
    }
}

fn root_made(roots: &[Option<Digest>], at: u32) -> Option<Option<Digest>>
    ensures { result ≡ slice_get roots.now at }
{
    roots.get(at as usize).copied()
}

/// The root at a block: the one that is kept, or else it is made. `None` exactly if the block is
/// past the last one. It takes no memory.
pub(crate) fn root_at(kept: &Kept, at: u32) -> Option<Digest>
    requires { IsWhole kept.now }
    ensures { MatchOption result (length kept.now.digests.items ≤ at)
        (λ root. (at < length kept.now.digests.items)
        × (root.0 ≡ root_of (rows_kept kept.now.index) kept.now.digests.items at)) }
{
    match root_made(&kept.roots, at)? {
        Some(root) => Some(root),
        None => Some(made_root(kept, at)),
    }
}

fn set_root(roots: &mut Vec<Option<Digest>>, at: u32, root: Digest)
    requires { at < length roots.old.items }
    ensures { roots.new.items ≡ slice_set roots.old.items at (Some root) }
{
    roots[at as usize] = Some(root);
}

/// Makes the root at the last block, and keeps it. What is kept stays that of the same blocks, also
/// out of memory.
pub(crate) fn make_root(kept: &mut Kept, last: u32) -> Result<Digest, Memory>
    requires whole { IsWhole kept.old }
    requires last { last + 1 ≡ length kept.old.digests.items }
    ensures whole { IsWhole kept.new }
    ensures rows { rows_kept kept.new.index ≡ rows_kept kept.old.index }
    ensures digests { kept.new.digests.items ≡ kept.old.digests.items }
    ensures bodies { kept.new.bodies ≡ kept.old.bodies }
    ensures root { IfOk result
        (λ root. root.0 ≡ root_of (rows_kept kept.old.index) kept.old.digests.items last) }
{
    settle(kept)?;
    let root = made_root(kept, last);
    set_root(&mut kept.roots, last, root);
    Ok(root)
}

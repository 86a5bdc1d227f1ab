//! Computes the root of a tree from one leaf and its audit path (RFC 6962, section 2.1.1). It takes
//! no memory.

ghost use Rattle.std.specs.Prelude.{◌≡◌, ◌+◌, ◌<◌, ◌≤◌, ◌^◌, length};
ghost use Rattle.merkle_tree.specs.{
  Tree.{climb_to, audit_length_to, audit_length, one_higher, text_on_left, text_on_right},
  Climbing.{start_at, top_of},
  declared.limits.TheConstants.{MAX_HEIGHT},
};

use crate::hash::node_hash;
use crate::limits::MAX_HEIGHT;
use crate::plain::half_of;
use lc_base::Digest;

#[tactic(auto, using(crate::proofs::Steps::upward))]
fn length_to(height: u32, index: usize, count: usize) -> u32
    requires low { height ≤ MAX_HEIGHT }
    ensures length { result ≡ audit_length_to height index count }
    ensures short { result ≤ height }
{
    if height == 0 {
        return 0;
    }
    let half = half_of(height);
    if half < count {
        if index < half {
            length_to(height - 1, index, half) + 1
        } else {
            length_to(height - 1, index - half, count - half) + 1
        }
    } else {
        length_to(height - 1, index, count)
    }
}

/// The number of hashes in the audit path of a leaf. Indexes count from 0; `count` is the number of
/// leaves.
pub fn audit_length(index: u32, count: u32) -> u32
    ensures length { result ≡ audit_length index count }
    ensures short { result ≤ MAX_HEIGHT }
{
    length_to(MAX_HEIGHT, index as usize, count as usize)
}

/// Climbs one node, whose left part has the hash so far and whose right part the next hash of the
/// path.
fn climb_on_left(hash: Digest, path: &[Digest]) -> (Digest, &[Digest])
    requires { 0 < length path.now }
    ensures climbed { start_at result.0 result.1.now ≡ one_higher (start_at hash path.now) (text_on_left (start_at hash path.now)) }
    ensures left { length result.1.now + 1 ≡ length path.now }
{
    (node_hash(&hash, &path[0]), &path[1..])
}

/// Climbs one node, whose right part has the hash so far and whose left part the next hash of the
/// path.
fn climb_on_right(hash: Digest, path: &[Digest]) -> (Digest, &[Digest])
    requires { 0 < length path.now }
    ensures climbed { start_at result.0 result.1.now ≡ one_higher (start_at hash path.now) (text_on_right (start_at hash path.now)) }
    ensures left { length result.1.now + 1 ≡ length path.now }
{
    (node_hash(&path[0], &hash), &path[1..])
}

/// The hash at the top of a tree of at most this height, and the rest of the path.
#[tactic(auto, using(crate::proofs::Steps::upward))]
fn climb_to(
    height: u32,
    index: usize,
    count: usize,
    leaf: Digest,
    path: &[Digest],
) -> (Digest, &[Digest])
    requires low { height ≤ MAX_HEIGHT }
    requires long { audit_length_to height index count ≤ length path.now }
    ensures climbed { climb_to height index count (start_at leaf path.now) ≡ start_at result.0 result.1.now }
    ensures left { length result.1.now + audit_length_to height index count ≡ length path.now }
{
    if height == 0 {
        return (leaf, path);
    }
    let half = half_of(height);
    if half < count {
        if index < half {
            let (hash, rest) = climb_to(height - 1, index, half, leaf, path);
            climb_on_left(hash, rest)
        } else {
            let (hash, rest) = climb_to(height - 1, index - half, count - half, leaf, path);
            climb_on_right(hash, rest)
        }
    } else {
        climb_to(height - 1, index, count, leaf, path)
    }
}

/// The hash of the tree in which a leaf has this hash, index and audit path. Indexes count from 0;
/// `count` is the number of leaves. Hashes of `path` past the audit length are not used.
pub fn root_from_leaf(index: u32, count: u32, leaf: &Digest, path: &[Digest]) -> Digest
    requires { audit_length index count ≤ length path.now }
    ensures { result.0 ≡ top_of index count (start_at leaf.now path.now) }
{
    let (root, _rest) = climb_to(MAX_HEIGHT, index as usize, count as usize, *leaf, path);
    root
}

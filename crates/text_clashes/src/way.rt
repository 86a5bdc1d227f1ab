//! The nodes on the climb from a leaf to the top: each is hashed once, and its hash is used for the
//! next.

ghost use Rattle.std.specs.Prelude.{◌≡◌, ◌+◌, ◌<◌, ◌≤◌, [], ◌∷◌, ◌++◌, length, OnOk, IfOk};
ghost use Rattle.merkle_tree.specs.{
  Tree.{climb_to, climb_texts_to, audit_length_to, audit_length, one_higher},
  Climbing.{start_at, top_of},
  declared.limits.TheConstants.{MAX_HEIGHT},
};
ghost use Rattle.text_clashes.specs.Ways.{text_above};

use crate::text::push_node;
use lc_base::{Digest, DigestList, Memory, TextList};
use merkle_tree::{MAX_HEIGHT, half_of, node_hash};
use proof_checks::AuditView;

/// Appends the text of the node that has `hash` on one side and the first hash of `path` on the
/// other. Returns the node's hash and the rest of the path.
fn push_above<'a>(
    texts: &mut TextList,
    is_left: bool,
    hash: Digest,
    path: &'a [Digest],
) -> Result<(Digest, &'a [Digest]), Memory>
    requires { 0 < length path.now }
    ensures climbed { IfOk result (λ top. start_at top.0 top.1.now ≡ one_higher (start_at hash path.now) (text_above is_left (start_at hash path.now))) }
    ensures left { IfOk result (λ top. length top.1.now + 1 ≡ length path.now) }
    ensures texts { OnOk result (texts.new ≡ texts.old ++ text_above is_left (start_at hash path.now) ∷ []) }
{
    let next = path[0];
    let (left, right) = if is_left { (hash, next) } else { (next, hash) };
    match push_node(texts, &left, &right) {
        Ok(()) => Ok((node_hash(&left, &right), &path[1..])),
        Err(Memory) => Err(Memory),
    }
}

/// Appends the texts of the nodes up to the top of a tree of at most this height. Returns the hash
/// at the top and the rest of the path.
#[tactic(auto, using(merkle_tree::proofs::Steps::upward, crate::proofs::Ways::texts_upward))]
fn push_nodes<'a>(
    texts: &mut TextList,
    height: u32,
    index: usize,
    count: usize,
    leaf: Digest,
    path: &'a [Digest],
) -> Result<(Digest, &'a [Digest]), Memory>
    requires low { height ≤ MAX_HEIGHT }
    requires long { audit_length_to height index count ≤ length path.now }
    ensures climbed { IfOk result (λ top. climb_to height index count (start_at leaf path.now) ≡ start_at top.0 top.1.now) }
    ensures left { IfOk result (λ top. length top.1.now + audit_length_to height index count ≡ length path.now) }
    ensures texts { OnOk result (texts.new ≡ texts.old ++ climb_texts_to height index count (start_at leaf path.now)) }
{
    if height == 0 {
        return Ok((leaf, path));
    }
    let half = half_of(height);
    if half < count {
        if index < half {
            match push_nodes(texts, height - 1, index, half, leaf, path) {
                Ok((hash, rest)) => push_above(texts, true, hash, rest),
                Err(Memory) => Err(Memory),
            }
        } else {
            match push_nodes(texts, height - 1, index - half, count - half, leaf, path) {
                Ok((hash, rest)) => push_above(texts, false, hash, rest),
                Err(Memory) => Err(Memory),
            }
        }
    } else {
        push_nodes(texts, height - 1, index, count, leaf, path)
    }
}

/// Copies the hashes of an audit path.
fn path_of(texts: &TextList, audit: AuditView) -> Result<DigestList, Memory>
    ensures { IfOk result (λ path. path ≡ audit.entry) }
{
    let mut path = DigestList::new(texts.allocator());
    let mut audit = audit;
    while let Some(digest) = audit.next() {
        path.push(digest)?;
    }
    Ok(path)
}

/// Appends the texts of the nodes on the climb from a leaf, and returns the hash at the top.
pub(crate) fn push_way(
    texts: &mut TextList,
    index: u32,
    count: u32,
    leaf: Digest,
    audit: AuditView,
) -> Result<Digest, Memory>
    requires { audit_length index count ≤ length audit }
    ensures top { IfOk result (λ top. top.0 ≡ top_of index count (start_at leaf audit.entry)) }
    ensures texts { OnOk result (texts.new ≡ texts.old ++ climb_texts_to MAX_HEIGHT index count (start_at leaf audit.entry)) }
{
    let path = path_of(texts, audit)?;
    match push_nodes(
        texts,
        MAX_HEIGHT,
        index as usize,
        count as usize,
        leaf,
        path.as_slice(),
    ) {
        Ok((top, _rest)) => Ok(top),
        Err(Memory) => Err(Memory),
    }
}

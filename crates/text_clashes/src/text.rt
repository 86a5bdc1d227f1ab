//! Every text begins with the tag of its kind, so texts of different kinds differ.

ghost use Rattle.std.specs.Prelude.{◌≡◌, [], ◌∷◌, ◌++◌, OnOk, IfOk};
ghost use Rattle.merkle_tree.specs.Tree.{node_text};
ghost use Rattle.prov_entry.specs.Spelling.{text_of_root};
ghost use Rattle.prov_entry.specs.ForwardLists.{use_text};

use byte_fields::{put_digest, put_key, put_u8, put_u32};
use lc_base::{Bytes, Dep, Digest, Memory, TextList};
use merkle_tree::NODE;
use prov_entry::{FORWARD_LINK, ROOT};
use std::alloc::Global;

/// The text of a tag and these bytes.
pub fn tagged_text(alloc: Global, tag: u8, bytes: &[u8]) -> Result<Bytes, Memory>
    ensures { IfOk result (λ text. text ≡ tag ∷ bytes.now) }
{
    let mut text = Vec::new(alloc);
    put_u8(&mut text, tag)?;
    text.extend_from_slice(bytes)?;
    Ok(Bytes::from_vec(text))
}

/// The text of a node over two hashes (RFC 6962, section 2.1).
pub fn node_text(alloc: Global, left: &Digest, right: &Digest) -> Result<Bytes, Memory>
    ensures { IfOk result (λ text. text ≡ node_text left.now.0 right.now.0) }
{
    let mut text = Vec::new(alloc);
    put_u8(&mut text, NODE)?;
    put_digest(&mut text, left)?;
    put_digest(&mut text, right)?;
    Ok(Bytes::from_vec(text))
}

/// The text of a root: numbers are big-endian.
pub fn root_text(
    alloc: Global,
    block: u32,
    block_digest: &Digest,
    count: u32,
    top: &Digest,
) -> Result<Bytes, Memory>
    ensures { IfOk result (λ text. text ≡ text_of_root block block_digest.now.0 count top.now.0) }
{
    let mut text = Vec::new(alloc);
    put_u8(&mut text, ROOT)?;
    put_u32(&mut text, block)?;
    put_digest(&mut text, block_digest)?;
    put_u32(&mut text, count)?;
    put_digest(&mut text, top)?;
    Ok(Bytes::from_vec(text))
}

/// The text of a use; `digest` is that of the uses before it.
pub fn use_text(alloc: Global, digest: &Digest, dep: &Dep) -> Result<Bytes, Memory>
    ensures { IfOk result (λ text. text ≡ use_text digest.now.0 dep.now) }
{
    let mut text = Vec::new(alloc);
    put_u8(&mut text, FORWARD_LINK)?;
    put_digest(&mut text, digest)?;
    put_key(&mut text, &dep.key)?;
    put_u32(&mut text, dep.block)?;
    Ok(Bytes::from_vec(text))
}

/// Appends the text of a tag and these bytes.
pub(crate) fn push_tagged(texts: &mut TextList, tag: u8, bytes: &[u8]) -> Result<(), Memory>
    ensures { OnOk result (texts.new ≡ texts.old ++ (tag ∷ bytes.now) ∷ []) }
{
    texts.push(tagged_text(texts.allocator(), tag, bytes)?)
}

/// Appends the text of a node.
pub(crate) fn push_node(texts: &mut TextList, left: &Digest, right: &Digest) -> Result<(), Memory>
    ensures { OnOk result (texts.new ≡ texts.old ++ node_text left.now.0 right.now.0 ∷ []) }
{
    texts.push(node_text(texts.allocator(), left, right)?)
}

/// Appends the text of a root.
pub(crate) fn push_root(
    texts: &mut TextList,
    block: u32,
    block_digest: &Digest,
    count: u32,
    top: &Digest,
) -> Result<(), Memory>
    ensures { OnOk result (texts.new ≡ texts.old ++ text_of_root block block_digest.now.0 count top.now.0 ∷ []) }
{
    texts.push(root_text(texts.allocator(), block, block_digest, count, top)?)
}

/// Appends the text of a use.
pub(crate) fn push_use(texts: &mut TextList, digest: &Digest, dep: &Dep) -> Result<(), Memory>
    ensures { OnOk result (texts.new ≡ texts.old ++ use_text digest.now.0 dep.now ∷ []) }
{
    texts.push(use_text(texts.allocator(), digest, dep)?)
}

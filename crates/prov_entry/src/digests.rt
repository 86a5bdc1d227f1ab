//! Digests of headers, leaves and roots: the same fields as are written, hashed piece by piece.
//! None of these calls takes memory.

ghost use Rattle.std.specs.{
  Prelude.{◌≡◌, ◌^◌, ◌<◌, ◌≤◌, length},
  List.{concat, flat_map, AllByRecursion},
};
ghost use Rattle.sha2.specs.Sha256.{sha256};
ghost use Rattle.lc_base.specs.KeyBytes.{IsKey};
ghost use Rattle.byte_fields.specs.Spelling.{string_fields};
ghost use Rattle.merkle_tree.specs.Tree.{leaf_text};
ghost use Rattle.prov_entry.specs.{
  declared.limits.TheConstants.{MAX_LINKS},
  Digests.{Adds},
  Spelling.{IsLink, IsHeader, IsKeyIfAny, IsLeaf, link_fields, key_or_empty, next_fields, header_text, leaf_bytes, text_of_root},
};

use crate::entry::{Header, Leaf, Link};
use crate::limits::{HEADER, ROOT};
use lc_base::{Digest, Key};
use merkle_tree::{LEAF, TagHasher, TreeLeaf};

fn add_string(hasher: &mut TagHasher, bytes: &[u8])
    requires { length bytes.now < 2 ^ 16 }
    ensures { Adds hasher.old hasher.new (concat (string_fields bytes.now)) }
{
    hasher.add(&(bytes.len() as u16).to_be_bytes());
    hasher.add(bytes);
}

fn add_key(hasher: &mut TagHasher, key: &Key)
    ensures added { Adds hasher.old hasher.new (concat (string_fields key.now)) }
    ensures lawful { IsKey key.now }
{
    add_string(hasher, key.as_bytes());
}

fn add_link(hasher: &mut TagHasher, link: &Link)
    ensures added { Adds hasher.old hasher.new (concat (link_fields link.now)) }
    ensures lawful { IsLink link.now }
{
    hasher.add(&link.block.to_be_bytes());
    hasher.add(&link.digest.0);
}

fn add_links(hasher: &mut TagHasher, links: &[Link])
    ensures added { Adds hasher.old hasher.new (concat (flat_map link_fields links.now)) }
    ensures lawful { AllByRecursion IsLink links.now }
{
    for link in links {
        add_link(hasher, link);
    }
}

/// The digest of a header: SHA-256 of the byte `HEADER` and its fields. The header has at most
/// `MAX_LINKS` links.
pub fn header_digest(header: &Header) -> Digest
    requires { length header.now.links ≤ MAX_LINKS }
    ensures digest { result.0 ≡ sha256 (header_text header.now) }
    ensures lawful { IsHeader header.now }
{
    let mut hasher = TagHasher::new(HEADER);
    add_key(&mut hasher, &header.key);
    hasher.add(&header.block.to_be_bytes());
    hasher.add(&header.tx.to_be_bytes());
    hasher.add(&header.body.0);
    hasher.add(&header.closed.to_be_bytes());
    hasher.add(&header.closed_digest.0);
    hasher.add(&[header.links.len() as u8]);
    add_links(&mut hasher, header.links.as_slice());
    hasher.finish()
}

fn add_key_or_empty(hasher: &mut TagHasher, key: &Option<Key>)
    ensures added { Adds hasher.old hasher.new (concat (string_fields (key_or_empty key.now))) }
    ensures lawful { IsKeyIfAny key.now }
{
    match key {
        None => add_string(hasher, &[]),
        Some(key) => add_key(hasher, key),
    }
}

fn add_next(hasher: &mut TagHasher, next: &Option<Key>)
    ensures added { Adds hasher.old hasher.new (concat (next_fields next.now)) }
    ensures lawful { IsKeyIfAny next.now }
{
    match next {
        None => hasher.add(&[0]),
        Some(key) => {
            hasher.add(&[1]);
            add_key(hasher, key);
        }
    }
}

/// The hash of a leaf, as the tree over all leaves has it (RFC 6962, section 2.1).
pub fn leaf_digest(leaf: &Leaf) -> Digest
    ensures digest { result.0 ≡ sha256 (leaf_text (leaf_bytes leaf.now)) }
    ensures lawful { IsLeaf leaf.now }
{
    let mut hasher = TagHasher::new(LEAF);
    add_key_or_empty(&mut hasher, &leaf.key);
    add_next(&mut hasher, &leaf.next);
    hasher.add(&leaf.newest_block.to_be_bytes());
    hasher.add(&leaf.newest.0);
    hasher.add(&leaf.open_count.to_be_bytes());
    hasher.add(&leaf.open_digest.0);
    hasher.finish()
}

/// The root of a block: SHA-256 of the byte `ROOT`, the block, its digest, the number of leaves, and
/// their tree hash. The numbers have 4 bytes, big-endian.
pub fn root_digest(block: u32, block_digest: &Digest, count: u32, tree_hash: &Digest) -> Digest
    ensures { result.0 ≡ sha256 (text_of_root block block_digest.now.0 count tree_hash.now.0) }
{
    let mut hasher = TagHasher::new(ROOT);
    hasher.add(&block.to_be_bytes());
    hasher.add(&block_digest.0);
    hasher.add(&count.to_be_bytes());
    hasher.add(&tree_hash.0);
    hasher.finish()
}

impl TreeLeaf for Leaf {
    ghost text = { λ leaf. leaf_text (leaf_bytes leaf) };

    fn hash(&self) -> Digest {
        leaf_digest(self)
    }
}

//! Writes headers, bodies and leaves as their fields, without the byte that comes first when they
//! are hashed. What was written is within its limits, so it can be read back.

ghost use Rattle.std.specs.{
  Prelude.{◌≡◌, ◌≤◌, ◌++◌, ℕ, List, length, IfOk, OnOk},
  List.{concat, flat_map, AllByRecursion},
};
ghost use Rattle.lc_base.specs.declared.limits.TheConstants.{MAX_DEPS};
ghost use Rattle.prov_entry.specs.{
  declared.limits.TheConstants.{MAX_LINKS},
  Spelling.{IsLink, IsHeader, IsBodyDep, IsBody, IsKeyIfAny, IsLeaf, link_fields, header_fields, body_dep_fields, body_fields, key_or_empty, next_fields, leaf_bytes},
};
ghost use Rattle.byte_fields.specs.Spelling.{string_fields};

use crate::entry::{Body, BodyDep, Header, Leaf, Link};
use byte_fields::{put_digest, put_key, put_u8, put_u16, put_u32, put_u64, put_value};
use lc_base::{Bytes, Key, Memory};
use std::alloc::Global;

/// An item of an entry's list.
trait Spelled {
    /// The fields of an item.
    ghost fields: { Self → List (List ℕ) };
    /// The items that can be spelled.
    ghost lawful: { Self → Type 0 };

    /// Writes the fields of the item at the end of `out`.
    fn put(&self, out: &mut Vec<u8>) -> Result<(), Memory>
        ensures written { OnOk result (out.new.items ≡ out.old.items ++ concat (fields self.now)) }
        ensures is { OnOk result (lawful self.now) };
}

impl Spelled for Link {
    ghost fields = { link_fields };

    ghost lawful = { IsLink };

    fn put(&self, out: &mut Vec<u8>) -> Result<(), Memory> {
        put_u32(out, self.block)?;
        put_digest(out, &self.digest)
    }
}

impl Spelled for BodyDep {
    ghost fields = { body_dep_fields };

    ghost lawful = { IsBodyDep };

    fn put(&self, out: &mut Vec<u8>) -> Result<(), Memory> {
        put_key(out, &self.key)?;
        put_u32(out, self.block)?;
        put_digest(out, &self.digest)
    }
}

fn put_all<T: Spelled>(out: &mut Vec<u8>, items: &[T]) -> Result<(), Memory>
    ensures written { OnOk result (out.new.items ≡ out.old.items ++ concat (flat_map T.fields items.now)) }
    ensures lawful { OnOk result (AllByRecursion T.lawful items.now) }
{
    for item in items {
        item.put(out)?;
    }
    Ok(())
}

/// The bytes of a header: its fields, in their order. The header has at most `MAX_LINKS` links.
pub fn write_header(alloc: Global, header: &Header) -> Result<Bytes, Memory>
    requires { length header.now.links ≤ MAX_LINKS }
    ensures spelled { IfOk result (λ bytes. bytes ≡ concat (header_fields header.now)) }
    ensures lawful { IfOk result (λ bytes. IsHeader header.now) }
{
    let mut out = Vec::new(alloc);
    put_key(&mut out, &header.key)?;
    put_u32(&mut out, header.block)?;
    put_u16(&mut out, header.tx)?;
    put_digest(&mut out, &header.body)?;
    put_u64(&mut out, header.closed)?;
    put_digest(&mut out, &header.closed_digest)?;
    put_u8(&mut out, header.links.len() as u8)?;
    put_all(&mut out, header.links.as_slice())?;
    Ok(Bytes::from_vec(out))
}

/// The bytes of a body: its fields, in their order. The body has at most `MAX_DEPS` dependencies.
pub fn write_body(alloc: Global, body: &Body) -> Result<Bytes, Memory>
    requires { length body.now.deps ≤ MAX_DEPS }
    ensures spelled { IfOk result (λ bytes. bytes ≡ concat (body_fields body.now)) }
    ensures lawful { IfOk result (λ bytes. IsBody body.now) }
{
    let mut out = Vec::new(alloc);
    put_value(&mut out, &body.value)?;
    put_u8(&mut out, body.deps.len() as u8)?;
    put_all(&mut out, body.deps.as_slice())?;
    Ok(Bytes::from_vec(out))
}

fn put_key_or_empty(out: &mut Vec<u8>, key: &Option<Key>) -> Result<(), Memory>
    ensures written { OnOk result (out.new.items ≡ out.old.items ++ concat (string_fields (key_or_empty key.now))) }
    ensures lawful { OnOk result (IsKeyIfAny key.now) }
{
    match key {
        None => put_u16(out, 0),
        Some(key) => put_key(out, key),
    }
}

fn put_next(out: &mut Vec<u8>, next: &Option<Key>) -> Result<(), Memory>
    ensures written { OnOk result (out.new.items ≡ out.old.items ++ concat (next_fields next.now)) }
    ensures lawful { OnOk result (IsKeyIfAny next.now) }
{
    match next {
        None => put_u8(out, 0),
        Some(key) => {
            put_u8(out, 1)?;
            put_key(out, key)
        }
    }
}

/// The bytes of a leaf: its fields, in their order.
pub fn write_leaf(alloc: Global, leaf: &Leaf) -> Result<Bytes, Memory>
    ensures spelled { IfOk result (λ bytes. bytes ≡ leaf_bytes leaf.now) }
    ensures lawful { IfOk result (λ bytes. IsLeaf leaf.now) }
{
    let mut out = Vec::new(alloc);
    put_key_or_empty(&mut out, &leaf.key)?;
    put_next(&mut out, &leaf.next)?;
    put_u32(&mut out, leaf.newest_block)?;
    put_digest(&mut out, &leaf.newest)?;
    put_u64(&mut out, leaf.open_count)?;
    put_digest(&mut out, &leaf.open_digest)?;
    Ok(Bytes::from_vec(out))
}

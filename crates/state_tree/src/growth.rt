//! Adding a leaf is all or nothing. Its hash, and that of the leaf that names its key, are made
//! later.

ghost use Rattle.std.specs.Prelude.{
  ◌≡◌,
  ◌≢◌,
  ◌<◌,
  ◌≤◌,
  ℕ,
  List,
  length,
  slice_get,
  Some,
  None,
  OnOk,
  OnErr,
};
ghost use Rattle.lc_base.specs.KeyBytes.{IsKey};
ghost use Rattle.root_laws.specs.{
  merkle_tree.declared.limits.TheConstants.{MAX_LEAVES},
  prov_entry.declared.entry.Leaf.{Leaf},
};
ghost use Rattle.state_tree.specs.{Leaves.{index_of, with_leaf_after}, Order.{kept_for}, Stale.{with_index}};

use crate::stale::StaleLeaves;
use crate::threaded::ThreadedLeaves;
use lc_base::{Key, Memory};
use std::collections::BTreeMap;

/// Adds a key to the order, with the index of its leaf. Out of memory, the order stays as it was.
fn add_index(order: &mut BTreeMap<Key, u32>, key: &Key, index: u32) -> Result<(), Memory>
    requires absent { kept_for order.old key.now ≡ None }
    ensures kept { OnOk result (kept_for order.new key.now ≡ Some index) }
    ensures kept_err { OnErr result (kept_for order.new key.now ≡ None) }
    ensures others { (other : List ℕ) → key.now ≢ other → kept_for order.new other ≡ kept_for order.old other }
{
    order.insert(*key, index)?;
    Ok(())
}

/// Takes a key out of the order again.
fn remove_index(order: &mut BTreeMap<Key, u32>, key: &Key)
    ensures gone { kept_for order.new key.now ≡ None }
    ensures others { (other : List ℕ) → key.now ≢ other → kept_for order.new other ≡ kept_for order.old other }
{
    order.remove(key);
}

/// Adds a leaf for a new key, threaded after the leaf at `cover`, which covers the key. The hashes
/// of both are stale then. Out of memory, all stays as it was.
pub(crate) fn add_leaf(
    leaves: &mut ThreadedLeaves,
    order: &mut BTreeMap<Key, u32>,
    stale: &mut StaleLeaves,
    key: &Key,
    cover: u32,
) -> Result<(), Memory>
    requires few { length leaves.old < MAX_LEAVES }
    requires absent { kept_for order.old key.now ≡ None }
    requires new { index_of leaves.old key.now ≡ None }
    requires cover { cover < length leaves.old }
    requires room { length leaves.old ≤ stale.old.count }
    ensures leaves { OnOk result ((before : Leaf) → slice_get leaves.old cover ≡ Some before
        → leaves.new ≡ with_leaf_after leaves.old key.now cover before) }
    ensures leaves_err { OnErr result (leaves.new ≡ leaves.old) }
    ensures kept { OnOk result (kept_for order.new key.now ≡ Some (length leaves.old)) }
    ensures kept_err { OnErr result (kept_for order.new key.now ≡ None) }
    ensures others { (other : List ℕ) → key.now ≢ other → kept_for order.new other ≡ kept_for order.old other }
    ensures stale { OnOk result (stale.new.list ≡ with_index (with_index stale.old.list cover) (length leaves.old)) }
    ensures stale_err { OnErr result (stale.new.list ≡ stale.old.list) }
    ensures room { OnOk result (length leaves.old < stale.new.count) }
    ensures room_err { OnErr result (stale.old.count ≤ stale.new.count) }
    ensures lawful { IsKey key.now }
{
    // That a key is lawful is known from its bytes.
    let _bytes = key.as_bytes();
    let index = leaves.count();
    stale.make_room(index + 1)?;
    add_index(order, key, index)?;
    if leaves.push(*key, cover).is_err() {
        remove_index(order, key);
        return Err(Memory);
    }
    stale.mark(cover);
    stale.mark(index);
    Ok(())
}

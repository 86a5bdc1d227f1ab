//! The entries of a block's rows are made of the leaves as they are before the block, and of the
//! lists with the uses of the whole block.

ghost use Rattle.std.specs.Prelude.{◌≡◌, ◌++◌, ◌∷◌, [], ℕ, List, map, OnOk};
ghost use Rattle.lc_base.specs.declared.row.Row.{Row};
ghost use Rattle.forward_links.specs.Lists.{Use, open_of, versions_of};
ghost use Rattle.lineage_index.specs.{
  Entries.{entries_of},
  Heads.{AreLists},
  NewEntries.{AreUsing, IsNextRow, IsVersionOf, bytes_in, list_if_among},
};

use crate::growing::{NewVersion, push_version};
use crate::heads::index_of;
use crate::newest_row::newest_entry_of;
use forward_links::{OpenList, OpenLists};
use lc_base::{Bytes, Key, Memory, Row};
use skip_list::{Counter, Steps, Store};
use state_tree::Tree;
use std::alloc::Global;

/// The counter of the entries that are read when a version is added, which nobody asks for. Counts
/// of it are begun in this file alone.
struct Adding;

impl Counter for Adding {
    ghost use Rattle.std.specs.Prelude.{true};

    ghost may_begin = { true };
}

/// The list that a new version of the key closes; an empty list if the key has no leaf.
fn closed_by(tree: &Tree, lists: &OpenLists, key: &Key) -> OpenList
    requires { (keys : List (List ℕ)) × (list : List ℕ → List Use)
        × AreLists tree.now lists.now keys list }
    ensures { (keys : List (List ℕ)) (list : List ℕ → List Use)
        → AreLists tree.now lists.now keys list → result ≡ open_of (list_if_among keys list key.now) }
{
    match index_of(tree, key) {
        None => OpenList::new(),
        Some(index) => lists.peek(index),
    }
}

/// The version of a row.
fn new_version(tree: &Tree, lists: &OpenLists, row: &Row) -> NewVersion
    requires { (keys : List (List ℕ)) × (list : List ℕ → List Use)
        × AreLists tree.now lists.now keys list }
    ensures { (keys : List (List ℕ)) (list : List ℕ → List Use)
        → AreLists tree.now lists.now keys list
        → IsVersionOf (versions_of (list_if_among keys list row.now.key)) row.now result }
{
    let closed = closed_by(tree, lists, &row.key);
    NewVersion {
        key: row.key,
        block: row.block,
        tx: row.tx,
        closed: closed.count,
        closed_digest: closed.digest,
    }
}

/// Adds the entry of the next row of a block.
fn add_entry(
    alloc: Global,
    tree: &Tree,
    lists: &OpenLists,
    newest: &[u32],
    store: &mut Store,
    row: &Row,
    body: &Bytes,
) -> Result<(), Memory>
    requires body { body.now ≡ bytes_in tree.now row.now }
    requires next { (rows : List Row) × (new : List Row) × (done : List Row) × (n : ℕ) × AreUsing rows new n tree.now lists.now newest.now × IsNextRow rows new done row.now store.old }
    ensures { (rows new done : List Row) (n : ℕ) → AreUsing rows new n tree.now lists.now newest.now → IsNextRow rows new done row.now store.old
        → OnOk result (store.new ≡ entries_of (rows ++ new) (rows ++ (done ++ row.now ∷ []))) }
{
    let version = new_version(tree, lists, row);
    let previous = newest_entry_of(tree, newest, &row.key);
    let mut steps = Steps::<Adding>::new();
    push_version(alloc, store, previous, version, body, &mut steps)?;
    Ok(())
}

/// Adds the entries of a block's rows, in their order. On `Memory` only some of them may be there.
pub(crate) fn add_entries(
    alloc: Global,
    tree: &Tree,
    lists: &OpenLists,
    newest: &[u32],
    store: &mut Store,
    new: &[Row],
    bodies: &[Bytes],
) -> Result<(), Memory>
    requires bodies { bodies.now ≡ map (bytes_in tree.now) new.now }
    requires next { (rows : List Row) × (n : ℕ) × AreUsing rows new.now n tree.now lists.now newest.now × (store.old ≡ entries_of rows rows) }
    ensures { (rows : List Row) (n : ℕ) → AreUsing rows new.now n tree.now lists.now newest.now → store.old ≡ entries_of rows rows
        → OnOk result (store.new ≡ entries_of (rows ++ new.now) (rows ++ new.now)) }
{
    for index in 0..new.len() {
        add_entry(
            alloc,
            tree,
            lists,
            newest,
            store,
            &new[index],
            &bodies[index],
        )?;
    }
    Ok(())
}

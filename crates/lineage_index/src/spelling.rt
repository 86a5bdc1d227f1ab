//! The bodies of a block's rows, which name what the rows depend on. Each dependency is looked up
//! once: its leaf has the digest that the body names and is touched, and its key's open list gets
//! the use.

ghost use Rattle.std.specs.{
  Prelude.{◌≡◌, ◌≤◌, ◌++◌, ◌∷◌, ◌+◌, [], ℕ, List, length, map, IfOk, OnOk},
  List.{All},
};
ghost use Rattle.lc_base.specs.{
  declared.limits.TheConstants.{MAX_DEPS, MAX_ROWS},
  declared.row.Dep.{Dep},
  declared.row.Row.{Row},
};
ghost use Rattle.forward_links.specs.Lists.{Use};
ghost use Rattle.lineage_index.specs.{
  Growth.{
    changed_at,
    list_with_uses,
    used_by_row,
    used_by,
    HaveDistinctKeys,
    keys_of_deps,
    deps_touched,
  },
  Heads.{AreLists},
  Leaves.{leaf_indexes},
  NewEntries.{dep_with_digest, dep_in, bytes_in},
};

use crate::heads::index_of;
use entry_views::{Body, BodyDep, BodyDepList, write_body};
use forward_links::OpenLists;
use lc_base::{Bytes, Dep, Digest, Duplicate, Memory, Row, TextList};
use state_tree::Tree;
use std::alloc::Global;

/// A row that depends on others: its version, and its index.
#[derive(Clone, Copy)]
struct User {
    version: Dep,
    row: u32,
}

fn with_digest(dep: &Dep, digest: Digest) -> BodyDep
    ensures { result ≡ dep_with_digest dep.now digest }
{
    BodyDep {
        key: dep.key,
        block: dep.block,
        digest,
    }
}

/// Adds a use to the open list of a dependency's key, and returns the dependency with the digest of
/// the header of the key's newest row, which is in the leaf of the key; zeros if the key has no
/// leaf. The index of the leaf is appended to those that are touched.
fn name_dep(
    tree: &Tree,
    lists: &mut OpenLists,
    touched: &mut Vec<u32>,
    dep: &Dep,
    user: &User,
) -> Result<BodyDep, Memory>
    requires { (keys : List (List ℕ)) × (list : List ℕ → List Use)
        × AreLists tree.now lists.old keys list }
    ensures named { IfOk result (λ named. named ≡ dep_in tree.now dep.now) }
    ensures lists { (keys : List (List ℕ)) (list : List ℕ → List Use)
        → AreLists tree.now lists.old keys list
        → OnOk result (AreLists tree.now lists.new keys (changed_at list dep.now.key (list
        dep.now.key ++ record { version = user.now.version; row = user.now.row } ∷ []))) }
    ensures touched { OnOk result (touched.new.items ≡ touched.old.items ++
        leaf_indexes tree.now (dep.now.key ∷ [])) }
{
    match index_of(tree, &dep.key) {
        None => Ok(with_digest(dep, Digest([0; 32]))),
        Some(index) => {
            lists.add(index, &user.version, user.row)?;
            touched.push(index + 1)?;
            Ok(with_digest(dep, tree.leaf(index + 1).newest))
        }
    }
}

/// Adds a use to the list of each dependency, and returns the dependencies with the digests of
/// their headers.
fn name_deps(
    tree: &Tree,
    lists: &mut OpenLists,
    touched: &mut Vec<u32>,
    deps: &[Dep],
    user: &User,
) -> Result<BodyDepList, Memory>
    requires distinct { HaveDistinctKeys deps.now }
    requires lists { (keys : List (List ℕ)) × (list : List ℕ → List Use)
        × AreLists tree.now lists.old keys list }
    ensures named { IfOk result (λ list. list ≡ map (dep_in tree.now) deps.now) }
    ensures lists { (keys : List (List ℕ)) (list : List ℕ → List Use)
        → AreLists tree.now lists.old keys list
        → OnOk result (AreLists tree.now lists.new keys (list_with_uses list
        (record { version = user.now.version; row = user.now.row }) deps.now)) }
    ensures touched { OnOk result (touched.new.items ≡ touched.old.items ++
        leaf_indexes tree.now (map (λ (dep : Dep). dep.key) deps.now)) }
{
    let mut list = BodyDepList::new(*touched.allocator());
    for dep in deps {
        let named = name_dep(tree, lists, touched, dep, user)?;
        list.push(named)?;
    }
    Ok(list)
}

/// The bytes of the fields of the body of the row with this index. The row is added to the lists of
/// its dependencies.
fn spell_row(
    alloc: Global,
    tree: &Tree,
    lists: &mut OpenLists,
    touched: &mut Vec<u32>,
    index: u32,
    row: &Row,
) -> Result<Bytes, Memory>
    requires few { length row.now.deps ≤ MAX_DEPS }
    requires distinct { HaveDistinctKeys row.now.deps }
    requires lists { (keys : List (List ℕ)) × (list : List ℕ → List Use)
        × AreLists tree.now lists.old keys list }
    ensures spelled { IfOk result (λ bytes. bytes ≡ bytes_in tree.now row.now) }
    ensures lists { (keys : List (List ℕ)) (list : List ℕ → List Use)
        → AreLists tree.now lists.old keys list
        → OnOk result (AreLists tree.now lists.new keys (used_by_row list index row.now)) }
    ensures touched { OnOk result (touched.new.items ≡ touched.old.items ++
        leaf_indexes tree.now (keys_of_deps row.now)) }
{
    let user = User {
        version: Dep {
            key: row.key,
            block: row.block,
        },
        row: index,
    };
    let value = row.value.copy(alloc)?;
    let deps = name_deps(tree, lists, touched, row.deps.as_slice(), &user)?;
    let bytes = write_body(alloc, &Body { value, deps })?;
    Ok(bytes)
}

/// The bytes of the fields of the bodies of a block's rows, the first of which has this index. The
/// uses of the rows are added to the open lists, and the indexes of the leaves of their
/// dependencies to those that are touched, row by row. On `Memory` only some of them may be there.
pub(crate) fn spell_rows(
    alloc: Global,
    tree: &Tree,
    lists: &mut OpenLists,
    touched: &mut Vec<u32>,
    first: u32,
    new: &[Row],
) -> Result<TextList, Memory>
    requires room { first + length new.now ≤ MAX_ROWS }
    requires few { All (λ (row : Row). length row.deps ≤ MAX_DEPS) new.now }
    requires distinct { All (λ (row : Row). HaveDistinctKeys row.deps) new.now }
    requires lists { (keys : List (List ℕ)) × (list : List ℕ → List Use)
        × AreLists tree.now lists.old keys list }
    ensures spelled { IfOk result (λ bodies. bodies ≡ map (bytes_in tree.now) new.now) }
    ensures lists { (keys : List (List ℕ)) (list : List ℕ → List Use)
        → AreLists tree.now lists.old keys list
        → OnOk result (AreLists tree.now lists.new keys (used_by list first new.now)) }
    ensures touched { OnOk result (touched.new.items ≡ touched.old.items ++
        leaf_indexes tree.now (deps_touched new.now)) }
{
    let mut bodies = TextList::new(alloc);
    let mut index = first;
    for row in new {
        let body = spell_row(alloc, tree, lists, touched, index, row)?;
        bodies.push(body)?;
        index += 1;
    }
    Ok(bodies)
}

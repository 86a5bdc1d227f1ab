//! Cases of trees: the tree hash of leaves, and the audit path of each (RFC 6962, section 2.1).

use crate::case::{Case, CaseError};
use crate::printed::print_hex;
use crate::streams::decoded;
use lc_base::{Bytes, Digest, DigestList, TextList};
use merkle_tree::{Levels, MAX_LEAVES, audit_length, leaf_hash, root_from_leaf, tree_hash};
use std::alloc::Global;
use std::io::Write;

/// Leaves: bytes in hex, with a comma after each.
fn leaves_of(alloc: Global, text: &str) -> Result<TextList, CaseError> {
    let mut leaves = TextList::new(alloc);
    if let Some(text) = text.strip_suffix(',') {
        for digits in text.split(',') {
            leaves.push(Bytes::from_vec(decoded(alloc, digits)?))?;
        }
    }
    Ok(leaves)
}

/// Adds leaves to the levels of a tree, one by one.
fn add_leaves(levels: &mut Levels, leaves: &[Bytes]) -> Result<(), CaseError> {
    for leaf in leaves {
        if levels.len() >= MAX_LEAVES {
            return Err(CaseError::Malformed);
        }
        levels.push(leaf_hash(leaf.as_bytes()))?;
    }
    Ok(())
}

/// Prints the hashes of an audit path.
fn print_hashes<W: Write>(alloc: Global, out: &mut W, hashes: &[Digest]) -> Result<(), CaseError> {
    for hash in hashes {
        print_hex(alloc, out, "beside", hash.0.as_slice())?;
    }
    Ok(())
}

/// The hash to which an audit path leads from a leaf.
fn led_to(leaf: &Bytes, index: u32, count: u32, path: &[Digest]) -> Result<Digest, CaseError> {
    if index >= count || audit_length(index, count) as usize > path.len() {
        return Err(CaseError::Wrong);
    }
    Ok(root_from_leaf(index, count, &leaf_hash(leaf.as_bytes()), path))
}

/// The audit path of a leaf.
fn path_of(levels: &Levels, index: u32) -> Result<DigestList, CaseError> {
    if index >= levels.len() {
        return Err(CaseError::Wrong);
    }
    Ok(levels.audit(index)?)
}

/// Prints the audit path of a leaf of a tree, and the hash to which it leads from the leaf.
fn print_path<W: Write>(
    alloc: Global,
    out: &mut W,
    levels: &Levels,
    index: u32,
    leaf: &Bytes,
) -> Result<(), CaseError> {
    let path = path_of(levels, index)?;
    print_hashes(alloc, out, path.as_slice())?;
    let root = led_to(leaf, index, levels.len(), path.as_slice())?;
    print_hex(alloc, out, "to", root.0.as_slice())
}

/// Prints the index of each leaf, its audit path, and the hash to which that leads.
fn print_paths<W: Write>(
    alloc: Global,
    out: &mut W,
    leaves: &[Bytes],
    levels: &Levels,
) -> Result<(), CaseError> {
    for (index, leaf) in (0..levels.len()).zip(leaves) {
        writeln!(out, "leaf {index}")?;
        print_path(alloc, out, levels, index, leaf)?;
    }
    Ok(())
}

/// Prints the tree hash of the leaves, by its definition and by levels, which are empty at first,
/// and the audit path of each leaf.
fn print_tree<W: Write>(
    alloc: Global,
    out: &mut W,
    leaves: &[Bytes],
    levels: &mut Levels,
) -> Result<(), CaseError> {
    add_leaves(levels, leaves)?;
    if leaves.len() > MAX_LEAVES as usize {
        return Err(CaseError::Malformed);
    }
    print_hex(alloc, out, "root", tree_hash(leaves).0.as_slice())?;
    print_hex(alloc, out, "levels", levels.root().0.as_slice())?;
    print_paths(alloc, out, leaves, levels)
}

/// Prints the words of a case, and the tree of its leaves.
pub fn run_tree<W: Write>(alloc: Global, out: &mut W, case: &Case<'_>) -> Result<(), CaseError> {
    writeln!(out, "== {}", case.words)?;
    let leaves = leaves_of(alloc, case.piece)?;
    let mut levels = Levels::new(alloc)?;
    print_tree(alloc, out, leaves.as_slice(), &mut levels)
}

//! Finds links by scanning the rows of a history as the definition does: this is plain and slow.

ghost use Rattle.std.specs.{
  Prelude.{◌≡◌, ◌≤◌, ◌&&◌, ◌==◌, ◌+◌, ◌++◌, length, reverse, IfOk, OnOk},
  Option.{option_copied, option_to_list},
  List.{find, list_any},
};
ghost use Rattle.skip_links.specs.{
  Links.{is_older, are_close, is_at_level, height_to, is_linked, link, links},
  declared.limits.TheConstants.{MAX_LEVEL},
};

use crate::limits::MAX_LEVEL;
use crate::versions::BlockList;
use lc_base::{Key, Memory, Row};
use std::alloc::Global;

fn is_older(row: &Row, key: &Key, block: u32) -> bool
    ensures { result ≡ is_older key.now block row.now }
{
    row.key == *key && row.block < block
}

fn are_close(level: u32, a: u32, b: u32) -> bool
    requires { level ≤ MAX_LEVEL }
    ensures { result ≡ are_close level a b }
{
    a >> level == b >> level
}

fn is_older_and_close(row: &Row, key: &Key, block: u32, level: u32) -> bool
    requires { level ≤ MAX_LEVEL }
    ensures { result ≡ (is_older key.now block row.now && are_close level row.now.block block) }
{
    is_older(row, key, block) && are_close(level, row.block, block)
}

fn has_older_close(rows: &[Row], key: &Key, block: u32, level: u32) -> bool
    requires { level ≤ MAX_LEVEL }
    ensures { result ≡ list_any (λ row. is_older key.now block row && are_close level row.block block) rows.now }
{
    rows.iter()
        .any(|row| is_older_and_close(row, key, block, level))
}

fn is_at_level(rows: &[Row], key: &Key, block: u32, level: u32) -> bool
    requires { level ≤ MAX_LEVEL }
    ensures { result ≡ is_at_level rows.now key.now block level }
{
    !has_older_close(rows, key, block, level)
}

/// The greatest level up to this one at which the version is.
#[tactic(auto, unfolding(crate::specs::Links::height_to))]
fn height_to(level: u32, rows: &[Row], key: &Key, block: u32) -> u32
    requires { level ≤ MAX_LEVEL }
    ensures height { result ≡ height_to level rows.now key.now block }
    ensures most { result ≤ level }
{
    if level == 0 {
        return 0;
    }
    if is_at_level(rows, key, block, level) {
        return level;
    }
    height_to(level - 1, rows, key, block)
}

fn is_linked(rows: &[Row], key: &Key, block: u32, level: u32, row: &Row) -> bool
    requires { level ≤ MAX_LEVEL }
    ensures { result ≡ is_linked rows.now key.now block level row.now }
{
    is_older(row, key, block) && is_at_level(rows, key, row.block, level)
}

fn linked_row<'a>(rows: &'a [Row], key: &Key, block: u32, level: u32) -> Option<&'a Row>
    requires { level ≤ MAX_LEVEL }
    ensures { option_copied result ≡ find (is_linked rows.now key.now block level) (reverse rows.now) }
{
    rows.iter()
        .rev()
        .find(|row| is_linked(rows, key, block, level, row))
}

#[tactic(auto, unfolding(crate::specs::Links::link))]
fn link(rows: &[Row], key: &Key, block: u32, level: u32) -> Option<u32>
    requires { level ≤ MAX_LEVEL }
    ensures { result ≡ link rows.now key.now block level }
{
    linked_row(rows, key, block, level).map(|row| row.block)
}

fn push_some(blocks: &mut BlockList, block: Option<u32>) -> Result<(), Memory>
    ensures { OnOk result (blocks.new ≡ blocks.old ++ option_to_list block) }
{
    if let Some(block) = block {
        blocks.push(block)?;
    }
    Ok(())
}

/// The blocks that the version of the key in this block links to, one for each level from 0 to its
/// height.
#[tactic(auto, unfolding(crate::specs::Links::links), using(crate::proofs::Levels::links_more, crate::proofs::Levels::length_more))]
pub fn links(alloc: Global, rows: &[Row], key: &Key, block: u32) -> Result<BlockList, Memory>
    ensures blocks { IfOk result (λ blocks. blocks ≡ links rows.now key.now block) }
    ensures few { IfOk result (λ blocks. length blocks ≤ MAX_LEVEL + 1) }
{
    let height = height_to(MAX_LEVEL, rows, key, block);
    let mut blocks = BlockList::new(alloc);
    for level in 0..height + 1 {
        push_some(&mut blocks, link(rows, key, block, level))?;
    }
    Ok(blocks)
}

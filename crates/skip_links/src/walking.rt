//! The path of a lookup over the rows of a history, as it is defined: this is plain and slow.

ghost use Rattle.std.specs.{
  Prelude.{◌≡◌, ◌==◌, ℕ, nat_lt, reverse, IfOk},
  List.{find},
  Option.{option_copied, option_map},
};
ghost use Rattle.lc_base.specs.{declared.row.Row.{Row}, History.{newest}};
ghost use Rattle.skip_links.specs.Links.{links};
ghost use Rattle.skip_links.specs.Paths.{onward, next_block, path};

use crate::scanning::links;
use crate::versions::BlockList;
use lc_base::{Key, Memory, Row};
use std::alloc::Global;

fn newest<'a>(rows: &'a [Row], key: &Key) -> Option<&'a Row>
    ensures { option_copied result ≡ newest rows.now key.now }
{
    rows.iter().rev().find(|row| row.key == *key)
}

fn newest_block(rows: &[Row], key: &Key) -> Option<u32>
    ensures { result ≡ option_map (λ (row : Row). row.block) (newest rows.now key.now) }
{
    newest(rows, key).map(|row| row.block)
}

fn highest_above(links: &[u32], at: u32) -> Option<&u32>
    ensures { option_copied result ≡ find (λ (link : ℕ). nat_lt at link) (reverse links.now) }
{
    links.iter().rev().find(|link| at < **link)
}

fn onward(links: &[u32], at: u32) -> Option<u32>
    ensures { result ≡ onward (λ (link : ℕ). link) at links.now }
{
    match highest_above(links, at) {
        Some(link) => Some(*link),
        None => links.first().copied(),
    }
}

/// The block that a lookup goes on to from the version in a block; `None` if it ends there.
fn next_block(
    alloc: Global,
    rows: &[Row],
    key: &Key,
    at: u32,
    block: u32,
) -> Result<Option<u32>, Memory>
    ensures { IfOk result (λ next. next ≡ next_block (links rows.now key.now) at block) }
{
    if block <= at {
        return Ok(None);
    }
    let links = links(alloc, rows, key, block)?;
    Ok(onward(links.as_slice(), at))
}

/// The path of a lookup of a key's last version up to the block `at`: the blocks of the versions
/// that it looks at, in order.
pub fn path(alloc: Global, rows: &[Row], key: &Key, at: u32) -> Result<BlockList, Memory>
    ensures { IfOk result (λ blocks. blocks ≡ path rows.now key.now at) }
{
    let mut blocks = BlockList::new(alloc);
    let mut next = newest_block(rows, key);
    for _turn in 0..rows.len() {
        match next {
            None => return Ok(blocks),
            Some(block) => {
                blocks.push(block)?;
                next = next_block(alloc, rows, key, at, block)?;
            }
        }
    }
    Ok(blocks)
}

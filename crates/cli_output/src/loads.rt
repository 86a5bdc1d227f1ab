//! Building the line that `load` prints.

ghost use Rattle.std.specs.Prelude.{◌≡◌, ◌++◌, codes, decimal, string_bytes, IfOk};
ghost use Rattle.cli_output.specs.LoadLine.{load_line};

use chain_load::Load;
use cli_promises::line;
use digest_kit::digest_text;
use lc_base::{Bytes, Memory};
use std::alloc::{AllocError, Global};

/// The first part of the line: the blocks and rows.
fn load_head(alloc: Global, load: &Load) -> Result<String, AllocError>
    ensures { IfOk result (λ text. string_bytes text ≡ codes "blocks " ++ decimal load.now.blocks
        ++ codes " rows " ++ decimal load.now.rows ++ codes " root ") }
{
    let blocks = load.blocks;
    let rows = load.rows;
    format!(in alloc; "blocks {blocks} rows {rows} root ")
}

/// The last part of the line: what the look-ups counted.
fn counts_text(alloc: Global, load: &Load) -> Result<String, AllocError>
    ensures { IfOk result (λ text. string_bytes text ≡ codes " lookups " ++ decimal load.now.lookups
        ++ codes " entries " ++ decimal load.now.entries ++ codes " most " ++ decimal load.now.most) }
{
    let lookups = load.lookups;
    let entries = load.entries;
    let most = load.most;
    format!(in alloc; " lookups {lookups} entries {entries} most {most}")
}

/// The line of a load.
pub fn load_line(alloc: Global, load: &Load) -> Result<Bytes, Memory>
    ensures { IfOk result (λ bytes. bytes ≡ load_line load.now) }
{
    let head = load_head(alloc, load)?;
    let mut text = digest_text(alloc, head.as_str(), &load.root)?;
    let counts = counts_text(alloc, load)?;
    text.push_str(counts.as_str())?;
    line(alloc, text.as_str())
}

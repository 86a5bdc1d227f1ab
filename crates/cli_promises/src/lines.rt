//! The lines of blocks that were taken: `known` or `block`, with the block's number.

ghost use Rattle.std.specs.{Prelude.{◌≡◌, ◌∷◌, ◌++◌, IfOk, string_bytes}, List.{flat_map}};
ghost use Rattle.cli_promises.specs.{
  Lines.{known_line, block_line, status_text, statuses_text, appended_text},
  declared.lines.TheConstants.{COMMA},
};

use follower_steps::Receipt;
use lc_base::{Bytes, Digest, Memory};
use recovery::Appended;
use std::alloc::{AllocError, Global};

/// What separates two statuses.
const COMMA: u8 = b',';

/// What is printed for a block without transactions.
const NO_STATUS: &[u8] = b"-";

/// The line of a block that the chain holds already.
pub fn known_line(alloc: Global, number: u32) -> Result<Bytes, Memory>
    ensures { IfOk result (λ bytes. bytes ≡ known_line number) }
{
    let text = format!(in alloc; "known {number}\n")?;
    Ok(Bytes::from_vec(text.into_bytes()))
}

/// The number of a transaction's status, in decimal digits.
fn status_text(alloc: Global, receipt: &Receipt) -> Result<String, AllocError>
    ensures { IfOk result (λ text. string_bytes text ≡ status_text receipt.now) }
{
    let number = receipt.status.number();
    format!(in alloc; "{number}")
}

/// The text, and then for each transaction a comma and the number of its status.
fn with_statuses(alloc: Global, text: Vec<u8>, receipts: &[Receipt]) -> Result<Vec<u8>, AllocError>
    ensures { IfOk result (λ longer. longer.items ≡ text.items ++ flat_map
        (λ r. COMMA ∷ status_text r) receipts.now) }
{
    let mut longer = text;
    for receipt in receipts {
        longer.push(COMMA)?;
        longer.extend_from_slice(status_text(alloc, receipt)?.as_bytes())?;
    }
    Ok(longer)
}

/// The numbers of the statuses of transactions, with a comma between each two, or `-` if there are
/// none.
fn statuses_text(alloc: Global, receipts: &[Receipt]) -> Result<Vec<u8>, AllocError>
    ensures { IfOk result (λ text. text.items ≡ statuses_text receipts.now) }
{
    if receipts.is_empty() {
        return Vec::from_slice(alloc, NO_STATUS);
    }
    let first = status_text(alloc, &receipts[0])?;
    with_statuses(alloc, first.into_bytes(), &receipts[1..])
}

/// The line of a block that was stored: the number of rows that it wrote, how its transactions
/// ended, and the root at it.
pub fn block_line(
    alloc: Global,
    number: u32,
    rows: u32,
    receipts: &[Receipt],
    root: &Digest,
) -> Result<Bytes, Memory>
    ensures { IfOk result (λ bytes. bytes ≡ block_line number rows receipts.now root.now.0) }
{
    let statuses = statuses_text(alloc, receipts)?;
    let root = hex::encode(alloc, root.0.as_slice())?;
    let mut bytes = format!(in alloc; "block {number} rows {rows} status ")?.into_bytes();
    bytes.extend_from_slice(statuses.as_slice())?;
    bytes.extend_from_slice(b" root ")?;
    bytes.extend_from_slice(root.as_bytes())?;
    bytes.push(b'\n')?;
    Ok(Bytes::from_vec(bytes))
}

/// The line of a block that was not refused.
pub fn appended_line(alloc: Global, appended: &Appended) -> Result<Bytes, Memory>
    ensures { IfOk result (λ bytes. bytes ≡ appended_text appended.now) }
{
    match appended {
        Appended::Known { number } => known_line(alloc, *number),
        Appended::Added {
            number,
            rows,
            receipts,
            root,
        } => block_line(alloc, *number, *rows, receipts.as_slice(), root),
    }
}

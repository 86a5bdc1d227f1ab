//! The lines of a follower.

ghost use Rattle.std.specs.Prelude.{◌≡◌, ◌++◌, codes, decimal, IfOk, string_bytes};
ghost use Rattle.cli_promises.specs.{
  cli_lines.Lines.{line},
  FollowLines.{drop_text, dropped_line, follow_line},
};
ghost use Rattle.cli_append.specs.FollowSteps.{turn_text};

use cli_promises::{block_line, known_line, line, refusal_text};
use follow_core::Turn;
use follower_steps::Cause;
use lc_base::{Bytes, Memory};
use std::alloc::{AllocError, Global};

/// Why a block is dropped, in words.
fn drop_text(alloc: Global, cause: &Cause) -> Result<String, AllocError>
    ensures { IfOk result (λ text. string_bytes text ≡ drop_text cause.now) }
{
    match cause {
        Cause::Refused(refusal) => refusal_text(alloc, refusal),
        Cause::Far { held } => format!(in alloc; "far {held}"),
        Cause::Taken => String::from_str(alloc, "taken"),
    }
}

fn dropped_text(alloc: Global, index: u32, cause: &str) -> Result<Bytes, Memory>
    ensures { IfOk result (λ bytes. bytes
        ≡ line (codes "dropped " ++ decimal index ++ codes " " ++ cause.now)) }
{
    let text = format!(in alloc; "dropped {index} {cause}")?;
    line(alloc, text.as_str())
}

/// The line of a block that is dropped: the index of its frame, from 0, and the cause.
fn dropped_line(alloc: Global, index: u32, cause: &Cause) -> Result<Bytes, Memory>
    ensures { IfOk result (λ bytes. bytes ≡ dropped_line index cause.now) }
{
    let text = drop_text(alloc, cause)?;
    dropped_text(alloc, index, text.as_str())
}

/// The line of a turn.
pub fn turn_line(alloc: Global, turn: &Turn) -> Result<Bytes, Memory>
    ensures { IfOk result (λ bytes. bytes ≡ turn_text turn.now) }
{
    match turn {
        Turn::Block {
            number,
            rows,
            receipts,
            root,
        } => block_line(alloc, *number, *rows, receipts.as_slice(), root),
        Turn::Known { number } => known_line(alloc, *number),
        Turn::Kept { number } => {
            let text = format!(in alloc; "kept {number}")?;
            line(alloc, text.as_str())
        }
        Turn::Dropped { index, cause } => dropped_line(alloc, *index, cause),
    }
}

/// The last line: how many blocks the chain has, and how many wait.
pub fn follow_line(alloc: Global, blocks: u32, waiting: u32) -> Result<Bytes, Memory>
    ensures { IfOk result (λ bytes. bytes ≡ follow_line blocks waiting) }
{
    let text = format!(in alloc; "follow blocks {blocks} waiting {waiting}")?;
    line(alloc, text.as_str())
}

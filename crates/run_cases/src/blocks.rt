//! Cases of block files: what each block did, which no command prints, and whether the chain
//! answers as a scan of all rows does.

ghost use Rattle.std.specs.Prelude.{◌≡◌, true};
ghost use Rattle.block_codec.specs.Spelling.{IsBlock};
ghost use Rattle.chain_replay.specs.Chain.{HasRoom};

use crate::case::{Case, CaseError};
use crate::scanning::scan;
use crate::streams::{PausingSource, source_of};
use block_codec::{
    Block, FIRST_VERSION, Frames, MAX_BLOCKS, MAX_FRAMES, Placement, block_digest, decode,
};
use chain_exec::{BlockRun, Receipt};
use chain_replay::{Chain, Marking, Replay};
use cli_lines::answer_lines;
use lc_base::{Answer, Bytes, Digest, Kind, Memory, Query, Resources, Row, RowList, TextList};
use std::alloc::Global;
use std::io::Write;

/// Prints what a block did: how many rows it wrote, and a receipt for each transaction.
fn print_run<W: Write>(
    out: &mut W,
    number: u32,
    rows: usize,
    receipts: &[Receipt],
) -> Result<(), CaseError> {
    writeln!(out, "block {number} rows {rows}")?;
    for (at, receipt) in receipts.iter().enumerate() {
        let status = receipt.status.number();
        let cost = receipt.cost;
        writeln!(out, "tx {at} status {status} cost {cost}")?;
    }
    Ok(())
}

/// Prints what a block did, and appends its rows to those of the blocks before.
fn keep_run<W: Write>(
    out: &mut W,
    number: u32,
    run: BlockRun,
    rows: &mut RowList,
) -> Result<(), CaseError> {
    let BlockRun {
        rows: written,
        receipts,
    } = run;
    let printed = print_run(out, number, written.len(), receipts.as_slice());
    match rows.append(written) {
        Ok(()) => printed,
        Err(Memory) => Err(CaseError::Memory),
    }
}

/// Whether a block is the next one of a chain whose last block has the version `last`.
#[tactic(auto, using(block_codec::proofs::Versions::few_of_any))]
fn is_next(chain: &Chain, last: u8, block: &Block, digest: Digest) -> bool
    requires { IsBlock block.now }
    ensures room { result ≡ true → HasRoom chain.now block.now }
{
    if chain.len() > MAX_BLOCKS {
        return false;
    }
    let marked = Marking::OfVersions { last }.is_marked_for(block);
    match chain.place(block, digest, marked) {
        Placement::Next => true,
        _ => false,
    }
}

/// Prints what the last block of a chain did, and appends its rows to those of the blocks before. A
/// chain that is not returned is given up.
fn keep_block<W: Write>(
    out: &mut W,
    chain: Chain,
    number: u32,
    run: BlockRun,
    rows: &mut RowList,
) -> Result<Chain, CaseError> {
    match keep_run(out, number, run, rows) {
        Ok(()) => Ok(chain),
        Err(error) => {
            chain.give_up();
            Err(error)
        }
    }
}

/// Runs the next block of a chain whose last block has the version `last`, prints what it did, and
/// appends its rows to those of the blocks before.
fn run_next<W: Write>(
    alloc: Global,
    out: &mut W,
    chain: Chain,
    last: u8,
    rows: &mut RowList,
    block: &Block,
    digest: Digest,
) -> Result<Chain, CaseError>
    requires { IsBlock block.now }
{
    if !is_next(&chain, last, block, digest) {
        chain.give_up();
        return Err(CaseError::Malformed);
    }
    match chain.with_block(alloc, block, digest) {
        Ok((longer, run)) => keep_block(out, longer, block.number, run, rows),
        Err(Memory) => Err(CaseError::Memory),
    }
}

/// Runs the block of a frame after the blocks so far, the last of which has the version `last`.
/// Returns the chain, and changes `last` to the version of the block.
fn run_frame<W: Write>(
    alloc: Global,
    out: &mut W,
    chain: Chain,
    last: &mut u8,
    rows: &mut RowList,
    frame: &[u8],
) -> Result<Chain, CaseError> {
    match decode(alloc, frame) {
        Ok(block) => {
            let before = *last;
            *last = block.version;
            run_next(alloc, out, chain, before, rows, &block, block_digest(frame))
        }
        Err(_) => {
            chain.give_up();
            Err(CaseError::Malformed)
        }
    }
}

/// Runs the blocks of frames, one after another.
fn run_frames<W: Write>(
    resources: Resources,
    out: &mut W,
    rows: &mut RowList,
    frames: &[Bytes],
) -> Result<Chain, CaseError> {
    let mut chain = Chain::new(resources);
    let mut last = FIRST_VERSION;
    for frame in frames {
        match run_frame(
            resources.alloc,
            out,
            chain,
            &mut last,
            rows,
            frame.as_bytes(),
        ) {
            Ok(longer) => chain = longer,
            Err(error) => return Err(error),
        }
    }
    Ok(chain)
}

/// The lines of an answer.
fn lines_of(alloc: Global, answer: &Answer) -> Result<TextList, CaseError> {
    Ok(answer_lines(alloc, answer)?)
}

/// The lines of what a chain answers.
fn asked(alloc: Global, chain: &mut Chain, query: &Query) -> Result<TextList, CaseError> {
    let answer = chain.ask(query)?;
    lines_of(alloc, &answer)
}

/// The lines of what a scan of rows answers.
fn scanned(alloc: Global, rows: &[Row], query: &Query) -> Result<TextList, CaseError> {
    let answer = scan(alloc, rows, query)?;
    lines_of(alloc, &answer)
}

/// Whether two answers have the same lines.
fn are_alike(one: &[Bytes], other: &[Bytes]) -> bool {
    if one.len() != other.len() {
        return false;
    }
    for (a, b) in one.iter().zip(other) {
        if a.as_bytes() != b.as_bytes() {
            return false;
        }
    }
    true
}

/// Asks a chain and its rows one question, and fails if the answers differ.
fn ask_both(
    alloc: Global,
    chain: &mut Chain,
    rows: &[Row],
    query: &Query,
) -> Result<(), CaseError> {
    let told = asked(alloc, chain, query)?;
    let wanted = scanned(alloc, rows, query)?;
    if are_alike(told.as_slice(), wanted.as_slice()) {
        Ok(())
    } else {
        Err(CaseError::Wrong)
    }
}

/// Asks a chain and its rows each kind of question about the key of each row: at the row's block,
/// at the block after it, and at the last one. Returns how many answers were compared.
fn compare_answers(alloc: Global, chain: &mut Chain, rows: &[Row]) -> Result<u64, CaseError> {
    let last = chain.len().saturating_sub(1);
    let mut count = 0_u64;
    for row in rows {
        for at in [row.block, row.block.saturating_add(1), last] {
            for kind in [Kind::Hist, Kind::Back, Kind::Fwd] {
                let key = row.key;
                ask_both(alloc, chain, rows, &Query { kind, key, at })?;
                count = count.saturating_add(1);
            }
        }
    }
    Ok(count)
}

/// Runs the blocks of frames in a chain from none, and prints what each did. Then compares the
/// answers of the chain with those of a scan of all its rows, and returns how many.
fn run_chain<W: Write>(
    resources: Resources,
    out: &mut W,
    rows: &mut RowList,
    frames: &[Bytes],
) -> Result<u64, CaseError> {
    let mut chain = run_frames(resources, out, rows, frames)?;
    let compared = compare_answers(resources.alloc, &mut chain, rows.as_slice());
    chain.give_up();
    compared
}

/// The frames of a source.
fn frames_of(alloc: Global, source: &mut PausingSource) -> Result<TextList, CaseError> {
    let mut found = TextList::new(alloc);
    let mut frames = Frames::new();
    for _ in 0..=MAX_FRAMES {
        match frames.next(alloc, source) {
            Ok(None) => break,
            Ok(Some((frame, more))) => {
                found.push(frame)?;
                frames = more;
            }
            Err(_) => return Err(CaseError::Malformed),
        }
    }
    Ok(found)
}

/// The frames of a file.
fn file_of(alloc: Global, case: &Case<'_>) -> Result<TextList, CaseError> {
    let mut source = source_of(alloc, case.piece, case.input, "")?;
    frames_of(alloc, &mut source)
}

/// Runs the blocks of a file, which must be a chain from its first block on. Prints the words of
/// the case, then for each block the number of rows that it wrote, and for each transaction its
/// status and its cost, and last how many answers of the chain were those of a scan of its rows.
pub fn run_blocks<W: Write>(
    resources: Resources,
    out: &mut W,
    case: &Case<'_>,
) -> Result<(), CaseError> {
    writeln!(out, "== {}", case.words)?;
    let frames = file_of(resources.alloc, case)?;
    let mut rows = RowList::new(resources.alloc);
    let count = run_chain(resources, out, &mut rows, frames.as_slice())?;
    Ok(writeln!(out, "answers {count}")?)
}

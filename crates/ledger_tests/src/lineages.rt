//! Chains and lineages that are made from the bytes of their blocks, and what they answer.

ghost use Rattle.std.specs.Prelude.{◌≡◌, ◌+◌, ◌≤◌, length, IfSome};
ghost use Rattle.block_codec.specs.declared.limits.TheConstants.{MAX_BLOCKS};
ghost use Rattle.merkle_dag.specs.Lineage.{AgreesWith};

use crate::versions::Steps;
use block_codec::{FIRST_VERSION, MAX_BLOCKS};
use chain_pack::pack;
use chain_replay::{Judged, Marking, Replay};
use lc_base::{Answer, Dep, Key, Kind, Query, Resources, TextList, Value, Zeros};
use lc_io::{MemScratch, Room, Scratch};
use merkle_dag::{Lineage, QueryError};
use prov_query::{answer, ask};
use rooted_chain::LineageChain;
use std::alloc::Global;

/// Room for the calls of each test.
const ROOM: Room = Room {
    calls: 200_000,
    bytes: 10_000_000,
};

/// What stands before and after something.
pub(crate) type Ends<'e> = (&'e str, &'e str);

/// Appends a number between two texts.
fn put_number(alloc: Global, draft: &mut Vec<u8>, ends: Ends<'_>, number: u32) -> bool {
    let (front, back) = ends;
    match format!(in alloc; "{front}{number}{back},") {
        Ok(text) => draft.extend_from_slice(text.as_bytes()).is_ok(),
        Err(_) => false,
    }
}

/// Appends the numbers up to `count`, each between two texts, or an empty block in its place if it
/// is from `from` up to `to`; there is a comma between them.
fn put_numbers(
    alloc: Global,
    draft: &mut Vec<u8>,
    ends: Ends<'_>,
    count: u32,
    from: u32,
    to: u32,
) -> bool {
    for number in 0..count {
        let is_put = if from <= number && number < to {
            draft.extend_from_slice(b"[],").is_ok()
        } else {
            put_number(alloc, draft, ends, number)
        };
        if !is_put {
            return false;
        }
    }
    draft.pop() == Some(b',')
}

/// The blocks of the draft that has these numbers between two texts.
pub(crate) fn blocks_of_numbers(
    alloc: Global,
    whole: Ends<'_>,
    ends: Ends<'_>,
    count: u32,
    from: u32,
    to: u32,
) -> Option<TextList> {
    let mut draft = Vec::new(alloc);
    let is_put = draft.extend_from_slice(whole.0.as_bytes()).is_ok()
        && put_numbers(alloc, &mut draft, ends, count, from, to)
        && draft.extend_from_slice(whole.1.as_bytes()).is_ok();
    if is_put {
        pack(alloc, draft.as_slice(), FIRST_VERSION).ok()
    } else {
        None
    }
}

/// The chain with one more block; `None` if these bytes aren't its next block, or if the device
/// fails.
fn longer<C: Replay, S: Scratch>(
    alloc: Global,
    scratch: &mut S,
    chain: C,
    bytes: &[u8],
) -> Option<C>
    requires agrees { C.agrees chain (S.state scratch.old) }
    requires few { length (C.kept chain).digests ≤ MAX_BLOCKS }
    ensures agrees { IfSome result (λ longer. C.agrees longer (S.state scratch.new)) }
    ensures count { IfSome result
        (λ longer. length (C.kept longer).digests ≡ length (C.kept chain).digests + 1) }
{
    // Blocks of either version are taken, whichever was the last.
    let marking = Marking::OfVersions {
        last: FIRST_VERSION,
    };
    match chain.judge(alloc, bytes, marking) {
        Ok(Judged::Next { block, digest }) => chain.replay(alloc, scratch, &block, digest).ok(),
        _ => {
            chain.give_up();
            None
        }
    }
}

/// A chain of these blocks.
pub(crate) fn chain_of<C: Replay, S: Scratch>(
    alloc: Global,
    scratch: &mut S,
    blocks: &TextList,
) -> Option<C>
    ensures agrees { IfSome result (λ chain. C.agrees chain (S.state scratch.new)) }
{
    if blocks.len() > MAX_BLOCKS as usize {
        return None;
    }
    let resources = Resources::new(alloc, &Zeros).ok()?;
    let mut chain = match C::start(resources) {
        Ok(chain) => chain,
        Err(_) => return None,
    };
    for block in blocks.as_slice() {
        chain = longer(alloc, scratch, chain, block.as_bytes())?;
    }
    Some(chain)
}

/// A lineage of these blocks.
pub(crate) fn lineage_of<S: Scratch>(
    alloc: Global,
    scratch: &mut S,
    blocks: &TextList,
) -> Option<Lineage>
    ensures agrees { IfSome result (λ lineage. AgreesWith lineage (S.state scratch.new)) }
{
    let chain: LineageChain = chain_of(alloc, scratch, blocks)?;
    Some(chain.into_lineage())
}

/// A device in memory, whose calls of these numbers fail.
pub(crate) fn device(alloc: Global, failing: &[u64]) -> Option<MemScratch> {
    MemScratch::new(alloc, ROOM, failing).ok()
}

/// What is told of an answer: a letter for its kind, the block of the version, the index of the
/// transaction there, and the int; the text; and the list.
type Parts<'a> = (u8, u32, u16, i64, &'a [u8], &'a [Dep]);

fn parts_of(answer: &Answer) -> Parts<'_> {
    match answer {
        Answer::Nothing => (b'-', 0, 0, 0, &[], &[]),
        Answer::Hist { block, tx, value } => match value {
            Value::Int(number) => (b'i', *block, *tx, *number, &[], &[]),
            Value::Text(text) => (b't', *block, *tx, 0, text.as_bytes(), &[]),
            Value::Gone => (b'g', *block, *tx, 0, &[], &[]),
        },
        Answer::Back { block, deps } => (b'b', *block, 0, 0, &[], deps.as_slice()),
        Answer::Fwd { block, uses } => (b'f', *block, 0, 0, &[], uses.as_slice()),
    }
}

/// Whether two answers are the same.
pub(crate) fn is_same_answer(one: &Answer, other: &Answer) -> bool {
    parts_of(one) == parts_of(other)
}

/// Whether these are versions of these keys, each in the block beside it.
pub(crate) fn are_versions(found: &[Dep], wanted: &[(&[u8], u32)]) -> bool {
    for (dep, (key, block)) in found.iter().zip(wanted) {
        if dep.key.as_bytes() != *key || dep.block != *block {
            return false;
        }
    }
    found.len() == wanted.len()
}

/// A question, and what it must be answered with.
#[derive(Clone, Copy)]
pub(crate) struct Question<'q> {
    /// Whether `ask` is called, and not `answer`.
    pub(crate) by_ask: bool,
    pub(crate) kind: Kind,
    pub(crate) key: &'q [u8],
    pub(crate) at: u32,
    /// What is told of the answer: a letter for its kind (`i` of an int, `b` and `f` of lists), the
    /// block of the version, the index of the transaction there, and the int.
    pub(crate) told: (u8, u32, u16, i64),
    /// The list: the versions of these keys, each in the block beside it.
    pub(crate) list: &'q [(&'q [u8], u32)],
    /// Why there is no answer, if there must be none.
    pub(crate) error: Option<QueryError>,
    /// The least and the most versions that may be looked at.
    pub(crate) steps: (u64, u64),
}

/// Whether this is what a question must be answered with, once so many versions were looked at.
fn is_answer(found: &Result<Answer, QueryError>, question: &Question<'_>, steps: u64) -> bool {
    let (least, most) = question.steps;
    if steps < least || most < steps {
        return false;
    }
    match found {
        Ok(answer) => {
            let (letter, block, tx, number, text, list) = parts_of(answer);
            (letter, block, tx, number) == question.told
                && text.is_empty()
                && are_versions(list, question.list)
        }
        Err(error) => Some(*error) == question.error,
    }
}

/// Whether a lineage answers a question as it must.
pub(crate) fn tells<S: Scratch>(
    alloc: Global,
    lineage: &mut Lineage,
    scratch: &mut S,
    question: &Question<'_>,
) -> bool
    requires agrees { AgreesWith lineage.old (S.state scratch.old) }
    ensures agrees { AgreesWith lineage.new (S.state scratch.new) }
{
    let Ok(key) = Key::new(question.key) else {
        return false;
    };
    let (kind, at) = (question.kind, question.at);
    let query = Query { kind, key, at };
    let mut steps = Steps::new();
    if question.by_ask {
        let found = ask(alloc, lineage, scratch, &query, &mut steps);
        is_answer(&found, question, steps.count())
    } else {
        match answer(alloc, lineage, scratch, &query, &mut steps) {
            Ok(answer) => is_answer(&Ok(answer), question, steps.count()),
            Err(_) => false,
        }
    }
}

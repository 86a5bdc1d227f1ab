//! Questions over the rows of a chain: what is printed for each, if the chain has the blocks that it
//! is about.

ghost use Rattle.std.specs.Prelude.{◌≡◌, List, IfOk, IfSome};
ghost use Rattle.block_codec.specs.declared.block.Block.{Block as Blocks};
ghost use Rattle.chain_exec.specs.Compiled.{compiled_in};
ghost use Rattle.chain_replay.specs.Chain.{StandsFor};
ghost use Rattle.cli_output.specs.{
  Output.{ask_outcome, question_in},
  Questions.{last_block, shown_in},
  Scanning.{EndsAsked},
};
ghost use Rattle.chain_cli.specs.Asking.{missing_outcome};

use chain_replay::Chain;
use cli_lines::{Ending, Outcome};
use cli_output::{Shown, beyond, shown_lines};
use cli_words::{Asked, Question};
use lc_base::{Memory, Query};
use std::alloc::Global;

/// The outcome for a block that a chain of `count` blocks doesn't have; `None` if it has the block.
fn missing(alloc: Global, at: u32, count: u32) -> Result<Option<Outcome>, Memory>
    ensures missing { IfOk result (λ outcome. outcome ≡ missing_outcome at count) }
    ensures ends { IfOk result (λ outcome. IfSome outcome (λ told. EndsAsked told.ending)) }
{
    if count == 0 {
        return Ok(Some(beyond(alloc, None)?));
    }
    if at >= count {
        return Ok(Some(beyond(alloc, Some(count - 1))?));
    }
    Ok(None)
}

/// The last block that a question is about.
fn last_block(question: &Question) -> u32
    ensures { result ≡ last_block question.now }
{
    match question {
        Question::Version(query) => query.at,
        Question::Ancestors { at, .. } => *at,
        Question::Between { to, .. } => *to,
    }
}

/// What is shown for a question over the rows of a chain.
fn shown_in(alloc: Global, question: &Question, chain: &mut Chain) -> Result<Shown, Memory>
    ensures { IfOk result (λ shown. shown ≡ shown_in chain.old.rows question.now) }
{
    match question {
        Question::Version(query) => Ok(Shown::Answer(chain.ask(query)?)),
        Question::Ancestors { key, at } => Ok(Shown::Ancestors(chain.trace(alloc, key, *at)?)),
        Question::Between { key, from, to } => {
            Ok(Shown::Versions(chain.range(alloc, key, *from, *to)?))
        }
    }
}

/// What is shown for a question over the rows of a chain, if the chain has the last block that it is
/// about.
pub fn ask_outcome(alloc: Global, question: &Question, chain: &mut Chain) -> Result<Outcome, Memory>
    ensures outcome { IfOk result (λ outcome. (blocks : List Blocks) → StandsFor chain.old blocks
        → outcome ≡ ask_outcome compiled_in question.now blocks) }
    ensures ends { IfOk result (λ outcome. EndsAsked outcome.ending) }
{
    if let Some(outcome) = missing(alloc, last_block(question), chain.len())? {
        return Ok(outcome);
    }
    let shown = shown_in(alloc, question, chain)?;
    Ok(Outcome {
        pieces: shown_lines(alloc, &shown)?,
        ending: Ending::Done,
    })
}

/// The question that is asked over the blocks of a chain: one that names none is about the last one.
fn question_in(asked: &Asked, chain: &Chain) -> Question
    ensures { (blocks : List Blocks) → StandsFor chain.now blocks
        → result ≡ question_in asked.now blocks }
{
    match asked {
        Asked::At(question) => *question,
        Asked::AtLast { kind, key } => Question::Version(Query {
            kind: *kind,
            key: *key,
            at: chain.len().saturating_sub(1),
        }),
    }
}

/// The same for what is asked of the log.
pub fn asked_outcome(alloc: Global, asked: &Asked, chain: &mut Chain) -> Result<Outcome, Memory>
    ensures outcome { IfOk result (λ outcome. (blocks : List Blocks) → StandsFor chain.old blocks
        → outcome ≡ ask_outcome compiled_in (question_in asked.now blocks) blocks) }
    ensures ends { IfOk result (λ outcome. EndsAsked outcome.ending) }
{
    let question = question_in(asked, chain);
    ask_outcome(alloc, &question, chain)
}

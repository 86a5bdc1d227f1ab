//! The command `scan`: a question over the blocks of an input, which a refused frame decides.

ghost use Rattle.lc_base.specs.Faults.{HasCause};
ghost use Rattle.std.specs.Prelude.{◌≡◌, [], ◌∷◌, IfOk, IfSome, List, Some, IsErrOf};
ghost use Rattle.block_codec.specs.{Reading.{block_in}, declared.block.Block.{Block as Blocks}};
ghost use Rattle.chain_replay.specs.Chain.{StandsFor, placement_in};
ghost use Rattle.cli_lines.specs.{Outcome.{status_of, outcome_with}, Lines.{refused_line}};
ghost use Rattle.cli_words.specs.declared.{
  words.Command.TheVariants.{Scan},
  question.Question.TheVariants.{Version},
};
ghost use Rattle.cli_output.specs.{
  Output.{ask_outcome, scan_output},
  Running.{MayEnd},
  Scanning.{GivesOutput, EndsAsked},
  Telling.{OnlyReads},
};
ghost use Rattle.chain_exec.specs.Compiled.{compiled_in};
ghost use Rattle.chain_input.specs.Folding.{fold_input};

use crate::asking::ask_outcome;
use chain_input::{Cause, Folded, fold};
use chain_replay::{Chain, Replay};
use cli_lines::{Ending, Outcome, refused_line};
use cli_output::OutcomeStop;
use cli_words::Question;
use lc_base::{Memory, Query, Resources};
use lc_io::Source;
use std::alloc::Global;

/// The outcome for a refused frame.
fn refusal_outcome(alloc: Global, frame: u32, cause: &Cause) -> Result<Outcome, Memory>
    ensures { IfOk result (λ outcome. outcome ≡ outcome_with (refused_line frame cause.now ∷ []) Ending.Refused) }
{
    Outcome::from_line(alloc, refused_line(alloc, frame, cause)?, Ending::Refused)
}

/// The answer over the rows of a chain, which is discarded.
fn whole_outcome(alloc: Global, query: &Query, chain: Chain) -> Result<Outcome, Memory>
    ensures outcome { IfOk result (λ outcome. (blocks : List Blocks) → StandsFor chain blocks → outcome ≡ ask_outcome compiled_in (Version query.now) blocks) }
    ensures ends { IfOk result (λ outcome. EndsAsked outcome.ending) }
{
    let mut chain = chain;
    let outcome = ask_outcome(alloc, &Question::Version(*query), &mut chain);
    chain.give_up();
    outcome
}

/// The outcome of `scan`: the answer to a question over the blocks of the input.
pub fn scan<I: Source>(
    resources: Resources,
    query: &Query,
    source: &mut I,
) -> Result<Outcome, OutcomeStop>
    ensures outcome { IfSome (I.left source.old) (λ input. IfOk result (λ outcome. GivesOutput outcome (I.left source.new) (scan_output compiled_in query.now (fold_input block_in (placement_in compiled_in) input)))) }
    ensures ends { IfOk result (λ outcome. MayEnd (status_of outcome.ending) (Some (Scan query.now))) }
    ensures only { OnlyReads result }
    ensures cause { HasCause (I.source_faults source.old) (I.source_faults source.new) (IsErrOf result OutcomeStop.Unreadable) }
{
    let alloc = resources.alloc;
    match fold(resources, source)? {
        Folded::Whole(chain) => Ok(whole_outcome(alloc, query, chain)?),
        Folded::Refused { frame, cause } => Ok(refusal_outcome(alloc, frame, &cause)?),
    }
}

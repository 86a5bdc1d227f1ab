//! The look-ups of a load: each asks for the versions of a drawn key at a drawn block.

ghost use Rattle.std.specs.{
  Prelude.{◌≡◌, ◌<◌, ◌≤◌, ◌+◌, ◌^◌, true, max, length, map, IfOk, IsErrOf},
  List.{sum},
};
ghost use Rattle.lc_base.specs.{History.{scan}, declared.limits.TheConstants.{MAX_TEXT_BYTES}};
ghost use Rattle.lc_io.specs.Scratch.{is_known};
ghost use Rattle.skip_links.specs.Paths.{path};
ghost use Rattle.rooted_chain.specs.merkle_dag.{
  Ledger.{most_looked_at},
  Lineage.{AgreesWith, LeavesLineage},
};
ghost use Rattle.chain_pack.specs.Generator.{standing_at};
ghost use Rattle.chain_load.specs.{
  Lookups.{CanBeLookedUp, lookup_drawn, lookups_drawn, looked_at, lookup_counts},
  Lookups.{bytes_of_value, bytes_of_answer, bytes_found},
};

use chain_pack::Gen;
use entry_store::{Counter, Steps};
use lc_base::{Answer, HostError, Kind, Query, Value};
use lc_io::Scratch;
use rooted_chain::{Lineage, QueryError, ask};
use std::alloc::Global;

/// The counter of the entries that the look-ups of a load read. Counts of it are begun in this file
/// alone.
struct Looking;

impl Counter for Looking {
    ghost use Rattle.std.specs.Prelude.{true};

    ghost may_begin = { true };
}

/// Counts over look-ups.
#[derive(Clone, Copy)]
pub struct LookupCounts {
    /// The number of versions that all of them looked at.
    pub entries: u64,
    /// The most versions that one of them looked at.
    pub most: u64,
    /// How many bytes the values have that they found; a number has eight.
    pub value_bytes: u64,
}

/// What was counted of one look-up.
#[derive(Clone, Copy)]
pub struct LookupCount {
    /// How many versions it looked at.
    pub entries: u64,
    /// How many bytes the value has that it found.
    pub value_bytes: u64,
}

impl LookupCounts {
    /// The counts with one more look-up.
    fn with(self, one: LookupCount) -> LookupCounts
        requires entries { self.entries + one.entries < 2 ^ 64 }
        requires bytes { self.value_bytes + one.value_bytes < 2 ^ 64 }
        ensures { result ≡ record {
          entries = self.entries + one.entries;
          most = max self.most one.entries;
          value_bytes = self.value_bytes + one.value_bytes;
        } }
    {
        LookupCounts {
            entries: self.entries + one.entries,
            most: self.most.max(one.entries),
            value_bytes: self.value_bytes + one.value_bytes,
        }
    }
}

/// How many bytes a value has; a number has eight, and a value that is gone has none.
fn bytes_of_value(value: &Value) -> u64
    ensures bytes { result ≡ bytes_of_value value.now }
    ensures few { result ≤ MAX_TEXT_BYTES }
{
    match value {
        Value::Int(_) => 8,
        Value::Text(text) => text.as_bytes().len() as u64,
        Value::Gone => 0,
    }
}

/// How many bytes the value has that an answer gives, or 0 if it gives no value.
fn bytes_of_answer(answer: &Answer) -> u64
    ensures bytes { result ≡ bytes_of_answer answer.now }
    ensures few { result ≤ MAX_TEXT_BYTES }
{
    match answer {
        Answer::Hist { value, .. } => bytes_of_value(value),
        Answer::Nothing => 0,
        Answer::Back { .. } => 0,
        Answer::Fwd { .. } => 0,
    }
}

/// Asks a question of the lineage at one of its blocks, and returns what was counted of it. If it
/// is not known which bytes the scratch device holds, nothing is promised of the bytes of the value.
fn count_asked<S: Scratch>(
    alloc: Global,
    lineage: &mut Lineage,
    scratch: &mut S,
    query: &Query,
) -> Result<LookupCount, HostError>
    requires block { query.now.at < length lineage.old.digests }
    requires few_rows { length lineage.old.rows < 2 ^ 32 }
    requires agrees { AgreesWith lineage.old (S.state scratch.old) }
    ensures entries { IfOk result
        (λ one. one.entries ≡ length (path lineage.old.rows query.now.key query.now.at)) }
    ensures few { IfOk result (λ one. one.entries ≤ most_looked_at lineage.old.digests) }
    ensures bytes { is_known (S.state scratch.old) ≡ true
        → IfOk result (λ one. one.value_bytes ≡ bytes_of_answer (scan lineage.old.rows query.now)) }
    ensures few_bytes { IfOk result (λ one. one.value_bytes ≤ MAX_TEXT_BYTES) }
    ensures leaves { LeavesLineage S.state S.scratch_faults lineage.old scratch.old lineage.new
        scratch.new (IsErrOf result HostError.Fault) }
{
    let mut steps = Steps::<Looking>::new();
    match ask(alloc, lineage, scratch, query, &mut steps) {
        Ok(answer) => Ok(LookupCount {
            entries: steps.count(),
            value_bytes: bytes_of_answer(&answer),
        }),
        Err(QueryError::Beyond { .. }) => unreachable!(),
        Err(QueryError::Fault) => Err(HostError::Fault),
        Err(QueryError::Memory) => Err(HostError::Memory),
    }
}

/// Draws a look-up over `blocks` blocks, makes it, and returns what was counted of it.
#[tactic(auto, unfolding(crate::specs::Lookups::lookup_drawn))]
fn look_up<S: Scratch>(
    alloc: Global,
    lineage: &mut Lineage,
    scratch: &mut S,
    generator: &mut Gen,
    blocks: u32,
) -> Result<LookupCount, HostError>
    requires ready { CanBeLookedUp lineage.old blocks }
    requires agrees { AgreesWith lineage.old (S.state scratch.old) }
    ensures entries { IfOk result
        (λ one. one.entries ≡ looked_at lineage.old.rows
        (lookup_drawn blocks generator.old.state).0) }
    ensures few { IfOk result (λ one. one.entries ≤ most_looked_at lineage.old.digests) }
    ensures bytes { is_known (S.state scratch.old) ≡ true
        → IfOk result (λ one. one.value_bytes ≡ bytes_found lineage.old.rows
        (lookup_drawn blocks generator.old.state).0) }
    ensures few_bytes { IfOk result (λ one. one.value_bytes ≤ MAX_TEXT_BYTES) }
    ensures state { generator.new ≡ standing_at (lookup_drawn blocks generator.old.state).1
        generator.old }
    ensures leaves { LeavesLineage S.state S.scratch_faults lineage.old scratch.old lineage.new
        scratch.new (IsErrOf result HostError.Fault) }
{
    let key = generator.draw_key();
    let at = generator.draw(blocks);
    let query = Query {
        kind: Kind::Hist,
        key,
        at,
    };
    count_asked(alloc, lineage, scratch, &query)
}

/// Draws as many look-ups as there are blocks, and makes them.
pub(crate) fn look_up_all<S: Scratch>(
    alloc: Global,
    lineage: &mut Lineage,
    scratch: &mut S,
    generator: Gen,
    blocks: u32,
) -> Result<LookupCounts, HostError>
    requires ready { CanBeLookedUp lineage.old blocks }
    requires agrees { AgreesWith lineage.old (S.state scratch.old) }
    ensures looked { IfOk result
        (λ looked. looked ≡ lookup_counts
        (map (looked_at lineage.old.rows) (lookups_drawn blocks blocks generator.state))
        looked.value_bytes) }
    ensures few { IfOk result (λ looked. looked.most ≤ most_looked_at lineage.old.digests) }
    ensures bytes { is_known (S.state scratch.old) ≡ true
        → IfOk result (λ looked. looked.value_bytes ≡ sum
        (map (bytes_found lineage.old.rows) (lookups_drawn blocks blocks generator.state))) }
    ensures leaves { LeavesLineage S.state S.scratch_faults lineage.old scratch.old lineage.new
        scratch.new (IsErrOf result HostError.Fault) }
{
    let mut generator = generator;
    let mut looked = LookupCounts {
        entries: 0,
        most: 0,
        value_bytes: 0,
    };
    for _ in 0..blocks {
        match look_up(alloc, lineage, scratch, &mut generator, blocks) {
            Ok(one) => looked = looked.with(one),
            Err(error) => return Err(error),
        }
    }
    Ok(looked)
}

//! What is recorded of a call determines its result.

ghost use Rattle.contract_semantics.specs.Laws.{
  WhatIsRecordedIsComplete,
  LookupsAreTheSame,
  QuestionsAreOfBlocksBefore,
  HistoriesWithTheSameReadsGiveTheSame,
};

/// What is recorded of a call is all that it depends on, however it ends.
pub fn what_is_recorded_is_complete()
    ensures { WhatIsRecordedIsComplete }
{}

/// If what is recorded is the same, a call asks the same questions and meets the same keys.
pub fn lookups_are_the_same()
    ensures { LookupsAreTheSame }
{}

/// Each question of a call is about a block before its own.
pub fn questions_are_of_blocks_before()
    ensures { QuestionsAreOfBlocksBefore }
{}

/// A call over two histories that agree on what is recorded has the same result.
pub fn histories_with_the_same_reads_give_the_same()
    ensures { HistoriesWithTheSameReadsGiveTheSame }
{}

//! No premise of completeness can be left out: without any one of them the law is false.

ghost use Rattle.contract_semantics.specs.FalseLaws.{
  AllReadsButOneAreComplete,
  QuestionsDoNotMatter,
  KeysMetDoNotMatter,
};

/// A call may have another result if one key that it read holds something else.
pub fn all_reads_but_one_are_not_complete()
    ensures { AllReadsButOneAreComplete → ⊥ }
{}

/// A call may have another result if the rows answer its questions differently.
pub fn questions_matter()
    ensures { QuestionsDoNotMatter → ⊥ }
{}

/// A call may have another result if a key that it met is written.
pub fn keys_met_matter()
    ensures { KeysMetDoNotMatter → ⊥ }
{}

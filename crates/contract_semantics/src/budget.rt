//! The cost of a call is what it took from its budget, and a larger budget changes nothing but that
//! a call may go on.

ghost use Rattle.contract_semantics.specs.Laws.{
  CostAndLeftAreTheBudget,
  LargerBudgetChangesNothing,
  LongerClockChangesNothing,
  NothingIsPaidBack,
};

/// The cost of a function and what its body leaves of the budget add up to the budget.
pub fn cost_and_left_are_the_budget()
    ensures { CostAndLeftAreTheBudget }
{}

/// What is left of a budget never grows.
pub fn nothing_is_paid_back()
    ensures { NothingIsPaidBack }
{}

/// A call that didn't end with `OutOfSteps` has the same result with a larger budget.
pub fn larger_budget_changes_nothing()
    ensures { LargerBudgetChangesNothing }
{}

/// The clock of a loop isn't a limit of its own.
pub fn longer_clock_changes_nothing()
    ensures { LongerClockChangesNothing }
{}

//! What contracts mean when they run: the definitions, the types that they need, and laws of that
//! meaning, each the contract of a function that does nothing.
#![tactic(auto)]

mod budget;
mod charge;
mod dependence;
mod exchange;
mod refuted;
mod site;
mod stop;
mod variable;
mod versions;

pub use budget::{
    cost_and_left_are_the_budget, larger_budget_changes_nothing, longer_clock_changes_nothing,
    nothing_is_paid_back,
};
pub use charge::{CHARGE_HISTORY, CHARGE_NODE, CHARGE_PUT, CHARGE_READ, charge_of};
pub use dependence::{
    histories_with_the_same_reads_give_the_same, lookups_are_the_same,
    questions_are_of_blocks_before, what_is_recorded_is_complete,
};
pub use exchange::{
    calls_can_be_exchanged, keys_met_are_read_or_put, puts_of_others_change_nothing,
    reads_and_puts_are_complete,
};
pub use refuted::{all_reads_but_one_are_not_complete, keys_met_matter, questions_matter};
pub use site::{CallSite, Outcome};
pub use stop::EvalStop;
pub use variable::Variable;
pub use versions::{
    dependencies_are_newest_rows, dependencies_are_reads, failures_are_not_ok,
    puts_are_own_and_unwritten, reads_are_of_versions_before, reads_are_only_added,
};

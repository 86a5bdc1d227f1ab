//! Evaluates expressions within what is left of a budget, over a world and a host: operators,
//! variables, builtins, and questions about the past.
#![tactic(auto)]

mod arguments;
mod asking;
mod builtin;
mod expression;
mod number;
mod operator;
mod reading;
mod run;
mod side;
mod variables;
mod wanted;

pub use asking::{
    block_before, block_told, block_value, count_asked, item_asked, key_of_text, key_value,
    seen_told, tx_told, value_told, version_asked,
};
pub use builtin::{call_by_name, charge};
pub use contract_check::{CheckError, Checked, check};
pub use contract_semantics::{CHARGE_NODE, CHARGE_PUT, CallSite, EvalStop, Outcome};
pub use expression::{value, values};
pub use number::truth;
pub use operator::{binary_result, holds, left_decision, prefix_result};
pub use reading::copy_of;
pub use run::Run;
pub use side::Side;
pub use variables::Variables;

//! Laws of what accepted proofs say of chains of blocks, by a root or by a light file, and of where
//! chains are found; and of what calls, blocks and replays write, by which the rows of a chain are
//! within their types.
#![tactic(auto)]

mod chains;
mod light;
mod ranges;
mod refuted;
mod soundness;
mod traces;
mod typed_laws;

pub use chains::{
    inputs_add_to_chains, inputs_add_to_logs, inputs_hold_chains, logs_hold_chains,
    versions_only_rise,
};
pub use light::{light_answers_are_of_replays, made_proofs_are_accepted_by_files};
pub use light_client::{
    BLOCKS_PER_PIECE, Checked, LightError, LightFile, LightReject, block_count, check, head, piece,
};
pub use ranges::accepted_ranges_are_of_replays;
pub use refuted::{compilers_matter, limits_matter, places_matter};
pub use soundness::{
    accepted_answers_agree, accepted_proofs_answer_as_logs, accepted_proofs_answer_as_replays,
    chains_with_one_root_answer_alike, nothing_and_something_clash, wrong_answers_are_exposed,
};
pub use traces::accepted_traces_are_of_replays;
pub use typed_laws::{
    blocks_add_typed_rows, calls_write_typed_rows, chains_of_values_are_typed,
    compilers_give_values, replays_are_typed,
};

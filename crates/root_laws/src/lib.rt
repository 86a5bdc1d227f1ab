//! The header and the body of each row of a history, the leaves over its keys, and its root; the
//! ancestors of a version, and all versions of a key between two blocks: laws of what `specs/`
//! defines, each the contract of a function that does nothing. Some are of histories whose parts
//! are within their types.
#![tactic(auto)]

mod ancestor_examples;
mod ancestor_laws;
mod laws;
mod range_examples;
mod range_laws;
mod trace;
mod typed_laws;
mod types;

pub use ancestor_examples::two_ways_to_one;
pub use ancestor_laws::{
    ancestors_are_few, ancestors_are_reached, ancestors_rise, reached_versions_are_ancestors,
    trace_steps_are_few,
};
pub use laws::{
    closed_lists_are_of_the_history, dependencies_name_headers, earlier_headers_stay,
    earlier_keys_stand_first, earlier_roots_stay, earlier_versions_stay_named,
    header_walks_are_sound, keys_are_distinct, keys_are_those_of_the_rows, leaves_name_headers,
    links_are_of_the_history, links_name_headers, new_key_is_threaded,
    next_key_is_the_least_greater, next_key_is_unique, rows_are_named,
    versions_of_a_block_are_named,
};
pub use prov_entry::{
    Body, HashAt, Header, Leaf, Levels, MAX_HEIGHT, empty_hash, leaf_digest, no_uses, node_hash,
};
pub use range_examples::{blocks_are_included, looked_at_once};
pub use range_laws::{
    no_versions_no_steps, range_steps_are_few, range_steps_are_of_rows, ranges_end_at_the_latest,
    ranges_may_be_empty, versions_rise,
};
pub use trace::Trace;
pub use typed_laws::{
    blocks_are_typed, bodies_are_bodies, headers_are_headers, leaves_are_leaves, parts_are_typed,
};
pub use types::check_row;

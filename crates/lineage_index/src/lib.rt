//! What is kept beside the rows of a lineage: the leaves and the open forward lists of their keys, and
//! the entries of the rows.
#![tactic(auto)]

mod advancing;
mod growing;
mod headers;
mod heads;
mod index;
mod indexes;
mod leaves;
mod lookups;
mod new_entries;
mod newest_row;
mod row_laws;
mod settling;
mod spelling;

pub use entry_views::{Header, root_digest};
pub use forward_links::{OpenList, OpenLists};
pub use growing::{NewVersion, push_version};
pub use headers::entry_header;
pub use heads::set_newest;
pub use index::LineageIndex;
pub use leaves::leaf_state;
pub use lookups::{entries_on_path, latest_entry};
pub use plain_rows::{IndexList, check_row};
pub use row_laws::{
    digests_are_those_of_the_headers, earlier_entries_are_of_the_earlier_history,
    earlier_versions_are_towered, entries_are_towered, entries_stay_where_later_blocks_are_added,
    first_entries_are_of_the_first_rows, hops_name_the_headers_of_the_links,
    links_are_those_of_the_rows, lookup_ends_at_the_latest,
    lookup_gives_the_newest_of_the_rows_up_to_the_block, newest_entry_is_the_newest_row,
    path_is_over_the_versions, rows_are_read_back, versions_stay_where_other_keys_are_added,
};
pub use skip_list::{Counter, EntryId, EntryList, Facts, Found, Steps, Store};
pub use state_tree::{LeafList, LeafState, Tree, tree_hash};

//! The links of a version of a key to older ones; and the path along them on which any older one is
//! found from the newest, in few steps.
#![tactic(auto)]

mod examples;
mod laws;
mod limits;
mod path_laws;
mod scanning;
mod versions;
mod walking;

pub use examples::{far_versions, three_versions};
pub use laws::{
    blocks_of_a_key_fall, first_link_is_to_the_version_before, first_version_alone_is_at_the_top,
    first_version_has_no_links, height_is_the_highest_difference,
    later_version_has_a_link_at_each_level, links_are_of_rows_before_the_block,
    links_are_of_rows_up_to_the_block, links_are_over_the_blocks_of_the_key,
    links_are_to_older_versions, newest_index_grows_row_by_row, newest_index_is_of_the_newest,
};
pub use limits::MAX_LEVEL;
pub use path_laws::{
    answers_are_reached_by_the_lowest_link, links_are_a_tower, path_ends_at_the_latest,
    path_is_over_the_blocks_of_the_key, path_is_short, path_of_no_version_is_empty,
    path_over_ends_at_the_latest, path_over_is_short,
};
pub use scanning::links;
pub use versions::BlockList;
pub use walking::path;

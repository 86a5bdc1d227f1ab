//! Of each key the forward list that is still open: the rows of its uses, with their number and
//! their digest. Closing a list hands it out.
#![tactic(auto)]

mod kept_list;
mod limits;
mod lists;
mod open_list;

pub use kept_list::Closed;
pub use limits::MAX_LISTS;
pub use lists::OpenLists;
pub use open_list::OpenList;

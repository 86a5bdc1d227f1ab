//! A history kept row by row with an index, and questions answered by looking them up. The index
//! has where each key's versions stand, and which rows were derived from each row.
#![tactic(auto)]

mod adding;
mod asking;
mod host;
mod index;
mod kept;
mod places;
mod rows;
mod users;

pub use index::RowsIndex;
pub use root_laws::check_row;
pub use rows::PlainRows;
pub use users::IndexList;

//! Headers, bodies and leaves, read in place from their bytes: they are checked, and lists and
//! texts are not copied. The value of a row, and what it was derived from, are read from the bytes
//! of its body.
#![tactic(auto)]

mod body_dep_view;
mod body_laws;
mod body_view;
mod entry_fields;
mod entry_view;
mod fault;
mod header_view;
mod laws;
mod leaf_view;
mod limits;
mod link_view;
mod list_items;
mod list_view;
mod plain_views;
mod reading;

pub use body_dep_view::BodyDepView;
pub use body_laws::bodies_are_read_back;
pub use body_view::{BodyFields, BodyView, read_body};
pub use byte_fields::{Fault, Reader, put_digest, put_key, put_u8, put_u32};
pub use entry_view::{EntryFields, EntryView, ReadFields};
pub use fault::FieldError;
pub use header_view::{HeaderFields, HeaderView, read_header};
pub use laws::{fields_determine_a_body, fields_determine_a_header, fields_determine_a_leaf};
pub use leaf_view::{LeafView, read_leaf};
pub use link_view::LinkView;
pub use list_view::{ListItem, ListView, read_list};
pub use prov_entry::{
    Body, BodyDep, BodyDepList, Header, Leaf, root_digest, write_body, write_header, write_leaf,
};
pub use reading::{body_of_bytes, dep_count_of_bytes, dep_of_bytes, deps_of_bytes, value_of_bytes};

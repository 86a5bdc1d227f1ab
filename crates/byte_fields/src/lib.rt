//! Reading and writing the fields of blocks, entries and proofs.
#![tactic(auto)]

mod fault;
mod reader;
mod value_view;
mod writing;

pub use fault::{Fault, ReadError};
pub use reader::Reader;
pub use value_view::ValueView;
pub use writing::{
    put_any_bytes, put_digest, put_key, put_keys, put_name, put_text, put_u8, put_u16, put_u32,
    put_u64, put_value,
};

//! The types of the ledger, with its keys and names; what a running contract may ask about the
//! history; and what collections are made with.
#![tactic(auto)]

mod answer;
mod deps;
mod digest;
mod host;
mod host_error;
mod key;
mod limits;
mod list;
mod memory;
mod name;
mod name_limits;
mod padded;
mod resources;
mod row;
mod text;
mod tx_status;
mod value;
mod words;

pub use answer::{Answer, Kind, Query};
pub use digest::{Digest, check_digest};
pub use host::Host;
pub use host_error::HostError;
pub use key::{Key, KeyError};
pub use limits::{MAX_DEPS, MAX_JOINED_BYTES, MAX_ROWS, MAX_TEXT_BYTES};
pub use list::{
    Bytes, DepList, DigestList, Duplicate, KeyList, RowList, Seq, TextList, ValueList, VersionList,
};
pub use memory::{Memory, zeros};
pub use name::{Name, is_name_byte};
pub use name_limits::{MAX_KEY_BYTES, MAX_NAME_BYTES};
pub use resources::{Resources, Zeros};
pub use row::{Dep, Row, Version};
pub use text::{Text, TextError, bad_text_byte, is_text_byte};
pub use tx_status::TxStatus;
pub use value::Value;

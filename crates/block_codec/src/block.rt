//! Blocks and their transactions, as `decode` returns them and `encode` takes them.

ghost use Rattle.std.specs.Prelude.{◌≡◌, ◌≤◌};
ghost use Rattle.lc_base.specs.declared.limits.TheConstants.{MAX_TEXT_BYTES};
ghost use Rattle.block_codec.specs.Spelling.{is_version, text_limit};

use crate::limits::MAX_FIRST_TEXT_BYTES;
use lc_base::{Bytes, Digest, Key, KeyList, MAX_TEXT_BYTES, Name, Seq, Value};

/// The first byte of a block of the first version of the format.
pub const FIRST_VERSION: u8 = 1;

/// The first byte of a block of the second version, whose contracts are of the second edition of
/// their language.
pub const SECOND_VERSION: u8 = 2;

/// The first byte of a transaction that writes a value.
pub const SET: u8 = 1;

/// The first byte of a transaction that deploys a contract.
pub const DEPLOY: u8 = 2;

/// The first byte of a transaction that calls a contract.
pub const CALL: u8 = 3;

/// A transaction.
#[derive(Drop)]
pub enum Tx {
    /// Writes a value to a key, derived from the newest versions of the keys in `deps`.
    Set {
        sender: Key,
        key: Key,
        value: Value,
        /// The keys of the dependencies, at most `MAX_DEPS`.
        deps: KeyList,
    },
    /// Deploys a contract under a name.
    Deploy {
        sender: Key,
        name: Name,
        /// The source, at most `MAX_SOURCE_BYTES` bytes of any value.
        source: Bytes,
    },
    /// Calls a function of a deployed contract.
    Call {
        sender: Key,
        contract: Name,
        function: Name,
        /// The arguments, at most `MAX_ARGS`.
        args: Seq<Value>,
        /// The budget in steps, at most `MAX_CALL_BUDGET`.
        budget: u32,
    },
}

/// A list of transactions.
pub type TxList = Seq<Tx>;

/// A block.
#[derive(Drop)]
pub struct Block {
    /// `FIRST_VERSION` or `SECOND_VERSION`.
    pub version: u8,
    pub number: u32,
    /// The digest of the previous block.
    pub parent: Digest,
    /// The transactions, at most `MAX_TXS`.
    pub txs: TxList,
}

/// Whether blocks have this version.
pub(crate) fn is_version(version: u8) -> bool
    ensures { result ≡ is_version version }
{
    version == FIRST_VERSION || version == SECOND_VERSION
}

/// The greatest number of bytes of a text in a block of this version: `MAX_TEXT_BYTES` in one of
/// the second version, `MAX_FIRST_TEXT_BYTES` in another.
pub fn text_limit(version: u8) -> u16
    ensures limit { result ≡ text_limit version }
    ensures few { result ≤ MAX_TEXT_BYTES }
{
    if version == SECOND_VERSION {
        MAX_TEXT_BYTES as u16
    } else {
        MAX_FIRST_TEXT_BYTES as u16
    }
}

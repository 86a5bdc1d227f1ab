//! Blocks that are encoded at each of their limits, and one past it. A draft can't bring most of
//! these to `encode`, since it is refused before.

use block_codec::{
    Block, EncodeError, FIRST_VERSION, MAX_ARGS, MAX_BLOCK_BYTES, MAX_CALL_BUDGET,
    MAX_FIRST_TEXT_BYTES, MAX_SOURCE_BYTES, MAX_TXS, NO_PARENT, SECOND_VERSION, Tx, TxList, encode,
};
use lc_base::{Bytes, Key, KeyList, MAX_DEPS, MAX_TEXT_BYTES, Name, Text, Value, ValueList};
use std::alloc::Global;

/// The number of bytes of a block before its transactions.
const FRONT: usize = 39;
/// The numbers of bytes of a Set of an int without dependency keys, of a Call without arguments,
/// and of a Deploy without its source, if keys and names have one byte.
const SET: usize = 17;

const CALL: usize = 15;

const DEPLOY: usize = 9;
/// The numbers of bytes of a key of one byte, of an int, and of a text without its bytes.
const KEY: usize = 3;

const INT: usize = 9;

const TEXT: usize = 3;

/// The most bytes of a text in a block of the first version.
const FIRST_TEXT: usize = MAX_FIRST_TEXT_BYTES;
/// The numbers of bytes of a block of one Set or Call of a text, without the bytes of that.
const SET_TEXT: usize = FRONT + SET - INT + TEXT;

const CALL_TEXT: usize = FRONT + CALL + TEXT;

/// The most bytes of the source of the last Deploy, if 63 others have the longest source.
const LAST: usize = MAX_BLOCK_BYTES - FRONT - 64 * DEPLOY - 63 * MAX_SOURCE_BYTES;

/// A transaction, whose keys and names have one byte. A value is a text of as many bytes, or an int.
#[derive(Clone, Copy)]
pub(crate) enum Made {
    /// A value, and the number of dependency keys.
    Set(Option<usize>, usize),
    /// The number of arguments, each of them such a value, and the budget.
    Call(Option<usize>, usize, u32),
    /// The number of bytes of the source.
    Deploy(usize),
}

/// As many transactions of a kind, and then as many of another one.
type Txs = [(usize, Made); 2];

/// As many bytes.
fn bytes(alloc: Global, count: usize) -> Option<Vec<u8>> {
    vec![in alloc; b'a'; count].ok()
}

fn value(alloc: Global, text: Option<usize>) -> Option<Value> {
    let Some(count) = text else {
        return Some(Value::Int(1));
    };
    match Text::new(alloc, &bytes(alloc, count)?) {
        Ok(text) => Some(Value::Text(text)),
        Err(_) => None,
    }
}

/// Adds as many arguments.
fn add_args(alloc: Global, args: &mut ValueList, text: Option<usize>, count: usize) -> bool {
    for _ in 0..count {
        let is_added = match value(alloc, text) {
            Some(value) => args.push(value).is_ok(),
            None => false,
        };
        if !is_added {
            return false;
        }
    }
    true
}

/// A transaction.
fn tx_of(alloc: Global, made: Made) -> Option<Tx> {
    let sender = Key::new(b"k").ok()?;
    let name = Name::new(b"n").ok()?;
    match made {
        Made::Set(text, count) => {
            let deps = KeyList::from_vec(vec![in alloc; sender; count].ok()?);
            match value(alloc, text) {
                Some(value) => Some(Tx::Set {
                    sender,
                    key: sender,
                    value,
                    deps,
                }),
                None => None,
            }
        }
        Made::Call(text, count, budget) => {
            let mut args = ValueList::new(alloc);
            if add_args(alloc, &mut args, text, count) {
                Some(Tx::Call {
                    sender,
                    contract: name,
                    function: name,
                    args,
                    budget,
                })
            } else {
                None
            }
        }
        Made::Deploy(count) => Some(Tx::Deploy {
            sender,
            name,
            source: Bytes::from_vec(bytes(alloc, count)?),
        }),
    }
}

/// Adds as many transactions of a kind.
fn add(alloc: Global, txs: &mut TxList, count: usize, kind: Made) -> bool {
    for _ in 0..count {
        let is_added = match tx_of(alloc, kind) {
            Some(tx) => txs.push(tx).is_ok(),
            None => false,
        };
        if !is_added {
            return false;
        }
    }
    true
}

/// The bytes of the block of this version and these transactions; `Memory` also if they can't be
/// made.
pub(crate) fn encoded(alloc: Global, version: u8, made: &Txs) -> Result<Bytes, EncodeError> {
    let [(count, kind), (more, other)] = *made;
    let mut txs = TxList::new(alloc);
    if !add(alloc, &mut txs, count, kind) || !add(alloc, &mut txs, more, other) {
        return Err(EncodeError::Memory);
    }
    let block = Block {
        version,
        number: 0,
        parent: NO_PARENT,
        txs,
    };
    encode(alloc, &block)
}

/// Whether `wanted` bytes spell the block of this version and these transactions, or, if `wanted` is
/// 0, no bytes do.
fn is_spelled(alloc: Global, version: u8, made: &Txs, wanted: usize) -> bool {
    match encoded(alloc, version, made) {
        Ok(bytes) => bytes.len() == wanted,
        Err(EncodeError::Limit) => wanted == 0,
        Err(EncodeError::Memory) => false,
    }
}

/// No transactions.
pub(crate) const NONE: (usize, Made) = (0, Made::Deploy(0));

/// A block: its version, its transactions, and how many bytes spell it, 0 if none do.
type Case = (u8, Txs, usize);

/// The limits of texts.
const TEXTS: [Case; 10] = [
    // Texts in Sets and Calls, at the limit of the first version.
    (
        FIRST_VERSION,
        [(1, Made::Set(Some(FIRST_TEXT), 0)), NONE],
        SET_TEXT + FIRST_TEXT,
    ),
    (
        FIRST_VERSION,
        [(1, Made::Call(Some(FIRST_TEXT), 1, 0)), NONE],
        CALL_TEXT + FIRST_TEXT,
    ),
    // One past it.
    (
        FIRST_VERSION,
        [(1, Made::Set(Some(FIRST_TEXT + 1), 0)), NONE],
        0,
    ),
    (
        FIRST_VERSION,
        [(1, Made::Call(Some(FIRST_TEXT + 1), 1, 0)), NONE],
        0,
    ),
    // The longest texts are for the second version alone.
    (
        FIRST_VERSION,
        [(1, Made::Set(Some(MAX_TEXT_BYTES), 0)), NONE],
        0,
    ),
    (
        FIRST_VERSION,
        [(1, Made::Call(Some(MAX_TEXT_BYTES), 1, 0)), NONE],
        0,
    ),
    // In the second version.
    (
        SECOND_VERSION,
        [(1, Made::Set(Some(FIRST_TEXT + 1), 0)), NONE],
        SET_TEXT + FIRST_TEXT + 1,
    ),
    (
        SECOND_VERSION,
        [(1, Made::Call(Some(FIRST_TEXT + 1), 1, 0)), NONE],
        CALL_TEXT + FIRST_TEXT + 1,
    ),
    // The longest.
    (
        SECOND_VERSION,
        [(1, Made::Set(Some(MAX_TEXT_BYTES), 0)), NONE],
        SET_TEXT + MAX_TEXT_BYTES,
    ),
    (
        SECOND_VERSION,
        [(1, Made::Call(Some(MAX_TEXT_BYTES), 1, 0)), NONE],
        CALL_TEXT + MAX_TEXT_BYTES,
    ),
];

/// The limits of transactions.
const TRANSACTIONS: [Case; 8] = [
    (
        FIRST_VERSION,
        [(1, Made::Set(None, MAX_DEPS)), NONE],
        FRONT + SET + MAX_DEPS * KEY,
    ),
    (FIRST_VERSION, [(1, Made::Set(None, MAX_DEPS + 1)), NONE], 0),
    (
        FIRST_VERSION,
        [(1, Made::Deploy(MAX_SOURCE_BYTES)), NONE],
        FRONT + DEPLOY + MAX_SOURCE_BYTES,
    ),
    (
        FIRST_VERSION,
        [(1, Made::Deploy(MAX_SOURCE_BYTES + 1)), NONE],
        0,
    ),
    (
        FIRST_VERSION,
        [(1, Made::Call(None, MAX_ARGS, 0)), NONE],
        FRONT + CALL + MAX_ARGS * INT,
    ),
    (
        FIRST_VERSION,
        [(1, Made::Call(None, MAX_ARGS + 1, 0)), NONE],
        0,
    ),
    (
        FIRST_VERSION,
        [(1, Made::Call(None, 0, MAX_CALL_BUDGET)), NONE],
        FRONT + CALL,
    ),
    (
        FIRST_VERSION,
        [(1, Made::Call(None, 0, MAX_CALL_BUDGET + 1)), NONE],
        0,
    ),
];

/// The most transactions of a block.
const MOST: usize = MAX_TXS as usize;

/// The limits of blocks, and their versions.
const BLOCKS: [Case; 8] = [
    (
        FIRST_VERSION,
        [(MOST, Made::Set(None, 0)), NONE],
        FRONT + MOST * SET,
    ),
    (FIRST_VERSION, [(MOST + 1, Made::Set(None, 0)), NONE], 0),
    (
        FIRST_VERSION,
        [
            (63, Made::Deploy(MAX_SOURCE_BYTES)),
            (1, Made::Deploy(LAST)),
        ],
        MAX_BLOCK_BYTES,
    ),
    (
        FIRST_VERSION,
        [
            (63, Made::Deploy(MAX_SOURCE_BYTES)),
            (1, Made::Deploy(LAST + 1)),
        ],
        0,
    ),
    // The versions.
    (FIRST_VERSION, [NONE, NONE], FRONT),
    (SECOND_VERSION, [NONE, NONE], FRONT),
    (FIRST_VERSION - 1, [NONE, NONE], 0),
    (SECOND_VERSION + 1, [NONE, NONE], 0),
];

/// Whether each of these blocks is spelled by as many bytes.
fn are_spelled(alloc: Global, cases: &[Case]) -> bool {
    for (version, made, wanted) in cases {
        if !is_spelled(alloc, *version, made, *wanted) {
            return false;
        }
    }
    true
}

#[test]
fn limits_of_blocks(rt: HostRuntime) {
    assert!(rt; are_spelled(rt.alloc(), &TEXTS), "texts");
    assert!(rt; are_spelled(rt.alloc(), &TRANSACTIONS), "transactions");
    assert!(rt; are_spelled(rt.alloc(), &BLOCKS), "blocks");
}

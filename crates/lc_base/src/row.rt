ghost use Rattle.std.specs.Prelude.{◌≡◌, Ok};

use crate::key::Key;
use crate::list::{DepList, Duplicate};
use crate::memory::Memory;
use crate::value::Value;
use std::alloc::Global;

/// A version that another was derived from: a key, and the block of that version.
#[derive(Clone, Copy, PartialEq, Eq)]
pub struct Dep {
    pub key: Key,
    /// The number of its block.
    pub block: u32,
}

/// A written version of a key, with the versions that it was derived from.
#[derive(Drop)]
pub struct Row {
    pub key: Key,
    /// The number of its block.
    pub block: u32,
    /// The index of its transaction in the block, from 0.
    pub tx: u16,
    pub value: Value,
    /// In a lawful history at most `MAX_DEPS`, without repeats, each of an earlier block.
    pub deps: DepList,
}

/// A version of a key, without the key.
#[derive(Drop)]
pub struct Version {
    /// The number of its block.
    pub block: u32,
    /// The index of its transaction in the block, from 0.
    pub tx: u16,
    pub value: Value,
}

impl Duplicate for Row {
    fn copy(&self, alloc: Global) -> Result<Row, Memory> {
        let value = self.value.copy(alloc)?;
        let deps = self.deps.copy()?;
        Ok(Row {
            key: self.key,
            block: self.block,
            tx: self.tx,
            value,
            deps,
        })
    }
}

impl Duplicate for Version {
    fn copy(&self, alloc: Global) -> Result<Version, Memory> {
        let value = self.value.copy(alloc)?;
        Ok(Version {
            block: self.block,
            tx: self.tx,
            value,
        })
    }
}

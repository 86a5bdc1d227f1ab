use crate::list::Duplicate;
use crate::memory::Memory;
use crate::text::Text;
use std::alloc::Global;

/// What a version of a key holds.
#[derive(Drop)]
pub enum Value {
    Int(i64),
    Text(Text),
    /// No value: the version says that the key was dropped.
    Gone,
}

impl Duplicate for Value {
    fn copy(&self, alloc: Global) -> Result<Value, Memory> {
        match self {
            Value::Int(number) => Ok(Value::Int(*number)),
            Value::Text(text) => Ok(Value::Text(text.copy(alloc)?)),
            Value::Gone => Ok(Value::Gone),
        }
    }
}

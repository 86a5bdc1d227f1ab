use lc_base::{Name, Value};

/// A visible name and its value.
#[derive(Drop)]
pub struct Variable {
    /// The name, as the contract declares it.
    pub name: Name,
    /// The value that the name stands for.
    pub value: Value,
}

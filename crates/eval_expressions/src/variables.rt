//! Variables are kept in the order of their declaration, so the end of a block forgets the newest
//! ones.

ghost use Rattle.std.specs.{Prelude.{◌≡◌, [], length, take, OnOk, OnErr}, Option.{option_copied}};
ghost use Rattle.contract_semantics.specs.Statements.{with_variable, with_assignment};
ghost use Rattle.eval_expressions.specs.Named.{value_in};

use contract_check::NameTable;
use lc_base::{Memory, Name, Value};
use std::alloc::Global;
use std::marker::Model;

/// The visible variables of a function, the oldest first.
///
/// They are kept in a table by their names, so the time of a look-up grows with the logarithm of
/// their number, whatever their names are.
#[derive(Drop)]
pub struct Variables {
    named: NameTable<Value>,
}

impl Model for Variables {
    ghost use Rattle.std.specs.Prelude.{List, map};
    ghost use Rattle.contract_semantics.specs.declared.variable.Variable.{Variable};
    ghost use Rattle.eval_expressions.specs.Named.{variable_in};

    ghost Value = { List Variable };

    ghost view = { λ variables. map variable_in variables.named };
}

impl Variables {
    /// No variables. This takes no memory.
    pub fn new(alloc: Global) -> Variables
        ensures { result ≡ [] }
    {
        Variables {
            named: NameTable::new(alloc),
        }
    }

    /// The number of variables.
    pub fn len(&self) -> usize
        ensures { result ≡ length self.now }
    {
        self.named.len()
    }

    /// The value of the variable with this name; `None` exactly if the name isn't visible.
    #[tactic(auto, using(crate::proofs::Named::value_found))]
    pub fn get(&self, name: &Name) -> Option<&Value>
        ensures { option_copied result ≡ value_in self.now name.now }
    {
        self.named.get(name)
    }

    /// Assigns another value to the variable with this name. A name that isn't visible changes
    /// nothing.
    #[tactic(auto, using(crate::proofs::Named::value_set))]
    pub fn assign(&mut self, name: &Name, value: Value)
        ensures { self.new ≡ with_assignment self.old name.now value }
    {
        self.named.set(name, value);
    }

    /// Makes a name visible, with this value. If memory runs out, nothing changes.
    pub fn declare(&mut self, name: &Name, value: Value) -> Result<(), Memory>
        ensures ok { OnOk result (self.new ≡ with_variable self.old name.now value) }
        ensures err { OnErr result (self.new ≡ self.old) }
    {
        self.named.push(name, value)
    }

    /// Forgets all variables but the oldest `count`.
    #[tactic(auto, using(crate::proofs::Named::oldest_kept))]
    pub fn keep(&mut self, count: usize)
        ensures { self.new ≡ take count self.old }
    {
        self.named.keep(count);
    }
}

ghost use Rattle.std.specs.Prelude.{◌≡◌, [], IfOk, option_map};
ghost use Rattle.std.specs.Option.{option_copied};
ghost use Rattle.ct_suite.specs.Values.{Variable, variable_value, with_variable};

use ct_base::{Name, NoMemory};
use indexmap::IndexMap;
use std::alloc::Global;
use std::marker::Model;

/// The variables of a tree. Contracts see each that was set, in order of first use.
#[derive(Drop)]
pub struct Table {
    // A variable that is no longer set has no value, and keeps its place.
    values: Box<IndexMap<Vec<u8>, Option<Name>>>,
}

impl Model for Table {
    ghost use Rattle.std.specs.Prelude.{List, map};
    ghost use Rattle.ct_suite.specs.Values.{Variable};
    ghost use Rattle.ct_suite.specs.Entries.{variable_of};

    ghost Value = { List Variable };

    ghost view = { λ t. map variable_of t.values.value.entries };
}

impl Table {
    /// Makes a table without variables.
    pub fn new(alloc: Global) -> Result<Table, NoMemory>
        ensures { IfOk result (λ table. table ≡ []) }
    {
        Ok(Table {
            values: Box::new(alloc, IndexMap::new(alloc))?,
        })
    }

    /// Looks up the value of a variable that is set.
    pub fn value(&self, name: &[u8]) -> Option<&Name>
        ensures { option_copied result ≡ variable_value self.now name.now }
    {
        let value = self.values.get(name)?;
        value.as_ref()
    }

    /// Sets a variable, or removes its value.
    pub fn with(self, name: Name, value: Option<Name>) -> Result<Table, NoMemory>
        ensures { IfOk result (λ table. table ≡ with_variable self (record { name = name; value = value })) }
    {
        let Table { mut values } = self;
        values.insert(name.into_vec(), value)?;
        Ok(Table { values })
    }
}

ghost use Rattle.std.specs.Prelude.{◌≡◌, [], Some, None, option_map, IfOk};
ghost use Rattle.std.specs.Option.{option_copied};
ghost use Rattle.ct_props.specs.Values.{value_of_key};
ghost use Rattle.ct_env.specs.Environment.{IsAscending};
ghost use Rattle.ct_env.specs.Variables.{PutsVariable, SetsAll, Changes, ChangesAll};

use crate::modification::Modification;
use ct_base::{List, Name, NoMemory, Pair};
use std::alloc::Global;
use std::collections::BTreeMap;
use std::marker::Model;

/// Variables that are set. Contracts see them in byte order of names.
#[derive(Drop)]
pub struct Variables {
    values: BTreeMap<Vec<u8>, Vec<u8>>,
}

impl Model for Variables {
    ghost use Rattle.std.specs.Prelude.{List, map};
    ghost use Rattle.std.specs.Ordering.{nat_cmp};
    ghost use Rattle.std.specs.Cmp.Lexicographic.{slice_cmp};
    ghost use Rattle.std.specs.BTreeMap.{IsOrdered};
    ghost use Rattle.ct_base.specs.declared.defs.Pair.{Pair};
    ghost use Rattle.ct_env.specs.Variables.{pair_of};

    ghost Value = { List Pair };

    ghost view = { λ v. map pair_of v.values.entries };

    ghost invariant = { λ v. IsOrdered (λ x y. slice_cmp nat_cmp x.items y.items) v.values };
}

impl Variables {
    /// Makes variables of which none is set.
    pub fn new(alloc: Global) -> Variables
        ensures { result ≡ [] }
    {
        Variables {
            values: BTreeMap::new(alloc),
        }
    }

    /// Looks up the value of a variable that is set.
    pub fn value(&self, name: &[u8]) -> Option<&[u8]>
        ensures { option_copied result ≡ value_of_key self.now name.now }
    {
        let value = self.values.get(name)?;
        Some(value.as_slice())
    }

    /// Makes a copy of the variables.
    pub fn copy(&self) -> Result<Variables, NoMemory>
        ensures { IfOk result (λ variables. variables ≡ self.now) }
    {
        Ok(Variables {
            values: self.values.clone()?,
        })
    }

    /// Sets a variable to this value or, with `None`, unsets it.
    pub fn with(
        self,
        alloc: Global,
        name: &[u8],
        value: Option<Vec<u8>>,
    ) -> Result<Variables, NoMemory>
        ensures { IfOk result (λ after. PutsVariable name.now (option_map (λ text. text.items) value) self after) }
    {
        match value {
            None => Ok(self.without(name)),
            Some(value) => self.with_value(alloc, name, value),
        }
    }

    fn with_value(self, alloc: Global, name: &[u8], value: Vec<u8>) -> Result<Variables, NoMemory>
        ensures { IfOk result (λ after. PutsVariable name.now (Some value.items) self after) }
    {
        let Variables { mut values } = self;
        values.insert(Vec::from_slice(alloc, name)?, value)?;
        Ok(Variables { values })
    }

    /// Unsets a variable.
    pub fn without(self, name: &[u8]) -> Variables
        ensures { PutsVariable name.now None self result }
    {
        let Variables { mut values } = self;
        values.remove(name);
        Variables { values }
    }

    /// Sets variables in turn.
    pub fn with_all(self, alloc: Global, pairs: &[Pair]) -> Result<Variables, NoMemory>
        ensures { IfOk result (λ after. SetsAll pairs.now self after) }
    {
        let mut variables = self;
        for pair in pairs {
            let value = Vec::from_slice(alloc, pair.value.bytes())?;
            variables = variables.with_value(alloc, pair.name.bytes(), value)?;
        }
        Ok(variables)
    }

    /// Changes variables by entries in turn. An entry that names no operation changes nothing.
    pub fn changed_by(
        self,
        alloc: Global,
        base: &Variables,
        entries: &[Name],
    ) -> Result<Variables, NoMemory>
        ensures { IfOk result (λ after. ChangesAll base.now entries.now self after) }
    {
        let mut variables = self;
        for entry in entries {
            variables = variables.changed(alloc, base, Modification::of(entry.bytes()))?;
        }
        Ok(variables)
    }

    fn changed(
        self,
        alloc: Global,
        base: &Variables,
        change: Option<Modification<'_>>,
    ) -> Result<Variables, NoMemory>
        ensures { IfOk result (λ after. Changes base.now change.entry self after) }
    {
        let Some(change) = change else {
            return Ok(self);
        };
        let Modification {
            name,
            operation,
            value,
        } = change;
        let value = operation.value_after(alloc, value, base.value(name), self.value(name))?;
        self.with(alloc, name, value)
    }

    /// Returns the variables as a list, in byte order of names.
    pub fn into_list(self, alloc: Global) -> Result<List<Pair>, NoMemory>
        ensures same { IfOk result (λ pairs. pairs ≡ self) }
        ensures ordered { IfOk result (λ pairs. IsAscending pairs) }
    {
        let mut pairs = List::from_vec(Vec::with_capacity(alloc, self.values.len())?);
        for (name, value) in self.values {
            pairs.push(Pair {
                name: Name::from_vec(name),
                value: Name::from_vec(value),
            })?;
        }
        Ok(pairs)
    }
}

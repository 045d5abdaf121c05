ghost use Rattle.std.specs.Prelude.{◌≡◌, ℕ, List as Bytes, IfSome, OnOk};
ghost use Rattle.ct_graph.specs.Found.{AreFound, Knows, bytes_of};

use ct_base::{List, NoMemory};
use std::alloc::Global;
use std::collections::BTreeMap;

/// The tests that lists of names find, so that no list is looked up twice.
#[derive(Drop)]
pub(crate) struct Known<'a> {
    tests: BTreeMap<Vec<&'a [u8]>, List<u32>>,
}

impl<'a> Known<'a> {
    /// Makes a table that knows of no list.
    pub(crate) fn new(alloc: Global) -> Known<'a>
        ensures { (find : Bytes ℕ → Bytes ℕ) → Knows find result }
    {
        Known {
            tests: BTreeMap::new(alloc),
        }
    }

    /// Looks up what a list of names finds.
    pub(crate) fn get(&self, names: &Vec<&'a [u8]>) -> Option<&List<u32>>
        ensures { IfSome result (λ tests. (find : Bytes ℕ → Bytes ℕ) → Knows find self.now → AreFound find (bytes_of names.now.items) tests.now) }
    {
        self.tests.get(names)
    }

    /// Keeps what a list of names finds.
    pub(crate) fn keep(&mut self, names: Vec<&'a [u8]>, tests: List<u32>) -> Result<(), NoMemory>
        ensures { OnOk result ((find : Bytes ℕ → Bytes ℕ) → Knows find self.old → AreFound find (bytes_of names.entry.items) tests → Knows find self.new) }
    {
        self.tests.insert(names, tests)?;
        Ok(())
    }
}

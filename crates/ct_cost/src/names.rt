ghost use Rattle.std.specs.Prelude.{◌≡◌, ◌++◌, [], OnOk, flat_map, fold};
ghost use Rattle.ct_cost.specs.Text.{failed_text};
ghost use Rattle.ct_cost.specs.Kept.{with_named};
ghost use Rattle.ct_cost.specs.Endings.{with_failed};
ghost use Rattle.ct_base.specs.Names.{is_among, with_new_name};

use crate::endings::fails_by;
use ct_base::{Blob, NoMemory};
use ct_history::{Courses, PlanTest, course_at};
use indexmap::IndexSet;
use std::alloc::Global;
use std::marker::Model;

/// Names that differ, in order. Contracts see the names.
#[derive(Drop)]
pub(crate) struct Names {
    names: IndexSet<Vec<u8>>,
}

impl Model for Names {
    ghost use Rattle.std.specs.Prelude.{List, ℕ, map};

    ghost Value = { List (List ℕ) };

    ghost view = { λ n. map (λ name. name.items) n.names.keys };
}

impl Names {
    /// Makes a list of no names.
    pub(crate) fn new(alloc: Global) -> Names
        ensures { result ≡ [] }
    {
        Names {
            names: IndexSet::new(alloc),
        }
    }

    pub(crate) fn has(&self, name: &[u8]) -> bool
        ensures { result ≡ is_among name.now self.now }
    {
        self.names.contains(name)
    }

    /// Adds a name behind the others, unless it is among them.
    fn add(&mut self, alloc: Global, name: &[u8]) -> Result<(), NoMemory>
        ensures { OnOk result (self.new ≡ with_new_name self.old name.now) }
    {
        self.names.insert(Vec::from_slice(alloc, name)?)?;
        Ok(())
    }

    /// Reads one more line. It is passed over where it is empty.
    pub(crate) fn add_line(&mut self, alloc: Global, line: &[u8]) -> Result<(), NoMemory>
        ensures { OnOk result (self.new ≡ with_named self.old line.now) }
    {
        if line.is_empty() {
            return Ok(());
        }
        self.add(alloc, line)
    }

    /// Adds the names of the tests of the failing class, in order.
    pub(crate) fn add_failed(
        &mut self,
        alloc: Global,
        tests: &[PlanTest],
        courses: &Courses,
    ) -> Result<(), NoMemory>
        ensures { OnOk result (self.new ≡ fold (with_failed courses.now) self.old tests.now) }
    {
        for test in tests {
            if fails_by(test, course_at(courses, test.number)) {
                self.add(alloc, test.name.bytes())?;
            }
        }
        Ok(())
    }

    /// Puts each name behind the text, as a line.
    pub(crate) fn append_to(&self, text: &mut Blob) -> Result<(), NoMemory>
        ensures { OnOk result (text.new ≡ text.old ++ flat_map failed_text self.now) }
    {
        let names = self.names.as_slice();
        for name in names {
            text.append(name.as_slice())?;
            text.append(b"\n")?;
        }
        Ok(())
    }
}

ghost use Rattle.std.specs.Prelude.{◌≡◌, ◌++◌, [], IfOk, OnOk, flat_map, fold, option_map};
ghost use Rattle.ct_cost.specs.CostLine.{cost_of, line_of as line_by_name, with_line as with_line_of, after_run as run_counted};
ghost use Rattle.ct_cost.specs.Text.{line_in as line_read, cost_line_text};
ghost use Rattle.ct_cost.specs.Kept.{durations_of, line_for, with_read};
ghost use Rattle.ct_cost.specs.Endings.{after_ending};

use crate::durations::Durations;
use crate::endings::passed_micros;
use crate::line::{Version, line_in};
use crate::texts::append_line;
use ct_base::{Blob, NoMemory};
use ct_history::{Courses, PlanTest, course_at};
use indexmap::IndexMap;
use std::alloc::Global;
use std::marker::Model;

/// Lines of cost data by their names, in order. Contracts see the lines.
#[derive(Drop)]
pub(crate) struct Lines {
    durations: IndexMap<Vec<u8>, Durations>,
}

impl Model for Lines {
    ghost use Rattle.std.specs.Prelude.{List, map};
    ghost use Rattle.ct_cost.specs.CostLine.{CostLine};
    ghost use Rattle.ct_cost.specs.Kept.{kept_line};

    ghost Value = { List CostLine };

    ghost view = { λ l. map kept_line l.durations.entries };
}

impl Lines {
    /// Makes a list of no lines.
    pub(crate) fn new(alloc: Global) -> Lines
        ensures { result ≡ [] }
    {
        Lines {
            durations: IndexMap::new(alloc),
        }
    }

    fn durations(&self, name: &[u8]) -> Option<&Durations>
        ensures { option_map (λ found. found.now) result ≡ option_map durations_of (line_by_name self.now name.now) }
    {
        self.durations.get(name)
    }

    /// Looks up what a test of this name costs, in microseconds.
    pub(crate) fn cost(&self, name: &[u8]) -> Option<u64>
        ensures { result ≡ cost_of self.now name.now }
    {
        self.durations(name)?.greatest()
    }

    /// Replaces the durations of a name, or adds them behind the others where the name has none.
    fn add(&mut self, alloc: Global, name: &[u8], durations: Durations) -> Result<(), NoMemory>
        ensures { OnOk result (self.new ≡ with_line_of self.old (line_for name.now durations)) }
    {
        self.durations
            .insert(Vec::from_slice(alloc, name)?, durations)?;
        Ok(())
    }

    /// Reads one more line. It is passed over where it is no line of
    /// cost data, or its name has a line.
    pub(crate) fn add_line(
        &mut self,
        alloc: Global,
        version: Version,
        text: &[u8],
    ) -> Result<(), NoMemory>
        ensures { OnOk result (self.new ≡ with_read self.old (line_read version text.now)) }
    {
        let Some(line) = line_in(alloc, version, text)? else {
            return Ok(());
        };
        if self.durations(line.name).is_some() {
            return Ok(());
        }
        self.add(alloc, line.name, line.durations)
    }

    /// Counts one more run of a name.
    fn add_run(&mut self, alloc: Global, name: &[u8], micros: u64) -> Result<(), NoMemory>
        ensures { OnOk result (self.new ≡ run_counted self.old name.now micros) }
    {
        match self.durations.get_mut(name) {
            Some(durations) => {
                durations.push(micros)?;
                Ok(())
            }
            None => {
                let first = Durations::of(alloc, micros)?;
                self.add(alloc, name, first)
            }
        }
    }

    pub(crate) fn copy(&self) -> Result<Lines, NoMemory>
        ensures { IfOk result (λ lines. lines ≡ self.now) }
    {
        Ok(Lines {
            durations: self.durations.clone()?,
        })
    }

    /// Counts one more run for the name of each test that passed, in order.
    pub(crate) fn add_tests(
        &mut self,
        alloc: Global,
        tests: &[PlanTest],
        courses: &Courses,
    ) -> Result<(), NoMemory>
        ensures { OnOk result (self.new ≡ fold (after_ending courses.now) self.old tests.now) }
    {
        for test in tests {
            if let Some(micros) = passed_micros(test, course_at(courses, test.number)) {
                self.add_run(alloc, test.name.bytes(), micros)?;
            }
        }
        Ok(())
    }

    /// Puts each line behind the text.
    pub(crate) fn append_to(&self, alloc: Global, text: &mut Blob) -> Result<(), NoMemory>
        ensures { OnOk result (text.new ≡ text.old ++ flat_map cost_line_text self.now) }
    {
        for (name, durations) in self.durations.iter() {
            append_line(alloc, text, name.as_slice(), durations)?;
        }
        Ok(())
    }
}

ghost use Rattle.std.specs.Prelude.{◌≡◌, ℕ, ◌<◌, ◌≤◌, ◌^◌, ◌||◌, ◌==◌, [], false, IfOk, OnOk, length, slice_index_or};
ghost use Rattle.std.specs.List.Sorted.{IsStrictlyIncreasing};
ghost use Rattle.ct_base.specs.Numbers.{is_in};
ghost use Rattle.ct_graph.specs.Found.{AreMarked, IsMarked, IsEmpty};

use crate::by_name::in_order;
use ct_base::{List, NoMemory};
use std::alloc::Global;

/// Tests that were found. Each of them is marked, so that none is listed twice.
#[derive(Drop)]
pub(crate) struct Found {
    /// At the number of a test, whether it was found.
    marks: Vec<bool>,
    tests: Vec<u32>,
}

impl Found {
    /// Makes a list of no tests.
    pub(crate) fn new(alloc: Global) -> Found
        ensures { IsEmpty result }
    {
        Found {
            marks: Vec::new(alloc),
            tests: Vec::new(alloc),
        }
    }

    /// Puts a test behind the others, unless it was found before.
    fn add(&mut self, test: u32) -> Result<(), NoMemory>
        requires { IsMarked self.old }
        ensures marked { OnOk result (IsMarked self.new) }
        ensures same { OnOk result ((n : ℕ) → is_in self.new.tests.items n ≡ (is_in self.old.tests.items n || test == n)) }
    {
        let place = test as usize;
        reach(&mut self.marks, place)?;
        if self.marks[place] {
            return Ok(());
        }
        self.tests.push(test)?;
        self.marks[place] = true;
        Ok(())
    }

    /// Puts tests behind the others, unless they were found before.
    pub(crate) fn add_all(&mut self, tests: &[u32]) -> Result<(), NoMemory>
        requires { IsMarked self.old }
        ensures marked { OnOk result (IsMarked self.new) }
        ensures same { OnOk result ((n : ℕ) → is_in self.new.tests.items n ≡ (is_in self.old.tests.items n || is_in tests.now n)) }
    {
        for test in tests {
            self.add(*test)?;
        }
        Ok(())
    }

    /// Returns the found tests in order. After that no test is found or marked.
    pub(crate) fn take(&mut self, alloc: Global) -> Result<List<u32>, NoMemory>
        requires { IsMarked self.old }
        ensures empty { OnOk result (IsEmpty self.new) }
        ensures ascending { IfOk result (λ tests. IsStrictlyIncreasing tests) }
        ensures same { IfOk result (λ tests. (n : ℕ) → is_in tests n ≡ is_in self.old.tests.items n) }
    {
        let tests = Vec::from_slice(alloc, self.tests.as_slice())?;
        unmark(&mut self.marks, tests.as_slice());
        self.tests.clear();
        Ok(in_order(tests))
    }
}

/// Makes the marks reach a place. New marks are false.
fn reach(marks: &mut Vec<bool>, place: usize) -> Result<(), NoMemory>
    requires few { place < 2 ^ 32 }
    ensures reached { OnOk result (place < length marks.new.items) }
    ensures longer { OnOk result (length marks.old.items ≤ length marks.new.items) }
    ensures same { OnOk result ((n : ℕ) → slice_index_or marks.new.items n false ≡ slice_index_or marks.old.items n false) }
{
    if place < marks.len() {
        return Ok(());
    }
    marks.resize(place + 1, false)?;
    Ok(())
}

/// Clears the marks of the tests that were found.
fn unmark(marks: &mut Vec<bool>, tests: &[u32])
    requires { AreMarked marks.old.items tests.now }
    ensures { AreMarked marks.new.items [] }
{
    for test in tests {
        marks[*test as usize] = false;
    }
}

ghost use Rattle.std.specs.Prelude.{◌≡◌, ◌+◌, ◌-◌, ◌^◌, ◌<◌, ◌≤◌, ◌++◌, ◌∷◌, [], ℕ, length, filter, false, vec_len, All, IfOk, MatchOption, OnOk};
ghost use Rattle.std.specs.List.{range_with_len};
ghost use Rattle.ct_fixture.specs.Kept.{AddsTests, is_drawn_in};

use ct_base::{List, NoMemory};
use std::alloc::Global;

/// The tests that are in, and those of them whose fixtures have not been looked at.
#[derive(Drop)]
pub(crate) struct Members {
    /// At the number of a test, whether the test is in. Place 0 is of no test.
    pub marks: Vec<bool>,
    /// The numbers of the tests whose fixtures have not been looked at.
    pub waiting: Vec<u32>,
}

impl Members {
    /// Makes room for `count` tests, of which none is in.
    pub(crate) fn none(alloc: Global, count: usize) -> Result<Members, NoMemory>
        requires { count < 2 ^ 32 - 1 }
        ensures long { IfOk result (λ members. length members.marks.items ≡ count + 1) }
        ensures none { IfOk result (λ members. (number : ℕ) → is_drawn_in members number ≡ false) }
        ensures waits { IfOk result (λ members. members.waiting.items ≡ []) }
    {
        Ok(Members {
            marks: Vec::from_elem(alloc, false, count + 1)?,
            waiting: Vec::new(alloc),
        })
    }

    /// Adds tests. Those that are in already stay as they are.
    pub(crate) fn add_all(&mut self, numbers: &[u32]) -> Result<(), NoMemory>
        requires { All (λ number. number < vec_len self.old.marks) numbers.now }
        ensures { OnOk result (AddsTests numbers.now self.old self.new) }
    {
        for number in numbers {
            self.add(*number)?;
        }
        Ok(())
    }

    fn add(&mut self, number: u32) -> Result<(), NoMemory>
        requires { number < vec_len self.old.marks }
        ensures { OnOk result (AddsTests (number ∷ []) self.old self.new) }
    {
        let at = number as usize;
        if self.marks[at] {
            return Ok(());
        }
        self.waiting.push(number)?;
        self.marks[at] = true;
        Ok(())
    }

    /// Removes and returns a test whose fixtures have not been looked at, if there is one.
    pub(crate) fn next(&mut self) -> Option<u32>
        ensures marks { self.new.marks ≡ self.old.marks }
        ensures waiting { MatchOption result (self.old.waiting.items ≡ [])
            (λ number. self.old.waiting.items ≡ self.new.waiting.items ++ number ∷ []) }
    {
        self.waiting.pop()
    }

    /// Lists the tests that are in, in order of number.
    pub(crate) fn into_list(self, alloc: Global) -> Result<List<u32>, NoMemory>
        requires low { 1 ≤ length self.marks.items }
        requires few { length self.marks.items < 2 ^ 32 }
        ensures { IfOk result (λ members. members ≡ filter (is_drawn_in self) (range_with_len 1 (length self.marks.items - 1))) }
    {
        let mut members = List::new(alloc);
        for number in 1..self.marks.len() {
            if self.marks[number] {
                members.push(number as u32)?;
            }
        }
        Ok(members)
    }
}

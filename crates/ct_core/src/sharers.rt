ghost use Rattle.std.specs.Prelude.{◌≡◌, ℕ, ◌+◌, ◌-◌, ◌<◌, ◌≤◌, ◌^◌, ◌||◌, true, false, List, IfOk, OnOk, bytes_eq, if◌then◌else◌};
ghost use Rattle.std.specs.List.{list_any, list_all};
ghost use Rattle.ct_core.specs.Sharers.{sharers_of, count_of, counts_sharers, has_mark, is_shared, one_if};
ghost use Rattle.ct_base.specs.Names.{is_among};

use ct_base::{Name, NoMemory};
use ct_history::PlanTest;
use indexmap::IndexMap;
use std::alloc::Global;

/// The locks that the tests of a plan share, and how many open tests share each.
#[derive(Drop)]
pub(crate) struct Sharers {
    counts: IndexMap<Vec<u8>, SharerCount>,
}

/// How many open tests share a lock. The mark says that the list which is counted has named the lock
/// already, since a test counts once, however often it names a lock.
#[derive(Clone, Copy)]
struct SharerCount {
    tests: u64,
    marked: bool,
}

const NO_TEST: SharerCount = SharerCount {
    tests: 0,
    marked: false,
};

/// Makes the counts of the locks that these tests share: 0 for each.
pub(crate) fn none_share(alloc: Global, tests: &[PlanTest]) -> Result<Sharers, NoMemory>
    ensures counted { IfOk result (λ sharers. (name : List ℕ) → counts_sharers sharers name ≡ list_any (λ t. is_among name t.shared) tests.now) }
    ensures none { IfOk result (λ sharers. (name : List ℕ) → sharers_of sharers name ≡ 0) }
{
    let mut sharers = Sharers {
        counts: IndexMap::new(alloc),
    };
    for test in tests {
        sharers.add_each(alloc, test.shared.as_slice())?;
    }
    Ok(sharers)
}

impl Sharers {
    /// Returns whether some open test shares this lock.
    pub(crate) fn is_shared(&self, name: &Name) -> bool
        ensures { result ≡ is_shared self.now name.now }
    {
        self.count(name).tests > 0
    }

    /// Counts one test more for each of these locks, which the test shares.
    pub(crate) fn share(&mut self, names: &[Name])
        requires counted { list_all (counts_sharers self.old) names.now ≡ true }
        requires few { (name : List ℕ) → sharers_of self.old name + 1 < 2 ^ 64 }
        ensures counted { (name : List ℕ) → counts_sharers self.new name ≡ counts_sharers self.old name }
        ensures more { (name : List ℕ) → sharers_of self.new name ≡ sharers_of self.old name + one_if (is_among name names.now) }
    {
        self.unmark(names);
        for name in names {
            let count = self.count(name);
            if !count.marked {
                self.set(name, count.tests + 1, true);
            }
        }
    }

    /// Counts one test fewer for each of these locks, which the test shared.
    pub(crate) fn leave(&mut self, names: &[Name])
        requires counted { list_all (counts_sharers self.old) names.now ≡ true }
        requires shares { (name : List ℕ) → one_if (is_among name names.now) ≤ sharers_of self.old name }
        ensures counted { (name : List ℕ) → counts_sharers self.new name ≡ counts_sharers self.old name }
        ensures fewer { (name : List ℕ) → sharers_of self.new name ≡ sharers_of self.old name - one_if (is_among name names.now) }
    {
        self.unmark(names);
        for name in names {
            let count = self.count(name);
            if !count.marked {
                self.set(name, count.tests - 1, true);
            }
        }
    }

    /// Takes the marks of these locks away.
    fn unmark(&mut self, names: &[Name])
        requires { list_all (counts_sharers self.old) names.now ≡ true }
        ensures counted { (name : List ℕ) → counts_sharers self.new name ≡ counts_sharers self.old name }
        ensures kept { (name : List ℕ) → sharers_of self.new name ≡ sharers_of self.old name }
        ensures unmarked { (name : List ℕ) → is_among name names.now ≡ true → has_mark self.new name ≡ false }
    {
        for name in names {
            let tests = self.count(name).tests;
            self.set(name, tests, false);
        }
    }

    fn count(&self, name: &Name) -> SharerCount
        ensures { result ≡ count_of self.now name.now }
    {
        match self.counts.get(name.bytes()) {
            Some(count) => *count,
            None => NO_TEST,
        }
    }

    fn set(&mut self, name: &Name, tests: u64, marked: bool)
        requires { counts_sharers self.old name.now ≡ true }
        ensures counted { (asked : List ℕ) → counts_sharers self.new asked ≡ counts_sharers self.old asked }
        ensures set { (asked : List ℕ) → sharers_of self.new asked
            ≡ (if bytes_eq asked name.now then tests else sharers_of self.old asked) }
        ensures marked { (asked : List ℕ) → has_mark self.new asked
            ≡ (if bytes_eq asked name.now then marked else has_mark self.old asked) }
    {
        if let Some(here) = self.counts.get_mut(name.bytes()) {
            *here = SharerCount { tests, marked };
        }
    }

    fn add_each(&mut self, alloc: Global, names: &[Name]) -> Result<(), NoMemory>
        requires { (name : List ℕ) → sharers_of self.old name ≡ 0 }
        ensures counted { OnOk result ((name : List ℕ) → counts_sharers self.new name ≡ (counts_sharers self.old name || is_among name names.now)) }
        ensures none { OnOk result ((name : List ℕ) → sharers_of self.new name ≡ 0) }
    {
        for name in names {
            self.add(alloc, name)?;
        }
        Ok(())
    }

    fn add(&mut self, alloc: Global, name: &Name) -> Result<(), NoMemory>
        requires { (asked : List ℕ) → sharers_of self.old asked ≡ 0 }
        ensures counted { OnOk result ((asked : List ℕ) → counts_sharers self.new asked ≡ (counts_sharers self.old asked || bytes_eq asked name.now)) }
        ensures none { OnOk result ((asked : List ℕ) → sharers_of self.new asked ≡ 0) }
    {
        self.counts
            .insert(Vec::from_slice(alloc, name.bytes())?, NO_TEST)?;
        Ok(())
    }
}

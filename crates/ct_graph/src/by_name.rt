ghost use Rattle.std.specs.Prelude.{◌≡◌, ℕ, ◌||◌, ◌&&◌, ◌==◌, [], List as Bytes, Bool, IfOk, OnOk, bytes_eq};
ghost use Rattle.std.specs.List.{list_any};
ghost use Rattle.std.specs.List.Sorted.{IsStrictlyIncreasing};
ghost use Rattle.ct_base.specs.Numbers.{is_in};
ghost use Rattle.ct_graph.specs.ByName.{tests_of, is_found_in};
ghost use Rattle.ct_graph.specs.Found.{AreFound, IsEmpty, IsMarked, Knows, bytes_of};
ghost use Rattle.ct_base.specs.Names.{is_among};

use crate::found::Found;
use crate::known::Known;
use ct_base::{List, Name, NoMemory};
use indexmap::IndexMap;
use std::alloc::Global;

/// Numbers of tests by names.
#[derive(Drop)]
pub(crate) struct ByName<'a> {
    tests: IndexMap<&'a [u8], Vec<u32>>,
}

impl<'a> ByName<'a> {
    /// Makes an index in which no name has a test.
    pub(crate) fn new(alloc: Global) -> ByName<'a>
        ensures { (name : Bytes ℕ) → tests_of result name ≡ [] }
    {
        ByName {
            tests: IndexMap::new(alloc),
        }
    }

    /// Looks up the tests of a name.
    fn tests(&self, name: &'a [u8]) -> &[u32]
        ensures { result.now ≡ tests_of self.now name.now }
    {
        match self.tests.get(name) {
            Some(tests) => tests.as_slice(),
            None => &[],
        }
    }

    /// Puts a test behind the others of a name, unless it is the last of them.
    pub(crate) fn add(&mut self, alloc: Global, name: &'a [u8], test: u32) -> Result<(), NoMemory>
        ensures { OnOk result ((other : Bytes ℕ) (n : ℕ) → is_in (tests_of self.new other) n ≡ (is_in (tests_of self.old other) n || (bytes_eq other name.now && test == n))) }
    {
        if let Some(tests) = self.tests.get_mut(name) {
            push_once(tests, test)?;
            return Ok(());
        }
        let mut tests = Vec::new(alloc);
        tests.push(test)?;
        self.tests.insert(name, tests)?;
        Ok(())
    }

    /// Puts a test behind the others of each of these names.
    pub(crate) fn add_all(
        &mut self,
        alloc: Global,
        names: &'a [Name],
        test: u32,
    ) -> Result<(), NoMemory>
        ensures { OnOk result ((other : Bytes ℕ) (n : ℕ) → is_in (tests_of self.new other) n ≡ (is_in (tests_of self.old other) n || (is_among other names.now && test == n))) }
    {
        for name in names {
            self.add(alloc, name.bytes(), test)?;
        }
        Ok(())
    }

    /// Finds the tests of some names, in order. A list of names
    /// that is known is not looked up again.
    pub(crate) fn find(
        &self,
        alloc: Global,
        names: &'a [Name],
        known: &mut Known<'a>,
        found: &mut Found,
    ) -> Result<List<u32>, NoMemory>
        requires known { Knows (tests_of self.now) known.old }
        requires empty { IsEmpty found.old }
        ensures known { OnOk result (Knows (tests_of self.now) known.new) }
        ensures empty { OnOk result (IsEmpty found.new) }
        ensures found { IfOk result (λ tests. AreFound (tests_of self.now) names.now tests) }
    {
        let key = all_bytes(alloc, names)?;
        if let Some(tests) = known.get(&key) {
            return Ok(copied(alloc, tests)?);
        }
        self.find_all(alloc, names, found)?;
        let tests = found.take(alloc)?;
        known.keep(key, copied(alloc, &tests)?)?;
        Ok(tests)
    }

    /// Puts the tests of some names behind those that were found.
    pub(crate) fn find_all(
        &self,
        alloc: Global,
        names: &'a [Name],
        found: &mut Found,
    ) -> Result<(), NoMemory>
        requires { IsMarked found.old }
        ensures marked { OnOk result (IsMarked found.new) }
        ensures same { OnOk result ((n : ℕ) → is_in found.new.tests.items n ≡ (is_in found.old.tests.items n || is_found_in (tests_of self.now) names.now n)) }
    {
        let sorted = each_once(alloc, names)?;
        for name in &sorted {
            found.add_all(self.tests(name))?;
        }
        Ok(())
    }
}

fn push_once(tests: &mut Vec<u32>, test: u32) -> Result<(), NoMemory>
    ensures { OnOk result ((n : ℕ) → is_in tests.new.items n ≡ (is_in tests.old.items n || test == n)) }
{
    if tests.last() != Some(&test) {
        tests.push(test)?;
    }
    Ok(())
}

/// Copies numbers of tests.
fn copied(alloc: Global, tests: &List<u32>) -> Result<List<u32>, NoMemory>
    ensures { IfOk result (λ copy. copy ≡ tests.now) }
{
    Ok(List::from_vec(Vec::from_slice(alloc, tests.as_slice())?))
}

/// Returns the bytes of each name.
fn all_bytes(alloc: Global, names: &[Name]) -> Result<Vec<&[u8]>, NoMemory>
    ensures { IfOk result (λ all. bytes_of all.items ≡ names.now) }
{
    let mut all = Vec::new(alloc);
    for name in names {
        all.push(name.bytes())?;
    }
    Ok(all)
}

/// Returns the names in order of their bytes, without repeats.
fn each_once(alloc: Global, names: &[Name]) -> Result<Vec<&[u8]>, NoMemory>
    ensures { IfOk result (λ sorted. (p : Bytes ℕ → Bool) → list_any (λ name. p name.now) sorted.items ≡ list_any p names.now) }
{
    let mut sorted = all_bytes(alloc, names)?;
    sorted.sort_unstable();
    sorted.dedup();
    Ok(sorted)
}

/// Sorts numbers of tests, and drops repeats.
pub(crate) fn in_order(tests: Vec<u32>) -> List<u32>
    ensures ascending { IsStrictlyIncreasing result }
    ensures same { (n : ℕ) → is_in result n ≡ is_in tests.items n }
{
    let mut tests = tests;
    tests.sort_unstable();
    tests.dedup();
    List::from_vec(tests)
}

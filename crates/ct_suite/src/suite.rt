ghost use Rattle.std.specs.Prelude.{◌≡◌, ◌<◌, ◌≤◌, ◌++◌, ◌∷◌, [], length, bytes_eq, count_by, vec_len, All, IfOk, OnOk, map};
ghost use Rattle.ct_base.specs.declared.defs.TestDef.{TestDef};
ghost use Rattle.ct_suite.specs.Tests.{AreShort, HasShortValues, HaveShort, each_where, is_in_folder, most_bytes, most_tests, new_test, taking_labels, taking_props};
ghost use Rattle.ct_suite.specs.Entries.{changed, changed_at, def_of};

use crate::open_test::OpenTest;
use crate::places::{Places, note_place, places_at};
use ct_base::{List, Name, NoMemory, Pair, TestDef, copy_pairs};
use indexmap::IndexMap;
use std::alloc::Global;
use std::marker::Model;

/// The tests of a tree so far. Contracts see their definitions in order.
#[derive(Drop)]
pub struct Suite {
    /// In a box, since each command moves the suite.
    kept: Box<Kept>,
}

/// The tests of a suite, and their places by their names and by their folders.
#[derive(Drop)]
struct Kept {
    tests: Vec<OpenTest>,
    by_name: Places,
    by_dir: Places,
}

impl Model for Suite {
    ghost use Rattle.std.specs.Prelude.{◌≤◌, List, length, map, All};
    ghost use Rattle.ct_suite.specs.Tests.{HasShortValues, most_bytes, most_tests};
    ghost use Rattle.ct_base.specs.declared.defs.TestDef.{TestDef};
    ghost use Rattle.ct_suite.specs.Entries.{def_of, names_of, dirs_of, AreIndexed};

    ghost Value = { List TestDef };

    ghost view = { λ s. map def_of s.kept.value.tests.items };

    ghost invariant = { λ s. AreIndexed s.kept.value.by_name.entries (names_of (map def_of s.kept.value.tests.items)) × AreIndexed s.kept.value.by_dir.entries (dirs_of (map def_of s.kept.value.tests.items)) × length (map def_of s.kept.value.tests.items) ≤ most_tests × All (HasShortValues most_bytes) (map def_of s.kept.value.tests.items) };
}

impl Suite {
    /// Makes a suite without tests.
    pub fn new(alloc: Global) -> Result<Suite, NoMemory>
        ensures { IfOk result (λ suite. suite ≡ []) }
    {
        let kept = Kept {
            tests: Vec::new(alloc),
            by_name: IndexMap::new(alloc),
            by_dir: IndexMap::new(alloc),
        };
        Ok(Suite {
            kept: Box::new(alloc, kept)?,
        })
    }

    pub fn len(&self) -> usize
        ensures { result ≡ length self.now }
    {
        self.kept.tests.len()
    }

    /// Appends a test without properties and labels.
    pub fn with_test(
        self,
        alloc: Global,
        name: Name,
        command: List<Name>,
        dir: Name,
    ) -> Result<Suite, NoMemory>
        requires room { length self < most_tests }
        requires name { length name ≤ most_bytes }
        requires command { AreShort most_bytes command }
        ensures { IfOk result (λ suite. suite ≡ self ++ new_test dir name command ∷ []) }
    {
        let Suite { mut kept } = self;
        let inside: &mut Kept = &mut kept;
        let place = inside.tests.len();
        note_place(alloc, &mut inside.by_name, name.bytes(), place)?;
        note_place(alloc, &mut inside.by_dir, dir.bytes(), place)?;
        inside.tests.push(OpenTest::new(alloc, name, command, dir))?;
        Ok(Suite { kept })
    }

    /// Counts the tests with a name.
    pub fn named(&self, name: &Name) -> usize
        ensures { result ≡ count_by (λ (test : TestDef). bytes_eq name.now test.name) self.now }
    {
        places_at(&self.kept.by_name, name.bytes()).len()
    }

    /// Counts the tests of a folder.
    pub fn placed(&self, dir: &Name) -> usize
        ensures { result ≡ count_by (is_in_folder dir.now) self.now }
    {
        places_at(&self.kept.by_dir, dir.bytes()).len()
    }

    /// Sets properties of each test with a name.
    pub fn with_props(
        self,
        alloc: Global,
        name: &Name,
        pairs: List<Pair>,
    ) -> Result<Suite, NoMemory>
        requires { HaveShort most_bytes pairs }
        ensures { IfOk result (λ suite. suite ≡ each_where (λ (test : TestDef). bytes_eq name.now test.name) (taking_props pairs) self) }
    {
        let Suite { mut kept } = self;
        let inside: &mut Kept = &mut kept;
        let places = places_at(&inside.by_name, name.bytes());
        set_each(alloc, &mut inside.tests, places, pairs)?;
        Ok(Suite { kept })
    }

    /// Adds labels to each test of a folder.
    pub fn with_labels(self, alloc: Global, dir: &Name, labels: &[Name]) -> Result<Suite, NoMemory>
        requires { AreShort most_bytes labels.now }
        ensures { IfOk result (λ suite. suite ≡ each_where (is_in_folder dir.now) (taking_labels labels.now) self) }
    {
        if labels.is_empty() {
            return Ok(self);
        }
        let Suite { mut kept } = self;
        let inside: &mut Kept = &mut kept;
        let places = places_at(&inside.by_dir, dir.bytes());
        label_each(alloc, &mut inside.tests, places, labels)?;
        Ok(Suite { kept })
    }

    /// Returns the definitions of the tests, whose properties can no longer be set.
    pub fn define(self, alloc: Global) -> Result<List<TestDef>, NoMemory>
        ensures is { IfOk result (λ defs. defs ≡ self) }
        ensures few { IfOk result (λ defs. length defs ≤ most_tests) }
        ensures within { IfOk result (λ defs. All (HasShortValues most_bytes) defs) }
    {
        let Suite { kept } = self;
        let Kept {
            tests,
            by_name: _,
            by_dir: _,
        } = Box::into_inner(kept);
        defs_of(alloc, tests)
    }
}

/// Returns the definitions of tests.
fn defs_of(alloc: Global, tests: Vec<OpenTest>) -> Result<List<TestDef>, NoMemory>
    ensures { IfOk result (λ defs. defs ≡ map def_of tests.items) }
{
    let mut defs = List::from_vec(Vec::with_capacity(alloc, tests.len())?);
    for test in tests {
        defs.push(test.define(alloc)?)?;
    }
    Ok(defs)
}

/// Sets properties of the tests at these places. The last test takes them without a copy.
fn set_each(
    alloc: Global,
    tests: &mut Vec<OpenTest>,
    places: &[usize],
    pairs: List<Pair>,
) -> Result<(), NoMemory>
    requires { All (λ place. place < vec_len tests.old) places.now }
    ensures { OnOk result (map def_of tests.new.items ≡ changed_at (taking_props pairs) places.now (map def_of tests.old.items)) }
{
    let Some((last, front)) = places.split_last() else {
        return Ok(());
    };
    copy_each(alloc, tests, front, pairs.as_slice())?;
    set_at(alloc, tests, *last, pairs)?;
    Ok(())
}

/// Sets copies of properties of the tests at these places.
fn copy_each(
    alloc: Global,
    tests: &mut Vec<OpenTest>,
    places: &[usize],
    pairs: &[Pair],
) -> Result<(), NoMemory>
    requires { All (λ place. place < vec_len tests.old) places.now }
    ensures is { OnOk result (map def_of tests.new.items ≡ changed_at (taking_props pairs.now) places.now (map def_of tests.old.items)) }
    ensures len { OnOk result (vec_len tests.new ≡ vec_len tests.old) }
{
    for place in places {
        set_at(alloc, tests, *place, copy_pairs(alloc, pairs)?)?;
    }
    Ok(())
}

/// Sets properties of the test at a place.
fn set_at(
    alloc: Global,
    tests: &mut Vec<OpenTest>,
    place: usize,
    pairs: List<Pair>,
) -> Result<(), NoMemory>
    requires { place < vec_len tests.old }
    ensures is { OnOk result (map def_of tests.new.items ≡ changed (taking_props pairs) place (map def_of tests.old.items)) }
    ensures len { OnOk result (vec_len tests.new ≡ vec_len tests.old) }
{
    let test = &mut tests[place];
    test.props.set(alloc, pairs)?;
    Ok(())
}

/// Adds labels to the tests at these places.
fn label_each(
    alloc: Global,
    tests: &mut Vec<OpenTest>,
    places: &[usize],
    labels: &[Name],
) -> Result<(), NoMemory>
    requires { All (λ place. place < vec_len tests.old) places.now }
    ensures { OnOk result (map def_of tests.new.items ≡ changed_at (taking_labels labels.now) places.now (map def_of tests.old.items)) }
{
    for place in places {
        label_at(alloc, tests, *place, labels)?;
    }
    Ok(())
}

/// Adds labels to the test at a place.
fn label_at(
    alloc: Global,
    tests: &mut Vec<OpenTest>,
    place: usize,
    labels: &[Name],
) -> Result<(), NoMemory>
    requires { place < vec_len tests.old }
    ensures is { OnOk result (map def_of tests.new.items ≡ changed (taking_labels labels.now) place (map def_of tests.old.items)) }
    ensures len { OnOk result (vec_len tests.new ≡ vec_len tests.old) }
{
    let test = &mut tests[place];
    add_labels(alloc, &mut test.dir_labels, labels)?;
    Ok(())
}

fn add_labels(alloc: Global, own: &mut List<Name>, labels: &[Name]) -> Result<(), NoMemory>
    ensures { OnOk result (own.new ≡ own.old ++ labels.now) }
{
    for label in labels {
        own.push(label.copy(alloc)?)?;
    }
    Ok(())
}

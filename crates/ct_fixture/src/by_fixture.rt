ghost use Rattle.std.specs.Prelude.{◌≡◌, ◌==◌, ◌&&◌, ◌||◌, ℕ, List, [], OnOk, bytes_eq, if◌then◌else◌};
ghost use Rattle.ct_base.specs.Numbers.{is_in};
ghost use Rattle.ct_fixture.specs.Kept.{fixture_tests};
ghost use Rattle.ct_base.specs.Names.{is_among};

use ct_base::{Name, NoMemory};
use indexmap::IndexMap;
use std::alloc::Global;

/// The numbers of tests, by a fixture that they name.
pub(crate) type ByFixture = IndexMap<Vec<u8>, Vec<u32>>;

/// Notes a test for each of these fixtures.
pub(crate) fn note_each(
    alloc: Global,
    tests: &mut ByFixture,
    fixtures: &[Name],
    number: u32,
) -> Result<(), NoMemory>
    ensures { OnOk result ((asked : List ℕ) (test : ℕ) → is_in (fixture_tests tests.new asked) test
        ≡ (is_in (fixture_tests tests.old asked) test || number == test && is_among asked fixtures.now)) }
{
    for fixture in fixtures {
        note(alloc, tests, fixture.bytes(), number)?;
    }
    Ok(())
}

fn note(alloc: Global, tests: &mut ByFixture, fixture: &[u8], number: u32) -> Result<(), NoMemory>
    ensures { OnOk result ((asked : List ℕ) (test : ℕ) → is_in (fixture_tests tests.new asked) test
        ≡ (is_in (fixture_tests tests.old asked) test || number == test && bytes_eq asked fixture.now)) }
{
    match tests.get_mut(fixture) {
        Some(here) => {
            here.push(number)?;
            Ok(())
        }
        None => {
            let mut first = Vec::new(alloc);
            first.push(number)?;
            tests.insert(Vec::from_slice(alloc, fixture)?, first)?;
            Ok(())
        }
    }
}

/// Removes and returns the tests of a fixture, which then has none.
pub(crate) fn take(alloc: Global, tests: &mut ByFixture, fixture: &[u8]) -> Vec<u32>
    ensures gives { result.items ≡ fixture_tests tests.old fixture.now }
    ensures leaves { (asked : List ℕ) → fixture_tests tests.new asked
        ≡ (if bytes_eq asked fixture.now then [] else fixture_tests tests.old asked) }
{
    if tests.is_empty() {
        return Vec::new(alloc);
    }
    tests.swap_remove(fixture).unwrap_or(Vec::new(alloc))
}

ghost use Rattle.std.specs.Prelude.{◌≡◌, ◌-◌, ◌^◌, min, fold, sum_by, IfOk};
ghost use Rattle.ct_suite.specs.Tests.{HaveShort, most_bytes, taking_props};
ghost use Rattle.ct_suite.specs.Entries.{name_count, of_name};

use crate::suite::Suite;
use ct_base::{List, Name, NoMemory, Pair, copy_pairs};
use std::alloc::Global;

/// Adds up how many tests have each of these names, at most 2^64 - 1.
pub fn count_named(tests: &Suite, names: &[Name]) -> u64
    ensures { result ≡ min (sum_by (name_count tests.now) names.now) (2 ^ 64 - 1) }
{
    let mut count: u64 = 0;
    for name in names {
        count = count.saturating_add(tests.named(name) as u64);
    }
    count
}

/// Sets properties of the tests, one name after the other. The tests of the last name take them
/// without a copy.
pub fn set_named(
    alloc: Global,
    tests: Suite,
    names: &[Name],
    props: List<Pair>,
) -> Result<Suite, NoMemory>
    requires { HaveShort most_bytes props }
    ensures { IfOk result (λ after. after ≡ fold (of_name (taking_props props)) tests names.now) }
{
    let Some((last, front)) = names.split_last() else {
        return Ok(tests);
    };
    let mut after = tests;
    for name in front {
        after = after.with_props(alloc, name, copy_pairs(alloc, props.as_slice())?)?;
    }
    after.with_props(alloc, last, props)
}

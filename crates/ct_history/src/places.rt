ghost use Rattle.std.specs.Prelude.{◌≡◌, None, IsSome, MatchOption, map};
ghost use Rattle.std.specs.Option.{option_copied};
ghost use Rattle.ct_history.specs.Plan.{IsAscendingFrom, IsPlaceOf, test_at};
ghost use Rattle.ct_history.specs.Places.{Ascend};

use crate::plan::{Plan, PlanTest};

/// Finds the place of a test by its number: at once where each lesser number is there, and else in a
/// time that grows with the logarithm of the tests.
pub fn place_of(tests: &[PlanTest], number: u32) -> Option<usize>
    requires { IsAscendingFrom 1 (map (λ t. t.number) tests.now) }
    ensures { MatchOption result (test_at tests.now number ≡ None) (λ place. IsPlaceOf tests.now number place) }
{
    let least = number.wrapping_sub(1) as usize;
    if least < tests.len() && tests[least].number == number {
        return Some(least);
    }
    tests.binary_search_by_key(&number, |test| test.number).ok()
}

/// Finds the place of a test that is there.
pub fn expect_place(tests: &[PlanTest], number: u32) -> usize
    requires ascends { IsAscendingFrom 1 (map (λ t. t.number) tests.now) }
    requires there { IsSome (test_at tests.now number) }
    ensures { IsPlaceOf tests.now number result }
{
    match place_of(tests, number) {
        Some(place) => place,
        None => unreachable!(),
    }
}

/// Looks up a test by its number: at once where each lesser number is there, and else in a time
/// that grows with the logarithm of the tests.
pub(crate) fn planned(tests: &[PlanTest], number: u32) -> Option<&PlanTest>
    requires { Ascend tests.now }
    ensures { option_copied result ≡ test_at tests.now number }
{
    match place_of(tests, number) {
        Some(place) => tests.get(place),
        None => None,
    }
}

/// Looks up a test of a plan by its number, in a time that grows at most with the logarithm of the tests.
pub fn planned_test(plan: &Plan, number: u32) -> Option<&PlanTest>
    ensures { option_copied result ≡ test_at plan.now.tests number }
{
    planned(plan.parts().tests.as_slice(), number)
}

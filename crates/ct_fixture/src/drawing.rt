ghost use Rattle.std.specs.Prelude.{◌≡◌, ◌<◌, ◌≤◌, ◌-◌, ◌^◌, ◌||◌, ℕ, [], length, All, IfOk, OnOk, bytes_eq, ◌∷◌, if◌then◌else◌, option_map};
ghost use Rattle.ct_regex.specs.PatternOf.{pattern_of};
ghost use Rattle.ct_props.specs.Numbered.{at_number};
ghost use Rattle.ct_fixture.specs.Drawing.{is_hit as is_hit_by, members_of, required_by};
ghost use Rattle.ct_fixture.specs.Kept.{AreUntaken, HaveMarks, TakesFixtures, given, fixture_tests};

use crate::by_fixture::{ByFixture, take};
use crate::fixtures::Fixtures;
use crate::members::Members;
use crate::patterns::{FixtureMatchers, is_kept_out};
use ct_base::{List, Name, NoMemory};
use ct_props::{Choice, Props};
use ct_regex::Matcher;
use std::alloc::Global;

/// Draws in the setups and the cleanups of the fixtures that tests require, and of the fixtures
/// that these require in turn. Returns the numbers of all tests that are in, in order.
///
/// A disabled test is not drawn in, and draws none in. If it is chosen, it stays. Numbers count
/// from 1, in the order of definition.
///
/// Source: CMake manual, cmake-properties(7), FIXTURES_REQUIRED; ctest(1), -FA, -FC, -FS.
pub fn draw_in(
    alloc: Global,
    props: &List<Props>,
    chosen: &List<u32>,
    choice: &Choice,
) -> Result<List<u32>, NoMemory>
    requires few { length props.now < 2 ^ 32 - 1 }
    requires within { All (λ number. (1 ≤ number) × (number ≤ length props.now)) chosen.now }
    ensures { IfOk result (λ members. members ≡ members_of choice.now props.now chosen.now) }
{
    let props = props.as_slice();
    let mut fixtures = Fixtures::of(alloc, props)?;
    draw_from(alloc, props, chosen.as_slice(), choice, &mut fixtures)
}

/// Returns the numbers of these tests and of those that are drawn in, where no fixture has drawn any in.
fn draw_from(
    alloc: Global,
    props: &[Props],
    chosen: &[u32],
    choice: &Choice,
    fixtures: &mut Fixtures,
) -> Result<List<u32>, NoMemory>
    requires few { length props.now < 2 ^ 32 - 1 }
    requires within { All (λ number. (1 ≤ number) × (number ≤ length props.now)) chosen.now }
    requires untaken { AreUntaken props.now fixtures.old }
    ensures { IfOk result (λ members. members ≡ members_of choice.now props.now chosen.now) }
{
    let mut members = Members::none(alloc, props.len())?;
    members.add_all(chosen)?;
    let mut matchers = FixtureMatchers::of(alloc, choice)?;
    while let Some(number) = members.next() {
        draw_for(alloc, props, &mut matchers, fixtures, &mut members, number)?;
    }
    drop(matchers);
    members.into_list(alloc)
}

/// Adds the tests that the fixtures required by a test draw in.
fn draw_for(
    alloc: Global,
    props: &[Props],
    matchers: &mut FixtureMatchers<'_>,
    fixtures: &mut Fixtures,
    members: &mut Members,
    number: u32,
) -> Result<(), NoMemory>
    requires low { 1 ≤ number }
    requires there { number ≤ length props.now }
    requires marks { HaveMarks fixtures.old members.old }
    ensures marks { OnOk result (HaveMarks fixtures.new members.new) }
    ensures taken { OnOk result (TakesFixtures (required_by (at_number props.now number)) matchers.old fixtures.old members.old matchers.new fixtures.new members.new) }
{
    let own = &props[number as usize - 1];
    if own.disabled {
        return Ok(());
    }
    for fixture in own.required.as_slice() {
        draw(alloc, matchers, fixtures, members, fixture)?;
    }
    Ok(())
}

/// Adds the tests that a fixture draws in.
fn draw(
    alloc: Global,
    matchers: &mut FixtureMatchers<'_>,
    fixtures: &mut Fixtures,
    members: &mut Members,
    fixture: &Name,
) -> Result<(), NoMemory>
    requires marks { HaveMarks fixtures.old members.old }
    ensures marks { OnOk result (HaveMarks fixtures.new members.new) }
    ensures taken { OnOk result (TakesFixtures (fixture.now ∷ []) matchers.old fixtures.old members.old matchers.new fixtures.new members.new) }
{
    let setups = take_unless(
        alloc,
        &mut fixtures.setups,
        fixture,
        &mut matchers.any,
        &mut matchers.setup,
    );
    members.add_all(&setups)?;
    let cleanups = take_unless(
        alloc,
        &mut fixtures.cleanups,
        fixture,
        &mut matchers.any,
        &mut matchers.cleanup,
    );
    members.add_all(&cleanups)
}

/// Removes the tests of a fixture, and returns them unless one of these patterns hits the fixture.
fn take_unless(
    alloc: Global,
    tests: &mut ByFixture,
    fixture: &Name,
    any: &mut Option<Matcher<'_>>,
    side: &mut Option<Matcher<'_>>,
) -> Vec<u32>
    ensures gives { result.items ≡ given (is_hit_by (option_map pattern_of any.old) fixture.now || is_hit_by (option_map pattern_of side.old) fixture.now) (fixture_tests tests.old fixture.now) }
    ensures leaves { (asked : List ℕ) → fixture_tests tests.new asked
        ≡ (if bytes_eq asked fixture.now then [] else fixture_tests tests.old asked) }
    ensures any { option_map pattern_of any.new ≡ option_map pattern_of any.old }
    ensures side { option_map pattern_of side.new ≡ option_map pattern_of side.old }
{
    let taken = take(alloc, tests, fixture.bytes());
    if taken.is_empty() {
        return taken;
    }
    if is_kept_out(any, side, fixture) {
        return Vec::new(alloc);
    }
    taken
}

ghost use Rattle.std.specs.Prelude.{◌≡◌, ◌<◌, ◌^◌, ◌++◌, codes, decimal, length, map, IfOk, OnOk};
ghost use Rattle.ct_history.specs.Plan.{IsAscendingFrom, test_at as planned_test};
ghost use Rattle.ct_report.specs.Report.{micros_by, micros_of, numbered_line, seconds_text, test_line, verdict_line, verdict_text};

use crate::numbers::{append_number_and, append_seconds};
use crate::totals::count_enabled;
use crate::verdict_texts::append_verdict;
use ct_base::{Blob, NoMemory};
use ct_history::{Entry, PlanParts, PlanTest, test_at, verdict};
use ct_verdict::Verdict;
use std::alloc::Global;

/// The greatest number of microseconds that the line of a test shows.
pub(crate) const MOST_MICROS: u64 = 1_000_000_000_000_000_000;

/// The numbers in the line of a test, other than the test's own number.
#[derive(Drop)]
pub(crate) struct LineNumbers {
    /// The test's place in the order in which tests become final, from 1.
    pub(crate) place: u32,
    /// How many tests are not disabled.
    pub(crate) enabled: usize,
    /// The microseconds that its attempts took together, at most `MOST_MICROS`.
    pub(crate) micros: u64,
}

/// Writes the line of the test with this number, which is the `place`-th to become final, from 1.
pub(crate) fn test_line(
    alloc: Global,
    plan: &PlanParts,
    entries: &[Entry],
    place: u32,
    number: u32,
) -> Result<Blob, NoMemory>
    requires { IsAscendingFrom 1 (map (λ t. t.number) plan.now.tests) }
    ensures { IfOk result (λ text. text ≡ test_line plan.now entries.now place (planned_test plan.now.tests number)) }
{
    match test_at(plan.tests.as_slice(), number) {
        Some(test) => line_with(alloc, plan, entries, place, test),
        None => Ok(Blob::new(alloc)),
    }
}

fn line_with(
    alloc: Global,
    plan: &PlanParts,
    entries: &[Entry],
    place: u32,
    test: &PlanTest,
) -> Result<Blob, NoMemory>
    requires { IsAscendingFrom 1 (map (λ t. t.number) plan.now.tests) }
    ensures { IfOk result (λ text. text ≡ test_line plan.now entries.now place (Some test.now)) }
{
    match verdict(&plan.repeat, test, entries) {
        Some(verdict) => verdict_line(alloc, plan, entries, place, test, verdict),
        None => Ok(Blob::new(alloc)),
    }
}

fn verdict_line(
    alloc: Global,
    plan: &PlanParts,
    entries: &[Entry],
    place: u32,
    test: &PlanTest,
    verdict: Verdict,
) -> Result<Blob, NoMemory>
    requires { IsAscendingFrom 1 (map (λ t. t.number) plan.now.tests) }
    ensures { IfOk result (λ text. text ≡ verdict_line plan.now entries.now place test.now verdict) }
{
    let tests = plan.tests.as_slice();
    let numbers = LineNumbers {
        place,
        enabled: count_enabled(tests),
        micros: micros_of(test.number, entries),
    };
    numbered_line(alloc, tests, test, verdict, numbers)
}

/// Writes the line of a test with this verdict and these numbers.
pub(crate) fn numbered_line(
    alloc: Global,
    tests: &[PlanTest],
    test: &PlanTest,
    verdict: Verdict,
    numbers: LineNumbers,
) -> Result<Blob, NoMemory>
    requires { IsAscendingFrom 1 (map (λ t. t.number) tests.now) }
    ensures { IfOk result (λ text. text ≡ numbered_line tests.now test.now verdict numbers) }
{
    let mut text = Blob::new(alloc);
    append_place(alloc, &mut text, test, numbers.place, numbers.enabled)?;
    append_end(alloc, &mut text, tests, verdict, numbers.micros)?;
    Ok(text)
}

/// Puts a test's place among the tests that are not disabled, its number and its name behind the text.
fn append_place(
    alloc: Global,
    text: &mut Blob,
    test: &PlanTest,
    place: u32,
    enabled: usize,
) -> Result<(), NoMemory>
    ensures { OnOk result (text.new ≡ text.old ++ decimal place ++ codes "/" ++ decimal enabled ++ codes " Test #" ++ decimal test.now.number ++ codes ": " ++ test.now.name ++ codes " ... ") }
{
    append_number_and(alloc, text, u128::from(place), b"/")?;
    append_number_and(alloc, text, enabled as u128, b" Test #")?;
    append_number_and(alloc, text, u128::from(test.number), b": ")?;
    text.append(test.name.bytes())?;
    text.append(b" ... ")
}

/// Puts a verdict and the seconds of a test, which end its line, behind the text.
fn append_end(
    alloc: Global,
    text: &mut Blob,
    tests: &[PlanTest],
    verdict: Verdict,
    micros: u64,
) -> Result<(), NoMemory>
    requires { IsAscendingFrom 1 (map (λ t. t.number) tests.now) }
    ensures { OnOk result (text.new ≡ text.old ++ verdict_text tests.now verdict ++ codes " " ++ seconds_text micros ++ codes " sec\n") }
{
    append_verdict(alloc, text, tests, verdict)?;
    text.append(b" ")?;
    append_seconds(alloc, text, micros)?;
    text.append(b" sec\n")
}

/// Adds up the microseconds of a test's Ends. A greater sum counts as `MOST_MICROS`.
fn micros_of(number: u32, entries: &[Entry]) -> u64
    ensures { result ≡ micros_of number entries.now }
{
    let mut total: u64 = 0;
    for entry in entries {
        total = total
            .saturating_add(micros_by(number, entry))
            .min(MOST_MICROS);
    }
    total
}

fn micros_by(number: u32, entry: &Entry) -> u64
    ensures { result ≡ micros_by number entry.now }
{
    match entry {
        Entry::End { test, seen, .. } if *test == number => seen.micros,
        _ => 0,
    }
}

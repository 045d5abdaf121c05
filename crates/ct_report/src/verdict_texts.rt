ghost use Rattle.std.specs.Prelude.{◌≡◌, ◌++◌, [], map, OnOk};
ghost use Rattle.ct_history.specs.Plan.{IsAscendingFrom, test_at as planned_test};
ghost use Rattle.ct_report.specs.Report.{cause_text, cause_word, name_of, verdict_text, verdict_word};

use ct_base::{Blob, NoMemory};
use ct_history::{PlanTest, place_of};
use ct_verdict::{Cause, Verdict};
use std::alloc::Global;

/// Puts a verdict behind the text, as it stands in the line of its test.
pub(crate) fn append_verdict(
    alloc: Global,
    text: &mut Blob,
    tests: &[PlanTest],
    verdict: Verdict,
) -> Result<(), NoMemory>
    requires { IsAscendingFrom 1 (map (λ t. t.number) tests.now) }
    ensures { OnOk result (text.new ≡ text.old ++ verdict_text tests.now verdict) }
{
    match verdict {
        Verdict::Passed => text.append(b"Passed"),
        Verdict::Failed => text.append(b"***Failed"),
        Verdict::Timeout => text.append(b"***Timeout"),
        Verdict::Exception => text.append(b"***Exception"),
        Verdict::Skipped => text.append(b"***Skipped"),
        Verdict::NotRun(cause) => append_not_run(alloc, text, tests, cause),
        Verdict::Disabled => Ok(()),
    }
}

fn append_not_run(
    alloc: Global,
    text: &mut Blob,
    tests: &[PlanTest],
    cause: Cause,
) -> Result<(), NoMemory>
    requires { IsAscendingFrom 1 (map (λ t. t.number) tests.now) }
    ensures { OnOk result (text.new ≡ text.old ++ verdict_text tests.now (Verdict.NotRun cause)) }
{
    text.append(b"***Not Run (")?;
    append_cause(alloc, text, tests, cause)?;
    text.append(b")")
}

fn append_cause(
    alloc: Global,
    text: &mut Blob,
    tests: &[PlanTest],
    cause: Cause,
) -> Result<(), NoMemory>
    requires { IsAscendingFrom 1 (map (λ t. t.number) tests.now) }
    ensures { OnOk result (text.new ≡ text.old ++ cause_text tests.now cause) }
{
    match cause {
        Cause::Unstarted => text.append(b"Unable to start"),
        Cause::Lacks(place) => append_required(alloc, text, place),
        Cause::Fixture(setup) => append_fixture(text, tests, setup),
        Cause::NotAvailable => text.append(b"Not available"),
        Cause::BadOperation(_) => text.append(b"Bad environment"),
        Cause::Insufficient => text.append(b"Insufficient resources"),
        Cause::Stopped => text.append(b"Stopped"),
        Cause::Memory => text.append(b"Out of memory"),
    }
}

fn append_required(alloc: Global, text: &mut Blob, place: u32) -> Result<(), NoMemory>
    ensures { OnOk result (text.new ≡ text.old ++ cause_text [] (Cause.Lacks place)) }
{
    text.append(b"Required file ")?;
    text.append_number(alloc, u128::from(place))
}

fn append_fixture(text: &mut Blob, tests: &[PlanTest], setup: u32) -> Result<(), NoMemory>
    requires { IsAscendingFrom 1 (map (λ t. t.number) tests.now) }
    ensures { OnOk result (text.new ≡ text.old ++ cause_text tests.now (Cause.Fixture setup)) }
{
    text.append(b"Fixture ")?;
    text.append(name_of(tests, setup))
}

fn name_of(tests: &[PlanTest], number: u32) -> &[u8]
    requires { IsAscendingFrom 1 (map (λ t. t.number) tests.now) }
    ensures { result.now ≡ name_of (planned_test tests.now number) }
{
    match place_of(tests, number) {
        Some(place) => tests[place].name.bytes(),
        None => &[],
    }
}

/// Returns the word of a verdict in the lists of the summary.
pub(crate) fn verdict_word(verdict: Verdict) -> &'static [u8]
    ensures { result.now ≡ verdict_word verdict }
{
    match verdict {
        Verdict::Passed => b"",
        Verdict::Failed => b"Failed",
        Verdict::Timeout => b"Timeout",
        Verdict::Exception => b"Exception",
        Verdict::Skipped => b"Skipped",
        Verdict::NotRun(cause) => cause_word(cause),
        Verdict::Disabled => b"Disabled",
    }
}

fn cause_word(cause: Cause) -> &'static [u8]
    ensures { result.now ≡ cause_word cause }
{
    match cause {
        Cause::Stopped => b"Stopped",
        _ => b"Not Run",
    }
}

ghost use Rattle.std.specs.Prelude.{◌≡◌, ◌+◌, ◌<◌, ◌-◌, ◌^◌, ◌++◌, ◌∷◌, [], codes, length, true, IfOk, List, OnOk, if◌then◌else◌};
ghost use Rattle.ct_history.specs.declared.history.Entry.{Entry};
ghost use Rattle.ct_history.specs.declared.plan.PlanParts.{PlanParts};
ghost use Rattle.ct_history.specs.Plan.{enabled};
ghost use Rattle.ct_history.specs.Verdicts.{are_all_final};
ghost use Rattle.ct_report.specs.Report.{is_good_in, is_unrun_in, listed_with, word_of};
ghost use Rattle.ct_report.specs.Labels.{CanCountMore};
ghost use Rattle.ct_report.specs.Totals.{AddsToTotals, AreTotals};

use crate::labels::{LabelCounts, count_test};
use crate::numbers::append_number_and;
use crate::verdict_texts::verdict_word;
use ct_base::{Blob, List, Name, NoMemory};
use ct_history::{Entry, PlanParts, PlanTest, course_at, courses_of, is_failing, verdict_by};
use ct_verdict::{Cause, Verdict};
use std::alloc::Global;
use std::collections::BTreeMap;

/// What a summary says of the tests of a plan.
#[derive(Drop)]
pub(crate) struct Totals {
    /// How many tests count as passed.
    pub good: usize,
    /// The lines of the tests that did not run.
    pub unrun: List<Blob>,
    /// The lines of the tests that failed.
    pub failed: List<Blob>,
    /// How many tests that are not disabled have each label.
    pub labelled: LabelCounts,
    /// How many tests that count as passed have each label.
    pub labelled_good: LabelCounts,
}

/// Counts and lists the tests. One pass over the history finds the verdict of each.
pub(crate) fn totals_of(
    alloc: Global,
    plan: &PlanParts,
    entries: &[Entry],
) -> Result<Totals, NoMemory>
    requires ended { are_all_final plan.now entries.now ≡ true }
    ensures { IfOk result (λ totals. AreTotals plan.now entries.now plan.now.tests totals) }
{
    let courses = courses_of(alloc, entries)?;
    let mut totals = no_totals(alloc);
    for test in plan.tests.as_slice() {
        let verdict = verdict_by(test, course_at(&courses, test.number));
        add_test(alloc, &mut totals, test, verdict)?;
    }
    Ok(totals)
}

/// Makes the totals of no tests.
fn no_totals(alloc: Global) -> Totals
    ensures { (plan : PlanParts) (entries : List Entry) → AreTotals plan entries [] result }
{
    Totals {
        good: 0,
        unrun: List::new(alloc),
        failed: List::new(alloc),
        labelled: BTreeMap::new(alloc),
        labelled_good: BTreeMap::new(alloc),
    }
}

/// Counts and lists one test more, which has this verdict.
fn add_test(
    alloc: Global,
    totals: &mut Totals,
    test: &PlanTest,
    verdict: Option<Verdict>,
) -> Result<(), NoMemory>
    requires good { totals.old.good < 2 ^ 64 - 1 }
    requires labelled { CanCountMore totals.old.labelled }
    requires labelled_good { CanCountMore totals.old.labelled_good }
    ensures { OnOk result (AddsToTotals test.now verdict totals.old totals.new) }
{
    totals.good = one_more(totals.good, is_good(verdict));
    push_where(alloc, &mut totals.unrun, is_unrun(verdict), test, verdict)?;
    push_where(
        alloc,
        &mut totals.failed,
        is_failing(verdict),
        test,
        verdict,
    )?;
    count_test(alloc, &mut totals.labelled, !test.disabled, test)?;
    count_test(alloc, &mut totals.labelled_good, is_good(verdict), test)
}

/// Counts the tests that are not disabled.
pub(crate) fn count_enabled(tests: &[PlanTest]) -> usize
    ensures { result ≡ length (enabled tests.now) }
{
    tests.iter().filter(|test| !test.disabled).count()
}

fn is_good(verdict: Option<Verdict>) -> bool
    ensures { result ≡ is_good_in verdict }
{
    matches!(verdict, Some(Verdict::Passed | Verdict::Skipped))
}

fn is_unrun(verdict: Option<Verdict>) -> bool
    ensures { result ≡ is_unrun_in verdict }
{
    matches!(
        verdict,
        Some(Verdict::Disabled | Verdict::Skipped | Verdict::NotRun(Cause::Stopped))
    )
}

fn one_more(count: usize, wanted: bool) -> usize
    requires room { count < 2 ^ 64 - 1 }
    ensures { result ≡ count + (if wanted then 1 else 0) }
{
    if wanted { count + 1 } else { count }
}

/// Adds the line of the test behind the others, if it is wanted.
fn push_where(
    alloc: Global,
    lines: &mut List<Blob>,
    wanted: bool,
    test: &PlanTest,
    verdict: Option<Verdict>,
) -> Result<(), NoMemory>
    ensures { OnOk result (lines.new ≡ lines.old ++ (if wanted then listed_with test.now verdict ∷ [] else [])) }
{
    if wanted {
        lines.push(listed_line(alloc, test, verdict)?)?;
    }
    Ok(())
}

fn listed_line(alloc: Global, test: &PlanTest, verdict: Option<Verdict>) -> Result<Blob, NoMemory>
    ensures { IfOk result (λ text. text ≡ listed_with test.now verdict) }
{
    let mut text = Blob::of(alloc, b"\t")?;
    append_number_and(alloc, &mut text, u128::from(test.number), b" - ")?;
    append_with_word(&mut text, &test.name, word_of(verdict))?;
    Ok(text)
}

/// Puts a name and a word in parentheses, which end a line, behind the text.
fn append_with_word(text: &mut Blob, name: &Name, word: &[u8]) -> Result<(), NoMemory>
    ensures { OnOk result (text.new ≡ text.old ++ name.now ++ codes " (" ++ word.now ++ codes ")\n") }
{
    text.append(name.bytes())?;
    text.append(b" (")?;
    text.append(word)?;
    text.append(b")\n")
}

fn word_of(verdict: Option<Verdict>) -> &'static [u8]
    ensures { result.now ≡ word_of verdict }
{
    match verdict {
        Some(verdict) => verdict_word(verdict),
        None => b"",
    }
}

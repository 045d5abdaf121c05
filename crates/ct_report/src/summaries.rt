ghost use Rattle.std.specs.Prelude.{◌≡◌, ◌++◌, ◌∷◌, [], codes, length, true, IfOk, OnOk};
ghost use Rattle.ct_history.specs.Plan.{enabled};
ghost use Rattle.ct_history.specs.Verdicts.{are_all_final};
ghost use Rattle.ct_report.specs.Report.{counts_with, failed_lines, label_lines, percent, summary_lines, under};
ghost use Rattle.ct_report.specs.Totals.{AreTotals};

use crate::labels;
use crate::numbers::append_number_and;
use crate::totals::{Totals, count_enabled, totals_of};
use ct_base::{Blob, List, NoMemory};
use ct_history::{Entry, PlanParts};
use std::alloc::Global;
use std::mem;

/// Writes the lines of the summary.
pub(crate) fn summary_lines(
    alloc: Global,
    plan: &PlanParts,
    entries: &[Entry],
) -> Result<List<Blob>, NoMemory>
    requires ended { are_all_final plan.now entries.now ≡ true }
    ensures { IfOk result (λ lines. lines ≡ summary_lines plan.now entries.now) }
{
    let mut totals = totals_of(alloc, plan, entries)?;
    lines_of_totals(alloc, plan, entries, &mut totals)
}

/// Writes the lines of the summary from its totals, whose lists of tests move into the lines.
fn lines_of_totals(
    alloc: Global,
    plan: &PlanParts,
    entries: &[Entry],
    totals: &mut Totals,
) -> Result<List<Blob>, NoMemory>
    requires { AreTotals plan.now entries.now plan.now.tests totals.old }
    ensures { IfOk result (λ lines. lines ≡ summary_lines plan.now entries.now) }
{
    let mut lines = List::new(alloc);
    push_counts(alloc, &mut lines, plan, totals)?;
    push_labels(alloc, &mut lines, plan, entries, totals)?;
    push_unrun(
        alloc,
        &mut lines,
        mem::replace(&mut totals.unrun, List::new(alloc)),
    )?;
    push_failed(
        alloc,
        &mut lines,
        mem::replace(&mut totals.failed, List::new(alloc)),
    )?;
    Ok(lines)
}

/// Adds a blank line and the line of the counts of a run.
fn push_counts(
    alloc: Global,
    lines: &mut List<Blob>,
    plan: &PlanParts,
    totals: &Totals,
) -> Result<(), NoMemory>
    ensures { OnOk result (lines.new ≡ lines.old ++ codes "\n" ∷ counts_with totals.now.good (length totals.now.failed) (length (enabled plan.now.tests)) ∷ []) }
{
    let all = count_enabled(plan.tests.as_slice());
    push_line(alloc, lines, b"\n")?;
    lines.push(counts_line(alloc, totals.good, totals.failed.len(), all)?)
}

/// Writes the counts of a run.
fn counts_line(alloc: Global, good: usize, failing: usize, all: usize) -> Result<Blob, NoMemory>
    ensures { IfOk result (λ text. text ≡ counts_with good failing all) }
{
    let mut text = Blob::new(alloc);
    append_number_and(alloc, &mut text, percent(good, all), b"% tests passed, ")?;
    append_number_and(alloc, &mut text, failing as u128, b" tests failed out of ")?;
    append_number_and(alloc, &mut text, all as u128, b"\n")?;
    Ok(text)
}

fn percent(good: usize, all: usize) -> u128
    ensures { result ≡ percent good all }
{
    if all == 0 {
        100
    } else {
        100 * (good as u128) / (all as u128)
    }
}

/// Adds the lines of the labels under their heading, or nothing where there are none.
fn push_labels(
    alloc: Global,
    lines: &mut List<Blob>,
    plan: &PlanParts,
    entries: &[Entry],
    totals: &Totals,
) -> Result<(), NoMemory>
    requires { AreTotals plan.now entries.now plan.now.tests totals.now }
    ensures { OnOk result (lines.new ≡ lines.old ++ under (codes "Label Summary:\n") (label_lines plan.now entries.now)) }
{
    let labels = label_lines(alloc, plan, entries, totals)?;
    push_under(alloc, lines, b"Label Summary:\n", labels)
}

/// Writes the line of each label.
fn label_lines(
    alloc: Global,
    plan: &PlanParts,
    entries: &[Entry],
    totals: &Totals,
) -> Result<List<Blob>, NoMemory>
    requires { AreTotals plan.now entries.now plan.now.tests totals.now }
    ensures { IfOk result (λ lines. lines ≡ label_lines plan.now entries.now) }
{
    let labels = labels::labels_in_order(alloc, plan.tests.as_slice())?;
    labels::lines_of_labels(
        alloc,
        labels.as_slice(),
        &totals.labelled_good,
        &totals.labelled,
    )
}

/// Adds the lines of the tests that did not run under their heading, or nothing where there are none.
fn push_unrun(alloc: Global, lines: &mut List<Blob>, unrun: List<Blob>) -> Result<(), NoMemory>
    ensures { OnOk result (lines.new ≡ lines.old ++ under (codes "The following tests did not run:\n") unrun) }
{
    push_under(alloc, lines, b"The following tests did not run:\n", unrun)
}

/// Adds a blank line, a heading and these lines behind the others, or nothing where these are none.
#[tactic(auto, using(crate::proofs::TotalLemmas::under_none))]
fn push_under(
    alloc: Global,
    lines: &mut List<Blob>,
    heading: &[u8],
    more: List<Blob>,
) -> Result<(), NoMemory>
    ensures { OnOk result (lines.new ≡ lines.old ++ under heading.now more) }
{
    if more.is_empty() {
        return Ok(());
    }
    push_line(alloc, lines, b"\n")?;
    push_line(alloc, lines, heading)?;
    push_all(lines, more)
}

/// Adds a line with this text.
fn push_line(alloc: Global, lines: &mut List<Blob>, line: &[u8]) -> Result<(), NoMemory>
    ensures { OnOk result (lines.new ≡ lines.old ++ line.now ∷ []) }
{
    lines.push(Blob::of(alloc, line)?)
}

fn push_all(lines: &mut List<Blob>, more: List<Blob>) -> Result<(), NoMemory>
    ensures { OnOk result (lines.new ≡ lines.old ++ more) }
{
    for line in more.into_vec() {
        lines.push(line)?;
    }
    Ok(())
}

#[tactic(auto, using(crate::proofs::TotalLemmas::failed_none))]
fn push_failed(alloc: Global, lines: &mut List<Blob>, failed: List<Blob>) -> Result<(), NoMemory>
    ensures { OnOk result (lines.new ≡ lines.old ++ failed_lines failed) }
{
    if failed.is_empty() {
        return Ok(());
    }
    push_under(alloc, lines, b"The following tests FAILED:\n", failed)?;
    push_line(alloc, lines, b"Errors while running CTest\n")
}

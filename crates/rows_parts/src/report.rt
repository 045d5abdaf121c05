//! The report on a run, and the lists of labels and of tests that are printed in place of a run.

ghost use Rattle.std.specs.Prelude.{◌≡◌, true};
ghost use Rattle.ct_history.specs.Verdicts.{are_all_final};

use crate::entries::text_of;
use crate::past::{Record, record_of};
use crate::row::{Given, RowFault};
use ct_base::{List, MemSink, Name, NoMemory};
use ct_history::verdict_of;
use ct_report::{ListedTest, header, label_list, line, summary, test_list};
use std::alloc::{AllocError, Global};

/// Tells the header of a run, and the line of each test that is not disabled, in order of number.
pub(crate) fn lines(alloc: Global, given: Given<'_>) -> Result<String, RowFault> {
    let record = record_of(alloc, given.text("run")?)?;
    lines_told(alloc, &record)
}

fn lines_told(alloc: Global, past: &Record) -> Result<String, RowFault> {
    let mut sink = MemSink::new(alloc, List::new(alloc));
    put_lines(alloc, past, &mut sink)?;
    Ok(written(alloc, &sink)?)
}

/// Tells the summary of a run.
pub(crate) fn summed_up(alloc: Global, given: Given<'_>) -> Result<String, RowFault> {
    let record = record_of(alloc, given.text("run")?)?;
    summary_told(alloc, &record)
}

fn summary_told(alloc: Global, past: &Record) -> Result<String, RowFault>
    requires { are_all_final past.now.plan past.now.history.entries.items ≡ true }
{
    let mut sink = MemSink::new(alloc, List::new(alloc));
    summary(alloc, &mut sink, &past.plan, &past.history)?;
    Ok(written(alloc, &sink)?)
}

/// Tells the list of labels, which are given with a space between.
pub(crate) fn labels(alloc: Global, given: Given<'_>) -> Result<String, RowFault> {
    let labels = labels_of(alloc, given.text("labels")?)?;
    let mut sink = MemSink::new(alloc, List::new(alloc));
    label_list(alloc, &mut sink, &labels)?;
    Ok(written(alloc, &sink)?)
}

/// Tells the list of tests, and in how many pieces it is written. A test is given as its number and its
/// name, with `off` behind a disabled one.
pub(crate) fn tests(alloc: Global, given: Given<'_>) -> Result<String, RowFault> {
    let rows = given.text("tests")?;
    let dir = Name::of(alloc, given.bytes("folder")?)?;
    let names = names_of(alloc, rows)?;
    tests_told(alloc, &dir, rows, names.as_slice())
}

fn tests_told(alloc: Global, dir: &Name, rows: &str, names: &[Name]) -> Result<String, RowFault> {
    let tests = listed(alloc, rows, names)?;
    let mut sink = MemSink::new(alloc, List::new(alloc));
    test_list(alloc, &mut sink, dir, tests.as_slice())?;
    let said = text_of(sink.written().bytes());
    Ok(format!(in alloc; "{said}{} pieces", sink.pieces().len())?)
}

/// Returns what was written, without the line feeds at its end.
fn written(alloc: Global, sink: &MemSink) -> Result<String, AllocError> {
    String::from_str(alloc, text_of(sink.written().bytes()).trim_end())
}

/// Puts the header of a run, and the line of each test that is not disabled.
fn put_lines(alloc: Global, past: &Record, sink: &mut MemSink) -> Result<(), RowFault> {
    let Record { plan, history } = past;
    header(alloc, sink, plan)?;
    let mut place = 1;
    for test in plan.parts().tests.as_slice() {
        if test.disabled {
            continue;
        }
        let verdict = verdict_of(plan.parts(), history.entries.as_slice(), test.number);
        if verdict.is_none() {
            return Err(RowFault::Unfit("run"));
        }
        line(alloc, sink, plan, history, test.number, place)?;
        place = place.saturating_add(1);
    }
    Ok(())
}

fn labels_of(alloc: Global, text: &str) -> Result<List<Name>, NoMemory> {
    let mut labels = List::new(alloc);
    for label in text.split_terminator(' ') {
        labels.push(Name::of(alloc, label.as_bytes())?)?;
    }
    Ok(labels)
}

fn names_of(alloc: Global, rows: &str) -> Result<Vec<Name>, NoMemory> {
    let mut names = Vec::new(alloc);
    for row in rows.lines() {
        let (_number, rest) = row.split_once(' ').unwrap_or((row, ""));
        let (name, _mark) = rest.split_once(' ').unwrap_or((rest, ""));
        names.push(Name::of(alloc, name.as_bytes())?)?;
    }
    Ok(names)
}

fn listed<'a>(
    alloc: Global,
    rows: &str,
    names: &'a [Name],
) -> Result<Vec<ListedTest<'a>>, NoMemory> {
    let mut tests = Vec::new(alloc);
    for (name, row) in names.iter().zip(rows.lines()) {
        let (number, rest) = row.split_once(' ').unwrap_or((row, ""));
        tests.push(ListedTest {
            number: number.parse().unwrap_or(0),
            name,
            disabled: rest.ends_with(" off"),
        })?;
    }
    Ok(tests)
}

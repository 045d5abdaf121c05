ghost use Rattle.std.specs.Prelude.{◌≡◌, ◌++◌, ◌∷◌, [], codes, map, IfOk, OnOk, if◌then◌else◌};
ghost use Rattle.ct_base.specs.Outside.{Puts, PutsEach};
ghost use Rattle.ct_report.specs.Lists.{enabled_count, label_entry, label_list, labels_heading, test_entry, test_list, total_line};
ghost use Rattle.ct_report.specs.Report.{text_of};

use crate::labels::in_order;
use crate::numbers::append_number_and;
use crate::puts::put_lines;
use crate::report::project_line;
use ct_base::{Blob, List, Name, NoMemory, Sink, SinkFault};
use std::alloc::Global;
use std::marker::Model;

/// A test that is listed.
///
/// Source: CMake manual, ctest(1), --show-only.
#[derive(Debug, Drop)]
pub struct ListedTest<'a> {
    /// The number of the test, from 1.
    pub number: u32,
    pub name: &'a Name,
    pub disabled: bool,
}

impl<'a> Model for ListedTest<'a> {
    ghost use Rattle.ct_report.specs.Lists.{Listed};

    ghost Value = { Listed };

    ghost view = { λ t. record { number = t.number; name = t.name.now; disabled = t.disabled } };
}

/// Puts the list of these labels, which may come in any order and more than once.
///
/// Source: CMake manual, ctest(1), --print-labels. The wording is ctest's.
pub fn label_list<S: Sink>(
    alloc: Global,
    sink: &mut S,
    labels: &List<Name>,
) -> Result<(), SinkFault>
    ensures text { Puts (text_of (label_list labels.now)) (S.tells sink.old) (S.tells sink.new) result }
    ensures each { PutsEach (label_list labels.now) (S.tells sink.old) (S.tells sink.new) result }
{
    let lines = label_lines(alloc, labels.as_slice())?;
    put_lines(sink, lines.as_slice())
}

/// Puts the list of these tests of a folder, and the number of those that are not disabled.
///
/// Source: CMake manual, ctest(1), --show-only. The wording is ctest's.
pub fn test_list<S: Sink>(
    alloc: Global,
    sink: &mut S,
    dir: &Name,
    tests: &[ListedTest<'_>],
) -> Result<(), SinkFault>
    ensures text { Puts (text_of (test_list dir.now tests.now)) (S.tells sink.old) (S.tells sink.new) result }
    ensures each { PutsEach (test_list dir.now tests.now) (S.tells sink.old) (S.tells sink.new) result }
{
    let heading = project_line(alloc, dir)?;
    let total = total_line(alloc, enabled_count(tests))?;
    sink.put(heading.bytes())?;
    put_tests(alloc, sink, tests)?;
    put_total(sink, total.bytes())
}

fn label_lines(alloc: Global, labels: &[Name]) -> Result<List<Blob>, NoMemory>
    ensures { IfOk result (λ lines. lines ≡ label_list labels.now) }
{
    let ordered = in_order(alloc, labels)?;
    lines_with_heading(alloc, ordered.as_slice())
}

/// Writes the heading of these labels, and the line of each.
fn lines_with_heading(alloc: Global, labels: &[Name]) -> Result<List<Blob>, NoMemory>
    ensures { IfOk result (λ lines. lines ≡ labels_heading labels.now ∷ map label_entry labels.now) }
{
    let mut lines = List::new(alloc);
    lines.push(Blob::of(alloc, labels_heading(labels))?)?;
    push_labels(alloc, &mut lines, labels)?;
    Ok(lines)
}

fn labels_heading(labels: &[Name]) -> &'static [u8]
    ensures { result.now ≡ labels_heading labels.now }
{
    match labels {
        [] => b"No Labels Exist\n",
        [_, ..] => b"All Labels:\n",
    }
}

fn push_labels(alloc: Global, lines: &mut List<Blob>, labels: &[Name]) -> Result<(), NoMemory>
    ensures { OnOk result (lines.new ≡ lines.old ++ map label_entry labels.now) }
{
    for label in labels {
        lines.push(label_entry(alloc, label)?)?;
    }
    Ok(())
}

fn label_entry(alloc: Global, label: &Name) -> Result<Blob, NoMemory>
    ensures { IfOk result (λ text. text ≡ label_entry label.now) }
{
    let mut text = Blob::of(alloc, b"  ")?;
    text.append(label.bytes())?;
    text.append(b"\n")?;
    Ok(text)
}

/// Puts the line of each of these tests, each in a put of its own.
fn put_tests<S: Sink>(
    alloc: Global,
    sink: &mut S,
    tests: &[ListedTest<'_>],
) -> Result<(), SinkFault>
    ensures text { Puts (text_of (map test_entry tests.now)) (S.tells sink.old) (S.tells sink.new) result }
    ensures each { PutsEach (map test_entry tests.now) (S.tells sink.old) (S.tells sink.new) result }
{
    for test in tests {
        let line = test_entry(alloc, test)?;
        sink.put(line.bytes())?;
    }
    Ok(())
}

/// Puts an empty line, and the line with the number of tests.
fn put_total<S: Sink>(sink: &mut S, total: &[u8]) -> Result<(), SinkFault>
    ensures text { Puts (text_of (codes "\n" ∷ total.now ∷ [])) (S.tells sink.old) (S.tells sink.new) result }
    ensures each { PutsEach (codes "\n" ∷ total.now ∷ []) (S.tells sink.old) (S.tells sink.new) result }
{
    sink.put(b"\n")?;
    sink.put(total)
}

fn test_entry(alloc: Global, test: &ListedTest<'_>) -> Result<Blob, NoMemory>
    ensures { IfOk result (λ text. text ≡ test_entry test.now) }
{
    let mut text = Blob::of(alloc, b"  Test #")?;
    append_number_and(alloc, &mut text, u128::from(test.number), b": ")?;
    text.append(test.name.bytes())?;
    text.append(entry_end(test.disabled))?;
    Ok(text)
}

fn entry_end(disabled: bool) -> &'static [u8]
    ensures { result.now ≡ (if disabled then codes " (Disabled)\n" else codes "\n") }
{
    if disabled { b" (Disabled)\n" } else { b"\n" }
}

fn enabled_count(tests: &[ListedTest<'_>]) -> usize
    ensures { result ≡ enabled_count tests.now }
{
    tests.iter().filter(|test| !test.disabled).count()
}

fn total_line(alloc: Global, count: usize) -> Result<Blob, NoMemory>
    ensures { IfOk result (λ text. text ≡ total_line count) }
{
    let mut text = Blob::of(alloc, b"Total Tests: ")?;
    append_number_and(alloc, &mut text, count as u128, b"\n")?;
    Ok(text)
}

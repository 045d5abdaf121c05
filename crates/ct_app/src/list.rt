ghost use Rattle.std.specs.Prelude.{◌≡◌, [], ◌∷◌, ◌++◌, ◌<◌, ◌-◌, ◌^◌, IfOk, OnOk, length};
ghost use Rattle.ct_props.specs.Numbered.{at_number as stands_at};
ghost use Rattle.ct_info.specs.Info.{info_text, info_value};
ghost use Rattle.ct_plan.specs.Source.{HaveProps};
ghost use Rattle.ct_report.specs.Lists.{test_list as list_of_tests, label_list as list_of_labels};
ghost use Rattle.ct_report.specs.PutLines.{PutsLines};
ghost use Rattle.ct_app.specs.Calls.{list_sides};
ghost use Rattle.ct_app.specs.Ends.{ListEndsFor, listed_as};
ghost use Rattle.ct_app.specs.Lists.{asked_lines, labels_among, labels_there, list_lines, listed_tests, listed_there};

use crate::Outcome;
use crate::props::{Tests, at_number};
use crate::reading::read_listed;
use crate::rerun::limit_choice;
use ct_args::{Invocation, Task};
use ct_base::{Files, List, Name, NoMemory, Sink, SinkFault};
use ct_info::info;
use ct_plan::members;
use ct_props::Props;
use ct_report::{ListedTest, label_list, test_list};
use std::alloc::Global;

/// Puts the list that an invocation asks for, and returns the outcome.
///
/// It reads no specification and no cost data, whatever the words name, and makes no plan.
pub(crate) fn list_folder<F: Files, S: Sink>(
    alloc: Global,
    mut invocation: Invocation,
    files: &mut F,
    sink: &mut S,
) -> Outcome
    ensures { ListEndsFor invocation (λ words. list_sides words (F.tells files.old) (F.tells files.new) (S.tells sink.old) (S.tells sink.new)) result }
{
    let outcome = list_asked(alloc, &mut invocation, files, sink);
    drop(invocation);
    outcome
}

/// Puts the list as `list_folder` does, and leaves the choice of the invocation limited.
fn list_asked<F: Files, S: Sink>(
    alloc: Global,
    invocation: &mut Invocation,
    files: &mut F,
    sink: &mut S,
) -> Outcome
    ensures { ListEndsFor invocation.old (λ words. list_sides words (F.tells files.old) (F.tells files.new) (S.tells sink.old) (S.tells sink.new)) result }
{
    match read_listed(alloc, files, invocation) {
        Ok(mut folder) => {
            limit_choice(invocation, folder.only.take());
            listed(put_list(alloc, sink, invocation, &folder.tests))
        }
        Err(outcome) => outcome,
    }
}

/// Turns the end of a list into the outcome of the call.
fn listed(ended: Result<(), SinkFault>) -> Outcome
    ensures { result ≡ listed_as ended }
{
    match ended {
        Ok(()) => Outcome::Listed,
        Err(fault) => Outcome::from(fault),
    }
}

/// Puts the list of the tests that the choice selects.
///
/// Source: CMake manual, ctest(1), --show-only, --print-labels, Show as JSON Object Model.
fn put_list<S: Sink>(
    alloc: Global,
    sink: &mut S,
    invocation: &Invocation,
    tests: &Tests,
) -> Result<(), SinkFault>
    requires together { HaveProps tests.now.defs tests.now.props }
    requires few { length tests.now.defs < 2 ^ 32 - 1 }
    ensures { PutsLines (asked_lines invocation.now invocation.now.wanted.choice tests.now.defs tests.now.props) (S.tells sink.old) (S.tells sink.new) result }
{
    let choice = &invocation.wanted.choice;
    let members = members(alloc, &tests.defs, &tests.props, choice)?;
    put_members(alloc, sink, invocation, tests, &members)?;
    Ok(())
}

/// Puts the list that an invocation asks for, of the tests with these numbers.
fn put_members<S: Sink>(
    alloc: Global,
    sink: &mut S,
    invocation: &Invocation,
    tests: &Tests,
    members: &List<u32>,
) -> Result<(), SinkFault>
    ensures { PutsLines (list_lines invocation.now.task invocation.now.wanted.dir invocation.now.config tests.now.defs tests.now.props members.now) (S.tells sink.old) (S.tells sink.new) result }
{
    let numbers = members.as_slice();
    match invocation.task {
        Task::Run | Task::ListTests => {
            put_tests(alloc, sink, &invocation.wanted.dir, tests, numbers)
        }
        Task::ListLabels => put_labels(alloc, sink, tests.props.as_slice(), numbers),
        Task::ListJson => put_json(alloc, sink, &invocation.config, tests, members),
    }
}

fn put_tests<S: Sink>(
    alloc: Global,
    sink: &mut S,
    dir: &Name,
    tests: &Tests,
    members: &[u32],
) -> Result<(), SinkFault>
    ensures { PutsLines (list_of_tests dir.now (listed_tests tests.now.defs tests.now.props members.now)) (S.tells sink.old) (S.tells sink.new) result }
{
    let entries = listed_entries(alloc, tests, members)?;
    test_list(alloc, sink, dir, entries.as_slice())?;
    Ok(())
}

/// Makes the entries of a list for the tests with these numbers.
fn listed_entries<'a>(
    alloc: Global,
    tests: &'a Tests,
    members: &[u32],
) -> Result<Vec<ListedTest<'a>>, NoMemory>
    ensures { IfOk result (λ entries. entries.items ≡ listed_tests tests.now.defs tests.now.props members.now) }
{
    let mut entries = Vec::new(alloc);
    for number in members {
        if let Some(entry) = listed_entry(tests, *number) {
            entries.push(entry)?;
        }
    }
    Ok(entries)
}

fn put_labels<S: Sink>(
    alloc: Global,
    sink: &mut S,
    props: &[Props],
    members: &[u32],
) -> Result<(), SinkFault>
    ensures { PutsLines (list_of_labels (labels_among props.now members.now)) (S.tells sink.old) (S.tells sink.new) result }
{
    let labels = labels_of(alloc, props, members)?;
    label_list(alloc, sink, &labels)?;
    Ok(())
}

/// Puts the tests with these numbers as JSON, in one put.
fn put_json<S: Sink>(
    alloc: Global,
    sink: &mut S,
    config: &Name,
    tests: &Tests,
    members: &List<u32>,
) -> Result<(), SinkFault>
    ensures { PutsLines (info_text (info_value tests.now.defs members.now config.now) ∷ []) (S.tells sink.old) (S.tells sink.new) result }
{
    let text = info(alloc, &tests.defs, members, config)?;
    sink.put(text.bytes())?;
    Ok(())
}

/// Makes the entry of a list for the test with this number, if the test is there.
fn listed_entry<'a>(tests: &'a Tests, number: u32) -> Option<ListedTest<'a>>
    ensures { result ≡ listed_there number (stands_at tests.now.defs number) (stands_at tests.now.props number) }
{
    let def = at_number(tests.defs.as_slice(), number)?;
    let props = at_number(tests.props.as_slice(), number)?;
    Some(ListedTest {
        number,
        name: &def.name,
        disabled: props.disabled,
    })
}

/// Copies the labels of the tests with these numbers, without the disabled tests.
fn labels_of(alloc: Global, props: &[Props], members: &[u32]) -> Result<List<Name>, NoMemory>
    ensures { IfOk result (λ labels. labels ≡ labels_among props.now members.now) }
{
    let mut labels = List::new(alloc);
    for number in members {
        append_names(alloc, &mut labels, labels_at(props, *number))?;
    }
    Ok(labels)
}

/// Returns the labels of the test with this number; none where it is absent or disabled.
fn labels_at(props: &[Props], number: u32) -> &[Name]
    ensures { result.now ≡ labels_there (stands_at props.now number) }
{
    match at_number(props, number) {
        Some(own) if !own.disabled => own.labels.as_slice(),
        _ => &[],
    }
}

fn append_names(alloc: Global, names: &mut List<Name>, more: &[Name]) -> Result<(), NoMemory>
    ensures { OnOk result (names.new ≡ names.old ++ more.now) }
{
    for name in more {
        names.push(name.copy(alloc)?)?;
    }
    Ok(())
}

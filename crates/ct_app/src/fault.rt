ghost use Rattle.std.specs.Prelude.{◌≡◌, ◌∷◌, ◌++◌, [], codes, decimal, IfOk, OnOk};
ghost use Rattle.ct_app.specs.Ends.{ReportsFault, ReportsEnd};
ghost use Rattle.ct_app.specs.Outcome.{arrows_to, cycle_text, fault_line, fault_status, kind_text, outcome_text, prop_text, refusal_text, spec_fault_text, spec_text, usage_text};
ghost use Rattle.ct_report.specs.PutLines.{PutsLines};

use crate::{Outcome, Refusal, SpecFault, SpecRefusal, UsageKind};
use ct_base::{Blob, Name, NoMemory, Sink, SinkFault};
use ct_props::PropKind;
use ct_testfile::ReadKind;
use std::alloc::Global;

/// Puts the line of the outcome where the call did not complete a run, and returns the outcome and
/// the status of the call: that of the run, or else 1 for refused words, 2 for a refusal, 3 for a
/// fault of the files, 4 for a fault of the sink and 5 for want of memory.
///
/// `names` are the names of the tests of a cycle.
///
/// Source: this project's choice.
pub fn report_end<S: Sink>(
    alloc: Global,
    sink: &mut S,
    names: &[Name],
    ended: Result<u8, Outcome>,
) -> (Outcome, u8)
    ensures { ReportsEnd names.now ended result.0 result.1 (S.tells sink.old) (S.tells sink.new) }
{
    match ended {
        Ok(status) => (Outcome::Completed, status),
        Err(outcome) => report_outcome(alloc, sink, names, outcome),
    }
}

/// Puts the line of an outcome but Completed, and returns the outcome and the status of the call.
///
/// Where the sink has failed, or a list was put, nothing is put. Where memory runs out for the
/// line, the outcome is Memory. `names` are the names of the tests of a cycle.
///
/// Source: this project's choice.
pub fn report_outcome<S: Sink>(
    alloc: Global,
    sink: &mut S,
    names: &[Name],
    outcome: Outcome,
) -> (Outcome, u8)
    ensures reported { ReportsFault names.now outcome result.0 (S.tells sink.old) (S.tells sink.new) }
    ensures status { result.1 ≡ fault_status result.0 }
{
    let reported = report_fault(alloc, sink, names, outcome);
    let status = status(&reported);
    (reported, status)
}

/// Puts the line of an outcome but Completed, and returns the outcome, or Memory where memory ran
/// out for the line.
fn report_fault<S: Sink>(alloc: Global, sink: &mut S, names: &[Name], outcome: Outcome) -> Outcome
    ensures { ReportsFault names.now outcome result (S.tells sink.old) (S.tells sink.new) }
{
    match outcome {
        Outcome::OutputFault => return Outcome::OutputFault,
        Outcome::Listed => return Outcome::Listed,
        _ => {}
    }
    match put_fault(alloc, sink, names, &outcome) {
        Ok(()) => outcome,
        Err(SinkFault::Failed) => outcome,
        Err(SinkFault::NoMemory) => Outcome::Memory,
    }
}

/// Returns the exit status of an outcome but Completed.
fn status(outcome: &Outcome) -> u8
    ensures { result ≡ fault_status outcome.now }
{
    match outcome {
        Outcome::Completed | Outcome::Listed => 0,
        Outcome::Usage { .. } => 1,
        Outcome::Refused(_) => 2,
        Outcome::FilesFault { .. } => 3,
        Outcome::OutputFault => 4,
        Outcome::Memory => 5,
    }
}

/// Puts the line of an outcome in one put. That of want of memory takes no memory.
fn put_fault<S: Sink>(
    alloc: Global,
    sink: &mut S,
    names: &[Name],
    outcome: &Outcome,
) -> Result<(), SinkFault>
    ensures { PutsLines (fault_line names.now outcome.now ∷ []) (S.tells sink.old) (S.tells sink.new) result }
{
    if let Outcome::Memory = outcome {
        sink.put(b"ctest: out of memory\n")?;
        return Ok(());
    }
    let line = fault_line(alloc, names, outcome)?;
    sink.put(line.bytes())?;
    Ok(())
}

fn fault_line(alloc: Global, names: &[Name], outcome: &Outcome) -> Result<Blob, NoMemory>
    ensures { IfOk result (λ line. line ≡ fault_line names.now outcome.now) }
{
    let mut line = Blob::of(alloc, b"ctest: ")?;
    line.append(outcome_text(alloc, names, outcome)?.bytes())?;
    line.append(b"\n")?;
    Ok(line)
}

fn outcome_text(alloc: Global, names: &[Name], outcome: &Outcome) -> Result<Blob, NoMemory>
    ensures { IfOk result (λ text. text ≡ outcome_text names.now outcome.now) }
{
    match outcome {
        Outcome::Completed | Outcome::Listed | Outcome::OutputFault => Ok(Blob::new(alloc)),
        Outcome::Usage { word, kind } => text_of_usage(alloc, *word, *kind),
        Outcome::Refused(refusal) => text_of_refusal(alloc, names, refusal),
        Outcome::FilesFault { path } => text_of_files_fault(alloc, path),
        Outcome::Memory => Blob::of(alloc, b"out of memory"),
    }
}

fn text_of_usage(alloc: Global, word: u32, kind: UsageKind) -> Result<Blob, NoMemory>
    ensures { IfOk result (λ text. text ≡ codes "word " ++ decimal word ++ codes ": " ++ usage_text kind) }
{
    let mut text = Blob::of(alloc, b"word ")?;
    text.append_number(alloc, u128::from(word))?;
    text.append(b": ")?;
    text.append(text_of_word_fault(kind))?;
    Ok(text)
}

fn text_of_word_fault(kind: UsageKind) -> &'static [u8]
    ensures { result.now ≡ usage_text kind }
{
    match kind {
        UsageKind::UnknownOption => b"unknown option",
        UsageKind::NoValue => b"no value",
        UsageKind::BadNumber => b"bad number",
        UsageKind::BadPattern => b"bad pattern",
        UsageKind::Twice => b"given twice",
        UsageKind::BadMode => b"bad mode",
    }
}

fn text_of_refusal(alloc: Global, names: &[Name], refusal: &Refusal) -> Result<Blob, NoMemory>
    ensures { IfOk result (λ text. text ≡ refusal_text names.now refusal.now) }
{
    match refusal {
        Refusal::TestFile { file, line, kind } => text_of_place(alloc, file, *line, *kind),
        Refusal::Prop { test, key, kind } => text_of_prop(alloc, *test, key, kind),
        Refusal::Spec(why) => text_of_spec(alloc, why),
        Refusal::Cycle(_) => text_of_cycle(alloc, names),
        Refusal::TooManyEdges => Blob::of(alloc, b"too many dependencies"),
    }
}

fn text_of_spec(alloc: Global, why: &SpecRefusal) -> Result<Blob, NoMemory>
    ensures { IfOk result (λ text. text ≡ codes "resource specification: " ++ spec_text why.now) }
{
    let mut text = Blob::of(alloc, b"resource specification: ")?;
    match why {
        SpecRefusal::Absent => text.append(b"absent")?,
        SpecRefusal::TooLong => text.append(b"too long")?,
        SpecRefusal::Fault(fault) => append_spec_fault(&mut text, fault)?,
    }
    Ok(text)
}

fn append_spec_fault(text: &mut Blob, fault: &SpecFault) -> Result<(), NoMemory>
    ensures { OnOk result (text.new ≡ text.old ++ spec_fault_text fault.now) }
{
    match fault {
        SpecFault::NotJson => text.append(b"not JSON"),
        SpecFault::BadVersion => text.append(b"bad version"),
        SpecFault::BadLocal => text.append(b"bad local"),
        SpecFault::BadKind { kind } => append_both(text, b"bad type ", kind),
        SpecFault::BadId { kind, .. } => append_both(text, b"bad id in ", kind),
        SpecFault::TwiceId { kind, .. } => append_both(text, b"repeated id in ", kind),
        SpecFault::BadSlots { kind, .. } => append_both(text, b"bad slots in ", kind),
        SpecFault::TooMany => text.append(b"too many resources"),
        SpecFault::NoMemory => text.append(b"out of memory"),
    }
}

fn append_both(text: &mut Blob, cause: &[u8], kind: &Name) -> Result<(), NoMemory>
    ensures { OnOk result (text.new ≡ text.old ++ (cause.now ++ kind.now)) }
{
    text.append(cause)?;
    text.append(kind.bytes())
}

fn text_of_cycle(alloc: Global, names: &[Name]) -> Result<Blob, NoMemory>
    ensures { IfOk result (λ text. text ≡ cycle_text names.now) }
{
    let mut text = Blob::of(alloc, b"cycle: ")?;
    if let [first, others @ ..] = names {
        text.append(first.bytes())?;
        append_arrows(&mut text, others)?;
        text.append(b" -> ")?;
        text.append(first.bytes())?;
    }
    Ok(text)
}

fn append_arrows(text: &mut Blob, names: &[Name]) -> Result<(), NoMemory>
    ensures { OnOk result (text.new ≡ text.old ++ arrows_to names.now) }
{
    for name in names {
        text.append(b" -> ")?;
        text.append(name.bytes())?;
    }
    Ok(())
}

fn text_of_prop(alloc: Global, test: u32, key: &Name, kind: &PropKind) -> Result<Blob, NoMemory>
    ensures { IfOk result (λ text. text ≡ codes "test " ++ decimal test ++ codes ": " ++ key.now ++ codes ": " ++ prop_text kind.now) }
{
    let mut text = Blob::of(alloc, b"test ")?;
    text.append_number(alloc, u128::from(test))?;
    text.append(b": ")?;
    text.append(key.bytes())?;
    text.append(b": ")?;
    text.append(text_of_prop_kind(kind))?;
    Ok(text)
}

fn text_of_prop_kind(kind: &PropKind) -> &'static [u8]
    ensures { result.now ≡ prop_text kind.now }
{
    match kind {
        PropKind::BadNumber => b"bad number",
        PropKind::BadPattern(_) => b"bad pattern",
        PropKind::BadGroups(_) => b"bad resource groups",
    }
}

fn text_of_place(alloc: Global, file: &Name, line: u32, kind: ReadKind) -> Result<Blob, NoMemory>
    ensures { IfOk result (λ text. text ≡ file.now ++ codes ":" ++ decimal line ++ codes ": " ++ kind_text kind) }
{
    let mut text = Blob::of(alloc, file.bytes())?;
    text.append(b":")?;
    text.append_number(alloc, u128::from(line))?;
    text.append(b": ")?;
    text.append(text_of_kind(kind))?;
    Ok(text)
}

fn text_of_kind(kind: ReadKind) -> &'static [u8]
    ensures { result.now ≡ kind_text kind }
{
    match kind {
        ReadKind::OpenString => b"unclosed quoted argument",
        ReadKind::OpenBracket => b"unclosed bracket",
        ReadKind::OpenCall => b"unclosed command",
        ReadKind::BadEscape => b"bad escape",
        ReadKind::BadChar => b"unexpected byte",
        ReadKind::BadReference => b"bad variable reference",
        ReadKind::UnknownCommand => b"unknown command",
        ReadKind::BadCall => b"bad arguments",
        ReadKind::MissingInclude => b"included file is missing",
        ReadKind::UnpairedIf => b"unpaired if",
        ReadKind::BadCondition => b"bad condition",
        ReadKind::BadPattern => b"bad pattern",
        ReadKind::TooDeep => b"files nest too deep",
        ReadKind::TooManyTests => b"too many tests",
        ReadKind::TooManyCommands => b"too many commands",
        ReadKind::TooLong => b"too much text",
    }
}

fn text_of_files_fault(alloc: Global, path: &Name) -> Result<Blob, NoMemory>
    ensures { IfOk result (λ text. text ≡ codes "cannot use file " ++ path.now) }
{
    let mut text = Blob::of(alloc, b"cannot use file ")?;
    text.append(path.bytes())?;
    Ok(text)
}

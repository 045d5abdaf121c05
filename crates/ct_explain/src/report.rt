ghost use Rattle.std.specs.Prelude.{◌≡◌, ◌++◌, ◌∷◌, [], codes, slice_get, IfOk, OnOk};
ghost use Rattle.std.specs.Option.{option_copied};
ghost use Rattle.ct_report.specs.PutLines.{PutsLines};
ghost use Rattle.ct_explain.specs.Texts.{micros_text};
ghost use Rattle.ct_explain.specs.Report.{amount_lines, attempt_line, attempt_lines, attempt_mark, link_text, explained_lines, bound_front, bound_line, bound_lines, bound_title_lines, chain_lines, head_lines, heading_lines, is_listed, micros_ended, programs_micros, explanation_lines, seconds_line, span_text, time_lines, title_lines, waited_lines, waited_text, work_line, work_lines, works_lines};

use crate::story::Story;
use crate::texts::{
    append_capacity, append_numbered_name, append_seconds, append_test, append_wait,
};
use crate::wait::Wait;
use ct_base::{Blob, NoMemory, Sink, SinkFault};
use ct_history::{Entry, Plan, PlanTest};
use ct_report::header;
use ct_times::{Bound, Capacity, Link, counts_for, work_at};
use std::alloc::Global;

/// Puts the report of what a story tells, each line in a put of its own.
///
/// Source: this project's choice.
pub(crate) fn put_report<S: Sink>(
    alloc: Global,
    sink: &mut S,
    plan: &Plan,
    story: &Story,
) -> Result<(), SinkFault>
    ensures { PutsLines (explanation_lines plan.now story.now) (S.tells sink.old) (S.tells sink.new) result }
{
    put_head(alloc, sink, plan, story)?;
    put_body(alloc, sink, plan, story)
}

/// Puts the folder, how long all programs took together, and the length.
fn put_head<S: Sink>(
    alloc: Global,
    sink: &mut S,
    plan: &Plan,
    story: &Story,
) -> Result<(), SinkFault>
    ensures { PutsLines (head_lines plan.now story.now) (S.tells sink.old) (S.tells sink.new) result }
{
    put_title(alloc, sink, plan)?;
    put_times(alloc, sink, story)
}

/// Puts the line of the folder and a blank line.
fn put_title<S: Sink>(alloc: Global, sink: &mut S, plan: &Plan) -> Result<(), SinkFault>
    ensures { PutsLines (title_lines plan.now) (S.tells sink.old) (S.tells sink.new) result }
{
    header(alloc, sink, plan)?;
    put_line(sink, b"\n")
}

fn put_times<S: Sink>(alloc: Global, sink: &mut S, story: &Story) -> Result<(), SinkFault>
    ensures { PutsLines (time_lines story.now) (S.tells sink.old) (S.tells sink.new) result }
{
    put_programs(alloc, sink, story)?;
    put_seconds(alloc, sink, b"Length: at least ", story.length)
}

fn put_programs<S: Sink>(alloc: Global, sink: &mut S, story: &Story) -> Result<(), SinkFault>
    ensures { PutsLines (seconds_line (codes "Time of programs: ")
        (programs_micros story.now.entries) ∷ []) (S.tells sink.old) (S.tells sink.new) result }
{
    let micros = programs_micros(story.entries.as_slice());
    put_seconds(alloc, sink, b"Time of programs: ", micros)
}

fn put_line<S: Sink>(sink: &mut S, line: &[u8]) -> Result<(), SinkFault>
    ensures { PutsLines (line.now ∷ []) (S.tells sink.old) (S.tells sink.new) result }
{
    sink.put(line)?;
    Ok(())
}

/// Adds up how long the attempts of a history took that ended in it.
pub(crate) fn programs_micros(entries: &[Entry]) -> u128
    ensures { result ≡ programs_micros entries.now }
{
    let mut micros: u128 = 0;
    for entry in entries {
        micros += u128::from(micros_ended(entry));
    }
    micros
}

fn micros_ended(entry: &Entry) -> u64
    ensures { result ≡ micros_ended entry.now }
{
    match entry {
        Entry::End { seen, .. } => seen.micros,
        Entry::Start { .. } | Entry::Settle { .. } | Entry::Stop => 0,
    }
}

fn put_seconds<S: Sink>(
    alloc: Global,
    sink: &mut S,
    front: &[u8],
    micros: u128,
) -> Result<(), SinkFault>
    ensures { PutsLines (seconds_line front.now micros ∷ []) (S.tells sink.old) (S.tells sink.new) result }
{
    let line = seconds_line(alloc, front, micros)?;
    sink.put(line.bytes())?;
    Ok(())
}

/// Writes the line of a time.
pub(crate) fn seconds_line(alloc: Global, front: &[u8], micros: u128) -> Result<Blob, NoMemory>
    ensures { IfOk result (λ line. line ≡ seconds_line front.now micros) }
{
    let mut line = Blob::of(alloc, front)?;
    append_seconds(alloc, &mut line, micros)?;
    line.append(b" sec\n")?;
    Ok(line)
}

/// Puts the chain and the bound, or nothing where the length is 0.
#[tactic(auto, using(ct_report::proofs::PutLemmas::lines_nothing))]
fn put_body<S: Sink>(
    alloc: Global,
    sink: &mut S,
    plan: &Plan,
    story: &Story,
) -> Result<(), SinkFault>
    ensures { PutsLines (explained_lines plan.now story.now) (S.tells sink.old) (S.tells sink.new) result }
{
    if story.length == 0 {
        return Ok(());
    }
    put_explained(alloc, sink, plan, story)
}

fn put_explained<S: Sink>(
    alloc: Global,
    sink: &mut S,
    plan: &Plan,
    story: &Story,
) -> Result<(), SinkFault>
    ensures { PutsLines (chain_lines plan.now story.now ++ bound_lines plan.now story.now)
        (S.tells sink.old) (S.tells sink.new) result }
{
    put_chain(alloc, sink, plan, story)?;
    put_bound(alloc, sink, plan, story)
}

/// Puts the attempts that the length is made of.
fn put_chain<S: Sink>(
    alloc: Global,
    sink: &mut S,
    plan: &Plan,
    story: &Story,
) -> Result<(), SinkFault>
    ensures { PutsLines (chain_lines plan.now story.now) (S.tells sink.old) (S.tells sink.new) result }
{
    put_heading(sink)?;
    put_attempts(alloc, sink, plan, story)
}

fn put_heading<S: Sink>(sink: &mut S) -> Result<(), SinkFault>
    ensures { PutsLines heading_lines (S.tells sink.old) (S.tells sink.new) result }
{
    put_line(sink, b"\n")?;
    put_line(sink, b"The length is made of:\n")
}

fn put_attempts<S: Sink>(
    alloc: Global,
    sink: &mut S,
    plan: &Plan,
    story: &Story,
) -> Result<(), SinkFault>
    ensures { PutsLines (attempt_lines plan.now story.now.chain story.now.waits)
        (S.tells sink.old) (S.tells sink.new) result }
{
    put_all(
        alloc,
        sink,
        plan,
        story.chain.as_slice(),
        story.waits.as_slice(),
    )
}

/// Puts the line of each of these attempts; the first of them waited for nothing.
#[tactic(auto, using(ct_report::proofs::PutLemmas::lines_nothing))]
fn put_all<S: Sink>(
    alloc: Global,
    sink: &mut S,
    plan: &Plan,
    links: &[Link],
    waits: &[Wait],
) -> Result<(), SinkFault>
    ensures { PutsLines (attempt_lines plan.now links.now waits.now)
        (S.tells sink.old) (S.tells sink.new) result }
{
    match links {
        [first, others @ ..] => put_from(alloc, sink, plan, first, others, waits),
        [] => Ok(()),
    }
}

fn put_from<S: Sink>(
    alloc: Global,
    sink: &mut S,
    plan: &Plan,
    first: &Link,
    others: &[Link],
    waits: &[Wait],
) -> Result<(), SinkFault>
    ensures { PutsLines (attempt_lines plan.now (first.now ∷ others.now) waits.now)
        (S.tells sink.old) (S.tells sink.new) result }
{
    put_attempt(alloc, sink, plan, first, None)?;
    put_waited(alloc, sink, plan, others, waits)
}

/// Puts the line of each of these attempts, with what it waited for.
fn put_waited<S: Sink>(
    alloc: Global,
    sink: &mut S,
    plan: &Plan,
    links: &[Link],
    waits: &[Wait],
) -> Result<(), SinkFault>
    ensures { PutsLines (waited_lines plan.now waits.now 0 links.now)
        (S.tells sink.old) (S.tells sink.new) result }
{
    for at in 0..links.len() {
        put_attempt(alloc, sink, plan, &links[at], wait_at(waits, at))?;
    }
    Ok(())
}

fn wait_at(waits: &[Wait], at: usize) -> Option<&Wait>
    ensures { option_copied result ≡ slice_get waits.now at }
{
    waits.get(at)
}

fn put_attempt<S: Sink>(
    alloc: Global,
    sink: &mut S,
    plan: &Plan,
    link: &Link,
    wait: Option<&Wait>,
) -> Result<(), SinkFault>
    ensures { PutsLines (attempt_line plan.now link.now (option_copied wait.entry) ∷ [])
        (S.tells sink.old) (S.tells sink.new) result }
{
    let line = attempt_line(alloc, plan, link, wait)?;
    sink.put(line.bytes())?;
    Ok(())
}

fn attempt_line(
    alloc: Global,
    plan: &Plan,
    link: &Link,
    wait: Option<&Wait>,
) -> Result<Blob, NoMemory>
    ensures { IfOk result (λ line. line ≡ attempt_line plan.now link.now (option_copied wait.entry)) }
{
    let mut line = Blob::new(alloc);
    append_attempt(alloc, &mut line, plan, link, wait)?;
    line.append(b"\n")?;
    Ok(line)
}

/// Puts an attempt behind the text: when it started at the earliest, how long it took, its test, and what it
/// waited for where that is given.
///
/// Source: this project's choice.
pub(crate) fn append_attempt(
    alloc: Global,
    text: &mut Blob,
    plan: &Plan,
    link: &Link,
    wait: Option<&Wait>,
) -> Result<(), NoMemory>
    ensures { OnOk result (text.new ≡ text.old ++ link_text plan.now link.now (option_copied wait.entry)) }
{
    append_span(alloc, text, link)?;
    append_test(alloc, text, plan, link.test)?;
    append_mark(alloc, text, link.attempt)?;
    append_waited(alloc, text, plan, wait)?;
    Ok(())
}

/// Puts when an attempt started at the earliest and how long it took behind the text.
fn append_span(alloc: Global, text: &mut Blob, link: &Link) -> Result<(), NoMemory>
    ensures { OnOk result (text.new ≡ text.old ++ span_text link.now) }
{
    append_seconds_and(alloc, text, b"  ", link.start)?;
    append_seconds_and(alloc, text, b" + ", u128::from(link.micros))?;
    text.append(b" sec  ")?;
    Ok(())
}

/// Puts these bytes and then a time behind the text.
fn append_seconds_and(
    alloc: Global,
    text: &mut Blob,
    front: &[u8],
    micros: u128,
) -> Result<(), NoMemory>
    ensures { OnOk result (text.new ≡ text.old ++ (front.now ++ micros_text micros)) }
{
    text.append(front)?;
    append_seconds(alloc, text, micros)?;
    Ok(())
}

/// Puts the number of an attempt behind the text, from the second on.
fn append_mark(alloc: Global, text: &mut Blob, attempt: u32) -> Result<(), NoMemory>
    ensures { OnOk result (text.new ≡ text.old ++ attempt_mark attempt) }
{
    if attempt > 1 {
        text.append(b" (attempt ")?;
        text.append_number(alloc, u128::from(attempt))?;
        text.append(b")")?;
    }
    Ok(())
}

fn append_waited(
    alloc: Global,
    text: &mut Blob,
    plan: &Plan,
    wait: Option<&Wait>,
) -> Result<(), NoMemory>
    ensures { OnOk result (text.new ≡ text.old ++ waited_text plan.now (option_copied wait.entry)) }
{
    if let Some(wait) = wait {
        text.append(b", waited for ")?;
        append_wait(alloc, text, plan, wait)?;
    }
    Ok(())
}

/// Puts the bound of other orders, and the tests whose work it is made of.
fn put_bound<S: Sink>(
    alloc: Global,
    sink: &mut S,
    plan: &Plan,
    story: &Story,
) -> Result<(), SinkFault>
    ensures { PutsLines (bound_lines plan.now story.now) (S.tells sink.old) (S.tells sink.new) result }
{
    put_bound_title(alloc, sink, story)?;
    put_amounts(alloc, sink, plan, story)
}

/// Puts a blank line and the line of the bound.
fn put_bound_title<S: Sink>(alloc: Global, sink: &mut S, story: &Story) -> Result<(), SinkFault>
    ensures { PutsLines (bound_title_lines story.now) (S.tells sink.old) (S.tells sink.new) result }
{
    put_line(sink, b"\n")?;
    put_bound_line(alloc, sink, story)
}

fn put_bound_line<S: Sink>(alloc: Global, sink: &mut S, story: &Story) -> Result<(), SinkFault>
    ensures { PutsLines (bound_line story.now.bound story.now.length ∷ [])
        (S.tells sink.old) (S.tells sink.new) result }
{
    let line = bound_line(alloc, &story.bound, story.length)?;
    sink.put(line.bytes())?;
    Ok(())
}

fn bound_line(alloc: Global, bound: &Bound, length: u128) -> Result<Blob, NoMemory>
    ensures { IfOk result (λ line. line ≡ bound_line bound.now length) }
{
    let mut line = Blob::of(alloc, b"No order of these programs ")?;
    append_bound(alloc, &mut line, bound.micros, length)?;
    append_capacity(alloc, &mut line, bound)?;
    line.append(b"\n")?;
    Ok(line)
}

fn append_bound(alloc: Global, text: &mut Blob, micros: u128, length: u128) -> Result<(), NoMemory>
    ensures { OnOk result (text.new ≡ text.old ++ bound_front micros length) }
{
    if micros == length {
        text.append(b"is shorter: ")?;
    } else {
        append_less(alloc, text, micros)?;
    }
    Ok(())
}

fn append_less(alloc: Global, text: &mut Blob, micros: u128) -> Result<(), NoMemory>
    ensures { OnOk result
        (text.new ≡ text.old ++ (codes "takes less than " ++ micros_text micros ++ codes " sec: ")) }
{
    text.append(b"takes less than ")?;
    append_seconds(alloc, text, micros)?;
    text.append(b" sec: ")?;
    Ok(())
}

/// Puts the line of each test that takes something of the capacity, where tests are listed for it.
#[tactic(auto, using(ct_report::proofs::PutLemmas::lines_nothing))]
fn put_amounts<S: Sink>(
    alloc: Global,
    sink: &mut S,
    plan: &Plan,
    story: &Story,
) -> Result<(), SinkFault>
    ensures { PutsLines (amount_lines plan.now story.now) (S.tells sink.old) (S.tells sink.new) result }
{
    if is_listed(&story.bound.capacity) {
        put_works(alloc, sink, plan, story)
    } else {
        Ok(())
    }
}

fn is_listed(capacity: &Capacity) -> bool
    ensures { result ≡ is_listed capacity.now }
{
    match capacity {
        Capacity::Path(_) | Capacity::Wide | Capacity::Lock { .. } => true,
        Capacity::Processors | Capacity::Slots { .. } => false,
    }
}

fn put_works<S: Sink>(
    alloc: Global,
    sink: &mut S,
    plan: &Plan,
    story: &Story,
) -> Result<(), SinkFault>
    ensures { PutsLines (works_lines plan.now story.now plan.now.tests)
        (S.tells sink.old) (S.tells sink.new) result }
{
    put_each(alloc, sink, plan, story, plan.parts().tests.as_slice())
}

fn put_each<S: Sink>(
    alloc: Global,
    sink: &mut S,
    plan: &Plan,
    story: &Story,
    tests: &[PlanTest],
) -> Result<(), SinkFault>
    ensures { PutsLines (works_lines plan.now story.now tests.now)
        (S.tells sink.old) (S.tells sink.new) result }
{
    for test in tests {
        put_work(alloc, sink, plan, story, test)?;
    }
    Ok(())
}

/// Puts the line of a test where it takes something of the capacity.
#[tactic(auto, using(ct_report::proofs::PutLemmas::lines_nothing))]
fn put_work<S: Sink>(
    alloc: Global,
    sink: &mut S,
    plan: &Plan,
    story: &Story,
    test: &PlanTest,
) -> Result<(), SinkFault>
    ensures { PutsLines (work_lines plan.now story.now test.now)
        (S.tells sink.old) (S.tells sink.new) result }
{
    if counts_for(plan.parts(), &story.works, &story.bound, test) {
        put_work_line(alloc, sink, test, work_at(&story.works, test.number))
    } else {
        Ok(())
    }
}

fn put_work_line<S: Sink>(
    alloc: Global,
    sink: &mut S,
    test: &PlanTest,
    work: u128,
) -> Result<(), SinkFault>
    ensures { PutsLines (work_line work test.now ∷ []) (S.tells sink.old) (S.tells sink.new) result }
{
    let line = work_line(alloc, test, work)?;
    sink.put(line.bytes())?;
    Ok(())
}

fn work_line(alloc: Global, test: &PlanTest, work: u128) -> Result<Blob, NoMemory>
    ensures { IfOk result (λ line. line ≡ work_line work test.now) }
{
    let mut line = Blob::of(alloc, b"  ")?;
    append_seconds(alloc, &mut line, work)?;
    line.append(b" sec  ")?;
    append_numbered_name(alloc, &mut line, test.number, &test.name)?;
    line.append(b"\n")?;
    Ok(line)
}

ghost use Rattle.std.specs.Prelude.{◌≡◌, ◌≤◌, ◌<◌, ◌++◌, ◌==◌, slice_get, ℕ, nat_eq, length, IfOk, OnOk, Some, if◌then◌else◌};
ghost use Rattle.std.specs.List.Sorted.{IsNonDecreasing};
ghost use Rattle.std.specs.Option.{option_copied};
ghost use Rattle.indexmap.specs.IndexMap.{get};
ghost use Rattle.ct_explain.specs.Picture as Drawn;

use crate::bars::Bar;
use crate::escaped::append_escaped;
use crate::report::append_attempt;
use crate::scale::{append_thousandths, scaled};
use crate::story::Story;
use crate::wait::Wait;
use ct_alloc::{Pick, Placement};
use ct_base::{Blob, Name, NoMemory};
use ct_history::{Entry, Plan, PlanTest, planned_test};
use ct_times::Link;
use ct_verdict::{Verdict, one};
use indexmap::IndexMap;
use std::alloc::Global;

/// How high a row is, with the gap behind it.
pub(crate) const ROW: u128 = 28;

/// The place in the chain of each of its attempts, by the place of its End among the entries.
pub(crate) type Chained = IndexMap<usize, usize>;

/// Notes the places of the attempts of a chain.
pub(crate) fn chained_of(alloc: Global, links: &[Link]) -> Result<Chained, NoMemory>
    ensures { IfOk result (λ chained. Drawn.AreChained links.now chained) }
{
    let mut chained: Chained = IndexMap::new(alloc);
    for at in 0..links.len() {
        note_end(&mut chained, link_at(links, at).end, at)?;
    }
    Ok(chained)
}

/// Lends the link at a place.
fn link_at(links: &[Link], at: usize) -> &Link
    requires { at < length links.now }
    ensures { slice_get links.now at ≡ Some result.now }
{
    match links.get(at) {
        Some(link) => link,
        None => unreachable!(),
    }
}

/// Notes the place in the chain of the attempt whose End stands at this place.
fn note_end(chained: &mut Chained, end: usize, place: usize) -> Result<(), NoMemory>
    ensures { OnOk result ((other : ℕ) →
        get nat_eq chained.new other ≡ (if end == other then Some place else get nat_eq chained.old other)) }
{
    chained.insert(end, place)?;
    Ok(())
}

/// Writes the line of an attempt: a bar in the row of its worker, from its least start on, as long as it
/// took.
pub(crate) fn bar_line(
    alloc: Global,
    plan: &Plan,
    story: &Story,
    workers: &[u32],
    chained: &Chained,
    bar: &Bar,
) -> Result<Blob, NoMemory>
    requires chained { Drawn.AreChained story.now.chain chained.now }
    requires ascend { IsNonDecreasing workers.now }
    ensures { IfOk result (λ line. line ≡ Drawn.bar_line plan.now story.now workers.now bar.now) }
{
    let place = chained_at(chained, bar.link.end);
    let wait = wait_at(story.waits.as_slice(), place);
    let mut text = Blob::of(alloc, b"<path class='")?;
    text.append(class_of(verdict_behind(plan, bar)))?;
    text.append(chain_mark(place))?;
    append_box(
        alloc,
        &mut text,
        worker_place(workers, bar.worker),
        &bar.link,
        story.length,
    )?;
    text.append(b"'><title>")?;
    append_title(alloc, &mut text, plan, &bar.link, wait)?;
    append_held(&mut text, planned_test(plan, bar.link.test))?;
    append_picks(
        alloc,
        &mut text,
        placement_at(story.entries.as_slice(), bar.link.begin),
    )?;
    text.append(b"</title></path>\n")?;
    Ok(text)
}

/// Returns the place in the chain of the attempt whose End stands at this place.
fn chained_at(chained: &Chained, end: usize) -> Option<usize>
    ensures { result ≡ get nat_eq chained.now end }
{
    chained.get(&end).copied()
}

/// Returns the end of a class, which says whether the attempt is of the chain.
fn chain_mark(place: Option<usize>) -> &'static [u8]
    ensures { result.now ≡ Drawn.chain_mark place }
{
    match place {
        Some(_) => b" chain' d='",
        None => b"' d='",
    }
}

/// Returns in which row a worker stands, from 0: how many of the workers have a lesser number.
pub(crate) fn worker_place(workers: &[u32], worker: u32) -> usize
    requires { IsNonDecreasing workers.now }
    ensures is { result ≡ Drawn.worker_place workers.now worker }
    ensures within { result ≤ length workers.now }
{
    workers.partition_point(|other| *other < worker)
}

/// Returns what the attempt at this place of the chain waited for; the first waited for nothing.
fn wait_at(waits: &[Wait], place: Option<usize>) -> Option<&Wait>
    ensures { option_copied result ≡ Drawn.wait_at waits.now place }
{
    match place {
        Some(place) if place > 0 => waits.get(place - 1),
        _ => None,
    }
}

/// Returns the verdict of an attempt, where its test is in the plan.
fn verdict_behind(plan: &Plan, bar: &Bar) -> Option<Verdict>
    ensures { result ≡ Drawn.verdict_behind plan.now.tests bar.now }
{
    match planned_test(plan, bar.link.test) {
        Some(test) => Some(one(&test.rules, &bar.seen)),
        None => None,
    }
}

/// Returns the class of what an attempt came to.
fn class_of(verdict: Option<Verdict>) -> &'static [u8]
    ensures { result.now ≡ Drawn.class_of verdict }
{
    match verdict {
        None | Some(Verdict::NotRun(_)) => b"unstarted",
        Some(Verdict::Failed | Verdict::Timeout | Verdict::Exception) => b"failing",
        Some(Verdict::Passed | Verdict::Skipped | Verdict::Disabled) => b"passed",
    }
}

/// Puts the outline of a bar behind the text.
fn append_box(
    alloc: Global,
    text: &mut Blob,
    row: usize,
    link: &Link,
    length: u128,
) -> Result<(), NoMemory>
    ensures { OnOk result (text.new ≡ text.old ++ Drawn.box row link.now length) }
{
    let width = scaled(u128::from(link.micros), length);
    text.append(b"M")?;
    append_thousandths(alloc, text, scaled(link.start, length))?;
    text.append(b" ")?;
    text.append_number(alloc, ROW * row as u128 + 1)?;
    text.append(b"h")?;
    append_thousandths(alloc, text, width)?;
    text.append(b"v20h-")?;
    append_thousandths(alloc, text, width)?;
    text.append(b"z")?;
    Ok(())
}

/// Puts the line of the report of an attempt behind the text, without the two spaces in front of it.
fn append_title(
    alloc: Global,
    text: &mut Blob,
    plan: &Plan,
    link: &Link,
    wait: Option<&Wait>,
) -> Result<(), NoMemory>
    ensures { OnOk result (text.new ≡ text.old ++ Drawn.title plan.now link.now (option_copied wait.entry)) }
{
    let mut line = Blob::new(alloc);
    append_attempt(alloc, &mut line, plan, link, wait)?;
    append_escaped(text, behind_two(line.bytes()))?;
    Ok(())
}

fn behind_two(bytes: &[u8]) -> &[u8]
    ensures { result.now ≡ Drawn.behind_two bytes.now }
{
    match bytes {
        [_, _, ..] => &bytes[2..],
        _ => bytes,
    }
}

/// Puts the locks of a test behind the text.
fn append_held(text: &mut Blob, test: Option<&PlanTest>) -> Result<(), NoMemory>
    ensures { OnOk result (text.new ≡ text.old ++ Drawn.held (option_copied test.entry)) }
{
    if let Some(test) = test {
        append_names(text, b"&#10;lock ", test.locks.as_slice())?;
        append_names(text, b"&#10;shared lock ", test.shared.as_slice())?;
    }
    Ok(())
}

fn append_names(text: &mut Blob, front: &[u8], names: &[Name]) -> Result<(), NoMemory>
    ensures { OnOk result (text.new ≡ text.old ++ Drawn.names_text front.now names.now) }
{
    for name in names {
        text.append(front)?;
        append_escaped(text, name.bytes())?;
    }
    Ok(())
}

/// Returns the placement of the Start at a place.
fn placement_at(entries: &[Entry], place: usize) -> Option<&Placement>
    ensures { option_copied result ≡ Drawn.placement_at entries.now place }
{
    match entries.get(place) {
        Some(Entry::Start { placement, .. }) => placement.as_ref(),
        _ => None,
    }
}

/// Puts the resources of a placement behind the text.
fn append_picks(
    alloc: Global,
    text: &mut Blob,
    placement: Option<&Placement>,
) -> Result<(), NoMemory>
    ensures { OnOk result (text.new ≡ text.old ++ Drawn.picks_text (option_copied placement.entry)) }
{
    if let Some(placement) = placement {
        append_each(alloc, text, placement.picks.as_slice())?;
    }
    Ok(())
}

fn append_each(alloc: Global, text: &mut Blob, picks: &[Pick]) -> Result<(), NoMemory>
    ensures { OnOk result (text.new ≡ text.old ++ Drawn.each_pick picks.now) }
{
    for pick in picks {
        append_pick(alloc, text, pick)?;
    }
    Ok(())
}

fn append_pick(alloc: Global, text: &mut Blob, pick: &Pick) -> Result<(), NoMemory>
    ensures { OnOk result (text.new ≡ text.old ++ Drawn.pick_text pick.now) }
{
    text.append(b"&#10;")?;
    text.append_number(alloc, u128::from(pick.slots))?;
    text.append(b" slots of ")?;
    append_escaped(text, pick.kind.bytes())?;
    text.append(b" ")?;
    append_escaped(text, pick.id.bytes())?;
    Ok(())
}

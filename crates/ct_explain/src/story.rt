ghost use Rattle.std.specs.Prelude.{◌≡◌, ◌≤◌, ◌-◌, true, All, AllPairs, IfOk, List, OnOk, Some, length, slice_get, take};
ghost use Rattle.std.specs.Option.{unwrap_or};
ghost use Rattle.ct_history.specs.declared.history.Entry.{Entry};
ghost use Rattle.ct_history.specs.Legal.{is_allowed_so_far, is_legal};
ghost use Rattle.ct_history.specs.Audited.{IsAuditOf};
ghost use Rattle.ct_times.specs.Links.{EndsBefore, IsPlaced};
ghost use Rattle.ct_explain.specs.Story as Stories;

use crate::entries::copy_entry;
use crate::wait::{Wait, wait_of};
use ct_base::{List, NoMemory};
use ct_history::{Audit, Entry, Plan, planned_test};
use ct_times::{Bound, Link, Works, bound_of, chain_of, least_times, works_of};
use std::alloc::Global;

/// What a recorded run explains. Its entries are those of a complete legal history.
#[derive(Drop)]
pub(crate) struct Story {
    pub(crate) entries: List<Entry>,
    /// The least times of the entries, in microseconds.
    pub(crate) times: List<u128>,
    /// The last of the times, 0 without entries.
    pub(crate) length: u128,
    /// How long the attempts of each test took together, in microseconds.
    pub(crate) works: Works,
    /// The attempts that make the run as long as it is, in order.
    pub(crate) chain: List<Link>,
    /// What each attempt of the chain but the first waited for, in order.
    pub(crate) waits: List<Wait>,
    /// What no order of the same programs takes less than.
    pub(crate) bound: Bound,
}

/// Makes the story of a complete legal history.
///
/// Source: this project's own.
pub(crate) fn story_of(alloc: Global, plan: &Plan, entries: List<Entry>) -> Result<Story, NoMemory>
    requires legal { is_legal plan.now entries ≡ true }
    ensures { IfOk result (λ story. Stories.IsStory plan.now entries story) }
{
    let times = least_times(alloc, entries.as_slice())?;
    let length = last_of(times.as_slice());
    let works = works_of(alloc, entries.as_slice())?;
    let chain = chain_of(alloc, entries.as_slice(), times.as_slice())?;
    let waits = waits_of(alloc, plan, entries.as_slice(), chain.as_slice())?;
    let bound = bound_of(alloc, plan, &works)?;
    Ok(Story {
        entries,
        times,
        length,
        works,
        chain,
        waits,
        bound,
    })
}

/// Returns the last of these times, 0 without one.
fn last_of(times: &[u128]) -> u128
    ensures { result ≡ unwrap_or (slice_get times.now (length times.now - 1)) 0 }
{
    times.last().copied().unwrap_or(0)
}

/// Returns what each of these attempts but the first waits for behind the entries in front of the End of the
/// attempt in front of it.
///
/// It goes over the entries once.
fn waits_of(
    alloc: Global,
    plan: &Plan,
    entries: &[Entry],
    chain: &[Link],
) -> Result<List<Wait>, NoMemory>
    requires legal { is_legal plan.now entries.now ≡ true }
    requires placed { All (IsPlaced entries.now) chain.now }
    requires ordered { AllPairs EndsBefore chain.now }
    ensures { IfOk result (λ waits. waits ≡ Stories.waits_of plan.now entries.now chain.now) }
{
    let mut audit = Audit::new(alloc, plan);
    let mut waits = List::new(alloc);
    let mut noted = 0;
    let pairs = chain.len().saturating_sub(1);
    for at in 0..pairs {
        let end = chain[at].end;
        note_until(alloc, plan, &mut audit, entries, noted, end)?;
        noted = end;
        let begin = chain[at + 1].begin;
        waits.push(wait_at(alloc, plan, &audit, &entries[begin])?)?;
    }
    Ok(waits)
}

/// Notes the entries from one place up to another one, in order.
fn note_until(
    alloc: Global,
    plan: &Plan,
    audit: &mut Audit,
    entries: &[Entry],
    from: usize,
    end: usize,
) -> Result<(), NoMemory>
    requires legal { is_legal plan.now entries.now ≡ true }
    requires order { from ≤ end }
    requires inside { end ≤ length entries.now }
    requires told { IsAuditOf plan.now (take from entries.now) audit.old }
    ensures { OnOk result (IsAuditOf plan.now (take end entries.now) audit.new) }
{
    for place in from..end {
        let entry = copy_entry(alloc, &entries[place])?;
        audit.note(plan, entry)?;
    }
    Ok(())
}

/// Returns what a Start waits for behind the entries that the audit has noted. Any other entry waits for
/// nothing.
fn wait_at(alloc: Global, plan: &Plan, audit: &Audit, entry: &Entry) -> Result<Wait, NoMemory>
    ensures { (front : List Entry) → IsAuditOf plan.now front audit.now →
        is_allowed_so_far plan.now front ≡ true →
        IfOk result (λ wait. wait ≡ Stories.entry_wait plan.now front (Some entry.now)) }
{
    match entry {
        Entry::Start {
            test,
            attempt,
            worker,
            placement,
        } => match planned_test(plan, *test) {
            Some(test) => wait_of(
                alloc,
                plan,
                audit,
                test,
                *attempt,
                *worker,
                placement.as_ref(),
            ),
            None => Ok(Wait::Nothing),
        },
        Entry::End { .. } | Entry::Settle { .. } | Entry::Stop => Ok(Wait::Nothing),
    }
}

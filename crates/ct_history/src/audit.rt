ghost use Rattle.std.specs.Prelude.{◌≡◌, [], ◌∷◌, ◌++◌, List, OnOk, true, not, ◌&&◌};
ghost use Rattle.ct_history.specs.declared.history.Entry.{Entry};
ghost use Rattle.ct_history.specs.Legal.{is_allowed};
ghost use Rattle.ct_history.specs.Plan.{IsSound};
ghost use Rattle.ct_history.specs.Seen.{test_of_entry};
ghost use Rattle.ct_history.specs.Course as Fared;
ghost use Rattle.ct_history.specs.Course.{runs};
ghost use Rattle.ct_history.specs.Audited.{HasShortAttempt, Marks, IsAuditOf, are_all_final_by, is_any_open, is_at_end, is_idle_by, with_failure};

use crate::course::{Courses, note_course};
use crate::history::is_stop;
use crate::open_start::{OpenStart, close};
use crate::{Entry, Plan, PlanParts};
use ct_base::NoMemory;
use indexmap::IndexMap;
use std::alloc::Global;

/// A check of a history that takes its entries one by one, and keeps no entry.
///
/// It keeps the open starts, and of each test its cause, how many of its attempts have ended and
/// what was seen of the last one. So an entry costs the same wherever it stands.
///
/// Source: this project's choice.
#[derive(Drop)]
pub struct Audit {
    pub(crate) running: Vec<OpenStart>,
    pub(crate) courses: Courses,
    /// Whether a Stop was noted.
    pub(crate) stopped: bool,
    /// Whether a test of the plan has a verdict that makes the run fail.
    pub(crate) failing: bool,
    /// Whether the next entry has to be a Stop.
    pub(crate) due: bool,
}

impl Audit {
    /// Makes the audit of a history without entries.
    pub fn new(alloc: Global, plan: &Plan) -> Audit
        ensures { IsAuditOf plan.now [] result }
    {
        let _ = plan;
        Audit {
            running: Vec::new(alloc),
            courses: IndexMap::new(alloc),
            stopped: false,
            failing: false,
            due: false,
        }
    }

    /// Returns whether an entry is allowed behind the entries that were noted.
    pub fn allows(&self, plan: &Plan, entry: &Entry) -> bool
        ensures { (front : List Entry) → IsAuditOf plan.now front self.now → result ≡ is_allowed plan.now front entry.now }
    {
        self.allows_for(plan.parts(), entry)
    }

    /// Returns whether each test is final, nothing is open, and no Stop is due.
    pub fn is_at_end(&self, plan: &Plan) -> bool
        ensures { (front : List Entry) → IsAuditOf plan.now front self.now → result ≡ is_at_end plan.now front }
    {
        self.is_at_end_for(plan.parts())
    }

    /// Lends the starts that no End has closed, in the order of the entries that were noted.
    pub fn open_starts(&self) -> &[OpenStart]
        ensures { result.now ≡ self.now.running.items }
    {
        self.running.as_slice()
    }

    /// Returns whether the next entry has to be a Stop.
    pub fn is_stop_due(&self) -> bool
        ensures { result ≡ self.now.due }
    {
        self.due
    }

    /// Notes an entry that is allowed.
    pub fn note(&mut self, plan: &Plan, entry: Entry) -> Result<(), NoMemory>
        ensures { (front : List Entry) → IsAuditOf plan.now front self.old → is_allowed plan.now front entry ≡ true → OnOk result (IsAuditOf plan.now (front ++ entry ∷ []) self.new) }
    {
        self.note_for(plan.parts(), entry)?;
        Ok(())
    }

    fn allows_for(&self, plan: &PlanParts, entry: &Entry) -> bool
        requires { IsSound plan.now }
        ensures { (front : List Entry) → IsAuditOf plan.now front self.now → result ≡ is_allowed plan.now front entry.now }
    {
        let _times = plan.repeat.times;
        hand_out_attempt(entry);
        self.is_allowed(plan, entry)
    }

    fn is_at_end_for(&self, plan: &PlanParts) -> bool
        requires { IsSound plan.now }
        ensures { (front : List Entry) → IsAuditOf plan.now front self.now → result ≡ is_at_end plan.now front }
    {
        let _times = plan.repeat.times;
        self.has_ended(plan)
    }

    fn has_ended(&self, plan: &PlanParts) -> bool
        ensures { result ≡ (are_all_final_by plan.now self.now && is_idle_by self.now && not self.now.due) }
    {
        self.are_all_final(plan) && is_idle(&self.running) && !self.due
    }

    fn note_for(&mut self, plan: &PlanParts, entry: Entry) -> Result<(), NoMemory>
        requires { IsSound plan.now }
        ensures { (front : List Entry) → IsAuditOf plan.now front self.old → is_allowed plan.now front entry ≡ true → OnOk result (IsAuditOf plan.now (front ++ entry ∷ []) self.new) }
    {
        let _times = plan.repeat.times;
        let number = test_of(&entry);
        self.mark(entry)?;
        let failed = self.has_failed(plan, number);
        self.judge(plan.stop_on_failure, failed);
        Ok(())
    }

    /// Notes whether the test of the last entry has a verdict that makes the run fail.
    fn judge(&mut self, stops: bool, failed: bool)
        ensures { self.new ≡ with_failure stops failed self.old }
    {
        self.due = stops && failed && !self.failing;
        self.failing = self.failing || failed;
    }

    /// Notes an entry in the open starts, the courses and the Stop.
    fn mark(&mut self, entry: Entry) -> Result<(), NoMemory>
        ensures { OnOk result (Marks entry self.old self.new) }
    {
        note_course(&mut self.courses, &entry)?;
        self.stopped = self.stopped || is_stop(&entry);
        note_start(&mut self.running, entry)?;
        Ok(())
    }

    fn are_all_final(&self, plan: &PlanParts) -> bool
        ensures { result ≡ are_all_final_by plan.now self.now }
    {
        plan.tests
            .as_slice()
            .iter()
            .all(|test| self.verdict(plan, test).is_some())
    }
}

fn note_start(running: &mut Vec<OpenStart>, entry: Entry) -> Result<(), NoMemory>
    ensures { OnOk result (running.new.items ≡ Fared.open_starts_after running.old.items entry) }
{
    match entry {
        Entry::Start {
            test,
            attempt,
            worker,
            placement,
        } => running.push(OpenStart {
            test,
            attempt,
            worker,
            placement,
        })?,
        Entry::End { test, attempt, .. } => close(running, test, attempt),
        Entry::Settle { .. } | Entry::Stop => {}
    }
    Ok(())
}

fn is_idle(running: &[OpenStart]) -> bool
    ensures { result ≡ not (is_any_open (runs running.now)) }
{
    running.is_empty()
}

/// States in its contract that the number of an attempt has 32 bits; it changes nothing.
fn hand_out_attempt(entry: &Entry)
    ensures { HasShortAttempt entry.now }
{
    if let Entry::Start { attempt, .. } = entry {
        let _attempt = *attempt;
    }
}

fn test_of(entry: &Entry) -> Option<u32>
    ensures { result ≡ test_of_entry entry.now }
{
    match entry {
        Entry::Start { test, .. } | Entry::End { test, .. } | Entry::Settle { test, .. } => {
            Some(*test)
        }
        Entry::Stop => None,
    }
}

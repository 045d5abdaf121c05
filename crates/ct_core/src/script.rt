ghost use Rattle.std.specs.Prelude.{◌≡◌, [], true, find, ◌==◌, ◌&&◌, OnOk, OnErr};
ghost use Rattle.std.specs.Option.{option_copied};
ghost use Rattle.ct_core.specs.Gate.{HasStartCause, told};
ghost use Rattle.ct_core.specs.ScriptValue.{AreInOrder, IsPlaceInScript, is_before, told_of_script};

use crate::{Asked, Ended, Gate, Request, Ticket, Told, lacks_memory};
use ct_base::{Ear, List, Name, NoMemory, Pair};
use ct_turn::Pass;
use ct_verdict::How;
use std::alloc::Global;
use std::marker::Model;
use std::snapshot::Snapshot;

/// A gate that runs nothing and answers as its world tells.
///
/// If the world is in the order of test and attempt, the time to find an attempt
/// grows with the logarithm of the world's length, else with its length.
#[derive(Drop)]
pub struct ScriptGate {
    world: World,
    asked: List<Asked>,
    sent: List<Request>,
    /// The pass that was lent for each attempt, as it was then.
    lent: List<Snapshot<Pass>>,
    faults: u64,
}

impl Model for ScriptGate {
    ghost use Rattle.std.specs.Prelude.{map};
    ghost use Rattle.ct_core.specs.ScriptValue.{ScriptValue};

    ghost Value = { ScriptValue };

    ghost view = { λ g. record {
      world = g.world;
      asked = g.asked;
      sent = g.sent;
      lent = map (λ pass. pass.value) g.lent;
      faults = g.faults;
    } };
}

impl ScriptGate {
    ghost use Rattle.ct_core.specs.ScriptValue.{CountsStart, Records};

    /// Makes a gate with this world, which has run no attempt yet.
    pub fn new(alloc: Global, world: List<Told>) -> ScriptGate
        ensures { result ≡ record { world = world; asked = []; sent = []; lent = []; faults = 0 } }
    {
        ScriptGate {
            world: World::new(world),
            asked: List::new(alloc),
            sent: List::new(alloc),
            lent: List::new(alloc),
            faults: 0,
        }
    }

    /// Lends the attempts that the gate was asked to run, in order.
    pub fn asked(&self) -> &List<Asked>
        ensures { result.now ≡ self.now.asked }
    {
        &self.asked
    }

    /// Lends the requests that were sent to the gate, in order.
    pub fn sent(&self) -> &List<Request>
        ensures { result.now ≡ self.now.sent }
    {
        &self.sent
    }

    /// Returns how many attempts were not started.
    pub fn faults(&self) -> u64
        ensures { result ≡ self.now.faults }
    {
        self.faults
    }

    fn tell(&self, test: u32, attempt: u32) -> Option<&Told>
        ensures { option_copied result ≡ find (λ t. t.test == test && t.attempt == attempt) self.now.world }
    {
        self.world.find(test, attempt)
    }

    fn told_end(&self, test: u32, attempt: u32) -> Ended
        ensures { result ≡ (told self.now.world test attempt).ended }
    {
        match self.tell(test, attempt) {
            Some(told) => told.ended,
            None => Ended {
                how: How::Exited(0),
                micros: 0,
            },
        }
    }

    fn told_heard(&self, test: u32, attempt: u32) -> &[u8]
        ensures { result.now ≡ (told self.now.world test attempt).heard }
    {
        match self.tell(test, attempt) {
            Some(told) => told.heard.bytes(),
            None => &[],
        }
    }

    /// Records a request, its attempt and the pass that is lent for it, or nothing if memory is wanting.
    fn record(&mut self, alloc: Global, pass: &Pass, request: &Request) -> Result<(), NoMemory>
        ensures ok { OnOk result (Records self.old pass.now request.now self.new) }
        ensures err { OnErr result (self.new ≡ self.old) }
    {
        let copy = request.copy(alloc)?;
        let asked = Asked {
            test: request.test,
            attempt: request.attempt,
        };
        let before = self.sent.len();
        let lent_before = self.lent.len();
        self.sent.push(copy)?;
        match self.lent.push(Snapshot::of(pass)) {
            Ok(()) => {}
            Err(NoMemory) => {
                self.sent.truncate(before);
                return Err(NoMemory);
            }
        }
        match self.asked.push(asked) {
            Ok(()) => Ok(()),
            Err(NoMemory) => {
                self.sent.truncate(before);
                self.lent.truncate(lent_before);
                Err(NoMemory)
            }
        }
    }

    fn count(&mut self, how: How)
        ensures counted { CountsStart self.old how self.new }
        ensures cause { HasStartCause self.old.faults self.new.faults how }
    {
        if let How::NotStarted = how {
            self.faults = self.faults.saturating_add(1);
        }
    }
}

impl Gate for ScriptGate {
    ghost tells = { told_of_script };

    fn run<E: Ear>(
        &mut self,
        alloc: Global,
        pass: &Pass,
        _ticket: &Ticket,
        request: &Request,
        ear: &mut E,
    ) -> Ended {
        let ended = self.told_end(request.test, request.attempt);
        if lacks_memory(ended.how) {
            return ended;
        }
        match self.record(alloc, pass, request) {
            Ok(()) => {
                self.count(ended.how);
                ear.hear(self.told_heard(request.test, request.attempt));
                ended
            }
            Err(NoMemory) => Ended {
                how: How::NoMemory,
                micros: 0,
            },
        }
    }
}

/// The lines of a world, and whether they are in the order of test and attempt.
#[derive(Debug, Drop)]
struct World {
    told: List<Told>,
    in_order: bool,
}

impl Model for World {
    ghost use Rattle.std.specs.Prelude.{◌≡◌, true, List};
    ghost use Rattle.ct_core.specs.declared.gate.Told.{Told};
    ghost use Rattle.ct_core.specs.ScriptValue.{AreInOrder};

    ghost Value = { List Told };

    ghost view = { λ w. w.told };

    ghost invariant = { λ w. w.in_order ≡ true → AreInOrder w.told };
}

impl World {
    fn new(told: List<Told>) -> World
        ensures { result ≡ told }
    {
        let in_order = are_in_order(told.as_slice());
        World { told, in_order }
    }

    /// Finds the first line of an attempt.
    fn find(&self, test: u32, attempt: u32) -> Option<&Told>
        ensures { option_copied result ≡ find (λ t. t.test == test && t.attempt == attempt) self.now }
    {
        let told = self.told.as_slice();
        if self.in_order {
            find_in_order(told, test, attempt)
        } else {
            told.iter().find(|told| is_of(told, test, attempt))
        }
    }
}

/// Returns whether the lines are in the order of test and attempt.
fn are_in_order(told: &[Told]) -> bool
    ensures { result ≡ true → AreInOrder told.now }
{
    for at in 1..told.len() {
        let front = &told[at - 1];
        if is_before(&told[at], front.test, front.attempt) {
            return false;
        }
    }
    true
}

/// Finds the first line of an attempt, among lines in the order of test and attempt.
fn find_in_order(told: &[Told], test: u32, attempt: u32) -> Option<&Told>
    requires { AreInOrder told.now }
    ensures { option_copied result ≡ find (λ t. t.test == test && t.attempt == attempt) told.entry.now }
{
    let near = (test as usize).saturating_sub(1);
    let place = place_near(told, near, test, attempt);
    let found = told.get(place)?;
    if is_of(found, test, attempt) {
        Some(found)
    } else {
        None
    }
}

/// Finds the place where an attempt belongs among the lines, and looks at the place `near` first.
///
/// If each test has one line, it stands at the place of the test's number.
fn place_near(told: &[Told], near: usize, test: u32, attempt: u32) -> usize
    requires { AreInOrder told.now }
    ensures { IsPlaceInScript test attempt told.now result }
{
    if is_place(told, near, test, attempt) {
        near
    } else {
        place_of(told, test, attempt)
    }
}

/// Returns whether the first line of an attempt stands at a place.
fn is_place(told: &[Told], at: usize, test: u32, attempt: u32) -> bool
    requires { AreInOrder told.now }
    ensures { result ≡ true → IsPlaceInScript test attempt told.now at }
{
    match told.get(at) {
        Some(line) => {
            is_of(line, test, attempt) && (at == 0 || is_before(&told[at - 1], test, attempt))
        }
        None => false,
    }
}

/// Finds the place where an attempt belongs among the lines: behind those that are before it.
fn place_of(told: &[Told], test: u32, attempt: u32) -> usize
    requires { AreInOrder told.now }
    ensures { IsPlaceInScript test attempt told.now result }
{
    told.partition_point(|told| is_before(told, test, attempt))
}

/// Returns whether a line is before an attempt, in the order of test and attempt.
fn is_before(told: &Told, test: u32, attempt: u32) -> bool
    ensures { result ≡ is_before told.now test attempt }
{
    told.test < test || (told.test == test && told.attempt < attempt)
}

/// Returns whether a line is of an attempt.
fn is_of(told: &Told, test: u32, attempt: u32) -> bool
    ensures { result ≡ (told.now.test == test && told.now.attempt == attempt) }
{
    told.test == test && told.attempt == attempt
}

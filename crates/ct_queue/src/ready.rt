ghost use Rattle.std.specs.Prelude.{◌≡◌, ℕ, ◌-◌, ◌<◌, ◌≤◌, ◌^◌, ◌&&◌, ◌==◌, not, true, false, IfOk, MatchOption, length, map, slice_index, nat_lt};
ghost use Rattle.ct_queue.specs.Ready.{IsBehind, IsLeastBehind, IsNextHead, IsOfNewBunch, NamesOnce, NoHeadBehind, NoNewBunch, NoneBehind, StandsIn, predecessors_left, is_out, is_in_ready_set, lowered, none_out, place_of, with_out};
ghost use Rattle.ct_queue.specs.Lines.{AreNumbered, own_lines};
ghost use Rattle.ct_queue.specs.Kept.{AreFoundByNumber, AreMarkedAtZero, waiting, standing_at, with_standing};

use crate::lines::Lines;
use ct_base::{List, NoMemory};
use std::alloc::Global;
use std::collections::BTreeMap;
use std::marker::Model;
use std::snapshot::Snapshot;

/// The state of a test in the set: how many of its predecessors are not final, and whether it is out.
#[derive(Clone, Copy)]
pub(crate) struct Standing {
    pub count: u32,
    pub is_out: bool,
}

impl Standing {
    /// Returns whether the test is a member.
    fn is_ready(self) -> bool
        ensures { result ≡ ((self.count == 0) && not self.is_out) }
    {
        self.count == 0 && !self.is_out
    }
}

/// The tests of a run in the order of their cost, and which of them are ready.
///
/// Its members are the tests whose predecessors are final and that are not out. Each call but `new`
/// and `in_lines` takes no memory, and costs at most a few logarithms of the number of tests.
/// Source: CMake manual, ctest(1), -j, and cmake-properties(7), COST. The set is this project's own.
#[derive(Drop)]
pub struct Ready {
    order: Snapshot<List<u32>>,
    /// By test, its place in the order.
    places: BTreeMap<u32, u32>,
    /// By place, the state of its test.
    standings: Vec<Standing>,
    /// By place, the line and the bunch of its test, and whether it is a member.
    lines: Lines,
}

impl Model for Ready {
    ghost use Rattle.ct_queue.specs.Ready.{ReadyValue};

    ghost Value = { ReadyValue };

    ghost use Rattle.ct_queue.specs.Kept.{IsReadySet, ready_of};

    ghost view = { λ r. ready_of r.order.value r.standings.items r.lines.lines r.lines.bunches };

    ghost invariant = { λ r. IsReadySet r.order.value r.places r.standings.items r.lines };
}

impl Ready {
    /// Takes the tests in their order, each with the number of its predecessors that
    /// are not final. No test is out, and each has a line and a bunch of its own.
    pub fn new(alloc: Global, order: &List<u32>, counts: &List<u32>) -> Result<Ready, NoMemory>
        requires few { length order.now < 2 ^ 32 - 1 }
        requires once { NamesOnce order.now }
        requires counted { length counts.now ≡ length order.now }
        ensures { IfOk result (λ ready. ready ≡ none_out order.now counts.now (own_lines (length order.now)) (own_lines (length order.now))) }
    {
        let lines = own_lines(alloc, order.len() as u32)?;
        Ready::in_lines(alloc, order, counts, &lines, &lines)
    }

    /// Takes the tests in their order, each with the number of its predecessors
    /// that are not final, its line and its bunch. No test is out.
    pub fn in_lines(
        alloc: Global,
        order: &List<u32>,
        counts: &List<u32>,
        lines: &List<u32>,
        bunches: &List<u32>,
    ) -> Result<Ready, NoMemory>
        requires few { length order.now < 2 ^ 32 - 1 }
        requires once { NamesOnce order.now }
        requires counted { length counts.now ≡ length order.now }
        requires lined { length lines.now ≡ length order.now }
        requires numbered { AreNumbered lines.now }
        requires bunched { length bunches.now ≡ length order.now }
        requires bunches { AreNumbered bunches.now }
        ensures { IfOk result (λ ready. ready ≡ none_out order.now counts.now lines.now bunches.now) }
    {
        Ok(Ready {
            order: Snapshot::of(order),
            places: places(alloc, order.as_slice())?,
            standings: standings(alloc, counts.as_slice())?,
            lines: lines_at_zero(
                alloc,
                lines.as_slice(),
                bunches.as_slice(),
                counts.as_slice(),
            )?,
        })
    }

    /// Lowers by one the number of a test's predecessors that are not final.
    pub fn lower(&mut self, test: u32)
        requires stands { StandsIn self.old.order test }
        requires open_before { 0 < predecessors_left self.old test }
        ensures { self.new ≡ lowered self.old test }
    {
        let place = self.place(test);
        let mut standing = self.standing(place);
        standing.count -= 1;
        self.put(place, standing);
    }

    /// Takes a member out, when its attempt starts or it becomes final.
    pub fn out(&mut self, test: u32)
        requires stands { StandsIn self.old.order test }
        requires member { is_in_ready_set self.old test ≡ true }
        ensures { self.new ≡ with_out self.old test true }
    {
        let place = self.place(test);
        let mut standing = self.standing(place);
        standing.is_out = true;
        self.put(place, standing);
    }

    /// Puts a test back that is out, when it is tried again.
    pub fn back(&mut self, test: u32)
        requires stands { StandsIn self.old.order test }
        requires gone { is_out self.old test ≡ true }
        ensures { self.new ≡ with_out self.old test false }
    {
        let place = self.place(test);
        let mut standing = self.standing(place);
        standing.is_out = false;
        self.put(place, standing);
    }

    /// Returns whether a test is a member.
    pub fn is_ready(&self, test: u32) -> bool
        requires stands { StandsIn self.now.order test }
        ensures { result ≡ is_in_ready_set self.now test }
    {
        let place = self.place(test);
        self.standing(place).is_ready()
    }

    /// Finds the least place behind the given one, or of all places
    /// if none is given, that has a member. It looks at each place.
    pub fn after(&self, place: Option<u32>) -> Option<u32>
        ensures { MatchOption result (NoneBehind self.now place) (IsLeastBehind self.now place) }
    {
        for at in first_behind(place)..self.len() {
            if self.standing(at).is_ready() {
                return Some(at as u32);
            }
        }
        None
    }

    /// Finds the least place behind the given one, or of all places if none is given, that has
    /// the first head of its bunch. A head is a member with no earlier member in its line.
    pub fn new_bunch_after(&self, place: Option<u32>) -> Option<u32>
        ensures { MatchOption result (NoNewBunch self.now place) (IsOfNewBunch self.now place) }
    {
        let from = first_behind(place);
        match self.lines.new_bunch_from(from) {
            Some(head) => Some(head as u32),
            None => None,
        }
    }

    /// Finds the next head, behind a place, of its bunch.
    pub fn next_head(&self, place: u32) -> Option<u32>
        requires { place < length self.now.order }
        ensures { MatchOption result (NoHeadBehind self.now place) (IsNextHead self.now place) }
    {
        match self.lines.next_head(place as usize) {
            Some(head) => Some(head as u32),
            None => None,
        }
    }

    /// Returns how many tests the order has.
    fn len(&self) -> usize
        ensures is { result ≡ length self.now.order }
        ensures few { result < 2 ^ 32 }
    {
        self.standings.len()
    }

    /// Finds the place of a test in the order.
    fn place(&self, test: u32) -> usize
        requires { StandsIn self.now.order test }
        ensures { result ≡ place_of self.now.order test }
    {
        match self.places.get(&test) {
            Some(place) => *place as usize,
            None => unreachable!(),
        }
    }

    /// Returns the standing of the test at a place.
    fn standing(&self, place: usize) -> Standing
        requires { place < length self.now.order }
        ensures { result ≡ standing_at self.now place }
    {
        self.standings[place]
    }

    /// Sets the standing of the test at a place.
    fn put(&mut self, place: usize, standing: Standing)
        requires { place < length self.old.order }
        ensures { self.new ≡ with_standing self.old place standing }
    {
        self.standings[place] = standing;
        self.lines.set(place, standing.is_ready());
    }
}

/// Lists this many places, each in a line of its own.
fn own_lines(alloc: Global, places: u32) -> Result<List<u32>, NoMemory>
    ensures { IfOk result (λ lines. lines ≡ own_lines places) }
{
    let lines = (0..places).collect(alloc)?;
    Ok(List::from_vec(lines))
}

/// Returns the first place behind the given one, or the first of all if none is given.
fn first_behind(place: Option<u32>) -> usize
    ensures reaches { (other : ℕ) → IsBehind place other → result ≤ other }
    ensures begins { (other : ℕ) → result ≤ other → IsBehind place other }
{
    match place {
        Some(given) => given as usize + 1,
        None => 0,
    }
}

/// Lists the tests of an order by their numbers, each with its place.
fn places(alloc: Global, order: &[u32]) -> Result<BTreeMap<u32, u32>, NoMemory>
    requires few { length order.now < 2 ^ 32 - 1 }
    requires once { NamesOnce order.now }
    ensures { IfOk result (λ places. AreFoundByNumber places order.now) }
{
    let mut places = BTreeMap::new(alloc);
    for (place, test) in order.iter().enumerate() {
        places.insert(*test, place as u32)?;
    }
    Ok(places)
}

/// Lists the standings of tests that have these counts and are not out.
fn standings(alloc: Global, counts: &[u32]) -> Result<Vec<Standing>, NoMemory>
    ensures { IfOk result (λ standings. standings.items ≡ map waiting counts.now) }
{
    let standings = counts.iter().map(|count| Standing {
        count: *count,
        is_out: false,
    });
    Ok(standings.collect(alloc)?)
}

/// Takes the lines and bunches of tests with these counts.
/// Exactly the places whose count is 0 have a member.
fn lines_at_zero(
    alloc: Global,
    lines: &[u32],
    bunches: &[u32],
    counts: &[u32],
) -> Result<Lines, NoMemory>
    requires few { length lines.now < 2 ^ 32 - 1 }
    requires numbered { AreNumbered lines.now }
    requires bunched { length bunches.now ≡ length lines.now }
    requires bunches { AreNumbered bunches.now }
    requires counted { length counts.now ≡ length lines.now }
    ensures lines { IfOk result (λ value. value.lines ≡ lines.now) }
    ensures bunches { IfOk result (λ value. value.bunches ≡ bunches.now) }
    ensures room { IfOk result (λ value. length value.members ≡ length lines.now) }
    ensures marked { IfOk result (λ value. AreMarkedAtZero counts.now value.members) }
{
    let mut members = Lines::new(alloc, lines, bunches)?;
    for (place, count) in counts.iter().enumerate() {
        members.set(place, *count == 0);
    }
    Ok(members)
}

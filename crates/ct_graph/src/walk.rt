ghost use Rattle.std.specs.Prelude.{◌≡◌, ◌+◌, ◌<◌, ◌≤◌, ◌^◌, ◌∷◌, ◌++◌, [], true, false, All, IfOk, OnOk, IfErr, length, replicate, take, reverse, MatchOption, IfSome, slice_index_or, slice_set};
ghost use Rattle.std.specs.List.{list_all};
ghost use Rattle.ct_graph.specs.Walk.{IsWalk, Keeps, AreWithin, AreRanked, WalksOn, EndsWalk, IsStep, row_of, mark_of, is_unseen, is_ranked, rank_of, are_taken, is_on, trail_of, steps_left, back_to};

use crate::GraphFault;
use ct_base::{List, NoMemory};
use std::alloc::Global;

/// How far a walk has come with a test.
#[derive(Clone, Copy)]
pub(crate) enum Mark {
    /// It has not come to the test.
    Unseen,
    /// It has come to the test, and has not taken it yet.
    Open,
    /// It has taken all tests before the test, and then the test.
    Taken { rank: u32 },
}

impl Mark {
    /// Returns the rank of a test that is taken.
    pub(crate) fn rank(self) -> u32
        requires { is_ranked self ≡ true }
        ensures { result ≡ rank_of self }
    {
        match self {
            Mark::Taken { rank } => rank,
            Mark::Unseen | Mark::Open => unreachable!(),
        }
    }
}

/// A test on the path of a walk, with how many tests before it were looked at and are taken.
#[derive(Clone, Copy)]
pub(crate) struct Step {
    pub test: u32,
    pub looked: usize,
}

/// A walk from tests to the tests before them. It takes a test once all tests before it are taken.
#[derive(Drop)]
pub(crate) struct Walk {
    pub marks: Vec<Mark>,
    /// The open tests: each one comes before the test in front of it.
    pub path: Vec<Step>,
    /// How many tests were taken.
    pub taken: u32,
}

/// Takes each member once all tests before it are taken, or finds a cycle.
///
/// `rows` has at a test's number the tests before the test.
pub(crate) fn marks(
    alloc: Global,
    rows: &[List<u32>],
    members: &[u32],
) -> Result<Vec<Mark>, GraphFault>
    requires few { length rows.now < 2 ^ 32 }
    requires within { AreWithin rows.now }
    requires members { All (λ test. test < length rows.now) members.now }
    ensures ranked { IfOk result (λ marks. AreRanked rows.now marks.items) }
    ensures taken { IfOk result (λ marks. are_taken marks.items members.now ≡ true) }
    ensures err { IfErr result (EndsWalk rows.now) }
{
    let mut walk = Walk::new(alloc, rows.len())?;
    for test in members {
        if let Mark::Unseen = walk.marks[*test as usize] {
            walk.take_all_before(alloc, rows, *test)?;
        }
    }
    Ok(walk.marks)
}

impl Walk {
    fn new(alloc: Global, len: usize) -> Result<Walk, NoMemory>
        ensures marks { IfOk result (λ walk. walk.marks.items ≡ replicate len Mark.Unseen) }
        ensures path { IfOk result (λ walk. walk.path.items ≡ []) }
        ensures taken { IfOk result (λ walk. walk.taken ≡ 0) }
    {
        Ok(Walk {
            marks: vec![in alloc; Mark::Unseen; len]?,
            path: Vec::new(alloc),
            taken: 0,
        })
    }

    /// Takes all tests before a test, and then the test.
    fn take_all_before(
        &mut self,
        alloc: Global,
        rows: &[List<u32>],
        test: u32,
    ) -> Result<(), GraphFault>
        requires few { length rows.now < 2 ^ 32 }
        requires within { AreWithin rows.now }
        requires kept { Keeps rows.now self.old }
        requires empty { self.old.path.items ≡ [] }
        requires test { test < length rows.now }
        requires unseen { mark_of self.old.marks.items test ≡ Mark.Unseen }
        ensures kept { OnOk result (Keeps rows.now self.new) }
        ensures empty { OnOk result (self.new.path.items ≡ []) }
        ensures goes { OnOk result (WalksOn self.old.marks.items self.new.marks.items) }
        ensures taken { OnOk result (is_ranked (mark_of self.new.marks.items test) ≡ true) }
        ensures err { IfErr result (EndsWalk rows.now) }
    {
        self.open(test)?;
        while let Some(step) = self.path.pop() {
            self.advance(alloc, rows, step)?;
        }
        Ok(())
    }

    fn put(&mut self, test: u32, looked: usize) -> Result<(), NoMemory>
        ensures path { OnOk result (self.new.path.items ≡ self.old.path.items ++ record { test = test; looked = looked } ∷ []) }
        ensures marks { self.new.marks ≡ self.old.marks }
        ensures taken { self.new.taken ≡ self.old.taken }
    {
        self.path.push(Step { test, looked })?;
        Ok(())
    }

    fn open(&mut self, test: u32) -> Result<(), NoMemory>
        requires { test < length self.old.marks.items }
        ensures marks { OnOk result (self.new.marks.items ≡ slice_set self.old.marks.items test Mark.Open) }
        ensures path { OnOk result (self.new.path.items ≡ self.old.path.items ++ record { test = test; looked = 0 } ∷ []) }
        ensures taken { OnOk result (self.new.taken ≡ self.old.taken) }
    {
        self.put(test, 0)?;
        self.marks[test as usize] = Mark::Open;
        Ok(())
    }

    /// Goes on at the newest test of the path, which the caller has popped. It opens the first test
    /// before it that is not taken. Where there is none, it takes the test itself.
    fn advance(&mut self, alloc: Global, rows: &[List<u32>], step: Step) -> Result<(), GraphFault>
        requires few { length rows.now < 2 ^ 32 }
        requires within { AreWithin rows.now }
        requires kept { IsWalk rows.now self.old.marks.items (step ∷ trail_of self.old) self.old.taken }
        ensures kept { OnOk result (Keeps rows.now self.new) }
        ensures goes { OnOk result (WalksOn self.old.marks.items self.new.marks.items) }
        ensures fewer { OnOk result (steps_left self.new.marks.items (trail_of self.new) < steps_left self.old.marks.items (step ∷ trail_of self.old)) }
        ensures err { IfErr result (EndsWalk rows.now) }
    {
        let row = rows[step.test as usize].as_slice();
        let Some(at) = self.first_untaken(row, step.looked) else {
            self.take(step.test);
            return Ok(());
        };
        let test = step.test;
        let next = row[at];
        self.put(test, at)?;
        if let Mark::Open = self.marks[next as usize] {
            return Err(GraphFault::Cycle(self.cycle(alloc, next)?));
        }
        self.open(next)?;
        Ok(())
    }

    /// Finds the first test of a row, from a place on, that is not taken.
    fn first_untaken(&self, row: &[u32], looked: usize) -> Option<usize>
        requires within { All (λ j. j < length self.now.marks.items) row.now }
        requires few { looked ≤ length row.now }
        requires looked { are_taken self.now.marks.items (take looked row.now) ≡ true }
        ensures none { MatchOption result (are_taken self.now.marks.items row.now ≡ true) (λ at. at < length row.now) }
        ensures front { IfSome result (λ at. are_taken self.now.marks.items (take at row.now) ≡ true) }
        ensures untaken { IfSome result (λ at. is_ranked (mark_of self.now.marks.items (slice_index_or row.now at 0)) ≡ false) }
    {
        for at in looked..row.len() {
            match self.marks[row[at] as usize] {
                Mark::Taken { .. } => {}
                Mark::Unseen | Mark::Open => return Some(at),
            }
        }
        None
    }

    fn take(&mut self, test: u32)
        requires within { test < length self.old.marks.items }
        requires few { self.old.taken + 1 < 2 ^ 32 }
        ensures marks { self.new.marks.items ≡ slice_set self.old.marks.items test (Mark.Taken self.old.taken) }
        ensures path { self.new.path.items ≡ self.old.path.items }
        ensures taken { self.new.taken ≡ self.old.taken + 1 }
    {
        self.marks[test as usize] = Mark::Taken { rank: self.taken };
        self.taken += 1;
    }

    /// Returns the tests of the path from this one on, and pops them. Without this one, pops all.
    fn cycle(&mut self, alloc: Global, first: u32) -> Result<List<u32>, NoMemory>
        ensures { IfOk result (λ tests. tests ≡ back_to first (trail_of self.old) []) }
    {
        let mut tests = Vec::new(alloc);
        while let Some(step) = self.path.pop() {
            tests.push(step.test)?;
            if step.test == first {
                break;
            }
        }
        tests.reverse();
        Ok(List::from_vec(tests))
    }
}

ghost use Rattle.std.specs.Prelude.{◌≡◌, ℕ, ◌<◌, ◌≤◌, ◌+◌, ◌^◌, [], All, IfOk, OnOk, IfErr, length, nat_lt, replicate, slice_set};
ghost use Rattle.ct_graph.specs.Index.{Indexed};
ghost use Rattle.ct_graph.specs.Rows.{AreRows, EndsRows, before_in, edges_in, setups_in};

use crate::GraphFault;
use crate::index::{Index, Row, Search};
use ct_base::{List, NoMemory};
use std::alloc::Global;

/// What each member waits for.
///
/// The place of a test is its number, and place 0 is of no test. A test
/// that is no member waits for nothing.
#[derive(Drop)]
pub(crate) struct Graph {
    /// The members that come before each member, in order.
    pub before: Vec<List<u32>>,
    /// The setups of each member, in order.
    pub setups: Vec<List<u32>>,
}

/// Finds what each member waits for, where at most `most` tests come before the members.
pub(crate) fn rows(alloc: Global, index: &Index, most: u32) -> Result<Graph, GraphFault>
    requires { Indexed index.now }
    ensures before { IfOk result (λ graph. AreRows (before_in index.now) (length index.now.props.now) index.now.members.now graph.before.items) }
    ensures setups { IfOk result (λ graph. AreRows (setups_in index.now) (length index.now.props.now) index.now.members.now graph.setups.items) }
    ensures few { OnOk result (edges_in index.now ≤ most) }
    ensures err { IfErr result (EndsRows most index.now) }
{
    let mut graph = Graph::empty(alloc, index.props.len())?;
    graph.fill(alloc, index, most as usize)?;
    Ok(graph)
}

impl Graph {
    /// Makes the graph in which no test waits for another one.
    fn empty(alloc: Global, tests: usize) -> Result<Graph, NoMemory>
        ensures before { IfOk result (λ graph. graph.before.items ≡ replicate (tests + 1) []) }
        ensures setups { IfOk result (λ graph. graph.setups.items ≡ replicate (tests + 1) []) }
    {
        Ok(Graph {
            before: empty_rows(alloc, tests)?,
            setups: empty_rows(alloc, tests)?,
        })
    }

    /// Finds what each member waits for, where no row is filled yet.
    fn fill(&mut self, alloc: Global, index: &Index, most: usize) -> Result<(), GraphFault>
        requires indexed { Indexed index.now }
        requires before { self.old.before.items ≡ replicate (length index.now.props.now + 1) [] }
        requires setups { self.old.setups.items ≡ replicate (length index.now.props.now + 1) [] }
        ensures before { OnOk result (AreRows (before_in index.now) (length index.now.props.now) index.now.members.now self.new.before.items) }
        ensures setups { OnOk result (AreRows (setups_in index.now) (length index.now.props.now) index.now.members.now self.new.setups.items) }
        ensures few { OnOk result (edges_in index.now ≤ most) }
        ensures err { IfErr result (EndsRows most index.now) }
    {
        let mut search = Search::new(alloc);
        let mut edges = 0;
        for number in index.members {
            let row = index.row(alloc, *number, &mut search)?;
            let more = row.before.len();
            if exceeds(edges, more, most) {
                return Err(GraphFault::TooManyEdges);
            }
            edges += more;
            self.put(*number, row);
        }
        Ok(())
    }

    /// Fills the row of a member.
    fn put(&mut self, number: u32, row: Row)
        requires before { number < length self.old.before.items }
        requires setups { number < length self.old.setups.items }
        ensures before { self.new.before.items ≡ slice_set self.old.before.items number row.before }
        ensures setups { self.new.setups.items ≡ slice_set self.old.setups.items number row.setups }
    {
        self.before[number as usize] = row.before;
        self.setups[number as usize] = row.setups;
    }
}

/// Returns whether so many more edges are too many.
fn exceeds(edges: usize, more: usize, most: usize) -> bool
    requires { edges ≤ most }
    ensures { result ≡ nat_lt most (edges + more) }
{
    more > most - edges
}

/// Makes a row for each test, and one for place 0.
fn empty_rows(alloc: Global, tests: usize) -> Result<Vec<List<u32>>, NoMemory>
    ensures { IfOk result (λ rows. rows.items ≡ replicate (tests + 1) []) }
{
    let mut rows = Vec::new(alloc);
    for _at in 0..=tests {
        rows.push(List::new(alloc))?;
    }
    Ok(rows)
}

ghost use Rattle.std.specs.Prelude.{◌≡◌, ◌<◌, ◌≤◌, ◌-◌, ◌^◌, ℕ, true, All, IfOk, OnOk, length, map};
ghost use Rattle.std.specs.List.Sorted.{IsStrictlyIncreasing};
ghost use Rattle.ct_graph.specs.Before.{before_of};
ghost use Rattle.ct_graph.specs.Cycle.{HasCycle};
ghost use Rattle.ct_graph.specs.Order.{IsAnswer, most_edges};
ghost use Rattle.ct_graph.specs.Index.{Indexed};
ghost use Rattle.ct_graph.specs.Walk.{are_taken, row_of};
ghost use Rattle.ct_graph.specs.Rows.{links_of};

use crate::GraphFault;
use crate::index::Index;
use crate::rows::{Graph, rows};
use crate::walk::{Mark, marks};
use ct_base::{List, NoMemory, TestDef};
use ct_props::Props;
use std::alloc::Global;
use std::mem;

/// How many tests may come before the tests of a run, counted for each of them.
///
/// Source: this project's choice.
pub const MOST_EDGES: u32 = 4_000_000;

/// What a test of a run waits for.
///
/// Source: CMake manual, cmake-properties(7), DEPENDS and FIXTURES_REQUIRED.
#[derive(Debug, Drop)]
pub struct Links {
    /// The number of the test, from 1.
    pub number: u32,
    /// The numbers of the tests that end before it, in order.
    pub before: List<u32>,
    /// The numbers of the tests that have to pass before it, in order: its setups.
    pub setups: List<u32>,
    /// Greater than the rank of each test before it.
    pub rank: u32,
}

/// The links of each test of a run, in order of number.
#[derive(Debug, Drop)]
pub struct Ordered {
    pub links: List<Links>,
}

/// Finds what each member waits for, and a rank for it, or returns a cycle.
///
/// A member that is disabled waits for nothing, and nothing waits for it. A test waits for each
/// test of a name that it depends on, and for the setups of each fixture that it requires. A
/// cleanup waits for the setups and the users of its fixture. Only members are waited for.
///
/// Source: CMake manual, cmake-properties(7), DEPENDS, FIXTURES_SETUP, FIXTURES_REQUIRED and
/// FIXTURES_CLEANUP. That a cleanup waits for the setups too, and that a cycle is refused, is this
/// project's choice.
pub fn order(
    alloc: Global,
    defs: &List<TestDef>,
    props: &List<Props>,
    members: &List<u32>,
) -> Result<Ordered, GraphFault>
    requires paired { length props.now ≡ length defs.now }
    requires few { length defs.now < 2 ^ 32 - 1 }
    requires ascending { IsStrictlyIncreasing members.now }
    requires within { All (λ number. (0 < number) × (number ≤ length defs.now)) members.now }
    ensures answer { IsAnswer most_edges defs.now props.now members.now result }
    ensures none { OnOk result (HasCycle (before_of defs.now props.now members.now) → ⊥) }
{
    let index = Index::of(alloc, defs.as_slice(), props.as_slice(), members.as_slice())?;
    order_within(alloc, index, MOST_EDGES)
}

/// Finds the order, where at most `most` edges are allowed.
fn order_within(alloc: Global, index: Index<'_>, most: u32) -> Result<Ordered, GraphFault>
    requires indexed { Indexed index }
    requires few { length index.props.now < 2 ^ 32 - 1 }
    ensures { IsAnswer most index.entry.defs.now index.entry.props.now index.entry.members.now result }
{
    let members = index.members;
    let graph = rows(alloc, &index, most)?;
    drop(index);
    let marks = marks(alloc, graph.before.as_slice(), members)?;
    Ok(Ordered {
        links: links_in_order(alloc, members, graph, &marks)?,
    })
}

/// Returns the links of each member, in order.
fn links_in_order(
    alloc: Global,
    members: &[u32],
    graph: Graph,
    marks: &[Mark],
) -> Result<List<Links>, NoMemory>
    requires ascending { IsStrictlyIncreasing members.now }
    requires before { All (λ number. number < length graph.before.items) members.now }
    requires setups { All (λ number. number < length graph.setups.items) members.now }
    requires marks { All (λ number. number < length marks.now) members.now }
    requires taken { are_taken marks.now members.now ≡ true }
    ensures { IfOk result (λ links. links ≡ map (links_of (row_of graph.setups.items) graph.before.items marks.now) members.now) }
{
    let Graph {
        mut before,
        mut setups,
    } = graph;
    let mut links = List::new(alloc);
    for number in members {
        let place = *number as usize;
        links.push(Links {
            number: *number,
            before: mem::replace(&mut before[place], List::new(alloc)),
            setups: mem::replace(&mut setups[place], List::new(alloc)),
            rank: marks[place].rank(),
        })?;
    }
    Ok(links)
}

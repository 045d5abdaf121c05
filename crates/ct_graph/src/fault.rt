use ct_base::{List, NoMemory};

/// Why the tests of a run have no order.
///
/// Source: this project's choice.
#[derive(Debug, Drop)]
pub enum GraphFault {
    /// The numbers of the tests of a cycle, each once: each has the next one before it, and the last has the
    /// first before it. Which cycle is returned is left open.
    Cycle(List<u32>),
    /// More than `MOST_EDGES` tests come before the tests of the run, counted for each of them.
    TooManyEdges,
    /// Memory was wanting.
    NoMemory,
}

impl From<NoMemory> for GraphFault {
    ghost use Rattle.std.specs.Prelude.{◌≡◌};
    ghost use Rattle.ct_graph.specs.declared.fault.GraphFault.TheVariants as Faults;

    ghost from_gives = { λ _ fault. fault ≡ Faults.NoMemory };

    fn from(_e: NoMemory) -> GraphFault {
        GraphFault::NoMemory
    }
}

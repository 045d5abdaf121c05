use ct_base::{List, NoMemory};
use ct_graph::GraphFault;

/// Why a run has no plan.
///
/// Source: this project's choice.
#[derive(Debug, Drop)]
pub enum PlanFault {
    /// The numbers of the tests of a cycle: each has the next one before it, and the last has the
    /// first before it. Which cycle is returned is left open.
    Cycle(List<u32>),
    /// More than `ct_graph::MOST_EDGES` tests come before the tests of the run, counted for each of
    /// them.
    TooManyEdges,
    /// Memory was wanting.
    NoMemory,
}

impl From<NoMemory> for PlanFault {
    ghost use Rattle.std.specs.Prelude.{◌≡◌};
    ghost use Rattle.ct_plan.specs.declared.fault.PlanFault.TheVariants as Faults;

    ghost from_gives = { λ _ fault. fault ≡ Faults.NoMemory };

    fn from(_e: NoMemory) -> PlanFault {
        PlanFault::NoMemory
    }
}

impl From<GraphFault> for PlanFault {
    ghost use Rattle.std.specs.Prelude.{◌≡◌};
    ghost use Rattle.ct_plan.specs.Linked.{plan_fault};

    ghost from_gives = { λ e fault. fault ≡ plan_fault e };

    fn from(e: GraphFault) -> PlanFault {
        match e {
            GraphFault::Cycle(tests) => PlanFault::Cycle(tests),
            GraphFault::TooManyEdges => PlanFault::TooManyEdges,
            GraphFault::NoMemory => PlanFault::NoMemory,
        }
    }
}

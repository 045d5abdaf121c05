ghost use Rattle.std.specs.Prelude.{◌≡◌, Some};
ghost use Rattle.std.specs.Ordering.{is_lt};
ghost use Rattle.ct_plan.specs.Queue.{costs_more, is_more_urgent, standing_there};

use ct_base::TestDef;
use ct_cost::CostData;
use ct_props::Props;
use std::cmp::Ordering;

/// How a test stands in the queue.
#[derive(Clone, Copy)]
pub(crate) struct Standing {
    /// Whether it failed in the last run.
    pub failed: bool,
    /// What it costs, in microseconds.
    pub cost: u64,
    pub number: u32,
}

impl Standing {
    /// Returns the standing of the test with this number.
    pub(crate) fn of(number: u32, def: &TestDef, own: &Props, costs: &CostData) -> Standing
        ensures { Some result ≡ standing_there costs.now number (Some def.now) (Some own.now) }
    {
        let known = costs.cost(&def.name).unwrap_or(0);
        Standing {
            failed: costs.failed(&def.name),
            cost: own.cost.unwrap_or(known),
            number,
        }
    }

    /// Compares two tests. The lesser one goes in front, where several may run at once.
    pub(crate) fn compare(&self, other: &Standing) -> Ordering
        ensures { is_lt result ≡ is_more_urgent self.now other.now }
    {
        match (self.failed, other.failed) {
            (true, false) => Ordering::Less,
            (false, true) => Ordering::Greater,
            _ => self.compare_costs(other),
        }
    }

    fn compare_costs(&self, other: &Standing) -> Ordering
        ensures { is_lt result ≡ costs_more self.now other.now }
    {
        if self.cost == other.cost {
            self.number.cmp(&other.number)
        } else {
            other.cost.cmp(&self.cost)
        }
    }
}

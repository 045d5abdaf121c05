ghost use Rattle.std.specs.Prelude.{◌==◌, ◌≡◌, find};
ghost use Rattle.std.specs.Option.{option_copied};

use ct_base::{List, Name, Need, Resource};
use ct_verdict::{Cause, Repeat, Rules};
use std::marker::Model;

/// What a run has to know of one of its tests.
#[derive(Debug, Drop)]
pub struct PlanTest {
    /// The number of the test, from 1, in the order of definition over the whole tree.
    pub number: u32,
    pub name: Name,
    pub disabled: bool,
    pub processors: u32,
    /// The locks that it holds alone: no test beside it names one of them, in `locks` or in `shared`.
    pub locks: List<Name>,
    /// The locks that it may hold beside other tests that share them.
    pub shared: List<Name>,
    /// Whether it runs alone.
    pub serial: bool,
    pub rules: Rules,
    pub needs: List<Need>,
    /// The numbers of the tests that have to be final before it starts.
    pub before: List<u32>,
    /// The numbers of the tests in `before` that have to pass.
    pub setups: List<u32>,
    /// Greater than the rank of each test in `before`.
    pub rank: u32,
    /// Why it can't run at all, if that is known before the run.
    pub fixed: Option<Cause>,
    pub labels: List<Name>,
}

/// What a plan is made of.
#[derive(Debug, Drop)]
pub struct PlanParts {
    /// The folder that the report names.
    pub dir: Name,
    /// The tests, in order of their numbers.
    pub tests: List<PlanTest>,
    /// The numbers of the tests that are not disabled, in the order in which they start.
    pub queue: List<u32>,
    pub resources: Option<List<Resource>>,
    /// How many processors the open tests may use together.
    pub level: u32,
    pub repeat: Repeat,
    pub stop_on_failure: bool,
}

/// A sound plan of a run. Contracts see its parts.
#[derive(Debug, Drop)]
pub struct Plan {
    parts: PlanParts,
}

impl Model for Plan {
    ghost use Rattle.ct_history.specs.declared.plan.PlanParts.{PlanParts};
    ghost use Rattle.ct_history.specs.Plan.{IsSound};

    ghost Value = { PlanParts };

    ghost view = { λ p. p.parts };

    ghost invariant = { λ p. IsSound p.parts };
}

impl Plan {
    ghost use Rattle.ct_history.specs.Plan.{IsSound};

    /// Makes a plan of sound parts.
    pub fn new(parts: PlanParts) -> Plan
        requires sound { IsSound parts }
        ensures { result ≡ parts }
    {
        Plan { parts }
    }

    /// Lends the parts, which are sound.
    pub fn parts(&self) -> &PlanParts
        ensures is { result.now ≡ self.now }
        ensures sound { IsSound self.now }
    {
        &self.parts
    }
}

/// Looks up a test by its number.
pub fn test_at(tests: &[PlanTest], number: u32) -> Option<&PlanTest>
    ensures { option_copied result ≡ find (λ t. t.number == number) tests.now }
{
    tests.iter().find(|t| t.number == number)
}

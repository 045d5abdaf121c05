ghost use Rattle.std.specs.Prelude.{◌≡◌, ◌<◌, ◌≤◌, ◌-◌, ◌^◌, IfOk, IfErr, [], Ok, Err, length};
ghost use Rattle.ct_args.specs.Invocation.{IsBounded};
ghost use Rattle.ct_graph.specs.Order.{most_edges};
ghost use Rattle.ct_history.specs.Plan.{IsSound};
ghost use Rattle.ct_plan.specs.PlanOf.{IsPlanAnswer};
ghost use Rattle.ct_plan.specs.Source.{HaveProps, source};
ghost use Rattle.ct_app.specs.Complete.{CompletesPlan};
ghost use Rattle.ct_app.specs.Ends.{AreReadInputs, IsReadFolder, IsUnplanned, IsUnreadFolder};
ghost use Rattle.ct_app.specs.Planning.{HasNoPlan, HasPlan, HasSomeReason, IsPlannedFolder, IsUnplannedFolder};
ghost use Rattle.ct_app.specs.Rerun.{wanted_of};
ghost use Rattle.ct_app.specs.Steps.{AreUnreadInputs, IsUnplannedSource};

use crate::props::Tests;
use crate::reading::{names_at, read_tests};
use crate::rerun::{limit_choice, read_only};
use crate::run_files::read_costs;
use crate::spec_file::read_spec;
use crate::{Outcome, Refusal};
use ct_args::{Invocation, read_words};
use ct_base::{Files, List, Name, NoMemory, TestDef};
use ct_cost::CostData;
use ct_history::Plan;
use ct_plan::{PlanFault, plan};
use ct_props::Wanted;
use ct_spec::Spec;
use std::alloc::Global;

/// What is planned for an invocation, and what its run needs besides.
#[derive(Drop)]
pub(crate) struct PlannedFolder {
    pub(crate) tests: Tests,
    /// The cost data of the last run.
    pub(crate) costs: CostData,
    pub(crate) plan: Plan,
}

/// Why there is no plan.
#[derive(Debug, Drop)]
pub struct Unplanned {
    pub outcome: Outcome,
    /// The names of the tests of a cycle, if a cycle is refused; else empty.
    pub names: List<Name>,
}

/// What is read for an invocation before its tests are planned.
#[derive(Drop)]
struct Folder {
    tests: Tests,
    inputs: PlanInputs,
}

/// What the plan of a run needs beside the tests and the words.
#[derive(Drop)]
struct PlanInputs {
    /// The resources that are lent, if the words name a specification.
    spec: Option<Spec>,
    /// The cost data of the last run.
    costs: CostData,
    /// The names that the run is limited to, if the words ask for the tests that failed last.
    only: Option<List<Name>>,
}

impl Folder {
    /// Plans the tests of the folder, or says why they have no plan.
    fn plan(&self, alloc: Global, wanted: &Wanted) -> Result<Plan, Unplanned>
        requires few { length self.now.tests.defs < 2 ^ 32 - 1 }
        requires have { HaveProps self.now.tests.defs self.now.tests.props }
        requires level { 1 ≤ wanted.now.level }
        requires times { 1 ≤ wanted.now.repeat.times }
        ensures ok { IfOk result (λ plan. IsPlanAnswer most_edges (source self.now.tests.defs self.now.tests.props wanted.now self.now.inputs.spec self.now.inputs.costs) (Ok plan)) }
        ensures err { IfErr result (λ bad. IsUnplannedSource (source self.now.tests.defs self.now.tests.props wanted.now self.now.inputs.spec self.now.inputs.costs) bad.names bad.outcome) }
    {
        let Tests { defs, props } = &self.tests;
        let spec = self.inputs.spec.as_ref();
        match plan(alloc, defs, props, wanted, spec, &self.inputs.costs) {
            Ok(plan) => Ok(plan),
            Err(fault) => Err(why_unplanned(alloc, defs.as_slice(), fault)),
        }
    }

    /// Keeps what a run of this plan needs.
    fn with_plan(self, plan: Plan) -> PlannedFolder
        ensures { result ≡ record { tests = self.tests; costs = self.inputs.costs; plan = plan } }
    {
        let Folder { tests, inputs } = self;
        PlannedFolder {
            tests,
            costs: inputs.costs,
            plan,
        }
    }
}

/// Makes the plan of the run that the words ask for, as `ctest_main` does, whatever their task is.
///
/// It reads the words, the test files, the specification and the cost data. It writes nothing.
/// It stands for callers of the library: no program calls it.
///
/// Source: CMake manual, ctest(1), Run Tests.
pub fn plan_main<F: Files>(alloc: Global, words: &[Name], files: &mut F) -> Result<Plan, Outcome>
    requires few { length words.now < 2 ^ 32 - 1 }
    ensures ok { IfOk result (λ plan. HasPlan words.now (F.tells files.old) (F.tells files.new) plan) }
    ensures err { IfErr result (λ outcome. HasSomeReason words.now (F.tells files.old) (F.tells files.new) outcome) }
    ensures complete { IfErr result (λ outcome. CompletesPlan words.now (F.tells files.old) (F.tells files.new) outcome) }
{
    match plan_words(alloc, words, files) {
        Ok(plan) => Ok(plan),
        Err(bad) => Err(bad.outcome),
    }
}

/// The same, with the names of the tests of a cycle where a cycle is refused.
pub fn plan_words<F: Files>(alloc: Global, words: &[Name], files: &mut F) -> Result<Plan, Unplanned>
    requires few { length words.now < 2 ^ 32 - 1 }
    ensures ok { IfOk result (λ plan. HasPlan words.now (F.tells files.old) (F.tells files.new) plan) }
    ensures err { IfErr result (λ bad. HasNoPlan words.now (F.tells files.old) (F.tells files.new) bad.names bad.outcome) }
{
    match read_words(alloc, words) {
        Ok(invocation) => match plan_folder(alloc, files, invocation) {
            Ok(folder) => {
                hand_out_sound(&folder.plan);
                Ok(folder.plan)
            }
            Err(bad) => Err(bad),
        },
        Err(fault) => Err(unread(alloc, Outcome::from(fault))),
    }
}

/// Reads the folder of a run and plans its tests.
///
/// Where the words ask for the tests that failed last, the choice is limited to the names in the log.
pub(crate) fn plan_folder<F: Files>(
    alloc: Global,
    files: &mut F,
    mut invocation: Invocation,
) -> Result<PlannedFolder, Unplanned>
    requires bounded { IsBounded invocation }
    ensures ok { IfOk result (λ folder. IsPlannedFolder invocation (F.tells files.old) (F.tells files.new) folder.tests folder.costs folder.plan) }
    ensures err { IfErr result (λ bad. IsUnplannedFolder invocation (F.tells files.old) (F.tells files.new) bad.names bad.outcome) }
{
    let planned = plan_asked(alloc, files, &mut invocation);
    drop(invocation);
    planned
}

/// Plans the folder as `plan_folder` does, and leaves the choice of the invocation limited.
fn plan_asked<F: Files>(
    alloc: Global,
    files: &mut F,
    invocation: &mut Invocation,
) -> Result<PlannedFolder, Unplanned>
    requires bounded { IsBounded invocation.old }
    ensures ok { IfOk result (λ folder. IsPlannedFolder invocation.old (F.tells files.old) (F.tells files.new) folder.tests folder.costs folder.plan) }
    ensures err { IfErr result (λ bad. IsUnplannedFolder invocation.old (F.tells files.old) (F.tells files.new) bad.names bad.outcome) }
{
    match read_folder(alloc, files, invocation) {
        Ok(folder) => plan_read(alloc, folder, invocation),
        Err(outcome) => Err(unread(alloc, outcome)),
    }
}

/// Plans the tests of a folder that was read, with the choice limited to the names that were read.
fn plan_read(
    alloc: Global,
    mut folder: Folder,
    invocation: &mut Invocation,
) -> Result<PlannedFolder, Unplanned>
    requires few { length folder.tests.defs < 2 ^ 32 - 1 }
    requires have { HaveProps folder.tests.defs folder.tests.props }
    requires bounded { IsBounded invocation.old }
    ensures kept { IfOk result (λ planned. planned ≡ record { tests = folder.tests; costs = folder.inputs.costs; plan = planned.plan }) }
    ensures ok { IfOk result (λ planned. IsPlanAnswer most_edges (source folder.tests.defs folder.tests.props (wanted_of invocation.old folder.inputs.only) folder.inputs.spec folder.inputs.costs) (Ok planned.plan)) }
    ensures err { IfErr result (λ bad. IsUnplannedSource (source folder.tests.defs folder.tests.props (wanted_of invocation.old folder.inputs.only) folder.inputs.spec folder.inputs.costs) bad.names bad.outcome) }
{
    limit_choice(invocation, folder.inputs.only.take());
    match folder.plan(alloc, &invocation.wanted) {
        Ok(plan) => Ok(folder.with_plan(plan)),
        Err(bad) => {
            drop(folder);
            Err(bad)
        }
    }
}

/// Makes the end of a call without a cycle, with this outcome.
pub fn unread(alloc: Global, outcome: Outcome) -> Unplanned
    ensures { result ≡ record { outcome = outcome; names = [] } }
{
    Unplanned {
        outcome,
        names: List::new(alloc),
    }
}

/// Says why these tests have no plan, by the fault of their plan. For a cycle it copies the names of
/// the tests.
pub fn why_unplanned(alloc: Global, defs: &[TestDef], fault: PlanFault) -> Unplanned
    ensures { IsUnplanned defs.now fault result.names (Err result.outcome) }
{
    match fault {
        PlanFault::Cycle(tests) => match names_at(alloc, defs, tests.as_slice()) {
            Ok(names) => Unplanned {
                outcome: Outcome::Refused(Refusal::Cycle(tests)),
                names,
            },
            Err(NoMemory) => unread(alloc, Outcome::Memory),
        },
        PlanFault::TooManyEdges => unread(alloc, Outcome::Refused(Refusal::TooManyEdges)),
        PlanFault::NoMemory => unread(alloc, Outcome::Memory),
    }
}

/// States in its contract that each plan is sound; it changes nothing.
pub fn hand_out_sound(plan: &Plan)
    ensures { IsSound plan.now }
{
    let _ = plan.parts();
}

/// Reads the tests of a folder, their properties, the named specification and the cost data.
///
/// Where the words ask for the tests that failed last, it reads the log too.
#[tactic(auto, using(crate::proofs::ReadLemmas::read_folder, crate::proofs::ReadLemmas::unread_tests, crate::proofs::ReadLemmas::unread_inputs))]
fn read_folder<F: Files>(
    alloc: Global,
    files: &mut F,
    invocation: &Invocation,
) -> Result<Folder, Outcome>
    ensures ok { IfOk result (λ folder. IsReadFolder invocation.now (F.tells files.old) (F.tells files.new) folder.tests folder.inputs.spec folder.inputs.costs folder.inputs.only) }
    ensures err { IfErr result (IsUnreadFolder invocation.now (F.tells files.old) (F.tells files.new)) }
{
    let tests = read_tests(alloc, files, invocation)?;
    let inputs = read_inputs(alloc, files, invocation)?;
    Ok(Folder { tests, inputs })
}

/// Reads the named specification, the cost data and, where the words ask for the tests that failed
/// last, the log.
#[tactic(auto, using(crate::proofs::ReadLemmas::read_inputs, crate::proofs::ReadLemmas::unread_spec, crate::proofs::ReadLemmas::unread_costs, crate::proofs::ReadLemmas::unread_log))]
fn read_inputs<F: Files>(
    alloc: Global,
    files: &mut F,
    invocation: &Invocation,
) -> Result<PlanInputs, Outcome>
    ensures ok { IfOk result (λ read. AreReadInputs invocation.now (F.tells files.old) (F.tells files.new) read.spec read.costs read.only) }
    ensures err { IfErr result (AreUnreadInputs invocation.now (F.tells files.old) (F.tells files.new)) }
{
    let spec = read_spec(alloc, files, invocation.spec_file.as_ref())?;
    let costs = read_costs(alloc, files, &invocation.wanted.dir)?;
    let only = read_only(alloc, files, invocation.rerun, &invocation.wanted.dir)?;
    Ok(PlanInputs { spec, costs, only })
}

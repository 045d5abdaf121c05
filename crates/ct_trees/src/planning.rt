ghost use Rattle.std.specs.Prelude.{◌≡◌, ◌+◌, ◌^◌, ◌<◌, ◌≤◌, [], IfOk, IfErr, OnErr, OnOk, length};
ghost use Rattle.std.specs.Option.{option_copied};
ghost use Rattle.ct_args.specs.Invocation.{IsBounded};
ghost use Rattle.ct_app.specs.RunFiles.{FilesStay};
ghost use Rattle.ct_trees.specs.Planning.{AddsTree, LackPlans, HasNoTree, HasTree, IsTreeFolder, IsUnreadTree, LackTree, RefusesNumber};
ghost use Rattle.ct_plan.specs.Whole.{defined_in};
ghost use Rattle.ct_trees.specs.Trees.{AreTrees, HaveTrees, most_tree_tests, plans_of};

use ct_app::{
    Outcome, Refusal, Tests, Unplanned, hand_out_sound, read_costs, read_spec, read_tests, unread,
    why_unplanned,
};
use ct_args::Invocation;
use ct_base::{Files, List, Name, NoMemory, join_path};
use ct_cost::CostData;
use ct_history::Plan;
use ct_plan::{Tree, plan};
use ct_spec::Spec;
use ct_testfile::ReadKind;
use std::alloc::Global;

/// The greatest number of tests that all trees define together.
///
/// Source: this project's choice.
const MOST_TREE_TESTS: usize = 400_000;

/// What is read for one tree.
#[derive(Drop)]
struct TreeFolder {
    tests: Tests,
    /// The cost data of the last run.
    costs: CostData,
}

impl TreeFolder {
    /// Makes the tree of this folder, with its plan.
    fn with_plan(self, plan: Plan) -> Tree
        ensures { result ≡ record { defs = self.tests.defs; props = self.tests.props; costs = self.costs; plan = plan } }
    {
        let TreeFolder { tests, costs } = self;
        Tree {
            defs: tests.defs,
            props: tests.props,
            costs,
            plan,
        }
    }
}

/// Why the trees of a call are not all planned.
#[derive(Debug, Drop)]
pub struct UnplannedTrees {
    /// The tree, counted from 0, behind those that have a plan; `None` where no tree was begun.
    pub tree: Option<u32>,
    pub why: Unplanned,
}

/// Reads the named specification once, and then reads and plans the trees in these folders.
///
/// `trees` gets the trees that have a plan, in order; it has to be empty.
///
/// Source: CMake manual, ctest(1), Run Tests, --resource-spec-file, for each tree.
#[tactic(auto, using(crate::proofs::ForestLemmas::declared_trees, crate::proofs::ForestLemmas::lacks_plan, crate::proofs::ForestLemmas::lacks_spec, crate::proofs::ForestLemmas::few_plans, crate::proofs::ForestLemmas::have_no_more, ct_app::proofs::ReadLemmas::then_stay))]
pub fn read_and_plan<F: Files>(
    alloc: Global,
    files: &mut F,
    invocation: Invocation,
    dirs: List<Name>,
    trees: &mut List<Tree>,
) -> Result<(), UnplannedTrees>
    requires bounded { IsBounded invocation }
    requires few { length dirs < 2 ^ 32 }
    requires none { trees.old ≡ [] }
    ensures ok { OnOk result (HaveTrees (F.tells files.old).held invocation dirs trees.new) }
    ensures stay { OnOk result (FilesStay (F.tells files.old) (F.tells files.new)) }
    ensures err { IfErr result (λ bad. LackPlans invocation dirs (F.tells files.old) (F.tells files.new) (plans_of trees.new) bad.tree bad.why.names bad.why.outcome) }
    ensures count { length trees.new ≤ length dirs }
{
    let spec = match read_spec(alloc, files, invocation.spec_file.as_ref()) {
        Ok(spec) => spec,
        Err(fault) => {
            return Err(UnplannedTrees {
                tree: None,
                why: unread(alloc, Outcome::from(fault)),
            });
        }
    };
    match plan_trees(alloc, files, invocation, dirs, spec.as_ref(), trees) {
        Ok(()) => Ok(()),
        Err(why) => Err(UnplannedTrees {
            tree: Some(trees.len() as u32),
            why,
        }),
    }
}

/// Reads and plans the trees in these folders, one after the other. `spec` has the resources that are
/// lent to all of them.
///
/// Where a tree has no plan, `trees` holds those in front of it.
#[tactic(auto, using(crate::proofs::ForestLemmas::none_so_far, crate::proofs::ForestLemmas::one_more, crate::proofs::ForestLemmas::stops_here))]
fn plan_trees<F: Files>(
    alloc: Global,
    files: &mut F,
    mut invocation: Invocation,
    dirs: List<Name>,
    spec: Option<&Spec>,
    trees: &mut List<Tree>,
) -> Result<(), Unplanned>
    requires bounded { IsBounded invocation }
    requires none { trees.old ≡ [] }
    ensures ok { OnOk result (AreTrees (F.tells files.old).held invocation (option_copied spec.entry) dirs trees.new) }
    ensures few { OnOk result (defined_in trees.new ≤ most_tree_tests) }
    ensures stay { OnOk result (FilesStay (F.tells files.old) (F.tells files.new)) }
    ensures err { IfErr result (λ bad. LackTree invocation (option_copied spec.entry) dirs (F.tells files.old) (F.tells files.new) (plans_of trees.new) bad.names bad.outcome) }
{
    let mut count = 0;
    for dir in dirs.into_vec() {
        invocation.wanted.dir = dir;
        count = add_tree(alloc, files, &invocation, spec, count, trees)?;
    }
    Ok(())
}

/// Reads and plans the tree that an invocation names, and puts it behind the others, which define
/// `count` tests together. Returns how many tests all of them define.
fn add_tree<F: Files>(
    alloc: Global,
    files: &mut F,
    invocation: &Invocation,
    spec: Option<&Spec>,
    count: usize,
    trees: &mut List<Tree>,
) -> Result<usize, Unplanned>
    requires bounded { IsBounded invocation.now }
    requires few { count ≤ most_tree_tests }
    ensures ok { IfOk result (AddsTree invocation.now (option_copied spec.entry) (F.tells files.old) (F.tells files.new) count trees.old trees.new) }
    ensures err { IfErr result (λ bad. HasNoTree invocation.now (option_copied spec.entry) (F.tells files.old) (F.tells files.new) count bad.names bad.outcome) }
    ensures same { OnErr result (trees.new ≡ trees.old) }
{
    let tree = plan_tree(alloc, files, invocation, spec, count)?;
    let all = count + tree.defs.len();
    match trees.push(tree) {
        Ok(()) => Ok(all),
        Err(NoMemory) => Err(unread(alloc, Outcome::Memory)),
    }
}

/// Reads and plans the tree that an invocation names, behind so many tests of other trees.
#[tactic(auto, using(crate::proofs::TreeLemmas::unread_tree, crate::proofs::TreeLemmas::unplanned_tree))]
fn plan_tree<F: Files>(
    alloc: Global,
    files: &mut F,
    invocation: &Invocation,
    spec: Option<&Spec>,
    count: usize,
) -> Result<Tree, Unplanned>
    requires bounded { IsBounded invocation.now }
    requires few { count ≤ most_tree_tests }
    ensures ok { IfOk result (HasTree invocation.now (option_copied spec.entry) (F.tells files.old) (F.tells files.new) count) }
    ensures err { IfErr result (λ bad. HasNoTree invocation.now (option_copied spec.entry) (F.tells files.old) (F.tells files.new) count bad.names bad.outcome) }
{
    let folder = match read_folder(alloc, files, invocation, count) {
        Ok(folder) => folder,
        Err(outcome) => return Err(unread(alloc, outcome)),
    };
    let Tests { defs, props } = &folder.tests;
    match plan(alloc, defs, props, &invocation.wanted, spec, &folder.costs) {
        Ok(plan) => {
            hand_out_sound(&plan);
            Ok(folder.with_plan(plan))
        }
        Err(fault) => {
            let why = why_unplanned(alloc, defs.as_slice(), fault);
            drop(folder);
            Err(why)
        }
    }
}

/// Reads the tests of the tree that an invocation names, their properties and the cost data.
#[tactic(auto, using(crate::proofs::TreeLemmas::unread_folder, crate::proofs::TreeLemmas::overfull_folder, crate::proofs::TreeLemmas::uncosted_folder, crate::proofs::TreeLemmas::has_folder))]
fn read_folder<F: Files>(
    alloc: Global,
    files: &mut F,
    invocation: &Invocation,
    count: usize,
) -> Result<TreeFolder, Outcome>
    requires few { count ≤ most_tree_tests }
    ensures ok { IfOk result (IsTreeFolder invocation.now (F.tells files.old) (F.tells files.new) count) }
    ensures err { IfErr result (IsUnreadTree invocation.now (F.tells files.old) (F.tells files.new) count) }
{
    let tests = read_tests(alloc, files, invocation)?;
    few_enough(alloc, &invocation.wanted.dir, count, tests.defs.len())?;
    let costs = read_costs(alloc, files, &invocation.wanted.dir)?;
    Ok(TreeFolder { tests, costs })
}

/// Refuses the first file of a folder where its tests, behind those of other trees, are too many.
fn few_enough(alloc: Global, dir: &Name, count: usize, more: usize) -> Result<(), Outcome>
    requires few { count ≤ most_tree_tests }
    ensures ok { OnOk result (count + more ≤ most_tree_tests) }
    ensures err { IfErr result (RefusesNumber (count + more) dir.now) }
{
    if more > MOST_TREE_TESTS - count {
        return Err(Outcome::Refused(Refusal::TestFile {
            file: join_path(alloc, dir, &Name::of(alloc, b"CTestTestfile.cmake")?)?,
            line: 0,
            kind: ReadKind::TooManyTests,
        }));
    }
    Ok(())
}

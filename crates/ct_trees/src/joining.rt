ghost use Rattle.std.specs.Prelude.{◌≡◌, ◌<◌, ◌≤◌, ◌-◌, ◌^◌, ◌++◌, All, IfErr, IfOk, IsOkAnd, OnOk, length, map, vec_len};
ghost use Rattle.std.specs.Vec.{vec_capacity};
ghost use Rattle.ct_plan.specs.Whole.{AreTreeParts, IsPlannedTree, IsWholePlan, RunAlike, defined_in};
ghost use Rattle.ct_trees.specs.Trees.{plans_of as plans_in};
ghost use Rattle.ct_trees.specs.Joining.{AreJoined, JoinsTests};
ghost use Rattle.ct_trees.specs.TreeReports.{rest_of};

use ct_base::{List, NoMemory, TestDef};
use ct_cost::CostData;
use ct_history::Plan;
use ct_plan::{Tree, whole_plan};
use ct_props::Props;
use std::alloc::Global;

/// What is left of a tree whose tests run with those of other trees.
#[derive(Drop)]
pub struct TreeRest {
    /// How many tests the tree defines.
    pub defined: usize,
    pub costs: CostData,
    pub plan: Plan,
}

/// The tests of several trees, one tree behind the other.
#[derive(Drop)]
pub struct Joined {
    pub defs: List<TestDef>,
    /// The properties of the tests, in the same order.
    pub props: List<Props>,
}

/// Puts the tests of these trees one tree behind the other, without a copy, and returns besides what is
/// left of each tree. Only the tests are lost where memory runs out.
#[tactic(auto, using(crate::proofs::JoinLemmas::none_joined, crate::proofs::JoinLemmas::tests_more, crate::proofs::JoinLemmas::rests_more))]
fn join_trees(
    alloc: Global,
    mut room: Vec<TreeRest>,
    trees: List<Tree>,
) -> (Result<Joined, NoMemory>, List<TreeRest>)
    requires none { vec_len room ≡ 0 }
    requires room { length trees ≤ vec_capacity room }
    ensures joined { IfOk result.0 (AreJoined trees) }
    ensures rests { result.1 ≡ map rest_of trees }
{
    let mut joined = Ok(Joined {
        defs: List::new(alloc),
        props: List::new(alloc),
    });
    for tree in trees.into_vec() {
        let Tree {
            defs,
            props,
            costs,
            plan,
        } = tree;
        room.push_reserved(TreeRest {
            defined: defs.len(),
            costs,
            plan,
        });
        joined = join_tests(joined, defs, props);
    }
    (joined, List::from_vec(room))
}

/// Puts the tests of a tree behind those of the others, unless memory ran out before.
fn join_tests(
    joined: Result<Joined, NoMemory>,
    defs: List<TestDef>,
    props: List<Props>,
) -> Result<Joined, NoMemory>
    ensures { IfOk result (λ new. IsOkAnd joined (λ old. JoinsTests defs props old new)) }
{
    let mut joined = joined?;
    append(&mut joined.defs, defs)?;
    append(&mut joined.props, props)?;
    Ok(joined)
}

/// Moves the items of another list behind those of this one.
fn append<T: Drop>(list: &mut List<T>, more: List<T>) -> Result<(), NoMemory>
    ensures { OnOk result (list.new ≡ list.old ++ more) }
{
    for item in more.into_vec() {
        list.push(item)?;
    }
    Ok(())
}

/// Trees that are ready to run by their whole plan.
#[derive(Drop)]
pub(crate) struct Prepared {
    pub(crate) joined: Joined,
    /// What is left of each tree, in order.
    pub(crate) rests: List<TreeRest>,
    pub(crate) whole: Plan,
    /// Room for the plan of each tree.
    pub(crate) room: Vec<Plan>,
}

/// Makes the whole plan of these trees, and puts their tests one tree behind the other. Where memory runs
/// out, the plans of the trees come back.
pub(crate) fn prepare(
    alloc: Global,
    trees: List<Tree>,
    room: Vec<Plan>,
) -> Result<Prepared, List<Plan>>
    requires planned { All IsPlannedTree trees }
    requires alike { RunAlike trees }
    requires few { defined_in trees < 2 ^ 32 - 1 }
    requires none { vec_len room ≡ 0 }
    requires room { length trees ≤ vec_capacity room }
    ensures whole { IfOk result (λ ready. IsWholePlan trees ready.whole) }
    ensures parts { IfOk result (λ ready. AreTreeParts ready.whole 0 trees) }
    ensures joined { IfOk result (λ ready. AreJoined trees ready.joined) }
    ensures rests { IfOk result (λ ready. ready.rests ≡ map rest_of trees) }
    ensures none { IfOk result (λ ready. vec_len ready.room ≡ 0) }
    ensures room { IfOk result (λ ready. length trees ≤ vec_capacity ready.room) }
    ensures plans { IfErr result (λ plans. plans ≡ plans_in trees) }
{
    let Ok(whole) = whole_plan(alloc, trees.as_slice()) else {
        return Err(plans_of_trees(room, trees));
    };
    let Ok(rests) = Vec::with_capacity(alloc, trees.len()) else {
        return Err(plans_of_trees(room, trees));
    };
    let (joined, rests) = join_trees(alloc, rests, trees);
    match joined {
        Ok(joined) => Ok(Prepared {
            joined,
            rests,
            whole,
            room,
        }),
        Err(NoMemory) => Err(plans_of(room, rests)),
    }
}

/// Takes the plans of the trees, which takes no memory.
#[tactic(auto, using(crate::proofs::JoinLemmas::plans_more))]
pub(crate) fn plans_of(mut room: Vec<Plan>, rests: List<TreeRest>) -> List<Plan>
    requires none { vec_len room ≡ 0 }
    requires room { length rests ≤ vec_capacity room }
    ensures { result ≡ map (λ rest. rest.plan) rests }
{
    for rest in rests.into_vec() {
        let TreeRest { plan, .. } = rest;
        room.push_reserved(plan);
    }
    List::from_vec(room)
}

/// Takes the plans of these trees, which takes no memory.
#[tactic(auto, using(crate::proofs::JoinLemmas::tree_plans_more))]
pub(crate) fn plans_of_trees(mut room: Vec<Plan>, trees: List<Tree>) -> List<Plan>
    requires none { vec_len room ≡ 0 }
    requires room { length trees ≤ vec_capacity room }
    ensures { result ≡ plans_in trees }
{
    for tree in trees.into_vec() {
        let Tree { plan, .. } = tree;
        room.push_reserved(plan);
    }
    List::from_vec(room)
}

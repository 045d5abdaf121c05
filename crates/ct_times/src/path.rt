ghost use Rattle.std.specs.Prelude.{◌≡◌, ◌==◌, ◌&&◌, true, ℕ, map, nat_lt, IfOk, OnOk, IsPermutation, if◌then◌else◌};
ghost use Rattle.std.specs.Borrow.{Bor};
ghost use Rattle.std.specs.List.{list_all, list_any};
ghost use Rattle.std.specs.List.Sorted.{IsNonDecreasingBy};
ghost use Rattle.ct_history.specs.declared.plan.PlanTest.{PlanTest};
ghost use Rattle.ct_history.specs.Plan.{IsAscendingFrom, IsSound, has_sound_links, test_at};
ghost use Rattle.ct_times.specs.Amounts.{is_path};
ghost use Rattle.ct_times.specs.Bounds as Bounds;
ghost use Rattle.ct_times.specs.Bounds.{done_by};
ghost use Rattle.ct_times.specs.First.{AreWeights, GoesBack, IsHeaviestPath, weight_with};
ghost use Rattle.ct_times.specs.Works.{kept_at};

use crate::amounts::ran_beside;
use crate::works::{Works, work_at};
use ct_base::{List, NoMemory};
use ct_history::{PlanParts, PlanTest, place_of};
use indexmap::{IndexMap, IndexSet};
use std::alloc::Global;

/// The numbers of tests, from the last one back; each has the next one in `before`.
pub type Path = IndexSet<u32>;

/// Finds a heaviest path: from the first test of the greatest weight back to the first of the greatest
/// weight before it, while some weight is left.
pub(crate) fn heaviest_path(
    alloc: Global,
    plan: &PlanParts,
    works: &Works,
) -> Result<Path, NoMemory>
    requires { IsSound plan.now }
    ensures path { IfOk result (λ path. is_path plan.now.tests path.keys ≡ true) }
    ensures heaviest { IfOk result (λ path. IsHeaviestPath plan.now (done_by works.now) path.keys) }
{
    let weights = weights_of(alloc, plan, works)?;
    let end = heaviest_end(alloc, plan, works, &weights)?;
    let path = walk_back(alloc, plan.tests.as_slice(), &weights, end)?;
    Ok(path)
}

/// Weighs each test: its own work and the greatest weight of those before it.
fn weights_of(alloc: Global, plan: &PlanParts, works: &Works) -> Result<Works, NoMemory>
    requires { IsSound plan.now }
    ensures { IfOk result (λ weights. AreWeights plan.now (done_by works.now) (kept_at weights)) }
{
    let sorted = by_rank(alloc, plan.tests.as_slice())?;
    let mut weights: Works = IndexMap::new(alloc);
    for test in &sorted {
        weigh(plan.level, works, &mut weights, *test)?;
    }
    Ok(weights)
}

/// Weighs a test, where those before it are weighed.
fn weigh(level: u32, works: &Works, weights: &mut Works, test: &PlanTest) -> Result<(), NoMemory>
    ensures { OnOk result ((number : ℕ) → kept_at weights.new number ≡ (if test.now.number == number
        then weight_with level (done_by works.now)
        (kept_at weights.old) test.now else kept_at weights.old number)) }
{
    let before = greatest(weights, test.before.as_slice());
    let weight = own_weight(level, works, test).saturating_add(before);
    weights.insert(test.number, weight)?;
    Ok(())
}

/// Lists tests by their ranks, such that those before a test come first.
fn by_rank(alloc: Global, tests: &[PlanTest]) -> Result<Vec<&PlanTest>, NoMemory>
    ensures same { IfOk result
        (λ sorted. IsPermutation tests.now (map (λ (t : Bor PlanTest). t.now) sorted.items)) }
    ensures sorted { IfOk result
        (λ sorted. IsNonDecreasingBy (λ (t : Bor PlanTest). t.now.rank) sorted.items) }
{
    let mut sorted = lent(alloc, tests)?;
    sorted.sort_unstable_by(|one, other| one.rank.cmp(&other.rank));
    Ok(sorted)
}

/// Lists these tests.
fn lent(alloc: Global, tests: &[PlanTest]) -> Result<Vec<&PlanTest>, NoMemory>
    ensures { IfOk result (λ lent. map (λ (t : Bor PlanTest). t.now) lent.items ≡ tests.now) }
{
    let mut lent = Vec::new(alloc);
    for test in tests {
        lent.push(test)?;
    }
    Ok(lent)
}

/// Returns what a test weighs by itself: its work, if it ran and is not lone.
fn own_weight(level: u32, works: &Works, test: &PlanTest) -> u128
    ensures { result ≡ Bounds.own_weight level (done_by works.now) test.now }
{
    if ran_beside(level, works, test) {
        work_at(works, test.number)
    } else {
        0
    }
}

/// Returns the greatest weight of these tests, 0 without one.
fn greatest(weights: &Works, numbers: &[u32]) -> u128
    ensures { result ≡ Bounds.greatest (kept_at weights.now) numbers.now }
{
    let mut most: u128 = 0;
    for number in numbers {
        most = most.max(work_at(weights, *number));
    }
    most
}

/// Finds the first of these tests that has their greatest weight, if that is above 0.
fn heaviest(weights: &Works, numbers: &[u32]) -> Option<u32>
    ensures { result ≡ Bounds.heaviest (kept_at weights.now) numbers.now }
{
    let most = greatest(weights, numbers);
    let mut numbers = numbers.iter().copied();
    numbers.find(|number| has_weight(weights, *number, most))
}

/// Returns whether a test weighs this much, and weighs at all.
fn has_weight(weights: &Works, number: u32, wanted: u128) -> bool
    ensures { result ≡ (nat_lt 0 (kept_at weights.now number) && kept_at weights.now number == wanted) }
{
    let weight = work_at(weights, number);
    0 < weight && weight == wanted
}

/// Finds where the heaviest path ends: the first test of the greatest weight that weighs by itself.
fn heaviest_end(
    alloc: Global,
    plan: &PlanParts,
    works: &Works,
    weights: &Works,
) -> Result<Option<u32>, NoMemory>
    ensures { IfOk result (λ end. end ≡ Bounds.heaviest (kept_at weights.now)
        (Bounds.weighing plan.now.level (done_by works.now) plan.now.tests)) }
{
    let numbers = weighing(alloc, plan.level, works, plan.tests.as_slice())?;
    Ok(heaviest(weights, numbers.as_slice()))
}

/// Lists the tests that weigh by themselves.
fn weighing(
    alloc: Global,
    level: u32,
    works: &Works,
    tests: &[PlanTest],
) -> Result<List<u32>, NoMemory>
    ensures { IfOk result (λ numbers. numbers ≡ Bounds.weighing level (done_by works.now) tests.now) }
{
    let mut numbers = List::new(alloc);
    for test in tests {
        if own_weight(level, works, test) > 0 {
            numbers.push(test.number)?;
        }
    }
    Ok(numbers)
}

/// Lists a test, if there is one, and behind it those that lead back from it.
fn walk_back(
    alloc: Global,
    tests: &[PlanTest],
    weights: &Works,
    end: Option<u32>,
) -> Result<Path, NoMemory>
    requires ascends { IsAscendingFrom 1 (map (λ t. t.number) tests.now) }
    requires links { list_all (has_sound_links tests.now) tests.now ≡ true }
    ensures path { IfOk result (λ path. is_path tests.now path.keys ≡ true) }
    ensures goes_back { IfOk result (λ path. GoesBack (kept_at weights.now) tests.now end path.keys) }
{
    let mut path = IndexSet::new(alloc);
    let mut next = end;
    'walk: while let Some(number) = next {
        path.insert(number)?;
        next = heaviest_before(tests, weights, number);
    }
    Ok(path)
}

/// Finds the heaviest of those before a test.
fn heaviest_before(tests: &[PlanTest], weights: &Works, number: u32) -> Option<u32>
    requires { IsAscendingFrom 1 (map (λ t. t.number) tests.now) }
    ensures { result ≡ Bounds.heaviest_before (kept_at weights.now) (test_at tests.now number) }
{
    match place_of(tests, number) {
        Some(place) => heaviest(weights, tests[place].before.as_slice()),
        None => None,
    }
}

/// Returns whether a test is on a path.
pub(crate) fn is_on_path(path: &Path, test: &PlanTest) -> bool
    ensures { result ≡ list_any (λ n. n == test.now.number) path.now.keys }
{
    path.contains(&test.number)
}

//! Laws of lengths and bounds, for readers: each function does nothing, and its clauses are the law.

ghost use Rattle.std.specs.Prelude.{◌≡◌, ◌≤◌, true, ℕ, List, Some};
ghost use Rattle.ct_base.specs.declared.defs.Resource.{Resource};
ghost use Rattle.ct_history.specs.declared.plan.PlanParts.{PlanParts};
ghost use Rattle.ct_history.specs.declared.history.Entry.{Entry};
ghost use Rattle.ct_history.specs.Legal.{is_legal};
ghost use Rattle.ct_history.specs.Plan.{IsSound};
ghost use Rattle.ct_times.specs.Times.{IsNeverAbove, IsTiming, least_times, length_of};
ghost use Rattle.ct_times.specs.Chain.{HasOneChain};
ghost use Rattle.ct_times.specs.Capacity.{HaveSameWork, IsCapacity, bound};
ghost use Rattle.ct_times.specs.Amounts.{amount_of, blocks, is_path, lock_amount, path_amount, processor_amount, slot_amount, wide_amount};

/// The least times of a legal history are a timing of it, and each timing is at no place below them.
pub fn least_times_are_the_least_timing()
    ensures timing { (plan : PlanParts) (entries : List Entry) → is_legal plan entries ≡ true →
        IsTiming entries (least_times entries) }
    ensures least { (entries : List Entry) (times : List ℕ) → IsTiming entries times →
        IsNeverAbove (least_times entries) times }
{}

/// Exactly one list of attempts is the chain of a history. Its attempts differ, each starts where the
/// one in front of it ends, and their micros add up to the length.
pub fn a_history_has_one_chain()
    ensures { (entries : List Entry) → HasOneChain entries }
{}

/// No legal history of the same plan with the same work of each test is shorter than the bound of a
/// capacity, whatever the order of its attempts, complete or not.
pub fn no_order_is_shorter_than_a_bound()
    ensures { (plan : PlanParts) (size : ℕ) (amount : ℕ → ℕ) (recorded other : List Entry) →
        IsSound plan → IsCapacity plan size amount → is_legal plan other ≡ true →
        HaveSameWork plan recorded other → bound plan size amount recorded ≤ length_of other }
{}

/// Tests of which each has the next one in `before` are a capacity of 1: no two of them run at once.
///
/// Source: CMake manual, cmake-properties(7), DEPENDS and FIXTURES_REQUIRED.
pub fn a_path_is_a_capacity()
    ensures { (plan : PlanParts) (recorded : List Entry) (path : List ℕ) → IsSound plan →
        is_path plan.tests path ≡ true → IsCapacity plan 1 (amount_of plan recorded 1 (path_amount path)) }
{}

/// Processors are a capacity of their level: each test that ran takes its processors.
///
/// Source: CMake manual, cmake-properties(7), PROCESSORS; ctest(1), --parallel.
pub fn processors_are_a_capacity()
    ensures { (plan : PlanParts) (recorded : List Entry) → IsSound plan → 1 ≤ plan.level →
        IsCapacity plan plan.level (amount_of plan recorded plan.level processor_amount) }
{}

/// Tests of more than half of the processors are a capacity of 1: no two of them run at once.
///
/// Source: CMake manual, cmake-properties(7), PROCESSORS.
pub fn wide_tests_are_a_capacity()
    ensures { (plan : PlanParts) (recorded : List Entry) → IsSound plan →
        IsCapacity plan 1 (amount_of plan recorded 1 (wide_amount plan.level)) }
{}

/// A lock is a capacity of 1 for the tests that hold it alone, and for any one test that shares it.
///
/// Source: CMake manual, cmake-properties(7), RESOURCE_LOCK. That locks may be shared is this project's own.
pub fn a_lock_is_a_capacity()
    ensures { (plan : PlanParts) (recorded : List Entry) (lock : List ℕ) (sharer : ℕ) → IsSound plan →
        IsCapacity plan 1 (amount_of plan recorded 1 (lock_amount lock sharer)) }
{}

/// The slots of a kind, in blocks, are a capacity of the blocks that fit into the resources of the kind.
///
/// Source: CMake manual, ctest(1), Resource Allocation.
pub fn slots_are_a_capacity()
    ensures { (plan : PlanParts) (recorded : List Entry) (resources : List Resource) (kind : List ℕ)
        (block : ℕ) → IsSound plan → plan.resources ≡ Some resources → 1 ≤ block →
        1 ≤ blocks kind block resources → IsCapacity plan (blocks kind block resources)
        (amount_of plan recorded (blocks kind block resources) (slot_amount kind block)) }
{}

//! Laws of legal histories, by the places of their entries.

ghost use Rattle.std.specs.Prelude.{◌≡◌, ◌+◌, true, false, ℕ, List, ◌∷◌, ◌++◌, Option};
ghost use Rattle.ct_alloc.specs.declared.placement.Placement.{Placement};
ghost use Rattle.ct_verdict.specs.declared.attempt.Seen.{Seen};
ghost use Rattle.ct_history.specs.declared.plan.PlanParts.{PlanParts};
ghost use Rattle.ct_history.specs.declared.history.Entry.{Entry};
ghost use Rattle.ct_history.specs.declared.history.Entry.TheVariants.{Start, End, Stop};
ghost use Rattle.ct_history.specs.Plan.{IsSound};
ghost use Rattle.ct_history.specs.Legal.{is_legal};
ghost use Rattle.ct_laws.specs.Places.{BeginWithStop, EndAttempt, EndInFirstFailure, HasWaited, LeaveAlone, LeaveOpen, started_attempts};

/// No test starts behind a Stop.
///
/// Source: CMake manual, ctest(1), --stop-on-failure.
pub fn no_test_starts_behind_a_stop()
    ensures { (plan : PlanParts) (front between rest : List Entry) (test attempt worker : ℕ)
        (placement : Option Placement) →
        is_legal plan (front ++ Stop ∷ between ++ Start test attempt worker placement ∷ rest) ≡ false }
{}

/// A Stop stands directly behind the entry that makes the first failure, and it stands there in each run that
/// stops on a failure.
///
/// Source: CMake manual, ctest(1), --stop-on-failure.
pub fn a_stop_stands_behind_the_first_failure()
    ensures behind { (plan : PlanParts) (front rest : List Entry) → IsSound plan →
        is_legal plan (front ++ Stop ∷ rest) ≡ true →
        (plan.stop_on_failure ≡ true) × EndInFirstFailure plan front }
    ensures due { (plan : PlanParts) (front rest : List Entry) → plan.stop_on_failure ≡ true →
        EndInFirstFailure plan front → is_legal plan (front ++ rest) ≡ true → BeginWithStop rest }
{}

/// Where a test starts, each test that it waits for is final, and each of its setups has passed. No entry
/// behind it is of a test that it waits for.
///
/// Source: CMake manual, cmake-properties(7), DEPENDS and FIXTURES_REQUIRED.
pub fn a_test_starts_after_those_that_it_waits_for()
    ensures waited { (plan : PlanParts) (front rest : List Entry) (test attempt worker : ℕ)
        (placement : Option Placement) →
        is_legal plan (front ++ Start test attempt worker placement ∷ rest) ≡ true →
        HasWaited plan test front }
    ensures over { (plan : PlanParts) (front rest : List Entry) (test attempt worker : ℕ)
        (placement : Option Placement) →
        is_legal plan (front ++ Start test attempt worker placement ∷ rest) ≡ true →
        LeaveAlone plan test rest }
{}

/// The attempts of a test are numbered from 1, in order: each is one more than the starts in front of it.
///
/// Source: this project's own.
pub fn attempts_are_numbered_in_order()
    ensures { (plan : PlanParts) (front rest : List Entry) (test attempt worker : ℕ)
        (placement : Option Placement) →
        is_legal plan (front ++ Start test attempt worker placement ∷ rest) ≡ true →
        attempt ≡ started_attempts test front + 1 }
{}

/// Between two starts of a test stands the end of the first one. So no two attempts are open at once.
///
/// Source: CMake manual, ctest(1), --repeat.
pub fn a_test_has_one_attempt_at_a_time()
    ensures { (plan : PlanParts) (front between rest : List Entry) (test one other : ℕ)
        (worker later : ℕ) (placement next : Option Placement) →
        is_legal plan (front ++ Start test one worker placement ∷ between
        ++ Start test other later next ∷ rest) ≡ true →
        EndAttempt test one between }
{}

/// Between two starts by a worker stands the end of the first one. So no worker has two open starts.
///
/// Source: this project's own.
pub fn a_worker_has_one_attempt_at_a_time()
    ensures { (plan : PlanParts) (front between rest : List Entry) (test attempt : ℕ)
        (other next worker : ℕ) (placement later : Option Placement) →
        is_legal plan (front ++ Start test attempt worker placement ∷ between
        ++ Start other next worker later ∷ rest) ≡ true →
        EndAttempt test attempt between }
{}

/// An attempt ends behind its start by the same worker, and it has not ended before.
///
/// Source: this project's own.
pub fn an_attempt_ends_once_behind_its_start()
    ensures { (plan : PlanParts) (front rest : List Entry) (test attempt worker : ℕ) (seen : Seen) →
        is_legal plan (front ++ End test attempt worker seen ∷ rest) ≡ true →
        LeaveOpen test attempt worker front }
{}

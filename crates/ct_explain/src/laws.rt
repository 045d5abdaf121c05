//! Laws of waits, for readers: each function does nothing, and its clauses are the law.

ghost use Rattle.std.specs.Prelude.{◌≡◌, true, ℕ, List, Option, Some};
ghost use Rattle.ct_alloc.specs.declared.placement.Placement.{Placement};
ghost use Rattle.ct_history.specs.declared.plan.PlanParts.{PlanParts};
ghost use Rattle.ct_history.specs.declared.plan.PlanTest.{PlanTest};
ghost use Rattle.ct_history.specs.declared.history.Entry.{Entry};
ghost use Rattle.ct_history.specs.declared.history.Entry.TheVariants as Happened;
ghost use Rattle.ct_history.specs.Legal.{is_allowed};
ghost use Rattle.ct_history.specs.Plan.{test_at};
ghost use Rattle.ct_explain.specs.declared.wait.Wait.TheVariants as Wait;
ghost use Rattle.ct_explain.specs.Waits.{IsElseReady, MeetsEach, wait_of};

/// A Start that is allowed waits for nothing. So one that waits for something is not allowed.
///
/// Source: this project's own.
pub fn an_allowed_start_waits_for_nothing()
    ensures { (plan : PlanParts) (front : List Entry) (t : PlanTest) (attempt worker : ℕ)
        (placement : Option Placement) → test_at plan.tests t.number ≡ Some t →
        is_allowed plan front (Happened.Start t.number attempt worker placement) ≡ true →
        wait_of plan front t attempt worker placement ≡ Wait.Nothing }
{}

/// A Start that waits for nothing meets each condition that it could wait for. So it is allowed, if
/// nothing else forbids it.
///
/// Source: this project's own.
pub fn a_start_that_waits_for_nothing_is_allowed()
    ensures meets { (plan : PlanParts) (front : List Entry) (t : PlanTest) (attempt worker : ℕ)
        (placement : Option Placement) → wait_of plan front t attempt worker placement ≡ Wait.Nothing →
        MeetsEach plan front t attempt worker placement }
    ensures allowed { (plan : PlanParts) (front : List Entry) (t : PlanTest) (attempt worker : ℕ)
        (placement : Option Placement) → test_at plan.tests t.number ≡ Some t →
        IsElseReady plan front t placement → wait_of plan front t attempt worker placement ≡ Wait.Nothing →
        is_allowed plan front (Happened.Start t.number attempt worker placement) ≡ true }
{}

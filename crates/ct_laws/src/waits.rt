//! An attempt that waited for nothing could have started there.

ghost use Rattle.std.specs.Prelude.{◌≡◌, true, ℕ, List, ◌∷◌, ◌++◌, Option, Some};
ghost use Rattle.ct_alloc.specs.declared.placement.Placement.{Placement};
ghost use Rattle.ct_history.specs.declared.plan.PlanParts.{PlanParts};
ghost use Rattle.ct_history.specs.declared.plan.PlanTest.{PlanTest};
ghost use Rattle.ct_history.specs.declared.history.Entry.{Entry};
ghost use Rattle.ct_history.specs.declared.history.Entry.TheVariants.{Start};
ghost use Rattle.ct_history.specs.Plan.{IsSound, test_at};
ghost use Rattle.ct_history.specs.Legal.{is_allowed, is_legal};
ghost use Rattle.ct_explain.specs.declared.wait.Wait.TheVariants.{Nothing};
ghost use Rattle.ct_explain.specs.Waits.{wait_of};

/// An attempt that waited for nothing behind the first entries of a legal history could have started there:
/// its Start is allowed directly behind them. In a chain of attempts, they are the entries in front of the
/// End of the one in front of it.
///
/// Source: this project's own.
pub fn an_attempt_that_waited_for_nothing_could_have_started()
    ensures { (plan : PlanParts) (front between rest : List Entry) (number attempt worker : ℕ)
        (placement : Option Placement) (test : PlanTest) → IsSound plan →
        test_at plan.tests number ≡ Some test →
        is_legal plan (front ++ between ++ Start number attempt worker placement ∷ rest) ≡ true →
        wait_of plan front test attempt worker placement ≡ Nothing →
        is_allowed plan front (Start number attempt worker placement) ≡ true }
{}

//! Laws of pictures, for readers: each function does nothing, and its clauses are the law.

ghost use Rattle.std.specs.Prelude.{◌≡◌, true, ℕ, List};
ghost use Rattle.ct_history.specs.declared.plan.PlanParts.{PlanParts};
ghost use Rattle.ct_history.specs.declared.history.Entry.{Entry};
ghost use Rattle.ct_history.specs.Legal.{is_legal};
ghost use Rattle.ct_times.specs.Times.{least_times};
ghost use Rattle.ct_explain.specs.Bars.{DoNotOverlap, DoNotOverlapInTime, ShowEachEnd, bars};

/// A picture of a legal history has one bar for each attempt that has ended, in the order of the Ends. In a
/// complete history, each attempt has.
pub fn each_attempt_that_ended_has_one_bar()
    ensures { (plan : PlanParts) (entries : List Entry) (times : List ℕ) → is_legal plan entries ≡ true →
        ShowEachEnd entries (bars entries times) }
{}

/// The bars of one worker do not overlap in a picture of a legal history: by the order of the entries, and so
/// by any timing of them, the attempt of one is over when that of the next one starts. By the least
/// times, which a picture shows, each bar ends at the latest where the next one begins.
pub fn bars_of_one_worker_do_not_overlap()
    ensures order { (plan : PlanParts) (entries : List Entry) (times : List ℕ) →
        is_legal plan entries ≡ true →
        DoNotOverlap (bars entries times) }
    ensures time { (plan : PlanParts) (entries : List Entry) → is_legal plan entries ≡ true →
        DoNotOverlapInTime (bars entries (least_times entries)) }
{}

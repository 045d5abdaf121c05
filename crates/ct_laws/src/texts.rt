//! Laws of the texts that a run leaves for the next one.

ghost use Rattle.std.specs.Prelude.{◌≡◌, ℕ, List, map};
ghost use Rattle.ct_history.specs.declared.plan.PlanParts.{PlanParts};
ghost use Rattle.ct_history.specs.declared.history.Entry.{Entry};
ghost use Rattle.ct_history.specs.Failed.{failed_tests};
ghost use Rattle.ct_cost.specs.declared.cost_data.CostData.{CostData};
ghost use Rattle.ct_cost.specs.CostLine.{AreCosts};
ghost use Rattle.ct_cost.specs.Costs.{costs_in, costs_text};
ghost use Rattle.ct_cost.specs.After.{failed_log_text};
ghost use Rattle.ct_select.specs.FailedLog.{failed_in};
ghost use Rattle.ct_laws.specs.Lines.{AreLines, HaveLines};

/// The log of the failed tests names the tests that failed, in order. So they are chosen again.
///
/// Source: CMake manual, ctest(1), --rerun-failed.
pub fn a_failed_log_names_the_tests_that_failed()
    ensures { (plan : PlanParts) (entries : List Entry) → HaveLines (failed_tests plan entries) →
        failed_in (failed_log_text plan entries) ≡ map (λ t. t.name) (failed_tests plan entries) }
{}

/// Cost data that were written are read back as they were, if their names can stand in lines. What was read
/// of a text has such names.
///
/// Source: this project's own.
pub fn written_cost_data_are_read_back()
    ensures back { (costs : CostData) → AreCosts costs → AreLines costs →
        costs_in (costs_text costs) ≡ costs }
    ensures read { (text : List ℕ) → costs_in (costs_text (costs_in text)) ≡ costs_in text }
{}

//! A law of runs, for readers: the function does nothing, and its clause is the law.

ghost use Rattle.std.specs.Prelude.{◌≡◌, List, true};
ghost use Rattle.ct_core.specs.Gate.{GateTell};
ghost use Rattle.ct_history.specs.declared.history.Entry.{Entry};
ghost use Rattle.ct_history.specs.declared.plan.PlanParts.{PlanParts};
ghost use Rattle.ct_history.specs.Legal.{is_legal};
ghost use Rattle.ct_worker.specs.Lent.{AllRunWithin, AreLent};

/// Each program of a run starts while the run's one history allows it.
///
/// For each attempt that a gate recorded, in what the lent pass had seen of the history: the start
/// of the attempt is open. The open starts use no more processors and slots than are declared, no
/// two of them hold the same lock, and a serial test is open alone. Each test that the attempt's
/// test waits for is final, and each of its setups has passed.
pub fn all_run_within()
    ensures { (plan : PlanParts) (befores nows : List GateTell) (history : List Entry) →
        is_legal plan history ≡ true → AreLent plan befores nows history → AllRunWithin plan befores nows }
{}

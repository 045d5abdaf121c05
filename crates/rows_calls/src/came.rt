//! The calls that rows make, over files, gates and a sink in memory, and what they come to.

ghost use Rattle.std.specs.Prelude.{◌<◌, ◌≤◌, IfOk, IfSome, length};
ghost use Rattle.ct_journal.specs.File.{most_journal_bytes};

use ct_app::{Finished, Listed, Outcome, ctest_main, list_main};
use ct_base::{List, MemFiles, MemSink, NoMemory};
use ct_core::ScriptGate;
use ct_explain::{Explained, explain_main};
use ct_history::{History, Plan};
use ct_journal::{
    Checked, JournalEnd, MOST_JOURNAL_BYTES, Recorded, check_main, record_main, record_within,
};
use ct_trees::{TreesFinished, trees_main};
use std::alloc::Global;
use std::io::Print;
use std::sync::Wait;
use std::thread::Threads;
use tests_calls::{CallRow, Inputs, gates_of, inputs_of, words_of};

/// What the calls of rows need of the runtime.
pub(crate) trait Machine: AllocGlobal + Print + Threads + Wait + Sync {}

impl<R: AllocGlobal + Print + Threads + Wait + Sync> Machine for R {}

/// What a call came to.
#[derive(Drop)]
pub(crate) struct Came {
    pub(crate) status: u8,
    /// How it ended, unless it reads a journal.
    pub(crate) outcome: Option<Outcome>,
    /// The tree, from 0, at which a refusal or a fault of the files came.
    pub(crate) tree: Option<u32>,
    /// How many plans were made.
    pub(crate) plans: usize,
    /// The plan of the whole run, if one was made.
    pub(crate) whole: Option<Plan>,
    /// The history, if there was a run.
    pub(crate) history: Option<History>,
    /// What became of the journal, if one was to be kept.
    pub(crate) journal: Option<Journal>,
    pub(crate) files: MemFiles,
    pub(crate) gates: Vec<ScriptGate>,
    pub(crate) sink: MemSink,
}

/// What became of a journal.
#[derive(Clone, Copy)]
pub(crate) struct Journal {
    /// The status of the run itself.
    pub(crate) of_run: u8,
    pub(crate) end: JournalEnd,
    /// The status of the check of the journal, if it was written.
    pub(crate) check: Option<u8>,
}

impl Came {
    /// What a call without a plan came to.
    fn without_plan(
        alloc: Global,
        status: u8,
        outcome: Option<Outcome>,
        files: MemFiles,
        sink: MemSink,
    ) -> Came {
        Came {
            status,
            outcome,
            tree: None,
            plans: 0,
            whole: None,
            history: None,
            journal: None,
            files,
            gates: Vec::new(alloc),
            sink,
        }
    }

    /// What a run came to.
    fn of_run(finished: Finished<MemFiles, ScriptGate, MemSink>) -> Came {
        Came {
            status: finished.status,
            outcome: Some(finished.outcome),
            tree: None,
            plans: if finished.plan.is_some() { 1 } else { 0 },
            whole: finished.plan,
            history: finished.history,
            journal: None,
            files: finished.files,
            gates: finished.gates,
            sink: finished.sink,
        }
    }

    /// What a run over several trees came to.
    fn of_trees(finished: TreesFinished<MemFiles, ScriptGate, MemSink>) -> Came {
        Came {
            status: finished.status,
            outcome: Some(finished.outcome),
            tree: finished.tree,
            plans: finished.plans.len(),
            whole: finished.whole,
            history: finished.history,
            journal: None,
            files: finished.files,
            gates: finished.gates,
            sink: finished.sink,
        }
    }
}

/// Makes the call of a row. `None` where there is no call of this name.
pub(crate) fn come(rt: &impl Machine, call: &CallRow<'_>) -> Result<Option<Came>, NoMemory> {
    let alloc = rt.alloc();
    Ok(Some(match call.top {
        "ctest" => run(rt, call, inputs_of(alloc, call)?)?,
        "ctest-again" => {
            let first = run(rt, call, inputs_of(alloc, call)?)?;
            run(rt, call, inputs_over(alloc, call, first.files)?)?
        }
        "list" => list(alloc, call)?,
        "trees" => run_trees(rt, call)?,
        "record" => record(rt, call, inputs_of(alloc, call)?)?,
        "record-again" => {
            let first = record(rt, call, inputs_of(alloc, call)?)?;
            record(rt, call, inputs_over(alloc, call, first.files)?)?
        }
        "check" => check(alloc, call)?,
        "explain" => explain(alloc, call)?,
        _ => return Ok(None),
    }))
}

/// Makes what a call is given over the files that another one left.
fn inputs_over(alloc: Global, call: &CallRow<'_>, left: MemFiles) -> Result<Inputs, NoMemory>
    ensures { IfOk result (λ inputs. length inputs.words < 200) }
{
    let mut inputs = inputs_of(alloc, call)?;
    inputs.files = left;
    Ok(inputs)
}

/// Runs the tests of a folder, or lists them.
fn run(rt: &impl Machine, call: &CallRow<'_>, inputs: Inputs) -> Result<Came, NoMemory>
    requires few { length inputs.words < 200 }
{
    let alloc = rt.alloc();
    let gates = gates_of(alloc, call, call.gates())?;
    let Inputs {
        words,
        env,
        files,
        sink,
    } = inputs;
    let finished = ctest_main(
        rt,
        alloc,
        words.as_slice(),
        env.as_slice(),
        files,
        gates,
        sink,
    );
    Ok(Came::of_run(finished))
}

/// Lists without a gate.
fn list(alloc: Global, call: &CallRow<'_>) -> Result<Came, NoMemory> {
    let Inputs {
        words,
        files,
        sink,
        ..
    } = inputs_of(alloc, call)?;
    let Listed {
        outcome,
        status,
        files,
        sink,
    } = list_main(alloc, words.as_slice(), files, sink);
    Ok(Came::without_plan(alloc, status, Some(outcome), files, sink))
}

/// Runs the tests of several trees.
fn run_trees(rt: &impl Machine, call: &CallRow<'_>) -> Result<Came, NoMemory> {
    let alloc = rt.alloc();
    let gates = gates_of(alloc, call, call.gates())?;
    let Inputs {
        words,
        env,
        files,
        sink,
    } = inputs_of(alloc, call)?;
    let finished = trees_main(
        rt,
        alloc,
        words.as_slice(),
        env.as_slice(),
        files,
        gates,
        sink,
    );
    Ok(Came::of_trees(finished))
}

/// Runs tests, keeps the journal, and checks a journal that was written.
fn record(rt: &impl Machine, call: &CallRow<'_>, inputs: Inputs) -> Result<Came, NoMemory>
    requires few { length inputs.words < 200 }
{
    let alloc = rt.alloc();
    let gates = gates_of(alloc, call, call.gates())?;
    let Inputs {
        words,
        env,
        files,
        sink,
    } = inputs;
    let (words, env) = (words.as_slice(), env.as_slice());
    let recorded = match most_in(call) {
        Some(most) => record_within(rt, alloc, most, words, env, files, gates, sink),
        None => record_main(rt, alloc, words, env, files, gates, sink),
    };
    recorded_by(alloc, call, recorded)
}

/// The greatest size of a journal of this call, if it has one of its own.
fn most_in(call: &CallRow<'_>) -> Option<u64>
    ensures { IfSome result (λ most. most ≤ most_journal_bytes) }
{
    let most: u64 = call.fact("most ")?.parse().ok()?;
    Some(most.min(MOST_JOURNAL_BYTES))
}

/// What a run that keeps its journal came to, with the check of a journal that was written.
fn recorded_by(
    alloc: Global,
    call: &CallRow<'_>,
    recorded: Recorded<MemFiles, ScriptGate, MemSink>,
) -> Result<Came, NoMemory> {
    let Recorded {
        mut finished,
        journal,
        status,
        ..
    } = recorded;
    let of_run = finished.status;
    finished.status = status;
    let mut came = Came::of_run(finished);
    let mut check = None;
    if journal == JournalEnd::Written {
        let (status, files) = check_again(alloc, call, came.files)?;
        came.files = files;
        check = Some(status);
    }
    came.journal = Some(Journal {
        of_run,
        end: journal,
        check,
    });
    Ok(came)
}

/// Checks the journal that a call left in these files, and returns the status and the files.
fn check_again(
    alloc: Global,
    call: &CallRow<'_>,
    files: MemFiles,
) -> Result<(u8, MemFiles), NoMemory> {
    let words = words_of(alloc, call.words)?;
    let sink = MemSink::new(alloc, List::new(alloc));
    let Checked { status, files, .. } = check_main(alloc, words.as_slice(), files, sink);
    Ok((status, files))
}

/// Checks a journal.
fn check(alloc: Global, call: &CallRow<'_>) -> Result<Came, NoMemory> {
    let Inputs {
        words,
        files,
        sink,
        ..
    } = inputs_of(alloc, call)?;
    let Checked {
        status,
        files,
        sink,
        ..
    } = check_main(alloc, words.as_slice(), files, sink);
    Ok(Came::without_plan(alloc, status, None, files, sink))
}

/// Explains a journal.
fn explain(alloc: Global, call: &CallRow<'_>) -> Result<Came, NoMemory> {
    let Inputs {
        words,
        files,
        sink,
        ..
    } = inputs_of(alloc, call)?;
    let Explained {
        status,
        files,
        sink,
        ..
    } = explain_main(alloc, words.as_slice(), files, sink);
    Ok(Came::without_plan(alloc, status, None, files, sink))
}

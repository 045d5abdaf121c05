ghost use Rattle.std.specs.Prelude.{◌≡◌, IfOk};
ghost use Rattle.ct_load.specs.Load.{IsLoadCount};
ghost use Rattle.ct_load.specs.Run.{IsLoadRun, run_words};

use crate::tree::tree_files;
use crate::world::gates_of;
use ct_app::{Finished, Outcome, ctest_main};
use ct_base::{CalmFiles, CalmSink, Name, NoMemory};
use ct_core::ScriptGate;
use std::alloc::Global;
use std::sync::Wait;
use std::thread::Threads;

/// What a run over files, gates and a sink in memory returns.
pub type LoadRun = Finished<CalmFiles, ScriptGate, CalmSink>;

/// Runs `count` generated tests by four workers.
///
/// Where memory ran out in the run, what is left of it is dropped. A run of so many tests has no other end.
pub(crate) fn run_of<R: Threads + Wait + Sync>(
    rt: &R,
    alloc: Global,
    count: u32,
) -> Result<LoadRun, NoMemory>
    requires { IsLoadCount count }
    ensures { IfOk result (λ run. IsLoadRun count run) }
{
    let words = run_words(alloc)?;
    let files = tree_files(alloc, count)?;
    let gates = gates_of(alloc, count)?;
    let sink = CalmSink::new(alloc);
    let run = ctest_main(rt, alloc, words.as_slice(), &[], files, gates, sink);
    match run.outcome {
        Outcome::Completed => Ok(run),
        Outcome::Memory => Err(NoMemory),
        _ => unreachable!(),
    }
}

/// Returns the words of the run.
fn run_words(alloc: Global) -> Result<Vec<Name>, NoMemory>
    ensures { IfOk result (λ words. words.items ≡ run_words) }
{
    let mut words = Vec::new(alloc);
    words.push(Name::of(alloc, b"-j")?)?;
    words.push(Name::of(alloc, b"4")?)?;
    Ok(words)
}

//! Calls over files, gates and a sink in memory, and what is told of them.

ghost use Rattle.std.specs.Prelude.{◌<◌, vec_len};

use ct_app::{Finished, Outcome, ctest_main};
use ct_base::{MemFiles, MemSink, NoMemory};
use ct_core::Gate;
use ct_history::History;
use std::alloc::Global;
use std::process::Abort;
use std::sync::Wait;
use std::test::Fail;
use std::thread::Threads;
use tests_calls::{CallRow, Inputs, entries_of, inputs_of, written};

/// What a run and its assertions need of the runtime.
pub(crate) trait Machine: Abort + AllocGlobal + Threads + Wait + Sync {}

impl<R: Abort + AllocGlobal + Threads + Wait + Sync> Machine for R {}

/// Runs on these gates.
pub(crate) fn run_on<G: Gate + Send + Drop>(
    rt: &impl Machine,
    call: &CallRow<'_>,
    gates: Vec<G>,
) -> Result<Finished<MemFiles, G, MemSink>, NoMemory>
    requires { 0 < vec_len gates }
{
    let alloc = rt.alloc();
    let Inputs {
        words,
        env,
        files,
        sink,
    } = inputs_of(alloc, call)?;
    Ok(ctest_main(
        rt,
        alloc,
        words.as_slice(),
        env.as_slice(),
        files,
        gates,
        sink,
    ))
}

/// Reports a status and what was written.
pub(crate) fn status_told(alloc: Global, status: u8, sink: &MemSink) -> Result<String, NoMemory> {
    Ok(format!(in alloc; "status {status}\n{}", written(sink))?)
}

/// Fails unless a text is each that is wanted of a call.
pub(crate) fn expect(alloc: Global, call: &CallRow<'_>, text: &str) -> Result<(), Fail> {
    for want in &call.wants(alloc)? {
        if !want.allows(alloc, text)? {
            return Err(Fail::new(format_args!("{call}\n{text}")));
        }
    }
    Ok(())
}

pub(crate) fn name_of(outcome: &Outcome) -> &'static str {
    match outcome {
        Outcome::Completed => "Completed",
        Outcome::Listed => "Listed",
        Outcome::Usage { .. } => "Usage",
        Outcome::Refused(_) => "Refused",
        Outcome::FilesFault { .. } => "FilesFault",
        Outcome::OutputFault => "OutputFault",
        Outcome::Memory => "Memory",
    }
}

/// Reports the history of a run.
pub(crate) fn happened(alloc: Global, history: Option<&History>) -> Result<String, NoMemory> {
    match history {
        Some(history) => entries_of(alloc, history.entries.as_slice()),
        None => Ok(String::new(alloc)),
    }
}

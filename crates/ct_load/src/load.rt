ghost use Rattle.std.specs.Prelude.{◌≡◌, ◌↔◌, None, IfSome};
ghost use Rattle.ct_app.specs.Calls.{Tries};
ghost use Rattle.ct_load.specs.Load.{CanBeRun, IsLoadCount, Loads, LoadsTests, PutsSummary, asked_count, count_within, usage_line};
ghost use Rattle.ct_load.specs.Run.{IsFinal};

use crate::LoadRun;
use crate::run::run_of;
use ct_base::{Name, Sink, SinkFault, number};
use ct_report::summary;
use std::alloc::Global;
use std::sync::Wait;
use std::thread::Threads;

/// The greatest number of tests.
///
/// Source: this project's choice.
const MOST_TESTS: u64 = 100_000;

/// What a load returns.
#[derive(Drop)]
pub struct Loaded<S> {
    /// The exit code of the program.
    pub status: u8,
    /// The run, if it was completed and memory was not wanting for its summary.
    pub run: Option<LoadRun>,
    pub sink: S,
}

/// Runs as many generated tests as the words ask for, from 1 to 100,000, over files, gates and a sink in
/// memory, and puts the summary of that run.
///
/// The status is that of the run. It is 4 where the sink fails at the summary, and 5 where memory
/// is wanting. For words other than one number in that range, it puts a line that says so, and the
/// status is 1, whether or not that put fails. The generated tests are never refused: a run of them is
/// completed, unless memory runs out (`runnable`).
///
/// Source: this project's choice.
pub fn load_main<R: Threads + Wait + Sync, S: Sink>(
    rt: &R,
    alloc: Global,
    words: &[Name],
    sink: S,
) -> Loaded<S>
    ensures usage { (result.status ≡ 1) ↔ (asked_count words.now ≡ None) }
    ensures answer { Loads (asked_count words.now) (S.tells sink) (S.tells result.sink)
        result.run result.status }
    ensures runnable { IfSome (asked_count words.now) CanBeRun }
{
    match asked_count(words) {
        Some(count) => load(rt, alloc, count, sink),
        None => report_usage(sink),
    }
}

/// Returns the number of tests that the words ask for, if they ask for one.
fn asked_count(words: &[Name]) -> Option<u32>
    ensures is { result ≡ asked_count words.now }
    ensures within { IfSome result IsLoadCount }
{
    let [word] = words else {
        return None;
    };
    count_within(number(word.bytes())?)
}

fn count_within(count: u64) -> Option<u32>
    ensures is { result ≡ count_within count }
    ensures within { IfSome result IsLoadCount }
{
    if 1 <= count && count <= MOST_TESTS {
        Some(count as u32)
    } else {
        None
    }
}

/// Puts the line that says which words a load takes.
fn report_usage<S: Sink>(mut sink: S) -> Loaded<S>
    ensures line { Tries usage_line (S.tells sink) (S.tells result.sink) }
    ensures none { result.run ≡ None }
    ensures status { result.status ≡ 1 }
{
    let _put = sink.put(b"usage: ct_load n\n");
    Loaded {
        status: 1,
        run: None,
        sink,
    }
}

/// Runs `count` generated tests, and puts the summary of that run.
fn load<R: Threads + Wait + Sync, S: Sink>(
    rt: &R,
    alloc: Global,
    count: u32,
    mut sink: S,
) -> Loaded<S>
    requires { IsLoadCount count }
    ensures { LoadsTests count (S.tells sink) (S.tells result.sink) result.run result.status }
{
    let Ok(run) = run_of(rt, alloc, count) else {
        return without_memory(sink);
    };
    match put_summary(alloc, &mut sink, &run) {
        Ok(()) => Loaded {
            status: run.status,
            run: Some(run),
            sink,
        },
        Err(SinkFault::Failed) => Loaded {
            status: 4,
            run: Some(run),
            sink,
        },
        Err(SinkFault::NoMemory) => without_memory(sink),
    }
}

fn without_memory<S: Sink>(sink: S) -> Loaded<S>
    ensures sink { result.sink ≡ sink }
    ensures none { result.run ≡ None }
    ensures status { result.status ≡ 5 }
{
    Loaded {
        status: 5,
        run: None,
        sink,
    }
}

/// Puts the summary of a run that was completed.
fn put_summary<S: Sink>(alloc: Global, sink: &mut S, run: &LoadRun) -> Result<(), SinkFault>
    requires { IsFinal run.now }
    ensures { PutsSummary run.now (S.tells sink.old) (S.tells sink.new) result }
{
    match (&run.plan, &run.history) {
        (Some(plan), Some(history)) => summary(alloc, sink, plan, history),
        _ => unreachable!(),
    }
}

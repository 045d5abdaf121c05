ghost use Rattle.std.specs.Prelude.{◌≡◌, ◌-◌, ◌^◌, ◌<◌, None, false, true, length, map, option_map};
ghost use Rattle.ct_app.specs.Calls.{list_sides, sides};
ghost use Rattle.ct_app.specs.Ends.{Ends, EndsList, ListEnds, history_entries};
ghost use Rattle.ct_app.specs.Reading.{ask_for_list};
ghost use Rattle.ct_app.specs.Run.{OthersStay};

use crate::Outcome;
use crate::folder::{Ran, run_folder, unrun};
use crate::list::list_folder;
use ct_args::{Task, read_words};
use ct_base::{Files, Name, Pair, Sink};
use ct_core::Gate;
use std::alloc::Global;
use std::sync::Wait;
use std::thread::Threads;

/// Reads the words, and runs the tests or puts the list that they ask for.
pub(crate) fn run_words<R: Threads + Wait + Sync, F: Files, G: Gate + Send, S: Sink + Send>(
    rt: &R,
    alloc: Global,
    words: &[Name],
    env: &[Pair],
    files: &mut F,
    gates: &mut [G],
    mut sink: S,
) -> Ran<S>
    requires few { length words.now < 2 ^ 32 - 1 }
    requires some { 0 < length gates.old }
    ensures run { ask_for_list words.now ≡ false → Ends (sides words.now env.now (F.tells files.old) (F.tells files.new) (map G.tells gates.old) (map G.tells gates.new) (S.tells sink) (S.tells result.sink) result.plan (option_map history_entries result.history)) result.names result.ended }
    ensures list { ask_for_list words.now ≡ true → EndsList (list_sides words.now (F.tells files.old) (F.tells files.new) (S.tells sink) (S.tells result.sink)) result.names result.ended }
    ensures unasked { ask_for_list words.now ≡ true → gates.new ≡ gates.old }
    ensures plan { ask_for_list words.now ≡ true → result.plan ≡ None }
    ensures history { ask_for_list words.now ≡ true → result.history ≡ None }
    ensures others { OthersStay result.plan gates.old gates.new }
{
    match read_words(alloc, words) {
        Ok(invocation) => match invocation.task {
            Task::Run => run_folder(rt, alloc, invocation, env, files, gates, sink),
            Task::ListTests | Task::ListLabels | Task::ListJson => {
                let outcome = list_folder(alloc, invocation, files, &mut sink);
                unrun(alloc, outcome, sink)
            }
        },
        Err(fault) => unrun(alloc, Outcome::from(fault), sink),
    }
}

/// Reads the words, and puts the list that they ask for; for a run, the list of its tests.
pub(crate) fn list_words<F: Files, S: Sink>(
    alloc: Global,
    words: &[Name],
    files: &mut F,
    sink: &mut S,
) -> Outcome
    requires { length words.now < 2 ^ 32 - 1 }
    ensures { ListEnds (list_sides words.now (F.tells files.old) (F.tells files.new) (S.tells sink.old) (S.tells sink.new)) result }
{
    match read_words(alloc, words) {
        Ok(invocation) => list_folder(alloc, invocation, files, sink),
        Err(fault) => Outcome::from(fault),
    }
}

//! The core over fixed plans, step by step.

use crate::workers::{Run, Step, close, end, next, open, seen};
use ct_base::{List, Name, NoMemory, Resource};
use ct_history::{Entry, History, Plan, PlanParts, PlanTest, judge};
use ct_verdict::{Cause, How, Mode, Repeat, Verdict};
use std::alloc::Global;
use std::process::Abort;
use std::test::Fail;
use tests_samples::{Manner, cards, free, need, parts_of};

fn take(rt: &impl Abort, run: &mut Run, wanted: Step) -> Step {
    match wanted {
        Step::Starts { worker, .. } | Step::Waits { worker } | Step::Settles { worker, .. } => {
            assert!(rt; worker < 4);
            next(rt, run, worker)
        }
        Step::Ends { worker, how, .. } => {
            assert!(rt; worker < 4);
            end(rt, run, worker, seen(how))
        }
        Step::IsDone | Step::IsAborted => next(rt, run, 0),
    }
}

/// Runs, each with what is asked of it, its tests, and the steps of its workers from 0.
///
/// A step starts or settles a test, waits, or ends a test by an exit code. The test is
/// then final or tried again. A test is plain, or the row tells what else it is.
/// Behind `on` stand the slots of cards.
const STEPS: &str = "\
level 1 | plain;plain;plain | 0 starts 1, 1 waits, 0 ends 0 passed, 0 starts 2, 0 ends 1 failed, 1 starts 3, 1 ends 0 passed, 0 is done
level 4 | processors 4;plain | 0 starts 1, 1 waits, 0 ends 0 passed, 1 starts 2, 1 ends 0 passed, 0 is done
level 8 | plain;serial;plain | 0 starts 1, 1 starts 3, 2 waits, 0 ends 0 passed, 2 waits, 1 ends 0 passed, 2 starts 2, 0 waits, 2 ends 0 passed, 0 is done
level 1 | plain;setup 1;setup 1;behind 1, behind 2, behind 3 | 0 starts 1, 0 ends 1 failed, 0 settles 2, 0 settles 3, 0 starts 4, 0 ends 0 passed, 0 is done
until-pass 3 | plain | 0 starts 1, 0 ends 1 again, 0 starts 1, 0 ends 1 again, 0 starts 1, 0 ends 0 passed, 0 is done
until-pass 3 | plain | 0 starts 1, 0 ends 1 again, 0 starts 1, 0 ends 1 again, 0 starts 1, 0 ends 1 failed, 0 is done
until-pass 3 | plain | 0 starts 1, 0 ends 77 skipped, 0 is done
until-fail 3 | plain | 0 starts 1, 0 ends 0 again, 0 starts 1, 0 ends 1 failed, 0 is done
after-timeout 2 | plain | 0 starts 1, 0 ends 1 failed, 0 is done
after-timeout 2 | plain | 0 starts 1, 0 ends timeout again, 0 starts 1, 0 ends 0 passed, 0 is done
level 3 on 3,2 | needs 2;needs 2;needs 2;plain | 0 starts 1, 1 starts 2, 2 starts 4, 2 ends 0 passed, 2 waits, 0 ends 0 passed, 2 starts 3, 0 waits, 1 ends 0 passed, 2 ends 0 passed, 0 is done
level 3 on 5,5 | needs 2, needs 2, needs 3, needs 3;needs 1 | 0 starts 1, 1 waits, 0 ends 0 passed, 1 starts 2, 1 ends 0 passed, 0 is done
level 1 on 2,4,2,1 | needs 8, insufficient;plain | 0 settles 1, 0 starts 2, 0 ends 0 passed, 0 is done
level 2 | needs 8;needs 8 | 0 starts 1, 1 starts 2, 0 ends 0 passed, 1 ends 0 passed, 0 is done
level 3 | shares db;shares db;locks db | 0 starts 1, 1 starts 2, 2 waits, 0 ends 0 passed, 2 waits, 1 ends 0 passed, 0 starts 3, 1 waits, 0 ends 0 passed, 0 is done
level 3 | locks db;shares db;shares db | 0 starts 1, 1 waits, 0 ends 0 passed, 0 starts 2, 1 starts 3, 0 ends 0 passed, 1 ends 0 passed, 0 is done
level 3 | shares db;shares db, locks db;plain | 0 starts 1, 1 starts 3, 2 waits, 0 ends 0 passed, 2 starts 2, 1 ends 0 passed, 2 ends 0 passed, 0 is done
level 3 | shares db, shares db;shares db;locks db | 0 starts 1, 1 starts 2, 0 ends 0 passed, 0 waits, 1 ends 0 passed, 0 starts 3, 0 ends 0 passed, 0 is done
level 3 | shares db;locks db;shares db | 0 starts 1, 1 starts 3, 2 waits, 0 ends 0 passed, 2 waits, 1 ends 0 passed, 2 starts 2, 2 ends 0 passed, 0 is done
until-pass 2 on 1 | needs 1;needs 1 | 0 starts 1, 0 ends 1 again, 0 starts 1, 0 ends 0 passed, 0 starts 2, 0 ends 0 passed, 0 is done
";

/// A run in which one test holds a lock alone that two tests before it shared.
const SHARED: &str =
    "level 3 | shares db;shares db;locks db | 0 starts 1, 1 starts 2, 0 ends 0 passed, 1 ends 0 passed, 0 starts 3, 0 ends 0 passed, 0 is done";

/// A run that stops at a failure.
const STOPS: &str =
    "stop | plain;plain;plain | 0 starts 1, 0 ends 1 failed, 0 settles 2, 0 settles 3, 0 is done";

fn number(word: &str) -> u32 {
    word.parse().unwrap_or(0)
}

fn step(text: &str) -> Step {
    let (worker, rest) = text.split_once(' ').unwrap_or((text, ""));
    let (verb, object) = rest.split_once(' ').unwrap_or((rest, ""));
    let worker = number(worker);
    match verb {
        "starts" => Step::Starts {
            worker,
            test: number(object),
        },
        "settles" => Step::Settles {
            worker,
            test: number(object),
        },
        "waits" => Step::Waits { worker },
        "ends" => ended(worker, object),
        _ => Step::IsDone,
    }
}

/// Returns the step that ends a test by an exit code or a
/// timeout, with what the test then comes to.
fn ended(worker: u32, text: &str) -> Step {
    let (word, wanted) = text.split_once(' ').unwrap_or((text, ""));
    Step::Ends {
        worker,
        how: how(word),
        verdict: verdict(wanted),
    }
}

fn how(word: &str) -> How {
    match word {
        "timeout" => How::TimedOut,
        code => How::Exited(code.parse().unwrap_or(0)),
    }
}

fn verdict(word: &str) -> Option<Verdict> {
    match word {
        "passed" => Some(Verdict::Passed),
        "failed" => Some(Verdict::Failed),
        "skipped" => Some(Verdict::Skipped),
        _ => None,
    }
}

fn test_of(alloc: Global, number: u32, text: &str) -> Result<PlanTest, NoMemory> {
    let mut test = free(alloc, number)?;
    for word in text.split(", ") {
        mark(alloc, &mut test, word)?;
    }
    Ok(test)
}

/// Changes a test as a text says.
fn mark(alloc: Global, test: &mut PlanTest, text: &str) -> Result<(), NoMemory> {
    let (word, object) = text.split_once(' ').unwrap_or((text, ""));
    let count = number(object);
    match word {
        "processors" => test.processors = count,
        "locks" => add_name(alloc, &mut test.locks, object)?,
        "shares" => add_name(alloc, &mut test.shared, object)?,
        "serial" => test.serial = true,
        "insufficient" => test.fixed = Some(Cause::Insufficient),
        "needs" => test.needs.push(need(alloc, count)?)?,
        "behind" => test.before.push(count)?,
        "setup" => {
            test.before.push(count)?;
            test.setups.push(count)?;
        }
        _ => {}
    }
    Ok(())
}

fn add_name(alloc: Global, names: &mut List<Name>, name: &str) -> Result<(), NoMemory> {
    Ok(names.push(Name::of(alloc, name.as_bytes())?)?)
}

fn parts(alloc: Global, asked: &str, texts: &str) -> Result<PlanParts, NoMemory> {
    let (asked, slots) = asked.split_once(" on ").unwrap_or((asked, ""));
    let tests = tests_of(alloc, texts)?;
    parts_of(alloc, manner(asked), tests, given(alloc, slots)?)
}

fn tests_of(alloc: Global, texts: &str) -> Result<List<PlanTest>, NoMemory> {
    let mut tests = List::new(alloc);
    let mut number: u32 = 0;
    for text in texts.split(';') {
        number = number.saturating_add(1);
        tests.push(test_of(alloc, number, text)?)?;
    }
    Ok(tests)
}

fn manner(asked: &str) -> Manner {
    let (word, count) = asked.split_once(' ').unwrap_or((asked, ""));
    let times = number(count);
    match word {
        "level" => Manner::once(times),
        "stop" => Manner {
            stop_on_failure: true,
            ..Manner::once(1)
        },
        mode => Manner {
            repeat: Repeat {
                mode: mode_of(mode),
                times,
            },
            ..Manner::once(1)
        },
    }
}

/// Returns the cards with these slots, if there are any.
fn given(alloc: Global, text: &str) -> Result<Option<List<Resource>>, NoMemory> {
    let mut slots = Vec::new(alloc);
    for count in text.split_terminator(',') {
        slots.push(number(count))?;
    }
    if slots.is_empty() {
        return Ok(None);
    }
    Ok(Some(cards(alloc, &slots)?))
}

fn mode_of(word: &str) -> Mode {
    match word {
        "until-pass" => Mode::UntilPass,
        "until-fail" => Mode::UntilFail,
        "after-timeout" => Mode::AfterTimeout,
        _ => Mode::Once,
    }
}

/// Takes the steps of a run, and checks what each comes to.
pub(crate) fn play(rt: &impl Abort, alloc: Global, row: &str) -> Result<(Plan, History), NoMemory> {
    let (asked, rest) = row.split_once(" | ").unwrap_or((row, ""));
    let (tests, steps) = rest.split_once(" | ").unwrap_or((rest, ""));
    let mut run = open(rt, alloc, parts(alloc, asked, tests)?)?;
    take_all(rt, &mut run, steps);
    close(rt, alloc, run)
}

fn take_all(rt: &impl Abort, run: &mut Run, steps: &str) {
    for text in steps.split(", ") {
        let wanted = step(text);
        let taken = take(rt, run, wanted);
        assert_eq!(rt; taken, wanted, "{text}");
    }
}

#[test]
fn workers_start_what_may_start(rt: HostRuntime) -> Result<(), Fail> {
    for row in STEPS.lines() {
        play(&rt, rt.alloc(), row)?;
    }
    Ok(())
}

fn kind_of(entry: &Entry) -> &'static str {
    match entry {
        Entry::Start { .. } => "start",
        Entry::End { .. } => "end",
        Entry::Settle { .. } => "settle",
        Entry::Stop => "stop",
    }
}

#[test]
fn a_failure_stops_a_run_that_is_to_stop(rt: HostRuntime) -> Result<(), Fail> {
    let kinds = kinds_played(&rt, rt.alloc(), STOPS)?;
    let wanted = ["start", "end", "stop", "settle", "settle"];
    assert_eq!(rt; kinds.as_slice(), wanted.as_slice());
    Ok(())
}

/// Takes the steps of a run, and returns the kinds of its entries.
fn kinds_played(rt: &impl Abort, alloc: Global, row: &str) -> Result<Vec<&'static str>, NoMemory> {
    let (_plan, history) = play(rt, alloc, row)?;
    kinds_of(alloc, history.entries.as_slice())
}

fn kinds_of(alloc: Global, entries: &[Entry]) -> Result<Vec<&'static str>, NoMemory> {
    let mut kinds = Vec::new(alloc);
    for entry in entries {
        kinds.push(kind_of(entry))?;
    }
    Ok(kinds)
}

/// Puts the start of the third test of that run in front of the end before it.
fn start_early(entries: &mut Vec<Entry>) {
    if entries.len() > 4 {
        entries.swap(3, 4);
    }
}

#[test]
fn a_lock_is_not_held_alone_beside_a_test_that_shares_it(rt: HostRuntime) -> Result<(), Fail> {
    let (plan, mut history) = play(&rt, rt.alloc(), SHARED)?;
    start_early(&mut history.entries);
    assert!(rt; matches!(history.entries.get(3), Some(Entry::Start { test: 3, .. })));
    assert!(rt; !judge(rt.alloc(), &plan, &history)?);
    Ok(())
}

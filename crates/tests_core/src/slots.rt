//! The core over tests that take slots of cards.

use crate::core_runs::play;
use ct_alloc::{Pick, Placement};
use ct_base::{List, Name, NoMemory};
use ct_history::{Entry, History, Plan, judge};
use std::alloc::Global;
use std::process::Abort;
use std::test::Fail;

/// The test that ends first, whose card the third test takes, and a run. The run has three tests of
/// two slots each, on a card of three slots and one of two.
const RUNS: &str = "\
1: level 3 on 3,2 | needs 2;needs 2;needs 2 | 0 starts 1, 1 starts 2, 2 waits, 0 ends 0 passed, 2 starts 3
2: level 3 on 3,2 | needs 2;needs 2;needs 2 | 0 starts 1, 1 starts 2, 2 waits, 1 ends 0 passed, 2 starts 3
";

/// Returns the card of the first need of a test's start.
fn card(history: &History, wanted: u32) -> Option<u32> {
    for entry in history.entries.as_slice() {
        match entry {
            Entry::Start {
                test,
                placement: Some(placement),
                ..
            } if *test == wanted => return placement.picks.get(0).map(|pick| pick.resource),
            _ => {}
        }
    }
    None
}

/// Returns a placement of two slots on the first card.
fn on_the_first_card(alloc: Global) -> Result<Placement, NoMemory> {
    let mut picks = List::new(alloc);
    picks.push(Pick {
        group: 0,
        kind: Name::of(alloc, b"gpus")?,
        id: Name::of(alloc, b"0")?,
        slots: 2,
        resource: 0,
    })?;
    Ok(Placement { picks })
}

/// Returns the history with the first two tests on the first card.
fn crowded(alloc: Global, history: History) -> Result<History, NoMemory> {
    let mut entries = Vec::new(alloc);
    for entry in history.entries {
        entries.push(crowd(alloc, entry)?)?;
    }
    Ok(History { entries })
}

fn crowd(alloc: Global, entry: Entry) -> Result<Entry, NoMemory> {
    match entry {
        Entry::Start {
            test,
            attempt,
            worker,
            ..
        } if test < 3 => Ok(Entry::Start {
            test,
            attempt,
            worker,
            placement: Some(on_the_first_card(alloc)?),
        }),
        other => Ok(other),
    }
}

/// Returns whether the third test has the card of the test that ended first, and the
/// first two tests had different cards.
fn takes_the_card(history: &History, first: u32) -> bool {
    let third = card(history, 3);
    third.is_some() && third == card(history, first) && card(history, 1) != card(history, 2)
}

#[test]
fn a_test_takes_the_card_that_another_gave_back(rt: HostRuntime) -> Result<(), Fail> {
    for row in RUNS.lines() {
        let (first, run) = row.split_once(": ").unwrap_or((row, ""));
        check_cards(&rt, rt.alloc(), run, first.parse().unwrap_or(0))?;
    }
    Ok(())
}

/// Checks the cards of a run, and that the first two tests can't have one card.
fn check_cards(rt: &impl Abort, alloc: Global, run: &str, first: u32) -> Result<(), NoMemory> {
    let (plan, history) = play(rt, alloc, run)?;
    assert!(rt; takes_the_card(&history, first), "{run}");
    let is_legal = judge_crowded(alloc, &plan, history)?;
    assert!(rt; !is_legal, "{run}");
    Ok(())
}

/// Judges a history if the first two tests have one card.
fn judge_crowded(alloc: Global, plan: &Plan, history: History) -> Result<bool, NoMemory> {
    let history = crowded(alloc, history)?;
    judge(alloc, plan, &history)
}

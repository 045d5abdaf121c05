//! The scheduling core alone, driven through tests of one kind: how many started, passed and failed, and how
//! long that took.
//!
//! Read first: `kind.rt`, `planning.rt`, `specs/Held.antt`, then `run.rt`.

mod kind;
mod planning;
mod run;
mod tally;

use crate::drive::kind::Kind;
use crate::drive::planning::plan_of;
use crate::drive::run::Run;
use crate::drive::tally::Tally;
use crate::timing::{now, since};
use crate::words::{count, is_timed, lacks_memory};
use anyhow::bail;
use ct_base::NoMemory;
use ct_history::Plan;
use std::alloc::Global;
use std::io;
use std::io::Print;
use std::time::{Clock, Duration};

/// The greatest number of tests that are driven.
const MOST_TESTS: u32 = 1_000_000;

/// Drives as many tests of a kind as the words ask for.
pub fn measure(rt: &(impl AllocGlobal + Clock + Print), words: &[String]) -> anyhow::Result<()> {
    let [kind, tests, shown] = words else {
        bail!("measure core wants three words: KIND COUNT times|counts");
    };
    let Some(kind) = Kind::of(kind.as_str()) else {
        bail!(
            "the kind is plain, chain, fixture, lock, wide, slots, locked, shared, spent or crowd"
        );
    };
    let tests = count(tests);
    if tests == 0 || tests > MOST_TESTS {
        bail!("the number of tests is from 1 to {MOST_TESTS}");
    }
    let plan = plan_of(rt.alloc(), kind, tests)?;
    let driven = drive(rt, rt.alloc(), plan, kind, tests).map_err(lacks_memory)?;
    show(rt, &driven, is_timed(shown))?;
    Ok(())
}

/// Prints the counts, and the times where these are asked for.
fn show(rt: &impl Print, driven: &Driven, is_timed: bool) -> io::Result<()> {
    let tally = &driven.tally;
    println!(rt;
        "{} starts, {} passed, {} failed",
        tally.starts, tally.passed, tally.failed
    )?;
    if is_timed {
        println!(rt;
            "open {} us, next and finish {} us",
            driven.opening.as_micros(),
            driven.steps.as_micros()
        )?;
        println!(rt; "each start and end {} ns", driven.nanos_each())?;
    }
    Ok(())
}

/// The result of a run, and how long it took.
#[derive(Drop)]
struct Driven {
    tally: Tally,
    opening: Duration,
    steps: Duration,
}

impl Driven {
    /// Returns the mean nanoseconds of a start together with its end.
    fn nanos_each(&self) -> u128 {
        self.steps.as_nanos() / u128::from(self.tally.starts.max(1))
    }
}

/// Opens a run of a plan of `count` tests, and drives it to its end.
fn drive(
    rt: &impl Clock,
    alloc: Global,
    plan: Plan,
    kind: Kind,
    count: u32,
) -> Result<Driven, NoMemory> {
    let start = now(rt);
    let run = Run::open(alloc, plan, kind)?;
    let opening = since(rt, start);
    let start = now(rt);
    let tally = run.drive(count)?;
    let steps = since(rt, start);
    Ok(Driven {
        tally,
        opening,
        steps,
    })
}

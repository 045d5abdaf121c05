//! The program `measure`: the first word of a call says what is measured, and the others say how. It prints
//! counts, and the times where these are asked for. Words behind `then` are a further call.
//!
//! Hands up: nothing; it is the program that the scripts `scan`, `place`, `turn`, `core` and `journal` of
//! measure/ time.
//! Read first: `words.rt` and `timing.rt`, then `scan.rt`, `place.rt`, `turn.rt`, `drive.rt` or `journal.rt`.
#![tactic(auto)]

mod drive;
mod journal;
mod place;
mod scan;
mod timing;
mod turn;
mod words;

use anyhow::bail;
use std::env;
use std::fs::Files;
use std::io::Print;
use std::sync::Wait;
use std::thread::Threads;
use std::time::Clock;

fn main(rt: HostRuntime) -> anyhow::Result<()> {
    let words: Vec<String> = env::args(&rt)?.skip(1).collect(rt.alloc())?;
    for call in words.as_slice().split(|word| word.as_str() == "then") {
        measure(&rt, call)?;
    }
    Ok(())
}

/// Measures what the words of a call ask for.
fn measure<R: Threads + Wait + Sync + AllocGlobal + Files + Clock + Print>(
    rt: &R,
    call: &[String],
) -> anyhow::Result<()> {
    let [subject, words @ ..] = call else {
        bail!("measure wants words: scan|place|turn|core|journal WORD..");
    };
    match subject.as_str() {
        "scan" => scan::measure(rt, words),
        "place" => place::measure(rt, words),
        "turn" => turn::measure(rt, words),
        "core" => drive::measure(rt, words),
        "journal" => journal::measure(rt, words),
        _ => bail!("the first word is scan, place, turn, core or journal"),
    }
}

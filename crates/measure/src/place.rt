//! How many of drawn needs find a placement on drawn cards, and how long that took.
//!
//! Read first: `draw.rt`, then `round.rt`.

mod draw;
mod round;

use crate::place::draw::Family;
use crate::place::round::{Tally, place_all};
use crate::words::{count, is_timed, lacks_memory};
use anyhow::bail;
use std::io;
use std::io::Print;
use std::time::Clock;

/// Places the needs of the cases that the words ask for.
pub fn measure(rt: &(impl AllocGlobal + Clock + Print), words: &[String]) -> anyhow::Result<()> {
    let [family, rounds, shown] = words else {
        bail!("measure place wants three words: drawn|hard|one ROUNDS times|counts");
    };
    let Some(family) = Family::of(family.as_str()) else {
        bail!("the family is drawn, hard or one");
    };
    let tally = place_all(rt, family, count(rounds)).map_err(lacks_memory)?;
    show(rt, &tally, is_timed(shown))?;
    Ok(())
}

/// Prints the counts, and the times where these are asked for.
fn show(rt: &impl Print, tally: &Tally, is_timed: bool) -> io::Result<()> {
    println!(rt; "{} placed, {} refused", tally.placed, tally.refused)?;
    if is_timed {
        println!(rt;
            "slowest {} us, {} above 50 ms, {} above 10 ms",
            tally.slowest, tally.above_50, tally.above_10
        )?;
        println!(rt; "together {} us", tally.together)?;
    }
    Ok(())
}

//! How long something took.

use std::time::{Clock, Duration, Instant};

/// Reads the clock, if it can be read.
pub fn now(rt: &impl Clock) -> Option<Instant> {
    Instant::now(rt).ok()
}

/// Returns the time since then, or zero where the clock does not tell.
pub fn since(rt: &impl Clock, start: Option<Instant>) -> Duration {
    match start {
        Some(start) => start.elapsed(rt).unwrap_or(Duration::ZERO),
        None => Duration::ZERO,
    }
}

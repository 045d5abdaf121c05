ghost use Rattle.std.specs.Prelude.{◌≡◌, ◌/◌, ◌^◌, ◌-◌, ◌≤◌, min, IfOk, IfSome, None, Ok, is_some};
ghost use Rattle.std.specs.Duration.{as_nanos};

use std::io;
use std::marker::Model;
use std::rt::Clock;
use std::time::{Duration, Instant};

/// How long a program may run, and when that time began.
///
/// Contracts see how long, and not when it began.
#[derive(Drop)]
pub struct Limit {
    began: Instant,
    /// In microseconds; `None` is no limit.
    micros: Option<u64>,
}

impl Model for Limit {
    ghost use Rattle.std.specs.Prelude.{Option, ℕ};

    ghost Value = { Option ℕ };

    ghost view = { λ limit. limit.micros };
}

impl Limit {
    /// Makes the limit of a program that is about to start, in microseconds.
    pub fn from_now<R: Clock>(rt: &R, micros: Option<u64>) -> io::Result<Limit>
        ensures { IfOk result (λ limit. limit ≡ micros) }
    {
        Ok(Limit {
            began: Instant::now(rt)?,
            micros,
        })
    }

    /// Returns whether there is a limit.
    pub fn is_set(&self) -> bool
        ensures { result ≡ is_some self.now }
    {
        self.micros.is_some()
    }

    /// Returns the microseconds left before the limit, at most `most`; 0 once the time is up.
    pub fn left<R: Clock>(&self, rt: &R, most: u64) -> io::Result<u64>
        ensures most { IfOk result (λ left. left ≤ most) }
        ensures limit { IfOk result (λ left. IfSome self.now (λ limit. left ≤ limit)) }
        ensures none { self.now ≡ None → result ≡ Ok most }
    {
        let Some(limit) = self.micros else {
            return Ok(most);
        };
        let passed = micros_of(self.began.elapsed(rt)?);
        Ok(limit.saturating_sub(passed).min(most))
    }
}

/// Returns the whole microseconds of a time, at most the greatest u64.
pub fn micros_of(time: Duration) -> u64
    ensures { result ≡ min (as_nanos time / 1000) (2 ^ 64 - 1) }
{
    u64::try_from(time.as_micros()).unwrap_or(u64::MAX)
}

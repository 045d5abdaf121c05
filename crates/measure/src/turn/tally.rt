ghost use Rattle.std.specs.Prelude.{◌≡◌, ◌+◌, ◌-◌, ◌^◌, min, [], false, None};

use ct_history::{Board, History};
use std::alloc::Global;
use std::time::Duration;

/// The state that workers race for: a run without tests, and how often it was taken.
#[derive(Drop)]
pub struct Tally {
    pub history: History,
    pub takes: u64,
}

impl Tally {
    /// Makes a state in which nothing has happened, and which was never taken.
    pub fn new(alloc: Global) -> Tally
        ensures { (result.history.entries.items ≡ []) × (result.takes ≡ 0) }
    {
        Tally {
            history: History {
                entries: Vec::new(alloc),
            },
            takes: 0,
        }
    }

    /// Counts one more take. A greater number counts as 2^64 - 1.
    pub fn count(&mut self)
        ensures counted { self.new.takes ≡ min (self.old.takes + 1) (2 ^ 64 - 1) }
        ensures kept { self.new.history ≡ self.old.history }
    {
        self.takes = self.takes.saturating_add(1);
    }
}

/// The result of a race.
#[derive(Drop)]
pub struct Raced {
    pub tally: Tally,
    /// How long each worker took, from its first take to its last give; zero where the clock does not tell.
    pub times: Vec<Duration>,
}

impl Board for Tally {
    ghost use Rattle.ct_turn.specs.Seen.{no_plan};

    ghost plan = { λ _. no_plan };

    ghost history = { λ tally. tally.history.entries.items };

    ghost base = { λ _. record { written = None; pieces = None; faults = 0 } };

    ghost halted = { λ _. false };

    fn length(&self) -> usize {
        self.history.entries.len()
    }

    fn is_halted(&self) -> bool {
        false
    }
}

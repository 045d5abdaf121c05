ghost use Rattle.std.specs.Prelude.{◌≡◌, ◌≤◌};
ghost use Rattle.ct_base.specs.Memory.{failed, is_due, no_calls, passed};

use crate::List;
use std::marker::Model;

/// Counts the calls on files or a sink in memory, and knows which of them fail.
#[derive(Debug, Drop)]
pub(crate) struct Calls {
    /// The numbers, from 1, of the calls that fail.
    fail_at: List<u64>,
    calls: u64,
    faults: u64,
}

impl Model for Calls {
    ghost use Rattle.ct_base.specs.Memory.{Calls as CallsValue};

    ghost Value = { CallsValue };

    ghost view = { λ c. record { fail_at = c.fail_at; calls = c.calls; faults = c.faults } };
}

impl Calls {
    pub(crate) fn new(fail_at: List<u64>) -> Calls
        ensures { result ≡ no_calls fail_at }
    {
        Calls {
            fail_at,
            calls: 0,
            faults: 0,
        }
    }

    /// Returns whether the next call is to fail.
    pub(crate) fn is_due(&self) -> bool
        ensures { result ≡ is_due self.now }
    {
        let number = self.calls.saturating_add(1);
        self.fail_at.as_slice().iter().any(|due| *due == number)
    }

    /// Counts a call that did not fail.
    pub(crate) fn pass(&mut self)
        ensures { self.new ≡ passed self.old }
    {
        self.calls = self.calls.saturating_add(1);
    }

    /// Counts a call that failed.
    pub(crate) fn fail(&mut self)
        ensures is { self.new ≡ failed self.old }
        ensures grew { self.old.faults ≤ self.new.faults }
    {
        self.calls = self.calls.saturating_add(1);
        self.faults = self.faults.saturating_add(1);
    }
}

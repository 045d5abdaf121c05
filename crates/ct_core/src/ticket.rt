ghost use Rattle.std.specs.Prelude.{◌≡◌};
ghost use Rattle.std.specs.Option.{option_copied};

use ct_alloc::Placement;

/// The right to run one attempt of a test, which has been started and has to be finished.
///
/// `Core::next` alone makes one and `Core::finish` spends it; it can be neither copied nor dropped.
pub struct Ticket {
    pub(crate) test: u32,
    pub(crate) attempt: u32,
    pub(crate) worker: u32,
    pub(crate) placement: Option<Placement>,
}

impl Ticket {
    ghost use Rattle.ct_core.specs.Ticket.{attempt_of, placement_of, test_of, worker_of};

    /// Returns the number of the test.
    pub fn test(&self) -> u32
        ensures { result ≡ test_of self.now }
    {
        self.test
    }

    /// Returns the number of the attempt, from 1.
    pub fn attempt(&self) -> u32
        ensures { result ≡ attempt_of self.now }
    {
        self.attempt
    }

    /// Returns the worker that started the attempt.
    pub fn worker(&self) -> u32
        ensures { result ≡ worker_of self.now }
    {
        self.worker
    }

    /// Returns where the slots of the attempt lie, if the run lends resources and the test has needs.
    pub fn placement(&self) -> Option<&Placement>
        ensures { option_copied result ≡ placement_of self.now }
    {
        self.placement.as_ref()
    }
}

ghost use Rattle.std.specs.Prelude.{◌≡◌};
ghost use Rattle.ct_core.specs.Standing.{verdict_of_state};
ghost use Rattle.ct_history.specs.Verdicts.{is_passed_verdict};

use ct_alloc::Placement;
use ct_verdict::Verdict;

/// The state of a test of a plan in a run.
#[derive(Drop)]
pub(crate) enum State {
    /// Neither open nor final; the number of attempts that have ended.
    Pending(u32),
    /// An attempt is open with this placement; the number of attempts that ended before it.
    Open(u32, Option<Placement>),
    /// Final, with this verdict.
    Final(Verdict),
}

impl State {
    pub(crate) fn has_passed(&self) -> bool
        ensures { result ≡ is_passed_verdict (verdict_of_state self.now) }
    {
        matches!(self, State::Final(Verdict::Passed))
    }

    /// Returns the verdict of a test in this state, if it is final.
    pub(crate) fn verdict(&self) -> Option<Verdict>
        ensures { result ≡ verdict_of_state self.now }
    {
        match self {
            State::Final(verdict) => Some(*verdict),
            State::Pending(_) | State::Open(..) => None,
        }
    }
}

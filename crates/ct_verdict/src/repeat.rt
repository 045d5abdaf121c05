ghost use Rattle.std.specs.Prelude.{◌≡◌, ◌↔◌, IsNone};
ghost use Rattle.ct_verdict.specs.Verdict.{asks_again, is_repeated};

use crate::Verdict;

/// What makes a run try a test again.
///
/// Source: CMake manual, ctest(1), --repeat.
#[derive(Clone, Copy, Debug, PartialEq, Eq)]
pub enum Mode {
    Once,
    UntilFail,
    UntilPass,
    AfterTimeout,
}

/// How often a run tries a test at most, and what makes the run try it again.
///
/// Source: CMake manual, ctest(1), --repeat.
#[derive(Clone, Copy, Debug, PartialEq, Eq)]
pub struct Repeat {
    pub mode: Mode,
    pub times: u32,
}

impl Repeat {
    /// Returns whether a test is tried again after `done` attempts, of which the last had this verdict.
    pub fn again(&self, done: u32, last: Option<Verdict>) -> bool
        requires { IsNone last ↔ (done ≡ 0) }
        ensures { result ≡ is_repeated self.now done last }
    {
        match last {
            None => true,
            Some(verdict) => done < self.times && self.mode.asks_again(verdict),
        }
    }
}

impl Mode {
    fn asks_again(self, last: Verdict) -> bool
        ensures { result ≡ asks_again self last }
    {
        match self {
            Mode::Once => false,
            Mode::UntilFail => matches!(last, Verdict::Passed),
            Mode::UntilPass => last.is_failing(),
            Mode::AfterTimeout => matches!(last, Verdict::Timeout),
        }
    }
}

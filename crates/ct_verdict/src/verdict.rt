ghost use Rattle.std.specs.Prelude.{◌≡◌};
ghost use Rattle.ct_verdict.specs.Verdict.{is_failing_verdict};

/// Why a test did not run.
#[derive(Clone, Copy, Debug, PartialEq, Eq)]
pub enum Cause {
    /// Its program could not be started.
    Unstarted,
    /// The required file at this place, from 0, is missing.
    Lacks(u32),
    /// The setup with this number did not pass.
    Fixture(u32),
    /// Its command is the word `NOT_AVAILABLE`.
    NotAvailable,
    /// The entry at this place, from 0, of ENVIRONMENT_MODIFICATION has no known operation.
    BadOperation(u32),
    /// Its resource needs fit nowhere.
    Insufficient,
    /// The run was stopped before the test started.
    Stopped,
    /// Memory was wanting.
    Memory,
}

/// The verdict of an attempt or of a test.
///
/// Source: CMake manual, cmake-properties(7), Properties on Tests.
#[derive(Clone, Copy, Debug, PartialEq, Eq)]
pub enum Verdict {
    Passed,
    Failed,
    Timeout,
    Exception,
    Skipped,
    NotRun(Cause),
    Disabled,
}

impl Verdict {
    /// Returns whether a test with this verdict makes the run fail.
    pub fn is_failing(self) -> bool
        ensures { result ≡ is_failing_verdict self }
    {
        match self {
            Verdict::Failed | Verdict::Timeout | Verdict::Exception => true,
            Verdict::NotRun(Cause::Stopped) | Verdict::NotRun(Cause::Memory) => false,
            Verdict::NotRun(_) => true,
            Verdict::Passed | Verdict::Skipped | Verdict::Disabled => false,
        }
    }
}

/// How one attempt of a test ended.
#[derive(Clone, Copy, Debug, PartialEq, Eq)]
pub enum How {
    /// The program ended by itself with this exit code.
    Exited(i32),
    /// A signal ended the program.
    Signalled,
    /// The program ran up to its limit and was stopped.
    TimedOut,
    /// The program could not be started, or not be waited for.
    NotStarted,
    /// The required file at this place, from 0, is the first that is missing.
    Lacks(u32),
    /// Memory was wanting for the attempt.
    NoMemory,
}

/// What was seen of one attempt.
#[derive(Clone, Copy, Debug, PartialEq, Eq)]
pub struct Seen {
    pub how: How,
    /// Whether a pattern of FAIL_REGULAR_EXPRESSION hits what was heard.
    pub fail_hit: bool,
    /// Whether a pattern of PASS_REGULAR_EXPRESSION hits what was heard.
    pub pass_hit: bool,
    /// Whether a pattern of SKIP_REGULAR_EXPRESSION hits what was heard.
    pub skip_hit: bool,
    /// How long the attempt took, in microseconds.
    pub micros: u64,
}

use ct_base::Name;
use ct_props::Wanted;

/// What the program is asked to do.
///
/// Source: CMake manual, ctest(1), Options.
#[derive(Clone, Copy, Debug, PartialEq, Eq)]
pub enum Task {
    /// The tests are run.
    Run,
    /// The tests are listed: -N.
    ListTests,
    /// The labels of the tests are listed: --print-labels.
    ListLabels,
    /// The tests are listed as JSON: --show-only=json-v1.
    ListJson,
}

/// What the words of a command line ask for.
///
/// Source: CMake manual, ctest(1), Options.
#[derive(Drop)]
pub struct Invocation {
    pub task: Task,
    /// Which tests, and how they are run.
    pub wanted: Wanted,
    /// The configuration, empty without -C.
    pub config: Name,
    /// How long a test may run that does not say so itself, in microseconds; 0 is no limit.
    pub timeout: u64,
    /// The file that declares the resources of the machine, as the words name it; `None` is that none are
    /// given.
    pub spec_file: Option<Name>,
    /// Whether it is an error that there is no test.
    pub empty_is_error: bool,
    /// Whether the tests that failed last are run again: --rerun-failed.
    pub rerun: bool,
}

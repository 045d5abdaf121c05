ghost use Rattle.std.specs.Prelude.{◌≡◌};
ghost use Rattle.ct_args.specs.Fault.{takes_value as takes_a_value};

/// An option of the command line.
///
/// Source: CMake manual, ctest(1), Options.
#[derive(Clone, Copy)]
pub enum CommandOption {
    /// A test's name must be hit: -R.
    TestsRegex,
    /// A test's name must not be hit: -E.
    ExcludeRegex,
    /// Some label of a test must be hit: -L.
    LabelRegex,
    /// Not each of these may hit some label of a test: -LE.
    LabelExclude,
    /// Fixtures that draw no test in: -FA.
    FixtureExcludeAny,
    /// Fixtures that draw no setup in: -FS.
    FixtureExcludeSetup,
    /// Fixtures that draw no cleanup in: -FC.
    FixtureExcludeCleanup,
    /// The numbers of tests: -I.
    TestsInformation,
    /// Where -R and -I are given, one of them suffices: -U.
    Union,
    /// How many processors tests may take together: -j.
    Parallel,
    /// The configuration: -C.
    BuildConfig,
    /// The folder of the build tree: --test-dir.
    TestDir,
    /// The file that declares the resources of the machine: --resource-spec-file.
    ResourceSpecFile,
    /// How long a test may run that does not say so itself: --timeout.
    Timeout,
    /// How often a test is tried: --repeat.
    Repeat,
    /// Whether it is an error that there is no test: --no-tests.
    NoTests,
    /// No test starts behind the first failure: --stop-on-failure.
    StopOnFailure,
    /// The tests are listed: -N.
    ShowOnly,
    /// The tests are listed in the form that the value names: --show-only=json-v1.
    ShowOnlyAs,
    /// The labels are listed: --print-labels.
    PrintLabels,
    /// The tests that failed last are run again: --rerun-failed.
    RerunFailed,
    /// One that asks for more or less output, which has no effect here: -V and others.
    Verbosity,
}

impl CommandOption {
    /// Returns whether the option takes a value.
    pub fn takes_value(self) -> bool
        ensures { result ≡ takes_a_value self }
    {
        match self {
            CommandOption::Union
            | CommandOption::StopOnFailure
            | CommandOption::ShowOnly
            | CommandOption::PrintLabels
            | CommandOption::RerunFailed
            | CommandOption::Verbosity => false,
            CommandOption::TestsRegex
            | CommandOption::ExcludeRegex
            | CommandOption::LabelRegex
            | CommandOption::LabelExclude
            | CommandOption::FixtureExcludeAny
            | CommandOption::FixtureExcludeSetup
            | CommandOption::FixtureExcludeCleanup
            | CommandOption::TestsInformation
            | CommandOption::Parallel
            | CommandOption::BuildConfig
            | CommandOption::TestDir
            | CommandOption::ResourceSpecFile
            | CommandOption::Timeout
            | CommandOption::Repeat
            | CommandOption::NoTests
            | CommandOption::ShowOnlyAs => true,
        }
    }
}

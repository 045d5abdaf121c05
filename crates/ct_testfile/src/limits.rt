ghost use Rattle.std.specs.Prelude.{◌≡◌};
ghost use Rattle.ct_testfile.specs.Commands.{value_limits};

use ct_suite::{MOST_BYTES, MOST_TESTS, ValueLimits};

/// How much of a tree of test files may be read. What is above a limit is refused.
///
/// Source: this project's choice.
#[derive(Clone, Copy, Debug)]
pub struct Limits {
    /// The bytes of one test file. They are fewer than 2^32 - 1, since lines are counted by `u32`.
    pub file_bytes: u32,
    /// The bytes of all test files. A file counts each time that it is read.
    pub all_file_bytes: u32,
    /// The bytes of one value, at most those of `LIMITS`.
    pub value_bytes: u32,
    /// The bytes of all values of arguments, and of the values and folders that tests take.
    pub all_value_bytes: u32,
    /// The files that are open inside one another, the first one included.
    pub open_files: u32,
    /// The commands that are carried out.
    pub commands: u32,
    /// The tests, at most those of `LIMITS`.
    pub tests: u32,
}

/// The limits of a tree of test files: 16 MiB a file and 256 MiB in all files, 512 MiB in all values,
/// and those of the tests and of one value.
///
/// Source: this project's choice.
pub const LIMITS: Limits = Limits {
    file_bytes: 16_777_216,
    all_file_bytes: 268_435_456,
    value_bytes: MOST_BYTES,
    all_value_bytes: 536_870_912,
    open_files: 64,
    commands: 4_000_000,
    tests: MOST_TESTS,
};

/// Returns the limits on the values of a command.
pub(crate) fn value_limits(limits: &Limits) -> ValueLimits
    ensures { result ≡ value_limits limits.now }
{
    ValueLimits {
        value_bytes: limits.value_bytes,
        all_value_bytes: limits.all_value_bytes,
    }
}

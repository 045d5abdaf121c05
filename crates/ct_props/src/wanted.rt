use ct_base::{List, Name};
use ct_regex::Regex;
use ct_verdict::Repeat;

/// The numbers of tests that are admitted: `start`, and on by `stride` up to `end`, and some more.
///
/// Source: CMake manual, ctest(1), -I.
#[derive(Drop)]
pub struct Numbers {
    /// The first number.
    pub start: u32,
    /// The last number that may be admitted so; `None` is the number of tests.
    pub end: Option<u32>,
    /// How far it is from one number to the next; 0 admits `start` alone.
    pub stride: u32,
    /// Numbers that are admitted besides.
    pub more: List<u32>,
}

/// Which tests are chosen, and which fixtures draw no test in.
///
/// Source: CMake manual, ctest(1), Run Tests.
#[derive(Drop)]
pub struct Choice {
    /// Admits the tests whose name it hits: -R.
    pub name: Option<Regex>,
    /// Leaves out the tests whose name it hits: -E.
    pub not_name: Option<Regex>,
    /// Each of them hits some label of a chosen test: -L.
    pub labels: List<Regex>,
    /// Leaves out the tests of which each of these hits some label, where there are any: -LE.
    pub not_labels: List<Regex>,
    /// Admits the tests with these numbers: -I.
    pub numbers: Option<Numbers>,
    /// Where a name and numbers are asked for, one of the two suffices: -U.
    pub union: bool,
    /// Fixtures for which neither setups nor cleanups are drawn in: -FA.
    pub keep_any: Option<Regex>,
    /// Fixtures for which no setups are drawn in: -FS.
    pub keep_setup: Option<Regex>,
    /// Fixtures for which no cleanups are drawn in: -FC.
    pub keep_cleanup: Option<Regex>,
    /// Where given, a test is chosen exactly where its name stands among these, and no other
    /// condition counts: --rerun-failed.
    pub only: Option<List<Name>>,
}

/// What is wanted of a run.
///
/// Source: CMake manual, ctest(1), Run Tests.
#[derive(Drop)]
pub struct Wanted {
    /// The folder of the build tree: --test-dir.
    pub dir: Name,
    /// Which tests.
    pub choice: Choice,
    /// How many processors the tests that run at once may take together: -j.
    pub level: u32,
    /// How often a test is tried: --repeat.
    pub repeat: Repeat,
    /// Whether no test starts behind the first failure: --stop-on-failure.
    pub stop_on_failure: bool,
}

ghost use Rattle.std.specs.Prelude.{◌≡◌, ◌≤◌, Some, length};
ghost use Rattle.ct_props.specs.Numbered.{at_number};

use ct_base::{List, Pair, TestDef};
use ct_props::Props;

/// What workers have to know of the tests whose attempts they run.
///
/// A test and its properties have the same place.
#[derive(Clone, Copy)]
pub struct Jobs<'a> {
    /// The environment of the run.
    pub own: &'a [Pair],
    pub defs: &'a List<TestDef>,
    pub props: &'a List<Props>,
    /// The limit of a test without TIMEOUT, in microseconds; 0 is no limit.
    pub timeout: u64,
}

impl<'a> Jobs<'a> {
    /// Lends the test with this number.
    pub(crate) fn def(&self, number: u32) -> &TestDef
        requires low { 1 ≤ number }
        requires there { number ≤ length self.now.defs.now }
        ensures { at_number self.now.defs.now number ≡ Some result.now }
    {
        &self.defs.as_slice()[number as usize - 1]
    }

    /// Lends the properties of the test with this number.
    pub(crate) fn props(&self, number: u32) -> &Props
        requires low { 1 ≤ number }
        requires there { number ≤ length self.now.props.now }
        ensures { at_number self.now.props.now number ≡ Some result.now }
    {
        &self.props.as_slice()[number as usize - 1]
    }
}

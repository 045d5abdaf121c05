ghost use Rattle.std.specs.Prelude.{◌≡◌, ℕ, List as Bytes, None, IfOk, IfErr};
ghost use Rattle.ct_props.specs.PropsOf.{HasChecked, HasUnchecked, HasProps};
ghost use Rattle.ct_props.specs.Refusal.{IsPropFault, refused_as, HasReason};

use crate::PropFault;
use crate::checked::Checked;
use crate::texts::text_of;
use crate::truth::is_true;
use crate::unchecked::Unchecked;
use ct_base::{List, Name, TestDef};
use ct_groups::Groups;
use ct_regex::Regex;
use std::alloc::Global;

/// The properties of a test, each with the type that its key has.
///
/// Source: CMake manual, cmake-properties(7), Properties on Tests.
#[derive(Drop)]
pub struct Props {
    /// The names of tests that end before it: DEPENDS.
    pub depends: List<Name>,
    /// The fixtures that it sets up: FIXTURES_SETUP.
    pub setup: List<Name>,
    /// The fixtures that it requires: FIXTURES_REQUIRED.
    pub required: List<Name>,
    /// The fixtures that it cleans up: FIXTURES_CLEANUP.
    pub cleanup: List<Name>,
    /// Whether it is not run: DISABLED.
    pub disabled: bool,
    /// How many processors it takes, from 1 to 65,535: PROCESSORS.
    pub processors: u32,
    /// The locks that no other test may hold or share while it runs: RESOURCE_LOCK.
    pub locks: List<Name>,
    /// The locks that other tests may share, and none may hold, while it runs: RESOURCE_LOCK_SHARED.
    pub shared: List<Name>,
    /// Whether it runs alone: RUN_SERIAL.
    pub serial: bool,
    /// The patterns that make it fail where one has a match in its output: FAIL_REGULAR_EXPRESSION.
    pub fail: List<Regex>,
    /// The patterns of which one has to have a match in its output: PASS_REGULAR_EXPRESSION.
    pub pass: List<Regex>,
    /// The patterns that make it skipped where one has a match in its output:
    /// SKIP_REGULAR_EXPRESSION.
    pub skip: List<Regex>,
    /// The exit code that makes it skipped: SKIP_RETURN_CODE.
    pub skip_code: Option<i32>,
    /// Whether its verdict is inverted: WILL_FAIL.
    pub will_fail: bool,
    /// How long it may run, in microseconds; 0 is no limit: TIMEOUT.
    pub timeout: Option<u64>,
    /// What it costs, in microseconds: COST.
    pub cost: Option<u64>,
    /// The variables that are set for it: ENVIRONMENT.
    pub environment: List<Name>,
    /// The operations on its variables: ENVIRONMENT_MODIFICATION.
    pub modification: List<Name>,
    /// The files without which it does not run: REQUIRED_FILES.
    pub required_files: List<Name>,
    /// Its labels and then those of its folder, each once: LABELS.
    pub labels: List<Name>,
    /// The folder in which it runs: WORKING_DIRECTORY.
    pub working_dir: Name,
    /// The resources that it needs: RESOURCE_GROUPS.
    pub groups: Groups,
}

impl Props {
    /// Reads the properties of a test, or finds the least key, in byte order, with a bad value.
    ///
    /// Keys with no field here have no effect.
    ///
    /// Source: CMake manual, cmake-properties(7), Properties on Tests. What is refused, and which
    /// key is named, is this project's choice.
    pub fn of(alloc: Global, def: &TestDef) -> Result<Props, PropFault>
        ensures ok { IfOk result (λ props. HasProps def.now props) }
        ensures none { IfOk result (λ props. (key : Bytes ℕ) → refused_as def.now.props key ≡ None) }
        ensures bad { IfErr result (λ fault. IsPropFault def.now.props fault) }
        ensures reason { IfErr result HasReason }
    {
        let checked = Checked::of(alloc, def.props.as_slice())?;
        let unchecked = Unchecked::of(alloc, def)?;
        Ok(Props::with(def, checked, unchecked))
    }

    /// Returns the properties that were read, and beside them the truth values.
    fn with(def: &TestDef, checked: Checked, unchecked: Unchecked) -> Props
        requires checked { HasChecked def.now.props checked }
        requires unchecked { HasUnchecked def.now unchecked }
        ensures { HasProps def.now result }
    {
        let Unchecked {
            fixtures,
            waits,
            labels,
            surroundings,
        } = unchecked;
        let props = def.props.as_slice();
        Props {
            depends: waits.depends,
            setup: fixtures.setup,
            required: fixtures.required,
            cleanup: fixtures.cleanup,
            disabled: is_true(text_of(props, b"DISABLED")),
            processors: checked.processors,
            locks: waits.locks,
            shared: waits.shared,
            serial: is_true(text_of(props, b"RUN_SERIAL")),
            fail: checked.fail,
            pass: checked.pass,
            skip: checked.skip,
            skip_code: checked.skip_code,
            will_fail: is_true(text_of(props, b"WILL_FAIL")),
            timeout: checked.timeout,
            cost: checked.cost,
            environment: surroundings.environment,
            modification: surroundings.modification,
            labels,
            required_files: surroundings.required_files,
            working_dir: surroundings.working_dir,
            groups: checked.groups,
        }
    }
}

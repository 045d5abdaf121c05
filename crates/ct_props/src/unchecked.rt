ghost use Rattle.std.specs.Prelude.{IfOk};
ghost use Rattle.ct_props.specs.PropsOf.{HasFixtureNames, HasDependsAndLocks, HasSurroundings, HasUnchecked};

use crate::folder::{required_files, working_dir};
use crate::labels::labels;
use crate::lists::entries;
use ct_base::{List, Name, NoMemory, TestDef};
use std::alloc::Global;

/// The properties that take any value, where reading them takes memory.
#[derive(Drop)]
pub struct Unchecked {
    pub fixtures: FixtureNames,
    pub waits: DependsAndLocks,
    pub labels: List<Name>,
    pub surroundings: Surroundings,
}

impl Unchecked {
    /// Reads the keys whose values are lists, and that of the folder.
    pub fn of(alloc: Global, def: &TestDef) -> Result<Unchecked, NoMemory>
        ensures { IfOk result (λ unchecked. HasUnchecked def.now unchecked) }
    {
        let props = def.props.as_slice();
        Ok(Unchecked {
            labels: labels(alloc, props, b"LABELS", def.dir_labels.as_slice())?,
            fixtures: FixtureNames::of(alloc, def)?,
            waits: DependsAndLocks::of(alloc, def)?,
            surroundings: Surroundings::of(alloc, def)?,
        })
    }
}

/// The fixtures that a test sets up, requires and cleans up.
#[derive(Drop)]
pub struct FixtureNames {
    pub setup: List<Name>,
    pub required: List<Name>,
    pub cleanup: List<Name>,
}

impl FixtureNames {
    /// Reads the keys whose values are lists of fixtures.
    fn of(alloc: Global, def: &TestDef) -> Result<FixtureNames, NoMemory>
        ensures { IfOk result (λ fixtures. HasFixtureNames def.now fixtures) }
    {
        let props = def.props.as_slice();
        Ok(FixtureNames {
            setup: entries(alloc, props, b"FIXTURES_SETUP")?,
            required: entries(alloc, props, b"FIXTURES_REQUIRED")?,
            cleanup: entries(alloc, props, b"FIXTURES_CLEANUP")?,
        })
    }
}

/// What a test waits for before it starts: tests that end before it, and locks.
#[derive(Drop)]
pub struct DependsAndLocks {
    pub depends: List<Name>,
    pub locks: List<Name>,
    pub shared: List<Name>,
}

impl DependsAndLocks {
    /// Reads the keys of the tests that end before it, and of the locks.
    fn of(alloc: Global, def: &TestDef) -> Result<DependsAndLocks, NoMemory>
        ensures { IfOk result (λ waits. HasDependsAndLocks def.now waits) }
    {
        let props = def.props.as_slice();
        Ok(DependsAndLocks {
            depends: entries(alloc, props, b"DEPENDS")?,
            locks: entries(alloc, props, b"RESOURCE_LOCK")?,
            shared: entries(alloc, props, b"RESOURCE_LOCK_SHARED")?,
        })
    }
}

/// What the program of a test starts in: its variables, its folder and the files that it needs.
#[derive(Drop)]
pub struct Surroundings {
    pub environment: List<Name>,
    pub modification: List<Name>,
    pub required_files: List<Name>,
    pub working_dir: Name,
}

impl Surroundings {
    fn of(alloc: Global, def: &TestDef) -> Result<Surroundings, NoMemory>
        ensures { IfOk result (λ surroundings. HasSurroundings def.now surroundings) }
    {
        let props = def.props.as_slice();
        Ok(Surroundings {
            environment: entries(alloc, props, b"ENVIRONMENT")?,
            modification: entries(alloc, props, b"ENVIRONMENT_MODIFICATION")?,
            required_files: required_files(alloc, def)?,
            working_dir: working_dir(alloc, def)?,
        })
    }
}

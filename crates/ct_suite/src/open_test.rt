ghost use Rattle.std.specs.Prelude.{◌≡◌, IfOk};
ghost use Rattle.ct_suite.specs.Tests.{new_test};
ghost use Rattle.ct_suite.specs.Entries.{def_of};

use crate::props::Props;
use ct_base::{List, Name, NoMemory, TestDef};
use std::alloc::Global;

/// A test whose properties may still be set. In contracts `def_of` is its definition.
#[derive(Drop)]
pub(crate) struct OpenTest {
    pub(crate) name: Name,
    pub(crate) command: List<Name>,
    pub(crate) dir: Name,
    pub(crate) props: Props,
    pub(crate) dir_labels: List<Name>,
}

impl OpenTest {
    /// Makes a test without properties and labels.
    pub(crate) fn new(alloc: Global, name: Name, command: List<Name>, dir: Name) -> OpenTest
        ensures { def_of result ≡ new_test dir name command }
    {
        OpenTest {
            name,
            command,
            dir,
            props: Props::new(alloc),
            dir_labels: List::new(alloc),
        }
    }

    /// Returns the test, whose properties can no longer be set.
    pub(crate) fn define(self, alloc: Global) -> Result<TestDef, NoMemory>
        ensures { IfOk result (λ def. def ≡ def_of self) }
    {
        let OpenTest {
            name,
            command,
            dir,
            props,
            dir_labels,
        } = self;
        Ok(TestDef {
            name,
            command,
            dir,
            props: props.into_pairs(alloc)?,
            dir_labels,
        })
    }
}

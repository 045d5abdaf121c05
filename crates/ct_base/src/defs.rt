ghost use Rattle.std.specs.Prelude.{◌≡◌, ◌<◌, ◌^◌, IfOk};

use crate::{List, Name, NoMemory};
use std::alloc::Global;

/// How many slots a resource may have, and how many a need may ask for.
///
/// Source: this project's choice.
pub const MOST_SLOTS: u64 = 1_000_000_000;

/// A name and its value: a property, a variable of an environment, or a path and what it holds.
#[derive(Debug, Drop)]
pub struct Pair {
    pub name: Name,
    pub value: Name,
}

/// One need of a test: a number of slots on one resource of a kind.
///
/// Source: CMake manual, ctest(1), Resource Allocation.
#[derive(Debug, Drop)]
pub struct Need {
    /// The resource group that it belongs to, from 0.
    pub group: u32,
    pub kind: Name,
    pub slots: u32,
}

/// One resource that the machine lends to tests.
///
/// Source: CMake manual, ctest(1), Resource Allocation.
#[derive(Debug, Drop)]
pub struct Resource {
    pub kind: Name,
    pub id: Name,
    pub slots: u32,
}

impl Resource {
    /// Makes a second resource with the same kind, id and slots.
    pub fn copy(&self, alloc: Global) -> Result<Resource, NoMemory>
        ensures whole { IfOk result (λ copy. copy ≡ self.now) }
        ensures bounded { IfOk result (λ copy. copy.slots < 2 ^ 32) }
    {
        let slots = self.slots;
        Ok(Resource {
            kind: self.kind.copy(alloc)?,
            id: self.id.copy(alloc)?,
            slots,
        })
    }
}

/// A test as the test files define it.
///
/// Source: CMake manual, add_test and cmake-properties(7), Properties on Tests.
#[derive(Debug, Drop)]
pub struct TestDef {
    pub name: Name,
    /// The program and its arguments.
    pub command: List<Name>,
    /// The folder whose test file defines the test.
    pub dir: Name,
    /// One pair for each property key, in the order of first use, with the last value.
    pub props: List<Pair>,
    /// The labels that come from the folder.
    pub dir_labels: List<Name>,
}

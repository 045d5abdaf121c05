ghost use Rattle.std.specs.Prelude.{◌≡◌, ◌<◌, ◌^◌, ◌-◌, length, IfOk, OnOk};
ghost use Rattle.indexmap.specs.IndexMap.{index_map_len};
ghost use Rattle.ct_fixture.specs.Kept.{AreUntaken};

use crate::by_fixture::{ByFixture, note_each};
use ct_base::NoMemory;
use ct_props::Props;
use indexmap::IndexMap;
use std::alloc::Global;

/// The tests that set fixtures up or clean them, and that no fixture has drawn in so far.
#[derive(Drop)]
pub(crate) struct Fixtures {
    pub setups: ByFixture,
    pub cleanups: ByFixture,
}

impl Fixtures {
    /// Finds the setups and the cleanups of each fixture, without disabled tests.
    pub(crate) fn of(alloc: Global, props: &[Props]) -> Result<Fixtures, NoMemory>
        requires { length props.now < 2 ^ 32 - 1 }
        ensures { IfOk result (λ fixtures. AreUntaken props.now fixtures) }
    {
        let mut fixtures = Fixtures {
            setups: IndexMap::new(alloc),
            cleanups: IndexMap::new(alloc),
        };
        fixtures.note_all(alloc, props)?;
        Ok(fixtures)
    }

    /// Notes each test that is not disabled, where none is noted yet.
    fn note_all(&mut self, alloc: Global, props: &[Props]) -> Result<(), NoMemory>
        requires few { length props.now < 2 ^ 32 - 1 }
        requires setups { index_map_len self.old.setups ≡ 0 }
        requires cleanups { index_map_len self.old.cleanups ≡ 0 }
        ensures { OnOk result (AreUntaken props.now self.new) }
    {
        let mut number: u32 = 0;
        for own in props {
            number += 1;
            if !own.disabled {
                note_each(alloc, &mut self.setups, own.setup.as_slice(), number)?;
                note_each(alloc, &mut self.cleanups, own.cleanup.as_slice(), number)?;
            }
        }
        Ok(())
    }
}

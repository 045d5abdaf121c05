ghost use Rattle.std.specs.Prelude.{IfOk};
ghost use Rattle.ct_select.specs.Names.{HasNames};

use ct_base::{NoMemory, name_set};
use ct_props::Choice;
use std::alloc::Global;
use std::collections::BTreeSet;

/// Collects the names that alone are asked for, where they are given.
pub(crate) fn names_of(alloc: Global, choice: &Choice) -> Result<BTreeSet<&[u8]>, NoMemory>
    ensures { IfOk result (λ names. HasNames choice.now names) }
{
    match &choice.only {
        Some(only) => name_set(alloc, only.as_slice()),
        None => Ok(BTreeSet::new(alloc)),
    }
}

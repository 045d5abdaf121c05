ghost use Rattle.std.specs.Prelude.{◌≡◌, IfOk};
ghost use Rattle.ct_base.specs.Entries.{entries_of};
ghost use Rattle.ct_props.specs.Values.{text_of_key};

use crate::texts::text_of;
use ct_base::{List, Name, NoMemory, Pair, split_list};
use std::alloc::Global;

/// Returns the entries of the value of a key.
pub fn entries(alloc: Global, props: &[Pair], key: &[u8]) -> Result<List<Name>, NoMemory>
    ensures { IfOk result (λ names. names ≡ entries_of (text_of_key props.now key.now)) }
{
    split_list(alloc, text_of(props, key))
}

ghost use Rattle.std.specs.Prelude.{◌≡◌, IfOk, OnOk};
ghost use Rattle.std.specs.Ordering.{nat_cmp};
ghost use Rattle.std.specs.Cmp.Lexicographic.{slice_cmp};
ghost use Rattle.std.specs.BTreeSet.{insert_key};
ghost use Rattle.ct_env.specs.PlacementVariables.{kinds_in as kinds_of};
ghost use Rattle.ct_env.specs.Variables.{names_in};

use ct_alloc::Pick;
use ct_base::{List, Name, NoMemory};
use std::alloc::Global;
use std::collections::BTreeSet;

/// Returns the types of resources that a group has, each once, in byte order.
pub fn kinds_in(alloc: Global, group: u32, picks: &[Pick]) -> Result<List<Name>, NoMemory>
    ensures { IfOk result (λ kinds. kinds ≡ kinds_of group picks.now) }
{
    let mut kinds = BTreeSet::new(alloc);
    for pick in picks {
        if pick.group == group {
            put_kind(alloc, &mut kinds, &pick.kind)?;
        }
    }
    names_of(alloc, kinds)
}

fn put_kind(alloc: Global, kinds: &mut BTreeSet<Vec<u8>>, kind: &Name) -> Result<(), NoMemory>
    ensures { OnOk result (names_in kinds.new.keys ≡ insert_key (slice_cmp nat_cmp) (names_in kinds.old.keys) kind.now) }
{
    kinds.insert(Vec::from_slice(alloc, kind.bytes())?)?;
    Ok(())
}

fn names_of(alloc: Global, kinds: BTreeSet<Vec<u8>>) -> Result<List<Name>, NoMemory>
    ensures { IfOk result (λ names. names ≡ names_in kinds.keys) }
{
    let mut names = List::new(alloc);
    for kind in kinds {
        names.push(Name::from_vec(kind))?;
    }
    Ok(names)
}

ghost use Rattle.std.specs.Prelude.{◌≡◌, IfOk};
ghost use Rattle.ct_base.specs.Names.{is_among};
ghost use Rattle.ct_base.specs.NameSets.{AreNames};

use crate::{List, Name, NoMemory, Pair};
use std::alloc::Global;
use std::collections::BTreeSet;

/// Collects names in a set, to be looked up by their bytes.
pub fn name_set(alloc: Global, names: &[Name]) -> Result<BTreeSet<&[u8]>, NoMemory>
    ensures { IfOk result (λ set. AreNames names.now set) }
{
    let mut set = BTreeSet::new(alloc);
    for name in names {
        set.insert(name.bytes())?;
    }
    Ok(set)
}

/// Copies names, in order.
pub fn copy_names(alloc: Global, names: &[Name]) -> Result<List<Name>, NoMemory>
    ensures { IfOk result (λ copies. copies ≡ names.now) }
{
    let mut copies = List::from_vec(Vec::with_capacity(alloc, names.len())?);
    for name in names {
        copies.push(name.copy(alloc)?)?;
    }
    Ok(copies)
}

/// Copies pairs, in order.
pub fn copy_pairs(alloc: Global, pairs: &[Pair]) -> Result<List<Pair>, NoMemory>
    ensures { IfOk result (λ copies. copies ≡ pairs.now) }
{
    let mut copies = List::from_vec(Vec::with_capacity(alloc, pairs.len())?);
    for pair in pairs {
        copies.push(Pair {
            name: pair.name.copy(alloc)?,
            value: pair.value.copy(alloc)?,
        })?;
    }
    Ok(copies)
}

/// Returns whether a name is one of these.
pub fn is_among(name: &Name, others: &[Name]) -> bool
    ensures { result ≡ is_among name.now others.now }
{
    others.iter().any(|other| name.is(other))
}

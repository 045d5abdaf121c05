ghost use Rattle.std.specs.Prelude.{◌≡◌, ◌++◌, ◌∷◌, [], ℕ, List as Bytes, IfOk, OnOk, bytes_eq, if◌then◌else◌};
ghost use Rattle.ct_alloc.specs.ByKind.{AreByKind, places_for};

use ct_base::{Name, NoMemory, Resource};
use indexmap::IndexMap;
use std::alloc::Global;

/// The places of resources, in order, by their kind.
pub(crate) type ByKind = IndexMap<Vec<u8>, Vec<usize>>;

/// Lists the places of the resources of each kind.
pub(crate) fn by_kind_of(alloc: Global, resources: &[Resource]) -> Result<ByKind, NoMemory>
    ensures { IfOk result (AreByKind resources.now) }
{
    let mut by_kind = IndexMap::new(alloc);
    for (place, resource) in resources.iter().enumerate() {
        note(alloc, &mut by_kind, resource.kind.bytes(), place)?;
    }
    Ok(by_kind)
}

/// Puts one more place behind the places of a kind.
fn note(alloc: Global, by_kind: &mut ByKind, kind: &[u8], place: usize) -> Result<(), NoMemory>
    ensures { OnOk result ((asked : Bytes ℕ) → places_for by_kind.new asked ≡ (if bytes_eq kind.now asked
        then places_for by_kind.old asked ++ place ∷ []
        else places_for by_kind.old asked)) }
{
    match by_kind.get_mut(kind) {
        Some(places) => {
            places.push(place)?;
            Ok(())
        }
        None => {
            let mut first = Vec::new(alloc);
            first.push(place)?;
            by_kind.insert(Vec::from_slice(alloc, kind)?, first)?;
            Ok(())
        }
    }
}

/// Lends the places of the resources of a kind, in order.
pub(crate) fn places_at<'a>(by_kind: &'a ByKind, kind: &Name) -> &'a [usize]
    ensures { result.now ≡ places_for by_kind.entry.now kind.now }
{
    match by_kind.get(kind.bytes()) {
        Some(places) => places.as_slice(),
        None => &[],
    }
}

ghost use Rattle.std.specs.Prelude.{◌≡◌, ◌++◌, ◌∷◌, [], ℕ, List, OnOk, bytes_eq, if◌then◌else◌};
ghost use Rattle.ct_suite.specs.Entries.{places_by_key, places_of};

use ct_base::NoMemory;
use indexmap::IndexMap;
use std::alloc::Global;
use std::slice;

/// For each key, a name or a folder, the places of the tests that have it, in order.
pub(crate) type Places = IndexMap<Vec<u8>, KeyPlaces>;

/// The places of the tests that have one key, in order. One place takes no memory, and most names have one.
#[derive(Drop)]
pub(crate) enum KeyPlaces {
    One(usize),
    Many(Vec<usize>),
}

impl KeyPlaces {
    fn as_slice(&self) -> &[usize]
        ensures { result.now ≡ places_of self.now }
    {
        match self {
            KeyPlaces::One(place) => slice::from_ref(place),
            KeyPlaces::Many(places) => places.as_slice(),
        }
    }

    /// Appends a place.
    fn add(&mut self, alloc: Global, place: usize) -> Result<(), NoMemory>
        ensures { OnOk result (places_of self.new ≡ places_of self.old ++ place ∷ []) }
    {
        match self {
            KeyPlaces::One(first) => {
                let both = Vec::from_slice(alloc, &[*first, place])?;
                *self = KeyPlaces::Many(both);
                Ok(())
            }
            KeyPlaces::Many(places) => {
                places.push(place)?;
                Ok(())
            }
        }
    }
}

/// Lends the places of a key.
pub(crate) fn places_at<'a>(places: &'a Places, key: &[u8]) -> &'a [usize]
    ensures { result.now ≡ places_by_key places.entry.now.entries key.now }
{
    match places.get(key) {
        Some(found) => found.as_slice(),
        None => &[],
    }
}

/// Appends a place to those of a key.
pub(crate) fn note_place(
    alloc: Global,
    places: &mut Places,
    key: &[u8],
    place: usize,
) -> Result<(), NoMemory>
    ensures { OnOk result ((asked : List ℕ) → places_by_key places.new.entries asked
        ≡ (if bytes_eq asked key.now then places_by_key places.old.entries asked ++ place ∷ [] else places_by_key places.old.entries asked)) }
{
    match places.get_mut(key) {
        Some(here) => here.add(alloc, place),
        None => {
            places.insert(Vec::from_slice(alloc, key)?, KeyPlaces::One(place))?;
            Ok(())
        }
    }
}

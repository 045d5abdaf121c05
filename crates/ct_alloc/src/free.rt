ghost use Rattle.std.specs.Prelude.{◌≡◌, ℕ, ◌+◌, ◌-◌, ◌<◌, ◌≤◌, ◌^◌, ◌∷◌, [], true, length, slice_index, nat_le, nat_lt, IfOk, MatchOption, filter, map, slice_get};
ghost use Rattle.std.specs.List.{list_all};
ghost use Rattle.ct_alloc.specs.declared.placement.Pick.{Pick};
ghost use Rattle.ct_alloc.specs.Placement.{fits_beside, meets, slots_at};
ghost use Rattle.ct_alloc.specs.Free.{IsFitting, NoneFits, are_there, free_at, slot_counts, used_at};
ghost use Rattle.ct_alloc.specs.Spread.{HasRoom, IsSpread, NoneSpread, asks_kind, asks_other, cards_from, is_of_kind, interleaved, sizes_of};

use crate::by_kind::{ByKind, by_kind_of, places_at};
use crate::pack::pack;
use crate::placement::{Pick, Placement};
use ct_base::{List, Name, Need, NoMemory, Resource};
use std::alloc::Global;
use std::marker::Model;

/// What is free of the resources of a machine.
///
/// Source: CMake manual, ctest(1), Resource Allocation.
#[derive(Drop)]
pub struct Free {
    resources: List<Resource>,
    used: Vec<u32>,
    by_kind: ByKind,
}

impl Model for Free {
    ghost use Rattle.ct_alloc.specs.Free.{FreeValue, IsWithinSlots};
    ghost use Rattle.ct_alloc.specs.ByKind.{AreByKind};

    ghost Value = { FreeValue };

    ghost view = { λ f. record { resources = f.resources; used = f.used.items } };

    ghost invariant = { λ f. IsWithinSlots f.resources f.used.items × AreByKind f.resources f.by_kind };
}

impl Free {
    /// Copies the resources, of which nothing is used.
    pub fn all(alloc: Global, resources: &List<Resource>) -> Result<Free, NoMemory>
        requires few { length resources.now < 2 ^ 32 - 1 }
        ensures whole { IfOk result (λ free. free.resources ≡ resources.now) }
        ensures unused { IfOk result (λ free. (place : ℕ) → used_at free place ≡ 0) }
    {
        let by_kind = by_kind_of(alloc, resources.as_slice())?;
        Ok(Free {
            resources: copied(alloc, resources)?,
            used: vec![in alloc; 0; resources.len()]?,
            by_kind,
        })
    }

    /// Places needs beside what is used now: returns a placement that fits, or `None` if none does.
    ///
    /// Which one it returns is this project's choice: it places kind after kind, the greatest need first.
    pub fn place(&self, alloc: Global, needs: &List<Need>) -> Result<Option<Placement>, NoMemory>
        ensures exact { IfOk result (λ found. MatchOption found (NoneFits self.now needs.now) (λ placement. IsFitting self.now needs.now placement.picks)) }
    {
        let wanted: Vec<&Need> = needs.as_slice().iter().collect(alloc)?;
        match self.spread(alloc, wanted.as_slice())? {
            Some(places) => Ok(Some(self.placement(alloc, needs, places.as_slice())?)),
            None => Ok(None),
        }
    }

    /// Finds the place of a resource for each need.
    fn spread(&self, alloc: Global, needs: &[&Need]) -> Result<Option<Vec<usize>>, NoMemory>
        ensures exact { IfOk result (λ found. MatchOption found (NoneSpread self.now (map (λ n. n.now) needs.now)) (λ places. IsSpread self.now (map (λ n. n.now) needs.now) places.items)) }
    {
        let Some(first) = needs.first() else {
            return Ok(Some(Vec::new(alloc)));
        };
        let kind = &first.kind;
        let mine = of_kind(alloc, kind, needs)?;
        let others = of_other_kinds(alloc, kind, needs)?;
        let Some(here) = self.spread_kind(alloc, kind, mine.as_slice())? else {
            return Ok(None);
        };
        let Some(rest) = self.spread(alloc, others.as_slice())? else {
            return Ok(None);
        };
        Ok(Some(interleaved(alloc, kind, needs, here.as_slice(), rest.as_slice())?))
    }

    /// Finds the place of a resource for each of these needs, which all have one kind.
    fn spread_kind(
        &self,
        alloc: Global,
        kind: &Name,
        needs: &[&Need],
    ) -> Result<Option<Vec<usize>>, NoMemory>
        requires alike { list_all (asks_kind kind.now) (map (λ n. n.now) needs.now) ≡ true }
        ensures exact { IfOk result (λ found. MatchOption found (NoneSpread self.now (map (λ n. n.now) needs.now)) (λ places. IsSpread self.now (map (λ n. n.now) needs.now) places.items)) }
    {
        if let [need] = needs {
            return self.spread_one(alloc, need);
        }
        let cards = self.cards(kind);
        let mut free = self.free_of(alloc, cards)?;
        let sizes = sizes_of(alloc, needs)?;
        match pack(alloc, free.as_mut_slice(), sizes.as_slice())? {
            Some(found) => Ok(Some(places_of(alloc, cards, found.as_slice())?)),
            None => Ok(None),
        }
    }

    /// Finds the place of a resource for one need, the first that has room.
    fn spread_one(&self, alloc: Global, need: &Need) -> Result<Option<Vec<usize>>, NoMemory>
        ensures exact { IfOk result (λ found. MatchOption found (NoneSpread self.now (need.now ∷ [])) (λ places. IsSpread self.now (need.now ∷ []) places.items)) }
    {
        match self.first_with_room(need) {
            Some(place) => Ok(Some(vec![in alloc; place; 1]?)),
            None => Ok(None),
        }
    }

    /// Finds the first resource of a need's kind that has room for it.
    fn first_with_room(&self, need: &Need) -> Option<usize>
        ensures { MatchOption result ((place : ℕ) → place < length self.now.resources → HasRoom self.now need.now place → ⊥) (λ place. HasRoom self.now need.now place) }
    {
        let cards = self.cards(&need.kind);
        for place in cards {
            if need.slots <= self.free_at(*place) {
                return Some(*place);
            }
        }
        None
    }

    /// Lends the places of the resources of a kind, in order.
    fn cards(&self, kind: &Name) -> &[usize]
        ensures { result.now ≡ cards_from 0 kind.now self.now.resources }
    {
        places_at(&self.by_kind, kind)
    }

    /// Lists the free slots of the resources at these places.
    fn free_of(&self, alloc: Global, places: &[usize]) -> Result<Vec<u32>, NoMemory>
        ensures { IfOk result (λ free. free.items ≡ map (λ place. free_at self.now place) places.now) }
    {
        let mut free = Vec::new(alloc);
        for place in places {
            free.push(self.free_at(*place))?;
        }
        Ok(free)
    }

    /// Makes the placement that meets each need at its place.
    fn placement(
        &self,
        alloc: Global,
        needs: &List<Need>,
        places: &[usize],
    ) -> Result<Placement, NoMemory>
        requires spread { IsSpread self.now needs.now places.now }
        ensures fits { IfOk result (λ placement. IsFitting self.now needs.now placement.picks) }
    {
        let resources = self.resources.as_slice();
        let mut picks = List::new(alloc);
        for (at, need) in needs.as_slice().iter().enumerate() {
            picks.push(pick_of(alloc, need, resources, places[at])?)?;
        }
        Ok(Placement { picks })
    }

    /// Returns whether a placement fits beside what is used now.
    pub fn fits(&self, placement: &Placement) -> bool
        requires there { are_there self.now.resources placement.now.picks ≡ true }
        ensures { result ≡ fits_beside self.now.resources (used_at self.now) placement.now.picks }
    {
        let _ = &self.used;
        let picks = placement.picks.as_slice();
        for pick in picks {
            if !self.has_room(pick, picks) {
                return false;
            }
        }
        true
    }

    /// Returns whether the resource of a pick has room for all the picks on it.
    fn has_room(&self, pick: &Pick, picks: &[Pick]) -> bool
        ensures { result ≡ nat_le (slots_at pick.now.resource picks.now) (free_at self.now pick.now.resource) }
    {
        let place = pick.resource as usize;
        take_at_most(picks, place, self.free_at(place))
    }

    /// Returns how many slots of the resource at a place are free; 0 if there is no resource.
    fn free_at(&self, place: usize) -> u32
        ensures { result ≡ free_at self.now place }
    {
        match self.resources.get(place) {
            Some(resource) => resource.slots - self.used[place],
            None => 0,
        }
    }

    /// Adds the slots of a placement to what is used.
    pub fn take(&mut self, placement: &Placement)
        requires there { are_there self.old.resources placement.now.picks ≡ true }
        requires fits { fits_beside self.old.resources (used_at self.old) placement.now.picks ≡ true }
        ensures used { (place : ℕ) → used_at self.new place ≡ used_at self.old place + slots_at place placement.now.picks }
        ensures kept { self.new.resources ≡ self.old.resources }
    {
        add(self.used.as_mut_slice(), placement.picks.as_slice());
    }

    /// Takes the slots of a placement away from what is used.
    pub fn give(&mut self, placement: &Placement)
        requires there { are_there self.old.resources placement.now.picks ≡ true }
        requires used { (place : ℕ) → slots_at place placement.now.picks ≤ used_at self.old place }
        ensures used { (place : ℕ) → used_at self.new place ≡ used_at self.old place - slots_at place placement.now.picks }
        ensures kept { self.new.resources ≡ self.old.resources }
    {
        subtract(self.used.as_mut_slice(), placement.picks.as_slice());
    }
}

/// Makes the pick that meets a need at the place of a resource.
fn pick_of(
    alloc: Global,
    need: &Need,
    resources: &[Resource],
    place: usize,
) -> Result<Pick, NoMemory>
    requires there { is_of_kind need.now.kind (slice_get resources.now place) ≡ true }
    requires few { length resources.now < 2 ^ 32 }
    ensures meets { IfOk result (λ pick. meets resources.now need.now pick ≡ true) }
    ensures place { IfOk result (λ pick. pick.resource ≡ place) }
{
    let resource = &resources[place];
    Ok(Pick {
        group: need.group,
        kind: need.kind.copy(alloc)?,
        id: resource.id.copy(alloc)?,
        slots: need.slots,
        resource: place as u32,
    })
}

/// Lists the needs of this kind.
fn of_kind<'a>(alloc: Global, kind: &Name, needs: &[&'a Need]) -> Result<Vec<&'a Need>, NoMemory>
    ensures { IfOk result (λ mine. map (λ n. n.now) mine.items ≡ filter (asks_kind kind.now) (map (λ n. n.now) needs.now)) }
{
    let mut mine = Vec::new(alloc);
    for need in needs {
        if need.kind.is(kind) {
            mine.push(*need)?;
        }
    }
    Ok(mine)
}

/// Lists the needs of other kinds than this one.
fn of_other_kinds<'a>(
    alloc: Global,
    kind: &Name,
    needs: &[&'a Need],
) -> Result<Vec<&'a Need>, NoMemory>
    ensures { IfOk result (λ others. map (λ n. n.now) others.items ≡ filter (asks_other kind.now) (map (λ n. n.now) needs.now)) }
{
    let mut others = Vec::new(alloc);
    for need in needs {
        if !need.kind.is(kind) {
            others.push(*need)?;
        }
    }
    Ok(others)
}

/// Lists the slots of each need.
fn sizes_of(alloc: Global, needs: &[&Need]) -> Result<Vec<u32>, NoMemory>
    ensures { IfOk result (λ sizes. sizes.items ≡ sizes_of (map (λ n. n.now) needs.now)) }
{
    let mut sizes = Vec::new(alloc);
    for need in needs {
        sizes.push(need.slots)?;
    }
    Ok(sizes)
}

/// Lists the places of cards that are counted within their kind.
fn places_of(alloc: Global, cards: &[usize], found: &[usize]) -> Result<Vec<usize>, NoMemory>
    requires within { list_all (λ card. nat_lt card (length cards.now)) found.now ≡ true }
    ensures { IfOk result (λ places. places.items ≡ map (λ card. slice_index cards.now card) found.now) }
{
    let mut places = Vec::new(alloc);
    for card in found {
        places.push(cards[*card])?;
    }
    Ok(places)
}

/// Merges the places for a kind and the places for the other kinds in the order of the needs.
fn interleaved(
    alloc: Global,
    kind: &Name,
    needs: &[&Need],
    here: &[usize],
    rest: &[usize],
) -> Result<Vec<usize>, NoMemory>
    ensures { IfOk result (λ places. places.items ≡ interleaved kind.now (map (λ n. n.now) needs.now) here.now rest.now) }
{
    let mut places = Vec::new(alloc);
    let mut here = here.iter();
    let mut rest = rest.iter();
    for need in needs {
        let next = if need.kind.is(kind) {
            here.next()
        } else {
            rest.next()
        };
        places.push(next.copied().unwrap_or(0))?;
    }
    Ok(places)
}

/// Copies resources.
fn copied(alloc: Global, resources: &List<Resource>) -> Result<List<Resource>, NoMemory>
    ensures whole { IfOk result (λ copy. copy ≡ resources.now) }
    ensures bounded { IfOk result (λ copy. (place : ℕ) → slice_index (slot_counts copy) place < 2 ^ 32) }
{
    let mut copy = List::new(alloc);
    for resource in resources.as_slice() {
        copy.push(resource.copy(alloc)?)?;
    }
    Ok(copy)
}

/// Returns whether picks take at most this many slots of the resource at a place.
fn take_at_most(picks: &[Pick], place: usize, most: u32) -> bool
    ensures { result ≡ nat_le (slots_at place picks.now) most }
{
    let mut left = most;
    for pick in picks {
        if pick.resource as usize == place {
            if left < pick.slots {
                return false;
            }
            left -= pick.slots;
        }
    }
    true
}

/// Adds the slots of picks to what is used of each resource.
fn add(used: &mut [u32], picks: &[Pick])
    requires there { list_all (λ (pick : Pick). nat_lt pick.resource (length used.old)) picks.now ≡ true }
    requires fits { (place : ℕ) → slice_index used.old place + slots_at place picks.now < 2 ^ 32 }
    ensures used { (place : ℕ) → slice_index used.new place ≡ slice_index used.old place + slots_at place picks.now }
{
    for pick in picks {
        used[pick.resource as usize] += pick.slots;
    }
}

/// Takes the slots of picks away from what is used of each resource.
fn subtract(used: &mut [u32], picks: &[Pick])
    requires there { list_all (λ (pick : Pick). nat_lt pick.resource (length used.old)) picks.now ≡ true }
    requires used { (place : ℕ) → slots_at place picks.now ≤ slice_index used.old place }
    ensures used { (place : ℕ) → slice_index used.new place ≡ slice_index used.old place - slots_at place picks.now }
{
    for pick in picks {
        used[pick.resource as usize] -= pick.slots;
    }
}

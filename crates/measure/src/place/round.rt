//! One call of `Free::place`, and the result of all of them.

ghost use Rattle.std.specs.Prelude.{◌<◌};

use crate::place::draw::{Case, Dice, Family};
use crate::timing::{now, since};
use ct_alloc::Free;
use ct_base::{List, Name, Need, NoMemory, Resource};
use std::alloc::Global;
use std::time::Clock;

/// The result of the calls: how many found a placement, and how long they took, in microseconds.
#[derive(Drop)]
pub struct Tally {
    pub placed: u64,
    pub refused: u64,
    pub slowest: u128,
    pub together: u128,
    pub above_10: u64,
    pub above_50: u64,
}

impl Tally {
    pub fn new() -> Tally {
        Tally {
            placed: 0,
            refused: 0,
            slowest: 0,
            together: 0,
            above_10: 0,
            above_50: 0,
        }
    }

    /// Adds one call, which took `micros` microseconds.
    fn add(&mut self, is_placed: bool, micros: u128) {
        if is_placed {
            self.placed = self.placed.saturating_add(1);
        } else {
            self.refused = self.refused.saturating_add(1);
        }
        self.slowest = self.slowest.max(micros);
        self.together = self.together.saturating_add(micros);
        self.above_10 = self.above_10.saturating_add(u64::from(micros > 10_000));
        self.above_50 = self.above_50.saturating_add(u64::from(micros > 50_000));
    }
}

/// Places the needs of so many cases of a family on their cards.
pub fn place_all(
    rt: &(impl AllocGlobal + Clock),
    family: Family,
    rounds: u32,
) -> Result<Tally, NoMemory> {
    let mut dice = Dice::new(2026);
    let mut tally = Tally::new();
    for round in 0..rounds {
        let case = Case::of(rt.alloc(), family, round, &mut dice)?;
        place(rt, &case, &mut tally)?;
    }
    Ok(tally)
}

/// Places the needs of a case on its cards, and adds the result.
fn place(rt: &(impl AllocGlobal + Clock), case: &Case, tally: &mut Tally) -> Result<(), NoMemory> {
    let resources = cards(rt.alloc(), case.cards.as_slice())?;
    if resources.len() >= 4_294_967_295 {
        return Ok(());
    }
    let free = Free::all(rt.alloc(), &resources)?;
    place_on(rt, &free, case.needs.as_slice(), tally)
}

/// Places needs of these slots, and adds the result.
fn place_on(
    rt: &(impl AllocGlobal + Clock),
    free: &Free,
    slots: &[u32],
    tally: &mut Tally,
) -> Result<(), NoMemory> {
    let needs = needs(rt.alloc(), slots)?;
    let start = now(rt);
    let is_placed = free.place(rt.alloc(), &needs)?.is_some();
    tally.add(is_placed, since(rt, start).as_micros());
    Ok(())
}

/// Makes cards of one kind with these slots.
fn cards(alloc: Global, slots: &[u32]) -> Result<List<Resource>, NoMemory> {
    let mut cards = List::new(alloc);
    for (at, slots) in slots.iter().enumerate() {
        cards.push(card(alloc, at, *slots)?)?;
    }
    Ok(cards)
}

/// Makes a card with this number.
fn card(alloc: Global, at: usize, slots: u32) -> Result<Resource, NoMemory> {
    let id = at.to_string(alloc)?;
    Ok(Resource {
        kind: Name::of(alloc, b"gpus")?,
        id: Name::of(alloc, id.as_bytes())?,
        slots,
    })
}

/// Makes needs of one kind with these slots.
fn needs(alloc: Global, slots: &[u32]) -> Result<List<Need>, NoMemory> {
    let mut needs = List::new(alloc);
    for slots in slots {
        needs.push(Need {
            group: 0,
            kind: Name::of(alloc, b"gpus")?,
            slots: *slots,
        })?;
    }
    Ok(needs)
}

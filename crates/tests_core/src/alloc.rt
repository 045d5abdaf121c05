//! Placements: the worked ones, and many small ones that are
//! compared with all ways to place the needs.

ghost use Rattle.std.specs.Prelude.{◌<◌};

use crate::dice::Dice;
use ct_alloc::Placement;
use ct_base::NoMemory;
use std::alloc::Global;
use std::process::Abort;
use std::test::Fail;
use tests_samples::{cards, needs, unused};

/// Places needs on cards of which nothing is used.
fn placed(alloc: Global, slots: &[u32], wanted: &[u32]) -> Result<Option<Placement>, NoMemory> {
    let free = unused(alloc, &cards(alloc, slots)?)?;
    free.place(alloc, &needs(alloc, wanted)?)
}

/// Counts the picks of this many slots on a card.
fn count(placement: &Placement, card: u32, slots: u32) -> usize {
    let picks = placement.picks.as_slice();
    picks
        .iter()
        .filter(|pick| pick.resource == card && pick.slots == slots)
        .count()
}

/// What a row shows, the slots of its cards, those of its needs, and where the needs are placed.
///
/// Behind an `x` stands how often an amount comes. A placement is told by how many needs of how
/// many slots are on which card. Cards are numbered from 0.
const ROWS: &str = "\
a small and a great need on each card: 5 5 | 2 2 3 3 | 1 of 2 on 0, 1 of 3 on 0, 1 of 2 on 1, 1 of 3 on 1
no slot is left beside them: 5 5 | 2 2 3 3 1 | nowhere
two needs on each of thirteen cards: 5x13 | 2x26 | 2 of 2 on 0, 2 of 2 on 1, 2 of 2 on 2, 2 of 2 on 3, 2 of 2 on 4, 2 of 2 on 5, 2 of 2 on 6, 2 of 2 on 7, 2 of 2 on 8, 2 of 2 on 9, 2 of 2 on 10, 2 of 2 on 11, 2 of 2 on 12
one need more than thirteen cards take: 5x13 | 2x27 | nowhere
as many needs as twelve cards take: 11x12 | 2x60 | somewhere
one need too many is told at once: 11x12 | 2x61 | nowhere
two needs too many are told at once: 11x12 | 2x62 | nowhere
a card is left for the need that fills it: 9 5 7 | 5 5 4 7 | 1 of 5 on 0, 1 of 4 on 0, 1 of 5 on 1, 1 of 7 on 2
three great needs beside a small one: 9 5 7 | 5 5 5 4 | somewhere
a fourth great need: 9 5 7 | 5 5 5 5 | nowhere
one need on the first card with room: 1 0 3 2 | 2 | 1 of 2 on 2
one need that no card has room for: 1 0 3 2 | 4 | nowhere
no card at all:  | 0 | nowhere
";

fn number(word: &str) -> u32 {
    word.parse().unwrap_or(0)
}

fn amounts_of(alloc: Global, text: &str) -> Result<Vec<u32>, NoMemory> {
    let mut amounts = Vec::new(alloc);
    for word in text.split_terminator(' ') {
        let (slots, times) = word.split_once('x').unwrap_or((word, "1"));
        add(&mut amounts, number(slots), number(times))?;
    }
    Ok(amounts)
}

/// Adds an amount `times` times.
fn add(amounts: &mut Vec<u32>, slots: u32, times: u32) -> Result<(), NoMemory> {
    for _ in 0..times {
        amounts.push(slots)?;
    }
    Ok(())
}

fn check_row(rt: &impl Abort, alloc: Global, row: &str) -> Result<(), NoMemory> {
    let (_title, rest) = row.split_once(": ").unwrap_or((row, ""));
    let (slots, rest) = rest.split_once(" | ").unwrap_or((rest, ""));
    let (wanted, places) = rest.split_once(" | ").unwrap_or((rest, ""));
    let slots = amounts_of(alloc, slots)?;
    let wanted = amounts_of(alloc, wanted)?;
    match placed(alloc, &slots, &wanted)? {
        Some(placement) => check_places(rt, &placement, places, row),
        None => assert!(rt; places == "nowhere", "{row}"),
    }
    Ok(())
}

fn check_places(rt: &impl Abort, placement: &Placement, places: &str, row: &str) {
    if places == "somewhere" {
        return;
    }
    for place in places.split(", ") {
        assert!(rt; is_place(placement, place), "{place}: {row}");
    }
}

/// Returns whether a card has as many needs of as many slots as the text says, and at least one.
fn is_place(placement: &Placement, text: &str) -> bool {
    let (times, rest) = text.split_once(" of ").unwrap_or((text, ""));
    let (slots, card) = rest.split_once(" on ").unwrap_or((rest, ""));
    let found = count(placement, number(card), number(slots));
    0 < found && found == number(times) as usize
}

#[test]
fn places_needs_where_the_rows_say(rt: HostRuntime) -> Result<(), Fail> {
    for row in ROWS.lines() {
        check_row(&rt, rt.alloc(), row)?;
    }
    Ok(())
}

/// Draws at least one and at most `most` amounts, each below 7.
fn amounts(alloc: Global, dice: &mut Dice, most: u32) -> Result<Vec<u32>, NoMemory>
    requires { 0 < most }
{
    let mut amounts = Vec::new(alloc);
    for _ in 0..=dice.roll(most) {
        amounts.push(dice.roll(7))?;
    }
    Ok(amounts)
}

/// Counts the ways to place needs on four cards.
fn ways(needs: usize) -> u32 {
    (0..needs).fold(1, |ways: u32, _| ways.saturating_mul(4))
}

/// Adds up the needs that a way places on a card. The way has a digit in base 4 for each need.
fn load(wanted: &[u32], way: u32, card: u32) -> u32 {
    let mut rest = way;
    let mut load: u32 = 0;
    for slots in wanted {
        if rest % 4 == card {
            load = load.saturating_add(*slots);
        }
        rest /= 4;
    }
    load
}

/// Returns whether the needs fit when they are placed this way. A card beyond the last has no slots.
fn fits(free: &[u32], wanted: &[u32], way: u32) -> bool {
    for card in 0..4 {
        let slots = free.get(card as usize).copied().unwrap_or(0);
        if slots < load(wanted, way, card) {
            return false;
        }
    }
    true
}

#[test]
fn finds_a_placement_exactly_where_one_of_all_ways_fits(rt: HostRuntime) -> Result<(), Fail> {
    let mut dice = Dice::new(2026);
    for round in 0..10_000 {
        let free = amounts(rt.alloc(), &mut dice, 4)?;
        let wanted = amounts(rt.alloc(), &mut dice, 5)?;
        let found = placed(rt.alloc(), &free, &wanted)?.is_some();
        let fits_some_way = (0..ways(wanted.len())).any(|way| fits(&free, &wanted, way));
        assert_eq!(rt;
            found,
            fits_some_way,
            "{free:?} for {wanted:?} in round {round}"
        );
    }
    Ok(())
}

//! The cases that are placed: the free slots of cards, and the slots of needs.

ghost use Rattle.std.specs.Prelude.{◌<◌};

use ct_base::NoMemory;
use std::alloc::Global;

/// Numbers that look drawn by chance, the same at each run.
#[derive(Drop)]
pub struct Dice {
    state: u64,
}

impl Dice {
    pub fn new(state: u64) -> Dice {
        Dice { state }
    }

    /// Draws a number from 0 to `sides` - 1.
    fn roll(&mut self, sides: u32) -> u32
        requires { 0 < sides }
        ensures { result < sides }
    {
        self.state = self
            .state
            .wrapping_mul(6_364_136_223_846_793_005)
            .wrapping_add(1_442_695_040_888_963_407);
        let drawn = (self.state >> 33) as u32;
        drawn % sides
    }
}

/// A family of cases.
#[derive(Clone, Copy)]
pub enum Family {
    Drawn,
    Hard,
    One,
}

impl Family {
    /// Returns the family of this name.
    pub fn of(name: &str) -> Option<Family> {
        match name {
            "drawn" => Some(Family::Drawn),
            "hard" => Some(Family::Hard),
            "one" => Some(Family::One),
            _ => None,
        }
    }
}

/// The slots of cards of one kind, and of the needs that are placed on them.
#[derive(Drop)]
pub struct Case {
    pub cards: Vec<u32>,
    pub needs: Vec<u32>,
}

impl Case {
    /// Makes the case of a family for a round.
    pub fn of(
        alloc: Global,
        family: Family,
        round: u32,
        dice: &mut Dice,
    ) -> Result<Case, NoMemory> {
        match family {
            Family::Drawn => Case::draw(alloc, dice),
            Family::Hard => Case::hard(alloc, round),
            Family::One => Case::one(alloc),
        }
    }

    /// Draws up to 64 cards of up to 16 slots each, and up to 64 needs of up to 8 slots each. The
    /// needs take 85 to 105 percent of the slots, if 64 needs suffice for that.
    fn draw(alloc: Global, dice: &mut Dice) -> Result<Case, NoMemory> {
        let count = 1 + dice.roll(64);
        let most = 1 + dice.roll(16);
        let mut cards = Vec::new(alloc);
        let mut slots: u32 = 0;
        for _ in 0..count {
            let card = 1 + dice.roll(most);
            slots = slots.saturating_add(card);
            cards.push(card)?;
        }
        let percent = 85 + dice.roll(21);
        let left = slots.saturating_mul(percent) / 100;
        Ok(Case {
            cards,
            needs: drawn_needs(alloc, dice, left)?,
        })
    }

    /// Makes needs of 2 slots, and cards of 11 slots, each of which takes 5 needs. In every second
    /// round there is one need too many.
    fn hard(alloc: Global, round: u32) -> Result<Case, NoMemory> {
        let count = round / 2 % 10 + 3;
        let needs = (count * 5 + round % 2) as usize;
        Ok(Case {
            cards: vec![in alloc; 11; count as usize]?,
            needs: vec![in alloc; 2; needs]?,
        })
    }

    /// Makes one need and 4,096 cards, of which only the last one has room.
    fn one(alloc: Global) -> Result<Case, NoMemory> {
        let mut cards = vec![in alloc; 1; 4095]?;
        cards.push(2)?;
        Ok(Case {
            cards,
            needs: vec![in alloc; 2; 1]?,
        })
    }
}

/// Draws needs that take `slots` slots together, but not more than 64 needs.
fn drawn_needs(alloc: Global, dice: &mut Dice, slots: u32) -> Result<Vec<u32>, NoMemory> {
    let most = 1 + dice.roll(8);
    let mut left = slots;
    let mut needs = Vec::new(alloc);
    for _ in 0..64 {
        if left == 0 {
            break;
        }
        let need = left.min(1 + dice.roll(most));
        left = left.saturating_sub(need);
        needs.push(need)?;
    }
    Ok(needs)
}

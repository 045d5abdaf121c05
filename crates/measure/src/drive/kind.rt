//! What the driven tests have in common, and what sets each apart.

ghost use Rattle.std.specs.Prelude.{◌≤◌};

use ct_base::{Name, NoMemory, Pair};
use ct_verdict::How;
use std::alloc::Global;

/// What the tests ask for.
#[derive(Clone, Copy)]
pub enum Kind {
    /// Nothing; every tenth test fails.
    Plain,
    /// Each test waits for the one before.
    Chain,
    /// The first sets up what all others require, and the last cleans it up.
    Fixture,
    /// Every tenth test holds the same lock.
    Lock,
    /// One to three processors in turn.
    Wide,
    /// Each needs one slot of a card that has 32.
    Slots,
    /// Every test holds the same lock.
    Locked,
    /// Every test shares the same lock, but every thousandth, which holds it alone.
    Shared,
    /// Each needs all slots of the one card.
    Spent,
    /// Each holds a lock of its own and one that all hold, and sixteen workers ask.
    Crowd,
}

impl Kind {
    pub fn of(word: &str) -> Option<Kind> {
        match word {
            "plain" => Some(Kind::Plain),
            "chain" => Some(Kind::Chain),
            "fixture" => Some(Kind::Fixture),
            "lock" => Some(Kind::Lock),
            "wide" => Some(Kind::Wide),
            "slots" => Some(Kind::Slots),
            "locked" => Some(Kind::Locked),
            "shared" => Some(Kind::Shared),
            "spent" => Some(Kind::Spent),
            "crowd" => Some(Kind::Crowd),
            _ => None,
        }
    }

    /// Returns how many workers ask, which is also how many processors the tests
    /// that run at once may take together.
    pub fn level(self) -> u32
        ensures { 1 ≤ result }
    {
        match self {
            Kind::Crowd => 16,
            _ => 4,
        }
    }

    /// Returns how the test with this number ends.
    pub fn how(self, number: u32) -> How {
        match self {
            Kind::Plain if number % 10 == 0 => How::Exited(1),
            _ => How::Exited(0),
        }
    }

    /// Returns the property of the test at this place among `count` tests, if it has one.
    pub fn property(self, alloc: Global, place: u32, count: u32) -> Result<Option<Pair>, NoMemory> {
        match self {
            Kind::Plain => Ok(None),
            Kind::Chain => chained(alloc, place),
            Kind::Fixture => fixed(alloc, place, count),
            Kind::Lock if place % 10 == 0 => pair(alloc, "RESOURCE_LOCK", "lock"),
            Kind::Lock => Ok(None),
            Kind::Wide => pair(alloc, "PROCESSORS", widths(place)),
            Kind::Slots => pair(alloc, "RESOURCE_GROUPS", "gpus:1"),
            Kind::Locked => pair(alloc, "RESOURCE_LOCK", "lock"),
            Kind::Shared if place % 1000 == 999 => pair(alloc, "RESOURCE_LOCK", "lock"),
            Kind::Shared => pair(alloc, "RESOURCE_LOCK_SHARED", "lock"),
            Kind::Spent => pair(alloc, "RESOURCE_GROUPS", "gpus:32"),
            Kind::Crowd => crowded(alloc, place),
        }
    }
}

/// Returns the name of the test at this place.
pub fn name_at(alloc: Global, place: u32) -> Result<Name, NoMemory> {
    let text = format!(in alloc; "t{place}")?;
    Name::of(alloc, text.as_bytes())
}

fn chained(alloc: Global, place: u32) -> Result<Option<Pair>, NoMemory> {
    let Some(before) = place.checked_sub(1) else {
        return Ok(None);
    };
    Ok(Some(Pair {
        name: Name::of(alloc, b"DEPENDS")?,
        value: name_at(alloc, before)?,
    }))
}

fn fixed(alloc: Global, place: u32, count: u32) -> Result<Option<Pair>, NoMemory> {
    let key = if place == 0 {
        "FIXTURES_SETUP"
    } else if place.saturating_add(1) < count {
        "FIXTURES_REQUIRED"
    } else {
        "FIXTURES_CLEANUP"
    };
    pair(alloc, key, "fixture")
}

fn crowded(alloc: Global, place: u32) -> Result<Option<Pair>, NoMemory> {
    let locks = format!(in alloc; "lock{place};lock")?;
    pair(alloc, "RESOURCE_LOCK", locks.as_str())
}

fn widths(place: u32) -> &'static str {
    match place % 3 {
        0 => "1",
        1 => "2",
        _ => "3",
    }
}

fn pair(alloc: Global, key: &str, value: &str) -> Result<Option<Pair>, NoMemory> {
    Ok(Some(Pair {
        name: Name::of(alloc, key.as_bytes())?,
        value: Name::of(alloc, value.as_bytes())?,
    }))
}

ghost use Rattle.std.specs.Prelude.{◌≡◌, ◌<◌, ◌≤◌, ℕ, ⊤, slice_index, IfOk, OnOk, MatchOption, length};
ghost use Rattle.ct_alloc.specs.Packing.{CannotPack, IsNextCard, IsPacking, LiesBelow};

use crate::bound::is_overfull;
use ct_base::NoMemory;
use std::alloc::Global;

/// Packs sizes on cards with these free slots. It returns
/// the card of each size, or `None` if there is no packing.
pub fn pack(alloc: Global, free: &mut [u32], sizes: &[u32]) -> Result<Option<Vec<usize>>, NoMemory>
    ensures exact { IfOk result (λ found. MatchOption found (CannotPack free.old sizes.now) (λ cards. IsPacking free.old sizes.now cards.items)) }
{
    let limit = above_all(free);
    pack_below(alloc, free, sizes, 0, limit)
}

/// Packs sizes on cards. Each size equal to the last one
/// packed lies on a card with less room than a limit.
///
/// The greatest size is tried first, on one card of each room, the
/// roomiest first. If a card has just its room, only that card is tried.
fn pack_below(
    alloc: Global,
    free: &mut [u32],
    sizes: &[u32],
    last: u32,
    limit: u64,
) -> Result<Option<Vec<usize>>, NoMemory>
    requires lies { LiesBelow free.old sizes.now last limit }
    ensures exact { IfOk result (λ found. MatchOption found (CannotPack free.old sizes.now) (λ cards. IsPacking free.old sizes.now cards.items)) }
    ensures kept { OnOk result (free.new ≡ free.old) }
{
    if is_overfull(free, sizes) {
        return Ok(None);
    }
    let Some(greatest) = greatest(sizes) else {
        return Ok(Some(Vec::new(alloc)));
    };
    let size = sizes[greatest];
    let mut rest = Vec::from_slice(alloc, sizes)?;
    rest.remove(greatest);
    let mut below = if size == last { limit } else { above_all(free) };
    while let Some(card) = next_card(free, size, below) {
        let room = free[card];
        let next_limit = if room == size {
            above_all(free)
        } else {
            u64::from(room) + 1
        };
        free[card] -= size;
        let found = pack_below(alloc, free, rest.as_slice(), size, next_limit)?;
        free[card] += size;
        if let Some(mut cards) = found {
            cards.insert(greatest, card)?;
            return Ok(Some(cards));
        }
        if room == size {
            return Ok(None);
        }
        below = u64::from(room);
    }
    Ok(None)
}

/// Finds the position of the greatest size, the first if several are equal.
fn greatest(sizes: &[u32]) -> Option<usize>
    ensures { MatchOption result (length sizes.now ≡ 0) (λ at. at < length sizes.now) }
{
    let mut best: Option<usize> = None;
    for (at, size) in sizes.iter().enumerate() {
        match best {
            Some(first) if *size <= sizes[first] => {}
            _ => best = Some(at),
        }
    }
    best
}

/// Returns a room that is above the room of each card.
fn above_all(free: &[u32]) -> u64
    ensures { (card : ℕ) → slice_index free.now card < result }
{
    let mut above: u64 = 1;
    for room in free {
        if above <= u64::from(*room) {
            above = u64::from(*room) + 1;
        }
    }
    above
}

/// Finds the card to try for a size: a card with just its
/// room, else the roomiest with less room than a limit.
fn next_card(free: &[u32], size: u32, below: u64) -> Option<usize>
    ensures { MatchOption result ((card : ℕ) → card < length free.now → size ≤ slice_index free.now card → below ≤ slice_index free.now card) (λ card. IsNextCard free.now size below card) }
{
    match filled_card(free, size) {
        Some(card) => Some(card),
        None => roomiest(free, size, below),
    }
}

/// Finds a card that a size fills.
fn filled_card(free: &[u32], size: u32) -> Option<usize>
    ensures { MatchOption result ⊤ (λ card. (card < length free.now) × (slice_index free.now card ≡ size)) }
{
    for (card, room) in free.iter().enumerate() {
        if *room == size {
            return Some(card);
        }
    }
    None
}

/// Finds the roomiest card that has room for a size, among the cards with less room than a limit.
fn roomiest(free: &[u32], size: u32, below: u64) -> Option<usize>
    ensures { MatchOption result ((card : ℕ) → card < length free.now → size ≤ slice_index free.now card → below ≤ slice_index free.now card) (λ card. IsNextCard free.now size below card) }
{
    let mut best: Option<usize> = None;
    for (card, room) in free.iter().enumerate() {
        if size <= *room && u64::from(*room) < below {
            match best {
                Some(first) if *room <= free[first] => {}
                _ => best = Some(card),
            }
        }
    }
    best
}

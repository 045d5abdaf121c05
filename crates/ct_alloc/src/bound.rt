ghost use Rattle.std.specs.Prelude.{◌≡◌, ◌<◌, true, sum_by};
ghost use Rattle.ct_alloc.specs.Packing.{CannotPack, one_from, reaching, rooms};

/// Returns whether no packing exists by this bound: for some size, the sizes
/// that are not smaller are too many for the cards, or take too many slots.
pub fn is_overfull(free: &[u32], sizes: &[u32]) -> bool
    ensures { result ≡ true → CannotPack free.now sizes.now }
{
    for (at, least) in sizes.iter().enumerate() {
        if !sizes[..at].contains(least) && is_overfull_from(free, sizes, *least) {
            return true;
        }
    }
    false
}

/// Returns whether the sizes of at least `least` are too many for
/// the cards, or take too many slots; then no packing exists.
fn is_overfull_from(free: &[u32], sizes: &[u32], least: u32) -> bool
    ensures { result ≡ true → CannotPack free.now sizes.now }
{
    if sum_from(free, least) < sum_from(sizes, least) {
        return true;
    }
    if 0 < least && rooms_for(free, least) < count_from(sizes, least) {
        return true;
    }
    false
}

/// Adds up the amounts that are at least `least`.
fn sum_from(amounts: &[u32], least: u32) -> u128
    ensures { result ≡ sum_by (reaching least) amounts.now }
{
    let mut sum: u128 = 0;
    for amount in amounts {
        if least <= *amount {
            sum += u128::from(*amount);
        }
    }
    sum
}

/// Counts the amounts that are at least `least`.
fn count_from(amounts: &[u32], least: u32) -> u128
    ensures { result ≡ sum_by (one_from least) amounts.now }
{
    let mut count: u128 = 0;
    for amount in amounts {
        if least <= *amount {
            count += 1;
        }
    }
    count
}

/// Counts how many sizes of `least` the cards have room for.
fn rooms_for(free: &[u32], least: u32) -> u128
    requires { 0 < least }
    ensures { result ≡ sum_by (rooms least) free.now }
{
    let mut count: u128 = 0;
    for amount in free {
        count += u128::from(*amount / least);
    }
    count
}

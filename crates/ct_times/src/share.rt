ghost use Rattle.std.specs.Prelude.{◌≡◌, ◌≤◌, ℕ, ◌+◌, ◌-◌, ◌*◌, ◌%◌, ◌^◌, min};
ghost use Rattle.ct_times.specs.Bounds.{IsShare};
ghost use Rattle.ct_times.specs.Capacity.{over_up};

/// A sum over a size: how often the size fits into it, and what is left.
#[derive(Clone, Copy)]
pub(crate) struct Share {
    pub whole: u128,
    pub rest: u64,
}

/// Shares the sum of nothing.
pub(crate) fn no_share() -> Share
    ensures { (size : ℕ) → 1 ≤ size → IsShare result size 0 }
{
    Share { whole: 0, rest: 0 }
}

/// Adds a product. The factor is divided first, so that nothing passes 128 bits on the way.
pub(crate) fn share_more(share: Share, factor: u128, amount: u64, size: u64) -> Share
    requires { 1 ≤ size }
    ensures { (sum : ℕ) → IsShare share size sum → IsShare result size (sum + factor * amount) }
{
    let whole = (factor / u128::from(size)).saturating_mul(u128::from(amount));
    let part = part_of(factor, amount, size, share.rest);
    Share {
        whole: share
            .whole
            .saturating_add(whole)
            .saturating_add(part / u128::from(size)),
        rest: (part % u128::from(size)) as u64,
    }
}

/// Returns what is left of the factor times the amount, and the rest.
#[tactic(auto, using(crate::proofs::ShareLemmas::product_fits))]
fn part_of(factor: u128, amount: u64, size: u64, rest: u64) -> u128
    requires { 1 ≤ size }
    ensures { result ≡ factor % size * amount + rest }
{
    factor % u128::from(size) * u128::from(amount) + u128::from(rest)
}

/// Returns the sum over the size, rounded up.
pub(crate) fn rounded_up(share: Share) -> u128
    ensures { (size sum : ℕ) → 1 ≤ size → IsShare share size sum →
        result ≡ min (over_up sum size) (2 ^ 128 - 1) }
{
    if share.rest > 0 {
        share.whole.saturating_add(1)
    } else {
        share.whole
    }
}

ghost use Rattle.std.specs.Prelude.{◌≡◌};
ghost use Rattle.ct_suite.specs.Count.{raised};

/// Adds to a count, if the sum is at most `most`.
pub fn raised(most: u32, count: u64, more: u64) -> Option<u64>
    ensures { result ≡ raised most count more }
{
    let sum = count.saturating_add(more);
    if u64::from(most) < sum {
        return None;
    }
    Some(sum)
}

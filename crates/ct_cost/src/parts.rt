ghost use Rattle.std.specs.Prelude.{◌≡◌, ◌≤◌, ◌==◌, length};
ghost use Rattle.std.specs.List.{position_or_len};

use ct_base::first_place;

/// Returns the length of the first part of a text that `separator` cuts.
#[tactic(auto, using(crate::proofs::PlaceLemmas::len_found, crate::proofs::PlaceLemmas::len_none))]
pub(crate) fn part_len(text: &[u8], separator: u8) -> usize
    ensures is { result ≡ position_or_len (λ byte. byte == separator) text.now }
    ensures within { result ≤ length text.now }
{
    match first_place(text, separator) {
        Some(at) => at,
        None => text.len(),
    }
}

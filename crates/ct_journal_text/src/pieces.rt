ghost use Rattle.std.specs.Prelude.{◌≡◌, IfOk};
ghost use Rattle.ct_journal_text.specs.Guess.{pieces as parts};

use ct_base::{List, Name, NoMemory};
use std::alloc::Global;

/// Cuts a text at each byte that separates its pieces. Empty pieces stay.
#[tactic(auto, using(crate::proofs::PieceLemmas::cuts_at_separator, crate::proofs::PieceLemmas::keeps_byte, crate::proofs::PieceLemmas::cuts_none, crate::proofs::PieceLemmas::cuts_all))]
pub(crate) fn pieces_of(alloc: Global, text: &[u8], separator: u8) -> Result<List<Name>, NoMemory>
    ensures { IfOk result (λ pieces. pieces ≡ parts separator text.now) }
{
    let mut pieces = List::new(alloc);
    let mut piece = Vec::new(alloc);
    for byte in text {
        if *byte == separator {
            pieces.push(Name::from_vec(piece))?;
            piece = Vec::new(alloc);
        } else {
            piece.push(*byte)?;
        }
    }
    pieces.push(Name::from_vec(piece))?;
    Ok(pieces)
}

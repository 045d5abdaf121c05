ghost use Rattle.std.specs.Prelude.{◌≡◌, IfOk};
ghost use Rattle.ct_groups.specs.Description.{pieces_of as parts};

use ct_base::{List, Name, NoMemory};
use std::alloc::Global;

/// Cuts a text at each comma. Empty pieces stay.
#[tactic(auto, using(crate::proofs::PieceLemmas::cuts_at_comma, crate::proofs::PieceLemmas::keeps_byte, crate::proofs::PieceLemmas::cuts_none, crate::proofs::PieceLemmas::cuts_all))]
pub fn pieces_of(alloc: Global, text: &[u8]) -> Result<List<Name>, NoMemory>
    ensures { IfOk result (λ pieces. pieces ≡ parts text.now) }
{
    let mut pieces = List::new(alloc);
    let mut piece = Vec::new(alloc);
    for byte in text {
        if *byte == b',' {
            pieces.push(Name::from_vec(piece))?;
            piece = Vec::new(alloc);
        } else {
            piece.push(*byte)?;
        }
    }
    pieces.push(Name::from_vec(piece))?;
    Ok(pieces)
}

ghost use Rattle.std.specs.Prelude.{OnOk, Option, List, ℕ, ◌≡◌, Some};
ghost use Rattle.ct_base.specs.Outside.{Adds, Becomes};
ghost use Rattle.ct_edge.specs.Heard.{Hears, emptied};

use crate::fault::StartFault;
use ct_base::{Blob, Ear};

/// Keeps what a program writes until an ear hears it. `holds` has what is kept, if that is known.
pub trait Keep {
    ghost holds: { Self → Option (List ℕ) };

    /// Keeps a piece behind what is kept.
    fn keep(&mut self, piece: &[u8]) -> Result<(), StartFault>
        ensures { OnOk result (Becomes (holds self.old) (holds self.new) (Adds piece.now)) };

    /// Lets the ear hear all that is kept, in order.
    fn hand_on<E: Ear>(&self, ear: &mut E) -> Result<(), StartFault>
        ensures heard { OnOk result (Hears (holds self.now) (emptied (holds self.now)) (E.stands_for ear.old) (E.stands_for ear.new)) }
        ensures kept { E.kept ear.new ≡ E.kept ear.old };
}

impl Keep for Blob {
    ghost holds = { Some };

    fn keep(&mut self, piece: &[u8]) -> Result<(), StartFault> {
        self.append(piece)?;
        Ok(())
    }

    fn hand_on<E: Ear>(&self, ear: &mut E) -> Result<(), StartFault> {
        ear.hear(self.bytes());
        Ok(())
    }
}

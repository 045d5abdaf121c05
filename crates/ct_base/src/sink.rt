ghost use Rattle.std.specs.Prelude.{◌≡◌, ◌∷◌, []};
ghost use Rattle.ct_base.specs.Outside.{Puts, PutsEach, SinkTell};
ghost use Rattle.ct_base.specs.declared.sink.SinkFault.TheVariants as SinkCause;

use crate::NoMemory;

/// Why a sink did not take a piece.
#[derive(Clone, Copy, Debug, PartialEq, Eq)]
pub enum SinkFault {
    /// The operation failed, in the system or in what stands for it.
    Failed,
    /// Memory was wanting.
    NoMemory,
}

impl From<NoMemory> for SinkFault {
    ghost from_gives = { λ _ e. e ≡ SinkCause.NoMemory };

    fn from(_e: NoMemory) -> SinkFault {
        SinkFault::NoMemory
    }
}

/// Takes the text of a report.
///
/// `tells` has three parts: all that the sink took, the pieces that it took whole, and how many
/// calls failed. A sink may leave the first two untold. The count never falls.
pub trait Sink {
    ghost tells: { Self → SinkTell };

    /// Writes the piece behind what was written. After a fault, a beginning of the piece was written.
    fn put(&mut self, piece: &[u8]) -> Result<(), SinkFault>
        ensures puts { Puts piece.now (tells self.old) (tells self.new) result }
        ensures each { PutsEach (piece.now ∷ []) (tells self.old) (tells self.new) result };
}

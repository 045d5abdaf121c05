ghost use Rattle.std.specs.Prelude.{◌≡◌, Bool, List, length};
ghost use Rattle.ct_history.specs.declared.plan.PlanParts.{PlanParts};
ghost use Rattle.ct_history.specs.declared.history.Entry.{Entry};
ghost use Rattle.ct_history.specs.declared.board.Base.{Base};

use ct_base::Blob;

/// The state of a board's sink when the board was opened. Only clauses use it: no value is made.
#[derive(Debug, Drop)]
pub struct Base {
    /// The bytes written so far, where the sink tells them.
    pub written: Option<Blob>,
    /// The pieces that were taken whole so far, put by put, where the sink tells them.
    pub pieces: Option<ct_base::List<Blob>>,
    /// The sink's count of faults at that time.
    pub faults: u64,
}

/// The state of a run that workers hand to each other.
///
/// Source: this project's choice.
pub trait Board {
    ghost plan: { Self → PlanParts };

    ghost history: { Self → List Entry };

    ghost base: { Self → Base };

    ghost halted: { Self → Bool };

    /// The number of entries in the history.
    fn length(&self) -> usize
        ensures { result ≡ length (history self.now) };

    /// Returns whether the run was given up.
    fn is_halted(&self) -> bool
        ensures { result ≡ halted self.now };
}

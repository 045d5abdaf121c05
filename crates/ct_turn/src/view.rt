use ct_history::{Base, Entry, PlanParts};

// No value of these types is made: only clauses use them. A clause
// reads an array as a list of any length.

/// A history, and whether the run was given up then.
pub struct Moment {
    pub entries: [Entry; 0],
    pub halted: bool,
}

/// What is noted of a worker whose pass was joined away.
pub struct Note {
    pub worker: u32,
    /// The history that it had seen.
    pub seen: [Entry; 0],
    /// The history that the keeper of the note had seen.
    pub before: [Entry; 0],
}

/// What a seat of the turn knows.
pub struct Known {
    /// The plan of the state in the turn.
    pub plan: PlanParts,
    /// The base of the state in the turn.
    pub base: Base,
    /// The worker whose seat it is.
    pub worker: u32,
    /// The last moment that it saw.
    pub seen: Moment,
    /// Whether the seat is with its worker, and was not joined away.
    pub is_out: bool,
    /// How many passes were made on this turn, where this is the one of worker 0.
    pub made: u32,
    /// The workers whose passes were joined into this one, in that order.
    pub notes: [Note; 0],
}

/// A seat of the turn, as the rule sees it.
pub struct View {
    pub known: Known,
    /// The moment at which it took the turn, where it has the turn.
    pub taken: Option<Moment>,
    /// Whether it has the turn, and the slot of the state is empty.
    pub is_lent: bool,
}

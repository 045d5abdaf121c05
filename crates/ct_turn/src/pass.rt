ghost use Rattle.std.specs.Prelude.{◌≡◌, ◌∷◌, []};
ghost use Rattle.ct_turn.specs.Pass.{PassValue, IsAway, away, known_in, taken_in};

use crate::View;
use atomic_table::{Badge, Seat};
use std::marker::Model;
use std::mem;

/// A worker's seat at a turn. It takes no memory, and cannot be copied.
///
/// Contracts see its turn, what it knows, and the moment at which it
/// took the turn, if it has the turn.
#[derive(Drop)]
pub struct Pass {
    pub(crate) badge: Badge<View>,
    /// What the last `give` left in the round word, in its low 32 bits.
    pub(crate) round: u32,
    /// The length of the history that it took.
    pub(crate) length: usize,
    /// Whether the state that it took was halted.
    pub(crate) halted: bool,
}

impl Model for Pass {
    ghost Value = { PassValue };

    ghost view = { λ p. record { turn = p.badge.table_id; known = known_in p.badge.views; taken = taken_in p.badge.views } };

    ghost invariant = { λ p. IsAway p.badge.views };
}

/// Takes the seat out of a pass. The caller has to put a seat back.
pub(crate) fn sit<S>(badge: &mut Badge<View>) -> Seat<S, View>
    requires { IsAway badge.old.views }
    ensures { (result.table_id ≡ badge.old.table_id)
        × (result.me ≡ (away (known_in badge.old.views) (taken_in badge.old.views), [])) }
{
    mem::replace(badge, Badge::blank()).into_seat()
}

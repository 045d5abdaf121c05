use crate::View;
use atomic_table::{Join, Play, Split, TableRule};
use ct_history::Board;
use std::marker::PhantomData;
use std::snapshot::Snapshot;

/// What holds of the turn between any two steps.
pub struct Rule<T> {
    marker: PhantomData<T>,
}

impl<T: Board> TableRule<Option<T>, View, Snapshot<T>> for Rule<T> {
    ghost use Rattle.ct_turn.specs.Seen.{sight};
    ghost use Rattle.ct_turn.specs.Rule.{IsOrderly, first_view};

    ghost holds = { λ key. IsOrderly (sight T.plan T.base T.history T.halted) key.value };

    ghost first = { λ key. first_view (sight T.plan T.base T.history T.halted key.value) };
}

/// The step that tries to take the turn.
pub(crate) struct Take<T> {
    marker: PhantomData<T>,
}

impl<T: Board> Play<Option<T>, View> for Take<T> {
    ghost use Rattle.ct_turn.specs.Seen.{sight};
    ghost use Rattle.ct_turn.specs.Rule.{Tried};

    ghost then = { λ st m found n. Tried (sight T.plan T.base T.history T.halted) m found n };
}

/// The step that puts the emptied slot back, while the turn is held.
pub(crate) struct Lend;

impl<T> Play<Option<T>, View> for Lend {
    ghost use Rattle.ct_turn.specs.Rule.{Lent};

    ghost then = { λ st m found n. Lent m n };
}

/// The step that counts the round and takes the empty slot, before the state comes back.
pub(crate) struct Count;

impl<T> Play<Option<T>, View> for Count {
    ghost use Rattle.ct_turn.specs.Rule.{Counted};

    ghost then = { λ st m found n. Counted m n };
}

/// The step that frees the turn.
pub(crate) struct Free<T> {
    marker: PhantomData<T>,
}

impl<T: Board> Play<Option<T>, View> for Free<T> {
    ghost use Rattle.ct_turn.specs.Seen.{sight};
    ghost use Rattle.ct_turn.specs.Rule.{GivenBack};

    ghost then = { λ st m found n. GivenBack (sight T.plan T.base T.history T.halted) m n };
}

/// The step that looks and changes nothing.
pub(crate) struct Look;

impl<T> Play<Option<T>, View> for Look {
    ghost use Rattle.ct_turn.specs.Rule.{Looked};

    ghost then = { λ st m found n. Looked m n };
}

/// The step that makes a pass.
pub(crate) struct Part;

impl Split<View> for Part {
    ghost use Rattle.ct_turn.specs.Seen.{one_more};
    ghost use Rattle.ct_turn.specs.Rule.{new_view};

    ghost left = { λ v. record v { known = one_more v.known } };

    ghost right = { λ v. new_view v };
}

/// The step that joins a pass away.
pub(crate) struct Unite;

impl Join<View> for Unite {
    ghost use Rattle.ct_turn.specs.Seen.{with_joined};
    ghost use Rattle.ct_turn.specs.Rule.{spent_view};

    ghost both = { λ v w. record v { known = with_joined v.known w.known } };

    ghost spent = { spent_view };
}

ghost use Rattle.std.specs.Prelude.{◌≡◌, ◌+◌, ◌<◌, ◌≤◌, ◌∷◌, ◌++◌, [], length, true, false, Some, None, IfOk, IfErr, IsSomeAnd};

use crate::pass::sit;
use crate::rule::{Count, Free, Lend, Look, Part, Rule, Take, Unite};
use crate::{Pass, View};
use atomic_table::{Refused, Seat, Table};
use ct_history::Board;
use std::alloc::Global;
use std::hint::spin_loop;
use std::marker::Model;
use std::snapshot::Snapshot;
use std::sync::Wait;

/// The word that is 0 while the turn is free.
const TURN: usize = 0;

/// The word that counts the rounds.
const ROUND: usize = 1;

const FREE: u64 = 0;

/// The value of the turn word while a pass has the turn and no taker sleeps.
const HELD: u64 = 1;

/// The value of the turn word while a pass has the turn and a taker may sleep until it is free.
const AWAITED: u64 = 2;

/// The slot with the state.
const STATE: usize = 0;

/// How often a taker looks again before it sleeps.
const SPINS: u32 = 64;

/// There was no memory for a turn; the state is returned.
#[derive(Drop)]
pub struct OpenRefused<T> {
    pub state: T,
}

/// One state that workers take in turn.
///
/// Contracts see the turn's id, and how many passes it may have.
#[derive(Drop)]
pub struct Turn<T: Board> {
    table: Table<Option<T>, View, Snapshot<T>, Rule<T>, Global>,
    seats: u32,
}

impl<T: Board> Model for Turn<T> {
    ghost use Rattle.std.specs.Prelude.{◌≡◌};
    ghost use Rattle.ct_turn.specs.Turn.{TurnValue};

    ghost Value = { TurnValue };

    ghost view = { λ t. record { id = t.table.shared.table_id; seats = t.seats } };

    ghost invariant = { λ t. (t.table.shared.table_id.words ≡ 2) × (t.table.shared.table_id.slots ≡ 1) };
}

impl<T: Board> Turn<T> {
    ghost use Rattle.ct_turn.specs.Seen.{Closes, Continues, HistoryGoesOn, Suits, has_seen, held_start, with_joined, moment, one_more, opener, sight, split_off};
    ghost use Rattle.ct_turn.specs.Pass.{idle_pass};
    ghost use Rattle.ct_turn.specs.Rule.{Taken};

    /// Opens a turn with this state, for at most `seats` passes, and returns the pass of worker 0.
    pub fn open(alloc: Global, state: T, seats: u32) -> Result<(Turn<T>, Pass), OpenRefused<T>>
        requires seats { 1 ≤ seats }
        requires empty { T.history state ≡ [] }
        requires going { T.halted state ≡ false }
        ensures ok { IfOk result (λ opened. (opened.0.seats ≡ seats)
            × (opened.1 ≡ idle_pass opened.0.id (opener (T.plan state) (T.base state)))) }
        ensures err { IfErr result (λ refused. refused.state ≡ state) }
    {
        let key = Snapshot::of(&state);
        let mut slots = match Vec::with_capacity(alloc, 1) {
            Ok(slots) => slots,
            Err(_) => return Err(OpenRefused { state }),
        };
        slots.push_reserved(Some(state));
        match Table::new(alloc, &[FREE, 0], slots, &key) {
            Ok((table, seat)) => Ok((
                Turn { table, seats },
                Pass {
                    badge: seat.into_badge(),
                    round: 0,
                    length: 0,
                    halted: false,
                },
            )),
            Err(Refused { slots }) => Err(OpenRefused {
                state: first_of(slots),
            }),
        }
    }

    /// Takes the turn, as soon as no other pass has it.
    pub fn take<R: Wait>(&self, rt: &R, pass: &mut Pass) -> T
        requires turn { pass.old.turn ≡ self.now.id }
        requires idle { pass.old.taken ≡ None }
        ensures suits { Suits pass.old.known (sight T.plan T.base T.history T.halted result) }
        ensures pass { pass.new ≡ record pass.old {
          taken = Some (moment (T.history result) (T.halted result));
        } }
    {
        let shared = &self.table.shared;
        let mut seat = sit::<Option<T>>(&mut pass.badge);
        self.seize(rt, &mut seat);
        let state = shared.exchange(&mut seat, STATE, None).unwrap();
        let _ = shared.load::<Lend>(&mut seat, TURN);
        pass.badge = seat.into_badge();
        pass.length = state.length();
        pass.halted = state.is_halted();
        state
    }

    fn seize<R: Wait>(&self, rt: &R, seat: &mut Seat<Option<T>, View>)
        requires turn { seat.old.table_id ≡ self.now.id }
        requires out { seat.old.me.0.known.is_out ≡ true }
        requires idle { (seat.old.me.0.taken ≡ None) × (seat.old.me.1 ≡ []) }
        ensures { (seat.new.table_id ≡ seat.old.table_id)
            × Taken (sight T.plan T.base T.history T.halted) seat.old.me seat.new.me }
    {
        let shared = &self.table.shared;
        let mut spins: u32 = 0;
        for _ in rt.forever() {
            if spins < SPINS {
                if shared.compare_exchange::<Take<T>>(seat, TURN, FREE, HELD) == FREE {
                    return;
                }
                spins += 1;
                spin_loop();
            } else {
                // A woken taker sets the word to AWAITED, since other takers may still sleep.
                if shared.swap::<Take<T>>(seat, TURN, AWAITED) == FREE {
                    return;
                }
                shared.park(rt, TURN, 2);
            }
        }
        unreachable!()
    }

    /// Gives the turn back with this state, and wakes one waiting taker, if there is one.
    pub fn give(&self, pass: &mut Pass, state: T)
        requires turn { pass.old.turn ≡ self.now.id }
        requires continues { IsSomeAnd pass.old.taken (λ taken.
            Continues pass.old.known taken (sight T.plan T.base T.history T.halted state)) }
        ensures { pass.new ≡ idle_pass pass.old.turn
            (has_seen pass.old.known (moment (T.history state) (T.halted state))) }
    {
        let shared = &self.table.shared;
        let grown = state.length() > pass.length || (state.is_halted() && !pass.halted);
        let mut seat = sit::<Option<T>>(&mut pass.badge);
        let round = shared.fetch_add::<Count>(&mut seat, ROUND, u64::from(grown));
        let empty = shared.exchange(&mut seat, STATE, Some(state));
        match empty {
            Some(_) => unreachable!(),
            None => {}
        }
        let found = shared.swap::<Free<T>>(&mut seat, TURN, FREE);
        pass.badge = seat.into_badge();
        pass.round = low_half(round.wrapping_add(u64::from(grown)));
        if found == AWAITED {
            shared.wake_one(TURN);
        }
        if grown {
            shared.wake_all(ROUND);
        }
    }

    /// Sleeps until another pass has given the turn back since this one's last `give`.
    ///
    /// It may also return earlier.
    pub fn pause<R: Wait>(&self, rt: &R, pass: &mut Pass)
        requires turn { pass.old.turn ≡ self.now.id }
        requires idle { pass.old.taken ≡ None }
        ensures { pass.new ≡ pass.old }
    {
        self.table.shared.park(rt, ROUND, pass.round);
    }

    /// Makes a pass for the next worker, which has seen the same history and holds no start.
    pub fn split(&self, pass: &mut Pass) -> Pass
        requires turn { pass.old.turn ≡ self.now.id }
        requires opener { pass.old.known.worker ≡ 0 }
        requires seats { pass.old.known.made < self.now.seats }
        ensures pass { pass.new ≡ record pass.old { known = one_more pass.old.known } }
        ensures other { result ≡ idle_pass self.now.id (split_off pass.old.known) }
        ensures idle { held_start result.known ≡ None }
    {
        let shared = &self.table.shared;
        let mut seat = sit::<Option<T>>(&mut pass.badge);
        let _ = shared.load::<Look>(&mut seat, TURN);
        let other = shared.split_seat::<Part>(&mut seat);
        pass.badge = seat.into_badge();
        Pass {
            badge: other.into_badge(),
            round: 0,
            length: 0,
            halted: false,
        }
    }

    /// Joins another worker's pass into the one of worker 0, which notes what that worker had seen.
    pub fn join(&self, pass: &mut Pass, other: Pass)
        requires turn { (pass.old.turn ≡ self.now.id) × (other.turn ≡ self.now.id) }
        requires opener { pass.old.known.worker ≡ 0 }
        requires idle { (pass.old.taken ≡ None) × (other.taken ≡ None) }
        requires done { held_start other.known ≡ None }
        ensures pass { pass.new ≡ record pass.old { known = with_joined pass.old.known other.known } }
        ensures own { HistoryGoesOn pass.old.known.worker
            pass.old.known.seen.entries pass.new.known.seen.entries }
        ensures held { held_start pass.new.known ≡ held_start pass.old.known }
    {
        let shared = &self.table.shared;
        let mut seat = sit::<Option<T>>(&mut pass.badge);
        let Pass {
            badge,
            round: _,
            length: _,
            halted: _,
        } = other;
        shared.join_seat::<Unite>(&mut seat, badge.into_seat());
        let _ = shared.load::<Look>(&mut seat, TURN);
        pass.badge = seat.into_badge();
    }

    /// Ends the turn, once one pass is left, and returns the state.
    pub fn close(self, pass: Pass) -> T
        requires turn { pass.turn ≡ self.id }
        requires opener { pass.known.worker ≡ 0 }
        requires idle { pass.taken ≡ None }
        requires done { held_start pass.known ≡ None }
        requires joined { length pass.known.notes + 1 ≡ pass.known.made }
        ensures { Closes pass.known (sight T.plan T.base T.history T.halted result) }
    {
        let Turn { table, seats: _ } = self;
        let Pass {
            badge,
            round: _,
            length: _,
            halted: _,
        } = pass;
        let mut closed = table.close_with(badge.into_seat());
        let state = closed.take(STATE).unwrap();
        closed.free();
        state
    }
}

/// Returns the one item of the slots.
fn first_of<T>(mut slots: Vec<Option<T>>) -> T
    requires { (x : T) × (slots.items ≡ Some x ∷ []) }
    ensures { slots.items ≡ Some result ∷ [] }
{
    match slots.pop() {
        Some(Some(state)) => {
            slots.destroy_empty();
            state
        }
        Some(None) | None => unreachable!(),
    }
}

/// Returns the low 32 bits of a round.
fn low_half(round: u64) -> u32 {
    (round % (1 << 32)) as u32
}

// The steps of a turn.

ghost use Rattle.std.specs.Prelude.{◌≡◌, ◌<◌, [], ◌∷◌, length, Some, None};
ghost use Rattle.pts_lock.specs.Views.{EachSawItsOwn, GrewTo, HasLength, view, with_seen};

use crate::rule::{Draw, Load, Raise, Serve};
use crate::seat::TableSeat;
use crate::staged::Staged;
use crate::turnstile::Turnstile;
use std::sync::Wait;

// The words of the table: the length of the history, how many tickets were drawn, and which ticket is served.
const LENGTH: usize = 0;

const TICKETS: usize = 1;

const SERVING: usize = 2;

impl<T: Staged> Turnstile<T> {
    /// Draws a ticket, sleeps until it is served, and takes the value out of the slot.
    pub(crate) fn begin_turn<R: Wait>(&self, rt: &R, seat: &mut TableSeat<T>) -> T
        requires own { seat.old.table_id ≡ self.now.table.shared.table_id }
        requires idle { (seat.old.me.1 ≡ []) × (seat.old.me.0.ticket ≡ None) × (seat.old.me.0.turn ≡ None) }
        requires owners { 0 < length seat.old.me.0.pairs }
        ensures own { seat.new.table_id ≡ seat.old.table_id }
        ensures turn { (seat.new.me.1 ≡ (0, None) ∷ []) × (seat.new.me.0.turn ≡ Some (T.history result)) }
        ensures history { EachSawItsOwn seat.old.me.0.pairs (T.history result) }
        ensures same { seat.new.me.0.pairs ≡ seat.old.me.0.pairs }
    {
        let shared = &self.table.shared;
        let ticket = shared.fetch_add::<Draw<T>>(seat, TICKETS, 1);
        for _ in rt.forever() {
            let serving = shared.load::<Load<T>>(seat, SERVING);
            if serving == ticket {
                let Some(value) = shared.exchange(seat, 0, None) else {
                    unreachable!()
                };
                return value;
            }
            shared.park(rt, SERVING, (serving % (1 << 32)) as u32);
        }
        unreachable!()
    }

    /// Puts the value into the slot, raises the length by what the history gained, serves the next ticket, and wakes who waits.
    pub(crate) fn end_turn(&self, seat: &mut TableSeat<T>, before: u64, value: T)
        requires own { seat.old.table_id ≡ self.now.table.shared.table_id }
        requires turn { seat.old.me.1 ≡ (0, None) ∷ [] }
        requires history { GrewTo seat.old.me.0.turn seat.old.me.0.pairs (T.history value) }
        requires before { HasLength seat.old.me.0.turn before }
        ensures own { seat.new.table_id ≡ seat.old.table_id }
        ensures idle { seat.new.me ≡ (view (with_seen (T.history value) seat.old.me.0.pairs) None None, []) }
    {
        let shared = &self.table.shared;
        let gained = value.stage() - before;
        let slot = shared.exchange(seat, 0, Some(value));
        let None = slot else { unreachable!() };
        shared.fetch_add::<Raise<T>>(seat, LENGTH, gained);
        shared.fetch_add::<Serve<T>>(seat, SERVING, 1);
        shared.wake_all(SERVING);
    }
}

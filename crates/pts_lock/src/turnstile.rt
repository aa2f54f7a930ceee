// The lock.

ghost use Rattle.std.specs.Prelude.{◌≡◌, ◌<◌, ◌^◌, ◌++◌, ℕ, List, IfOk, [], ◌∷◌, length, map, Some, None};
ghost use Rattle.std.specs.List.{AllByRecursion};
ghost use Rattle.pts_names.specs.Lists.{In, AllDiffer};
ghost use Rattle.pts_lock.specs.Histories.{AddedBy, SawItsOwn};
ghost use Rattle.pts_lock.specs.Seats.{seat_at_rest, history_seen};

use crate::rule::{Opening, Tickets};
use crate::seat::{LockSeat, View};
use crate::staged::Staged;
use atomic_table::Table;
use std::alloc::{AllocError, Global};
use std::sync::Wait;

/// A lock around a value with a history. One thread at a time has the turn, and with it the value; the turns come in the order
/// of the tickets that were drawn for them. A thread whose turn it is not sleeps; at the end of each turn all that sleep are woken,
/// and all but one sleep again. Beside that a turn costs a few atomic steps.
pub struct Turnstile<T: Staged> {
    /// The words and the slot. Its `key` has the owners and the value with which the lock began.
    pub table: Table<Option<T>, View<T::Entry>, Opening<T>, Tickets<T>, Global>,
    pub ghost words: { table.shared.table_id.words ≡ 3 },
    pub ghost slots: { table.shared.table_id.slots ≡ 1 },
}

impl<T: Staged + Drop> Turnstile<T> {
    /// A lock around the value, and one seat for each owner, in order. Each seat has seen the whole history.
    ///
    /// # Errors
    ///
    /// Out of memory. The value is dropped then.
    pub fn new(
        alloc: Global,
        value: T,
        owners: &[u32],
    ) -> Result<(Turnstile<T>, Vec<LockSeat<T>>), AllocError>
        requires some { 0 < length owners.now }
        requires differ { AllDiffer owners.now }
        requires few { length owners.now < 2 ^ 32 }
        ensures opening { IfOk result (λ r. (r.0.table.shared.key.owners.items ≡ owners.now) × (r.0.table.shared.key.value.value ≡ value)) }
        ensures own { IfOk result (λ r. AllByRecursion (λ s. s.in_table.table_id ≡ r.0.table.shared.table_id) r.1.items) }
        ensures owners { IfOk result (λ r. map (λ s. s.owner) r.1.items ≡ owners.now) }
        ensures idle { IfOk result (λ r. AllByRecursion (λ s. s.in_table.me ≡ seat_at_rest s.owner (T.history value)) r.1.items) }
        ensures count { IfOk result (λ r. AllByRecursion (λ s. s.count ≡ length (T.history value)) r.1.items) }
    {
        let count = value.stage();
        let mut seats = Vec::with_capacity(alloc, owners.len())?;
        let (lock, mut rest) = match Turnstile::open(alloc, value, owners) {
            Ok(both) => both,
            Err(error) => {
                seats.destroy_empty();
                return Err(error);
            }
        };
        let last = owners.len() - 1;
        for k in 0..last {
            let in_table = lock.hand_out(&mut rest);
            let owner = owners[k];
            let pushed = seats.push(LockSeat {
                in_table,
                owner,
                count,
            });
            let Ok(()) = pushed else { unreachable!() };
        }
        let owner = owners[last];
        let pushed = seats.push(LockSeat {
            in_table: rest,
            owner,
            count,
        });
        let Ok(()) = pushed else { unreachable!() };
        Ok((lock, seats))
    }
}

impl<T: Staged> Turnstile<T> {
    /// Waits for the turn, and takes the value. Its history begins with what the seat has seen, and no entry after that is of the
    /// seat's owner. The seat is one of this lock, without the turn.
    pub fn take<R: Wait>(&self, rt: &R, seat: &mut LockSeat<T>) -> T
        requires own { seat.old.in_table.table_id ≡ self.now.table.shared.table_id }
        requires idle { seat.old.in_table.me ≡ seat_at_rest seat.old.owner (history_seen seat.old.in_table.me) }
        ensures own { seat.new.in_table.table_id ≡ seat.old.in_table.table_id }
        ensures owner { seat.new.owner ≡ seat.old.owner }
        ensures turn { (seat.new.in_table.me.1 ≡ (0, None) ∷ []) × (seat.new.in_table.me.0.turn ≡ Some (T.history result)) }
        ensures pairs { seat.new.in_table.me.0.pairs ≡ seat.old.in_table.me.0.pairs }
        ensures count { seat.new.count ≡ length (T.history result) }
        ensures history { SawItsOwn seat.old.owner (history_seen seat.old.in_table.me) (T.history result) }
    {
        let value = self.begin_turn(rt, &mut seat.in_table);
        seat.count = value.stage();
        value
    }

    /// Gives the value back, and ends the turn. Its history is the one that was taken, with entries of the seat's owner after it,
    /// and the seat has seen all of it then.
    pub fn put(&self, seat: &mut LockSeat<T>, value: T)
        requires own { seat.old.in_table.table_id ≡ self.now.table.shared.table_id }
        requires turn { (seat.old.in_table.me.1 ≡ (0, None) ∷ []) × (seat.old.in_table.me.0.pairs ≡ (seat.old.owner, history_seen seat.old.in_table.me) ∷ []) }
        requires history { (old : List (ℕ × T.Entry)) × (mine : List (ℕ × T.Entry)) × (seat.old.in_table.me.0.turn ≡ Some old) × (seat.old.count ≡ length old)
            × (old ++ mine ≡ T.history value) × AllByRecursion (λ e. e.0 ≡ seat.old.owner) mine }
        ensures own { seat.new.in_table.table_id ≡ seat.old.in_table.table_id }
        ensures owner { seat.new.owner ≡ seat.old.owner }
        ensures idle { seat.new.in_table.me ≡ seat_at_rest seat.old.owner (T.history value) }
        ensures count { seat.new.count ≡ length (T.history value) }
    {
        let count = value.stage();
        self.end_turn(&mut seat.in_table, seat.count, value);
        seat.count = count;
    }

    /// The value. The seats are all of the lock, and none has the turn. The history begins with what each seat has seen, and no
    /// entry after that is of the seat's owner; after the opening history each entry is of one of the owners. It takes no memory.
    pub fn close(self, seats: Vec<LockSeat<T>>) -> T
        requires some { 0 < length seats.items }
        requires own { AllByRecursion (λ s. s.in_table.table_id ≡ self.table.shared.table_id) seats.items }
        requires idle { AllByRecursion (λ s. s.in_table.me ≡ seat_at_rest s.owner (history_seen s.in_table.me)) seats.items }
        requires all { (n : ℕ) → In n self.table.shared.key.owners.items → In n (map (λ s. s.owner) seats.items) }
        ensures seen { AllByRecursion (λ s. SawItsOwn s.owner (history_seen s.in_table.me) (T.history result)) seats.items }
        ensures added { AddedBy self.table.shared.key.owners.items (T.history self.table.shared.key.value.value) (T.history result) }
    {
        let mut seats = seats;
        let first = seats.pop();
        let Some(first) = first else { unreachable!() };
        let LockSeat {
            in_table: mut all,
            owner: _,
            count: _,
        } = first;
        while let Some(seat) = seats.pop() {
            let LockSeat {
                in_table,
                owner: _,
                count: _,
            } = seat;
            self.gather(&mut all, in_table);
        }
        seats.destroy_empty();
        self.close_with(all)
    }
}

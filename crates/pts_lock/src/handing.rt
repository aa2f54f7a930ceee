// Owners that go from seat to seat, at the beginning and at the end of a lock.

ghost use Rattle.std.specs.Prelude.{◌≡◌, ◌<◌, ◌^◌, ◌++◌, ℕ, [], length, IfOk, None};
ghost use Rattle.pts_names.specs.Lists.{In, AllDiffer};
ghost use Rattle.pts_lock.specs.Histories.{AddedBy};
ghost use Rattle.pts_lock.specs.Views.{EachSawItsOwn, Owns, first_pair, opening_pairs, other_pairs, view};

use crate::rule::{Gather, HandOut, Opening};
use crate::seat::TableSeat;
use crate::staged::Staged;
use crate::turnstile::Turnstile;
use atomic_table::Table;
use std::alloc::{AllocError, Global};
use std::snapshot::Snapshot;

impl<T: Staged + Drop> Turnstile<T> {
    /// A lock, and one seat for all owners.
    pub(crate) fn open(
        alloc: Global,
        value: T,
        owners: &[u32],
    ) -> Result<(Turnstile<T>, TableSeat<T>), AllocError>
        requires differ { AllDiffer owners.now }
        requires few { length owners.now < 2 ^ 32 }
        ensures own { IfOk result (λ r. r.1.table_id ≡ r.0.table.shared.table_id) }
        ensures opening { IfOk result (λ r. (r.0.table.shared.key.owners.items ≡ owners.now) × (r.0.table.shared.key.value.value ≡ value)) }
        ensures seat { IfOk result (λ r. r.1.me ≡ (view (opening_pairs (T.history value) owners.now) None None, [])) }
    {
        let length = value.stage();
        let opening = Opening {
            owners: Vec::from_slice(alloc, owners)?,
            value: Snapshot::of(&value),
        };
        let mut slots = Vec::new(alloc);
        slots.push(Some(value))?;
        match Table::new(alloc, &[length, 0, 0], slots, &opening) {
            Ok((table, seat)) => Ok((Turnstile { table }, seat)),
            Err(_) => Err(AllocError),
        }
    }
}

impl<T: Staged> Turnstile<T> {
    /// A new seat for the first owner of a seat.
    pub(crate) fn hand_out(&self, seat: &mut TableSeat<T>) -> TableSeat<T>
        requires own { seat.old.table_id ≡ self.now.table.shared.table_id }
        requires idle { (seat.old.me.1 ≡ []) × (seat.old.me.0.ticket ≡ None) × (seat.old.me.0.turn ≡ None) }
        ensures own { (seat.new.table_id ≡ seat.old.table_id) × (result.table_id ≡ seat.old.table_id) }
        ensures rest { seat.new.me ≡ (view (other_pairs seat.old.me.0.pairs) None None, []) }
        ensures first { result.me ≡ (view (first_pair seat.old.me.0.pairs) None None, []) }
    {
        self.table.shared.split_seat::<HandOut<T>>(seat)
    }

    /// A seat takes the owners of another.
    pub(crate) fn gather(&self, seat: &mut TableSeat<T>, other: TableSeat<T>)
        requires own { (seat.old.table_id ≡ self.now.table.shared.table_id) × (other.table_id ≡ self.now.table.shared.table_id) }
        requires idle { (seat.old.me.1 ≡ []) × (seat.old.me.0.ticket ≡ None) × (seat.old.me.0.turn ≡ None) }
        requires other_idle { (other.me.1 ≡ []) × (other.me.0.ticket ≡ None) × (other.me.0.turn ≡ None) }
        ensures own { seat.new.table_id ≡ seat.old.table_id }
        ensures both { seat.new.me ≡ (view (seat.old.me.0.pairs ++ other.me.0.pairs) None None, []) }
    {
        self.table.shared.join_seat::<Gather<T>>(seat, other);
    }

    /// The value, where a seat without the turn has every owner.
    pub(crate) fn close_with(self, seat: TableSeat<T>) -> T
        requires own { seat.table_id ≡ self.table.shared.table_id }
        requires idle { seat.me.0.turn ≡ None }
        requires all { (n : ℕ) → In n self.table.shared.key.owners.items → Owns n seat.me.0.pairs }
        ensures seen { EachSawItsOwn seat.me.0.pairs (T.history result) }
        ensures added { AddedBy self.table.shared.key.owners.items (T.history self.table.shared.key.value.value) (T.history result) }
    {
        let Turnstile { table } = self;
        let mut closed = table.close_with(seat);
        let slot = closed.take(0);
        closed.free();
        let Some(value) = slot else { unreachable!() };
        value
    }
}

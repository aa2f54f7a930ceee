// The rule of the tickets, and the steps that it allows.

ghost use Rattle.std.specs.Prelude.{◌++◌, [], None};
ghost use Rattle.pts_lock.specs.Views.{view, opening_pairs, first_pair, other_pairs};
ghost use Rattle.pts_lock.specs.TicketRule.{TicketRule};
ghost use Rattle.pts_lock.specs.Steps.{Draws, Loads, Raises, Serves};

use crate::seat::View;
use crate::staged::Staged;
use atomic_table::{Join, Play, Split, TableRule};
use std::marker::PhantomData;
use std::snapshot::Snapshot;

/// What a lock begins with: its owners, and the value.
#[derive(Drop)]
pub struct Opening<T> {
    pub owners: Vec<u32>,
    pub value: Snapshot<T>,
}

/// What holds of the words, the slot and the seats after every step.
pub struct Tickets<T> {
    of: PhantomData<T>,
}

impl<T: Staged> TableRule<Option<T>, View<T::Entry>, Opening<T>> for Tickets<T> {
    ghost holds = { λ o. TicketRule T.history o.owners.items (T.history o.value.value) };

    ghost first = { λ o. view (opening_pairs (T.history o.value.value) o.owners.items) None None };
}

/// A ticket is drawn.
pub struct Draw<T> {
    of: PhantomData<T>,
}

impl<T: Staged> Play<Option<T>, View<T::Entry>> for Draw<T> {
    ghost then = { Draws T.history };
}

/// The word of the ticket that is served is read; where it is the seat's, the seat takes the slot.
pub struct Load<T> {
    of: PhantomData<T>,
}

impl<T: Staged> Play<Option<T>, View<T::Entry>> for Load<T> {
    ghost then = { Loads T.history };
}

/// The word of the history's length is raised.
pub struct Raise<T> {
    of: PhantomData<T>,
}

impl<T: Staged> Play<Option<T>, View<T::Entry>> for Raise<T> {
    ghost then = { Raises T.history };
}

/// The slot goes back, and the next ticket is served.
pub struct Serve<T> {
    of: PhantomData<T>,
}

impl<T: Staged> Play<Option<T>, View<T::Entry>> for Serve<T> {
    ghost then = { Serves T.history };
}

/// A new seat takes the first owner of a seat.
pub struct HandOut<T> {
    of: PhantomData<T>,
}

impl<T: Staged> Split<View<T::Entry>> for HandOut<T> {
    ghost left = { λ v. view (other_pairs v.pairs) None None };

    ghost right = { λ v. view (first_pair v.pairs) None None };
}

/// A seat takes the owners of another.
pub struct Gather<T> {
    of: PhantomData<T>,
}

impl<T: Staged> Join<View<T::Entry>> for Gather<T> {
    ghost both = { λ v w. view (v.pairs ++ w.pairs) None None };

    ghost spent = { view [] None None };
}

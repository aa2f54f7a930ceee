// The seats of a lock, one for each owner.

use crate::staged::Staged;
use atomic_table::Seat;
use std::collections::LinkedList;

/// What contracts see of a seat. No value of this type is made.
pub struct View<E> {
    /// Each owner for which the seat takes part, with the history that it has seen.
    pub pairs: LinkedList<(u32, LinkedList<(u32, E)>)>,
    /// The ticket that the seat drew, until its turn is over.
    pub ticket: Option<u64>,
    /// The history that the lock has, while the seat has the turn.
    pub turn: Option<LinkedList<(u32, E)>>,
}

/// A thread's part in the table of words and slots of a lock.
pub type TableSeat<T> = Seat<Option<T>, View<<T as Staged>::Entry>>;

/// What one owner takes part in a lock with. It may be sent to another thread. Contracts name its fields.
pub struct LockSeat<T: Staged> {
    pub in_table: TableSeat<T>,
    /// The number that the entries of its turns have.
    pub owner: u32,
    /// How many entries the history had when the seat took the value or put it back, or else at the opening.
    pub count: u64,
}

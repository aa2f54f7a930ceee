// Turns of a lock around a log.

ghost use Rattle.std.specs.Prelude.{◌≡◌, ℕ};
ghost use Rattle.pts_lock.specs.Seats.{seat_at_rest, history_seen};

use crate::pairs::{put_both, take_both};
use pts_lock::{LockSeat, Staged, Turnstile};
use std::alloc::Global;
use std::sync::Wait;

/// Each number that was written, by the owner of that number.
#[derive(Drop)]
pub struct Log {
    pub numbers: Vec<u32>,
}

impl Staged for Log {
    ghost use Rattle.std.specs.Prelude.{map};

    type Entry = u32;

    ghost history = { λ l. map (λ n. (n, n)) l.numbers.items };

    fn stage(&self) -> u64 {
        self.numbers.len() as u64
    }
}

// The owner writes its number, where there is memory for it.
fn write<R: Wait>(rt: &R, lock: &Turnstile<Log>, seat: &mut LockSeat<Log>)
    requires own { seat.old.in_table.table_id ≡ lock.now.table.shared.table_id }
    requires idle { seat.old.in_table.me ≡ seat_at_rest seat.old.owner (history_seen seat.old.in_table.me) }
    ensures own { seat.new.in_table.table_id ≡ lock.now.table.shared.table_id }
    ensures idle { seat.new.in_table.me ≡ seat_at_rest seat.new.owner (history_seen seat.new.in_table.me) }
    ensures owner { seat.new.owner ≡ seat.old.owner }
{
    let mut log = lock.take(rt, seat);
    let _ = log.numbers.push(seat.owner);
    lock.put(seat, log);
}

// What is written where the second of two owners has two turns, and the first one has the turn between them.
fn written<R: Wait>(rt: &R, alloc: Global) -> Option<Log> {
    let log = Log {
        numbers: Vec::new(alloc),
    };
    let (lock, mut seats) = Turnstile::new(alloc, log, &[1, 2]).ok()?;
    let (mut first, mut second) = take_both(&mut seats);
    write(rt, &lock, &mut second);
    write(rt, &lock, &mut first);
    write(rt, &lock, &mut second);
    put_both(&mut seats, (first, second));
    Some(lock.close(seats))
}

#[test]
fn a_log_has_what_was_written_in_turn(rt: HostRuntime) {
    let log = written(&rt, rt.alloc());
    assert!(rt; log.is_some());
    let Some(log) = log else { return };
    assert!(rt; log.stage() == 3);
    assert!(rt; log.numbers.as_slice() == [2, 1, 2].as_slice());
}

// What may go to another thread, and what threads may share. That these functions are proved is what they show.

use pts_lock::{LockSeat, Turnstile};
use pts_share::{Core, Guarded, Pass, Shared};

fn sends<T: Send>(_value: &T) {}

fn shares<T: Sync>(_value: &T) {}

fn a_core_may_be_sent(core: &Core) {
    sends(core);
}

fn a_seat_may_be_sent(seat: &LockSeat<Guarded>) {
    sends(seat);
}

fn a_pass_may_be_sent(pass: &Pass) {
    sends(pass);
}

fn passes_may_be_sent(passes: &Vec<Pass>) {
    sends(passes);
}

fn a_turnstile_may_be_shared(lock: &Turnstile<Guarded>) {
    shares(lock);
}

fn a_shared_core_may_be_shared(shared: &Shared) {
    shares(shared);
}

// A shared core with one of its passes, as a thread gets them.
struct Part<'a> {
    shared: &'a Shared,
    pass: Pass,
}

fn a_part_may_be_sent(part: &Part) {
    sends(part);
}

#[test]
fn passes_may_be_sent_and_shared_cores_shared(_rt: HostRuntime) {}

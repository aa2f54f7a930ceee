// How many events threads leave that look beside one another.

use crate::beside::looked;
use pts_samples::simple;
use pts_share::Core;
use std::alloc::Global;
use std::sync::Wait;
use std::thread::Threads;

// How many events are of a session.
fn events_of(core: &Core, session: u32) -> u64 {
    let mut count = 0_u64;
    for number in 0..core.events() {
        if core.past_session(number) == session {
            count = count.saturating_add(1);
        }
    }
    count
}

// The core after each of two sessions looked a thousand times.
fn looked_by_two<R: Threads + Wait + Sync>(rt: &R, alloc: Global) -> Option<Core> {
    let core = Core::new(alloc, simple(alloc)?);
    looked(rt, alloc, core, &[1, 2], 1_000).ok()
}

// The core after each of four sessions looked ten thousand times.
fn looked_by_four<R: Threads + Wait + Sync>(rt: &R, alloc: Global) -> Option<Core> {
    let core = Core::new(alloc, simple(alloc)?);
    looked(rt, alloc, core, &[1, 2, 3, 4], 10_000).ok()
}

// Whether a core has so many events of each of these sessions, so many of all, and no entry.
fn has_looks(core: &Option<Core>, sessions: &[u32], each: u64, all: u64) -> bool {
    let Some(core) = core else {
        return false;
    };
    for session in sessions {
        if events_of(core, *session) != each {
            return false;
        }
    }
    core.events() == all && core.context().len() == 0
}

#[test]
fn two_threads_look_a_thousand_times_each(rt: HostRuntime) {
    assert!(rt; has_looks(&looked_by_two(&rt, rt.alloc()), &[1, 2], 1_000, 2_000));
}

#[test]
fn four_threads_look_ten_thousand_times_each(rt: HostRuntime) {
    assert!(rt;
        has_looks(
            &looked_by_four(&rt, rt.alloc()),
            &[1, 2, 3, 4],
            10_000,
            40_000
        )
    );
}

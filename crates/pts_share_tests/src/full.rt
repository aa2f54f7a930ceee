// A shared core with as many events as it may have.

use crate::asking::{Answers, Way, asked};
use crate::beside::looked;
use pts_core::{EVENTS, Event, Reply};
use pts_samples::simple;
use pts_share::{Answer, Core, PortFault};
use std::alloc::Global;
use std::sync::Wait;
use std::thread::Threads;

// A look, where there is room for it.
fn look(core: &mut Core) -> Option<Reply> {
    if core.reserve(0).is_err() || core.events() >= EVENTS {
        return None;
    }
    Some(core.step(Event::Look(1)))
}

// Whether so many looks are answered.
fn looks(core: &mut Core, count: u64) -> bool {
    for _ in 0..count {
        let Some(_) = look(core) else {
            return false;
        };
    }
    true
}

// A core with room for one event.
fn nearly_full(alloc: Global) -> Option<Core> {
    let mut core = Core::new(alloc, simple(alloc)?);
    if looks(&mut core, EVENTS - 1) {
        Some(core)
    } else {
        None
    }
}

// Whether there is no answer, as the history is full.
fn is_full(answer: &Result<Answer, PortFault>) -> bool {
    matches!(answer, Err(PortFault::HistoryFull(EVENTS)))
}

// Whether neither session was answered, and each has seen the whole history.
fn are_refused(answers: &Answers) -> bool {
    is_full(&answers.submitted)
        && is_full(&answers.looked)
        && answers.first == (1, EVENTS)
        && answers.second == (2, EVENTS)
}

// A core whose last event is a look of session 1.
fn filled<R: Threads + Wait + Sync>(rt: &R, alloc: Global) -> Option<Core> {
    let core = looked(rt, alloc, nearly_full(alloc)?, &[1], 1).ok()?;
    if core.events() == EVENTS {
        Some(core)
    } else {
        None
    }
}

fn answers_no_more<R: Threads + Wait + Sync>(rt: &R, alloc: Global) -> Option<bool> {
    let (answers, core) = asked(rt, alloc, filled(rt, alloc)?, Way::Itself)?;
    Some(are_refused(&answers) && core.events() == EVENTS)
}

#[test]
fn a_shared_core_has_at_most_4000000_events(rt: HostRuntime) {
    assert!(rt; answers_no_more(&rt, rt.alloc()) == Some(true));
}

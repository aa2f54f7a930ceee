// A history with as many events as it may have.

use crate::makers::{empty, look};
use crate::ports::{Way, answer, look_answers};
use pts_core::{Answer, Core, EVENTS, PortFault};
use std::alloc::Global;

// Whether so many looks are answered.
fn looks(core: &mut Core, count: u64) -> bool {
    for _ in 0..count {
        let Some(_) = look(core) else {
            return false;
        };
    }
    true
}

// Whether there is no answer, as the history is full.
fn is_full(answer: &Result<Answer, PortFault>) -> bool {
    matches!(answer, Err(PortFault::HistoryFull(EVENTS)))
}

fn is_refused(answer: &Option<Result<Answer, PortFault>>) -> bool {
    match answer {
        Some(answer) => is_full(answer),
        None => false,
    }
}

fn look_is_refused(core: &mut Core) -> bool {
    is_full(&core.answer_look(2))
}

fn offer_is_refused(alloc: Global, core: &mut Core) -> bool {
    is_refused(&answer(alloc, core, "A", Way::Port))
}

// Whether the last look is answered, and after it neither a look nor a submission.
fn answers_no_more(alloc: Global, core: &mut Core) -> bool {
    look_answers(alloc, core, EVENTS - 1, "seen 0", Some(0))
        && look_is_refused(core)
        && offer_is_refused(alloc, core)
        && core.events() == EVENTS
}

fn is_full_at_last(alloc: Global) -> Option<bool> {
    let mut core = empty(alloc)?;
    Some(looks(&mut core, EVENTS - 1) && answers_no_more(alloc, &mut core))
}

#[test]
fn a_history_has_at_most_4000000_events(rt: HostRuntime) {
    assert!(rt; is_full_at_last(rt.alloc()) == Some(true));
}

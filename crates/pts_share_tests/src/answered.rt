// What sessions are answered that share a core.

use crate::asking::{Answers, Way, asked};
use pts_core::{Context, Reply};
use pts_lock::Staged;
use pts_samples::simple;
use pts_share::{Answer, Core, Guarded, PortFault};
use std::alloc::Global;
use std::sync::Wait;

// Whether a front of one entry is handed on.
fn is_one_entry(front: &Option<Context>) -> bool {
    match front {
        Some(front) => front.len() == 1,
        None => false,
    }
}

// Whether the first entry entered, as the first event.
fn is_committed(answer: &Result<Answer, PortFault>) -> bool {
    match answer {
        Ok(answer) => {
            answer.receipt.number == 0
                && matches!(answer.receipt.reply, Reply::Committed(0, 1))
                && is_one_entry(&answer.front)
        }
        Err(_) => false,
    }
}

// Whether the first entry was seen, by the second event.
fn is_seen(answer: &Result<Answer, PortFault>) -> bool {
    match answer {
        Ok(answer) => {
            answer.receipt.number == 1
                && matches!(answer.receipt.reply, Reply::Seen(1))
                && is_one_entry(&answer.front)
        }
        Err(_) => false,
    }
}

fn are_both(answers: &Answers) -> bool {
    is_committed(&answers.submitted)
        && is_seen(&answers.looked)
        && answers.first == (1, 1)
        && answers.second == (2, 2)
}

// Whether a core has two events and one entry, which its lock sees with the system before them.
fn has_both(core: Core) -> bool {
    let guarded = Guarded { core };
    guarded.core.events() == 2 && guarded.core.context().len() == 1 && guarded.stage() == 3
}

fn is_answered_in_turn<R: Wait>(rt: &R, alloc: Global, way: Way) -> Option<bool> {
    let (answers, core) = asked(rt, alloc, Core::new(alloc, simple(alloc)?), way)?;
    Some(are_both(&answers) && has_both(core))
}

#[test]
fn sessions_that_share_a_core_are_answered_in_turn(rt: HostRuntime) {
    assert!(rt; is_answered_in_turn(&rt, rt.alloc(), Way::Itself) == Some(true));
    assert!(rt; is_answered_in_turn(&rt, rt.alloc(), Way::Port) == Some(true));
}

#[test]
fn the_law_of_ports_to_shared_cores_can_be_called(_rt: HostRuntime) {
    pts_share::loans_differ();
}

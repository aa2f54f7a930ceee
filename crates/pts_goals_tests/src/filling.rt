// What `start` and `fill` answer.

ghost use Rattle.std.specs.Prelude.{◌≡◌, false};

use crate::makers::{A, EMPTY, STATEMENT, X, begin};
use crate::moves::{
    A_ARGUMENT, A_BODY, A_IN_Y, A_LEMMA, ALL, APPLY, APPLY_TO_X, ARROW_GOAL, EXACT_X, INTRO_G,
    INTRO_X, Wanted, are_goals, fill, fills, fills_all,
};
use pts_goals::{FillFault, Proof};
use std::alloc::Global;

// The goal of the theorem.
const THEOREM_GOAL: Wanted = Wanted {
    ctx: EMPTY,
    statement: STATEMENT,
    place: 0,
    names: &[],
};

fn starts(alloc: Global) -> Option<bool> {
    let proof = begin(alloc)?;
    Some(proof.name().text() == "first" && are_goals(&proof, &[THEOREM_GOAL]))
}

#[test]
fn a_proof_starts_with_its_statement_as_the_one_goal(rt: HostRuntime) {
    assert!(rt; starts(rt.alloc()) == Some(true));
}

// The goals that each of the steps leaves.
const LEFT: [&[Wanted]; 7] = [
    &[ARROW_GOAL],
    &[A_BODY],
    &[A_LEMMA, A_IN_Y],
    &[A_ARGUMENT, A_IN_Y],
    &[A_ARGUMENT, A_IN_Y],
    &[A_IN_Y],
    &[],
];

fn leave_their_goals(alloc: Global) -> Option<bool> {
    let mut proof = begin(alloc)?;
    for (by, left) in ALL.iter().zip(LEFT.iter()) {
        if !fills(&mut proof, *by) || !are_goals(&proof, left) {
            return Some(false);
        }
    }
    Some(true)
}

#[test]
fn each_step_leaves_its_goals_in_the_place_of_the_first(rt: HostRuntime) {
    assert!(rt; leave_their_goals(rt.alloc()) == Some(true));
}

fn come_in_order(alloc: Global) -> Option<bool> {
    let mut proof = begin(alloc)?;
    let is_applied = fills_all(&mut proof, &[INTRO_G, INTRO_X, APPLY]);
    let are_both = are_goals(&proof, &[A_ARGUMENT, A_LEMMA]);
    Some(is_applied && are_both && fills(&mut proof, EXACT_X) && are_goals(&proof, &[A_LEMMA]))
}

#[test]
fn the_arguments_that_are_left_are_goals_in_their_order(rt: HostRuntime) {
    assert!(rt; come_in_order(rt.alloc()) == Some(true));
}

/// How often `g x _` fits into the theorem's proof before the term is too deep.
pub const MOST: usize = 1996;

/// The proof with so many of them.
pub fn fills_to(proof: &mut Proof, count: usize) -> bool
    requires here { proof.old.is_lent ≡ false }
    ensures here { proof.new.is_lent ≡ false }
{
    if !fills_all(proof, &[INTRO_G, INTRO_X]) {
        return false;
    }
    'fill: for _ in 0..count {
        if !fills(proof, APPLY_TO_X) {
            return false;
        }
    }
    true
}

// The goal that is then left.
const A_DEEP: Wanted = Wanted {
    ctx: X,
    statement: A,
    place: 1998,
    names: &["g", "x"],
};

fn is_refused(alloc: Global) -> Option<bool> {
    let mut proof = begin(alloc)?;
    let is_deep = fills_to(&mut proof, MOST);
    let is_refused = matches!(fill(&mut proof, APPLY_TO_X), Some(Err(FillFault::Deep)));
    Some(is_deep && is_refused && are_goals(&proof, &[A_DEEP]) && fills(&mut proof, EXACT_X))
}

#[test]
fn a_step_beyond_the_limits_is_refused_and_changes_nothing(rt: HostRuntime) {
    assert!(rt; is_refused(rt.alloc()) == Some(true));
}

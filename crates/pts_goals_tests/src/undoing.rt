// What `undo` gives back.

ghost use Rattle.std.specs.Prelude.{◌≡◌, false};

use crate::makers::begin;
use crate::moves::{ALL, Move, fills, fills_all};
use pts_goals::{Goal, Name, Proof};
use std::alloc::Global;

fn same_names(names: &[Name], others: &[Name]) -> bool {
    for (name, other) in names.iter().zip(others.iter()) {
        if !name.same(other) {
            return false;
        }
    }
    names.len() == others.len()
}

fn same_goal(goal: &Goal, other: &Goal) -> bool {
    goal.ctx == other.ctx
        && goal.statement == other.statement
        && goal.sorted == other.sorted
        && goal.place == other.place
        && same_names(goal.names.items(), other.names.items())
}

/// Whether two proofs have the same goals and the same name.
pub fn look_alike(proof: &Proof, other: &Proof) -> bool
    requires here { proof.now.is_lent ≡ false }
    requires other { other.now.is_lent ≡ false }
{
    if proof.goals() != other.goals() {
        return false;
    }
    for number in 0..proof.goals() {
        if !same_goal(proof.goal(number), other.goal(number)) {
            return false;
        }
    }
    proof.name().same(other.name())
}

// Whether a step that is put in and taken back leaves what was before.
fn is_taken_back(proof: &mut Proof, by: Move) -> bool
    requires here { proof.old.is_lent ≡ false }
    ensures here { proof.new.is_lent ≡ false }
{
    let Ok(before) = proof.copy() else {
        return false;
    };
    fills(proof, by) && proof.undo() && look_alike(proof, &before)
}

fn are_taken_back(alloc: Global) -> Option<bool> {
    let mut proof = begin(alloc)?;
    for by in ALL {
        if !is_taken_back(&mut proof, by) || !fills(&mut proof, by) {
            return Some(false);
        }
    }
    Some(true)
}

#[test]
fn a_step_that_is_taken_back_leaves_what_was_before(rt: HostRuntime) {
    assert!(rt; are_taken_back(rt.alloc()) == Some(true));
}

// How many steps are taken back until there is none, of so many at most.
fn steps_taken_back(proof: &mut Proof, most: usize) -> usize
    requires here { proof.old.is_lent ≡ false }
    ensures here { proof.new.is_lent ≡ false }
{
    for count in 0..most {
        if !proof.undo() {
            return count;
        }
    }
    most
}

fn is_begun_again(alloc: Global) -> Option<bool> {
    let mut proof = begin(alloc)?;
    let is_filled = fills_all(&mut proof, &ALL);
    let count = steps_taken_back(&mut proof, 100);
    let is_again = look_alike(&proof, &begin(alloc)?);
    Some(is_filled && count == 7 && is_again && !proof.undo())
}

#[test]
fn all_steps_are_taken_back_to_the_first_goal(rt: HostRuntime) {
    assert!(rt; is_begun_again(rt.alloc()) == Some(true));
}

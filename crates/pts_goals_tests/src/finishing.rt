// What `finish` answers.

ghost use Rattle.std.specs.Prelude.{◌≡◌, IfSome, false};

use crate::filling::{MOST, fills_to};
use crate::makers::{begin, is_faultless};
use crate::moves::{
    A_IN_Y, A_LEMMA, ALL, CUT_Y, EXACT_X, INTRO_G, INTRO_X, are_goals, fills, fills_all,
};
use pts_goals::{Declaration, FinishFault, Proof};
use std::alloc::Global;

// The proof that is handed back while so many goals are open.
fn handed_back(proof: Proof, goals: usize) -> Option<Proof>
    requires here { proof.is_lent ≡ false }
    ensures here { IfSome result (λ p. p.is_lent ≡ false) }
{
    match proof.finish() {
        Err((FinishFault::GoalsLeft(count), proof)) if count == goals => Some(proof),
        _ => None,
    }
}

fn is_refused(alloc: Global) -> Option<bool> {
    let mut proof = begin(alloc)?;
    let is_cut = fills_all(&mut proof, &[INTRO_G, INTRO_X, CUT_Y]);
    let mut proof = handed_back(proof, 2)?;
    let are_left = are_goals(&proof, &[A_LEMMA, A_IN_Y]);
    let is_filled = fills(&mut proof, EXACT_X);
    let proof = handed_back(proof, 1)?;
    Some(is_cut && are_left && is_filled && are_goals(&proof, &[A_IN_Y]))
}

#[test]
fn a_proof_with_goals_left_is_handed_back_with_their_number(rt: HostRuntime) {
    assert!(rt; is_refused(rt.alloc()) == Some(true));
}

/// The declaration of a proof without goals.
pub fn finished(proof: Proof) -> Option<Declaration>
    requires here { proof.is_lent ≡ false }
{
    match proof.finish() {
        Ok(declaration) => Some(declaration),
        Err(_) => None,
    }
}

/// Whether it is that of a theorem with the name and so large, whose body is so deep and so large, and the checker finds no
/// fault in it.
pub fn is_theorem(declaration: &Declaration, name: &str, depth: u64, size: u64) -> bool {
    let Some(body) = &declaration.body else {
        return false;
    };
    declaration.name.text() == name
        && body.depth() == depth
        && body.size() == size
        && declaration.ty.size() == 9
        && is_faultless(declaration)
}

fn is_finished(alloc: Global) -> Option<bool> {
    let mut proof = begin(alloc)?;
    if !fills_all(&mut proof, &ALL) {
        return None;
    }
    Some(is_theorem(&finished(proof)?, "first", 6, 17))
}

#[test]
fn a_proof_of_steps_of_each_kind_is_a_declaration_without_a_fault(rt: HostRuntime) {
    assert!(rt; is_finished(rt.alloc()) == Some(true));
}

fn is_finished_at_the_limit(alloc: Global) -> Option<bool> {
    let mut proof = begin(alloc)?;
    if !fills_to(&mut proof, MOST) || !fills(&mut proof, EXACT_X) {
        return None;
    }
    Some(is_theorem(&finished(proof)?, "first", 2000, 7993))
}

#[test]
fn the_deepest_term_is_finished(rt: HostRuntime) {
    assert!(rt; is_finished_at_the_limit(rt.alloc()) == Some(true));
}

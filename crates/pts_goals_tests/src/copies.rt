// What `copy` answers.

use crate::finishing::{finished, is_theorem};
use crate::makers::begin;
use crate::moves::{ALL, CUT_Y, EXACT_X, EXACT_Y, INTRO_G, INTRO_X, fills_all};
use crate::undoing::look_alike;
use std::alloc::Global;

// A copy is taken of a proof with two goals; the proof and the copy go on apart.
fn are_finished_apart(alloc: Global) -> Option<bool> {
    let mut proof = begin(alloc)?;
    if !fills_all(&mut proof, &[INTRO_G, INTRO_X, CUT_Y]) {
        return None;
    }
    let Ok(mut copy) = proof.copy() else {
        return None;
    };
    let are_alike = look_alike(&copy, &proof);
    if !fills_all(&mut proof, &[EXACT_X, EXACT_Y]) || !fills_all(&mut copy, &ALL[3..]) {
        return None;
    }
    let small = is_theorem(&finished(proof)?, "first", 5, 13);
    let large = is_theorem(&finished(copy)?, "first", 6, 17);
    Some(are_alike && small && large)
}

#[test]
fn a_copy_goes_on_apart_from_its_proof(rt: HostRuntime) {
    assert!(rt; are_finished_apart(rt.alloc()) == Some(true));
}

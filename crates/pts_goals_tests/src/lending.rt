// What `lend` and `restore` do.

ghost use Rattle.std.specs.Prelude.{◌≡◌, false};

use crate::finishing::{finished, is_theorem};
use crate::makers::begin;
use crate::moves::{ALL, CUT_Y, INTRO_G, INTRO_X, fills_all};
use pts_goals::Proof;
use pts_grow::add_line;
use pts_record::{Shape, Sort};
use std::alloc::Global;

// Lends the record, adds a term and restores it. Says whether the proof had its name and its goals all the time.
fn grows(proof: &mut Proof) -> bool
    requires here { proof.old.is_lent ≡ false }
    ensures here { proof.new.is_lent ≡ false }
{
    let terms = proof.scratch().terms();
    let mut record = proof.lend();
    let is_added = add_line(&mut record, Shape::Sort(Sort(1))).is_ok();
    let is_itself = proof.name().text() == "first" && proof.goals() == 2;
    proof.sound();
    proof.restore(record);
    is_added && is_itself && proof.scratch().terms() > terms
}

fn goes_on(alloc: Global) -> Option<bool> {
    let mut proof = begin(alloc)?;
    let is_cut = fills_all(&mut proof, &[INTRO_G, INTRO_X, CUT_Y]);
    let grows = grows(&mut proof);
    let is_filled = fills_all(&mut proof, &ALL[3..]);
    Some(is_cut && grows && is_filled && is_theorem(&finished(proof)?, "first", 6, 17))
}

#[test]
fn a_proof_goes_on_with_the_record_that_it_is_given_back(rt: HostRuntime) {
    assert!(rt; goes_on(rt.alloc()) == Some(true));
}

use crate::makers::{is_valid, last_judges};
use pts_check::{Context, Record};
use pts_image::{graft, is_closed_judgement};
use pts_samples::fill;
use std::alloc::Global;

// A record of two nodes grafted on itself, in the place of its last node.
#[tactic(auto, using(crate::proofs::Worked::last_of_two))]
fn grafted(proof: &Record) -> Option<Record> {
    if proof.nodes() != 2 {
        return None;
    }
    if !is_closed_judgement(proof, 1) {
        return None;
    }
    graft(proof, 1, proof).ok()
}

// That `*` has the type `#`.
fn star(alloc: Global) -> Option<Record> {
    let mut proof = Record::new(alloc);
    fill(&mut proof, 1).ok()?;
    grafted(&proof)
}

#[test]
fn a_record_that_is_grafted_on_itself_is_valid_and_says_the_same(rt: HostRuntime) {
    match star(rt.alloc()) {
        Some(image) => {
            assert!(rt; is_valid(&Context::new(rt.alloc()), &image));
            assert!(rt; last_judges(&image, 0, 1));
            assert!(rt; image.nodes() == 4);
        }
        None => assert!(rt; false),
    }
}

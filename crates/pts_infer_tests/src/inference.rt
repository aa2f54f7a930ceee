// Inference over terms that are handed in, here those of the worked record.

use crate::outcome::{Outcome, fit_word, infer_word};
use pts_ctx::{Context, System};
use pts_infer::{InferFault, Part, Typed, infer_fitted, infer_term, infer_type};
use pts_reduce::Meter;
use pts_samples::{prints, simple};
use pts_terms::{Sort, Term};
use pts_worked::{front, terms};
use std::alloc::Global;

fn is_box(answer: &Result<Typed, InferFault>) -> bool {
    match answer {
        Ok(typed) => matches!(typed.ty, Term::Sort(Sort(1))),
        Err(_) => false,
    }
}

// The star has the box as its type, for one unit.
fn stars_are_typed(alloc: Global, system: &System, limit: u64) -> bool {
    let mut meter = Meter::new(limit);
    let front = Context::new(alloc);
    let answer = infer_term(alloc, system, &front, &Term::Sort(Sort(0)), &mut meter);
    is_box(&answer) && meter.spent() == 1
}

#[test]
fn sorts_are_typed_by_axioms(rt: HostRuntime) {
    let Some(system) = simple(rt.alloc()) else {
        panic!(rt; "no system")
    };
    assert!(rt; stars_are_typed(rt.alloc(), &system, 1));
}

// A term of the worked record.
fn term(alloc: Global, place: usize) -> Option<Term> {
    let record = terms(alloc)?;
    if place >= record.terms() {
        return None;
    }
    record.tree(place).ok()
}

// What the inference of a type over a front comes to.
fn sorted(alloc: Global, system: &System, front: &Context, ty: &Term, limit: u64) -> Outcome {
    let mut meter = Meter::new(limit);
    let answer = infer_type(alloc, system, front, ty, &mut meter);
    Outcome::of(infer_word(&answer), &meter)
}

fn sort_of(alloc: Global, ty: &Term, limit: u64) -> Option<Outcome> {
    let system = simple(alloc)?;
    let front = front(alloc).ok()?;
    Some(sorted(alloc, &system, &front, ty, limit))
}

fn is_sorted(alloc: Global, ty: usize, limit: u64, word: &str, cost: u64) -> Option<bool> {
    let ty = term(alloc, ty)?;
    Some(sort_of(alloc, &ty, limit)?.is(word, cost))
}

#[test]
fn a_type_has_a_sort_at_its_cost(rt: HostRuntime) {
    let cases = [
        (9, 4, "typed", 4),
        (9, 3, "spent", 3),
        (3, 9, "no sort", 1),
        (1, 9, "no axiom", 1),
    ];
    for (ty, limit, word, cost) in cases {
        assert!(rt;
            is_sorted(rt.alloc(), ty, limit, word, cost) == Some(true),
            "{ty} {limit}"
        );
    }
}

// What the fit of a term to a type over a front comes to.
fn fitted(
    alloc: Global,
    system: &System,
    front: &Context,
    term: &Term,
    ty: &Term,
    limit: u64,
) -> Outcome {
    let mut meter = Meter::new(limit);
    let answer = infer_fitted(alloc, system, front, term, ty, &mut meter);
    Outcome::of(fit_word(&answer), &meter)
}

fn fit_of(alloc: Global, term: &Term, ty: &Term, limit: u64) -> Option<Outcome> {
    let system = simple(alloc)?;
    let front = front(alloc).ok()?;
    Some(fitted(alloc, &system, &front, term, ty, limit))
}

fn is_fitted(alloc: Global, ty: usize, limit: u64, word: &str, cost: u64) -> Option<bool> {
    let definition = term(alloc, 8)?;
    let ty = term(alloc, ty)?;
    Some(fit_of(alloc, &definition, &ty, limit)?.is(word, cost))
}

#[test]
fn a_local_definition_fits_a_type_at_its_cost(rt: HostRuntime) {
    let cases = [
        (9, 6, "typed", 6),
        (2, 9, "typed", 9),
        (2, 8, "spent", 8),
        (0, 99, "another type", 9),
        (1, 99, "wanted", 7),
    ];
    for (ty, limit, word, cost) in cases {
        assert!(rt;
            is_fitted(rt.alloc(), ty, limit, word, cost) == Some(true),
            "{ty} {limit}"
        );
    }
}

#[test]
fn the_parts_of_a_statement_are_printed(rt: HostRuntime) {
    for (part, text) in [
        (Part::Whole, "term"),
        (Part::Ty, "type"),
        (Part::Goal, "goal"),
    ] {
        assert!(rt; prints(rt.alloc(), &part, text), "{text}");
    }
}

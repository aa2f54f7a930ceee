// Inference, the sort test and the fit of judgements, over the worked record.

use crate::outcome::{Outcome, Worked, fit_word, infer_word, laid_out, node_of};
use pts_ctx::{Context, NameFault};
use pts_grow::{Judged, add_line};
use pts_infer::{Flaw, FlawKind, InferFault, fit, infer, sort_test};
use pts_names::Name;
use pts_record::{Boxed, Shape};
use pts_reduce::Meter;
use pts_terms::{Sort, Term};
use pts_worked::{assume, is_begun, is_typed, judged};
use std::alloc::Global;

// What the inference of a term in the empty context of the record comes to, and its node, if there is one.
fn infer_at(worked: &mut Worked, term: usize, limit: u64) -> Option<(Outcome, Option<usize>)> {
    if !is_typed(&worked.record, 0) || term >= worked.record.terms() {
        return None;
    }
    let mut meter = Meter::new(limit);
    let record = &mut worked.record;
    let answer = infer(
        &worked.system,
        &worked.front,
        record,
        0,
        &[],
        term,
        &mut meter,
    );
    Some((Outcome::of(infer_word(&answer), &meter), node_of(&answer)))
}

// The node of `let y := a : A in y : let y := a : A in A`, which costs five units.
fn definition(worked: &mut Worked) -> Option<usize> {
    let (outcome, node) = infer_at(worked, 8, 5)?;
    let node = node?;
    match judged(&worked.record, 0, node)? {
        Judged {
            subject: 8,
            claim: 9,
            ..
        } if outcome.units == 5 => Some(node),
        _ => None,
    }
}

fn is_definition(alloc: Global) -> Option<bool> {
    let mut worked = laid_out(alloc)?;
    Some(definition(&mut worked).is_some())
}

fn is_spent(alloc: Global) -> Option<bool> {
    let mut worked = laid_out(alloc)?;
    let (outcome, _) = infer_at(&mut worked, 8, 4)?;
    Some(outcome.is("spent", 4))
}

fn is_no_function(flaw: &Flaw) -> bool {
    let is_named = matches!(flaw.names.items(), [name] if name.text() == "x");
    let is_kind = matches!(&flaw.kind, FlawKind::NotProduct(Term::Const(_)));
    is_named && is_kind && flaw.place.items() == [0].as_slice()
}

fn has_no_function(answer: &Result<usize, InferFault>) -> bool {
    match answer {
        Err(InferFault::Flaw(flaw)) => is_no_function(flaw),
        _ => false,
    }
}

// The application of the variable of the context 4, which is called `x`, to itself, costs two units and is no term.
fn misapplied(worked: &mut Worked, names: &[Name]) -> Option<bool> {
    let term = add_line(&mut worked.record, Shape::App(4, 4)).ok()?;
    if !is_typed(&worked.record, 4) || term >= worked.record.terms() {
        return None;
    }
    let mut meter = Meter::new(9);
    let record = &mut worked.record;
    let answer = infer(
        &worked.system,
        &worked.front,
        record,
        4,
        names,
        term,
        &mut meter,
    );
    Some(has_no_function(&answer) && meter.spent() == 2)
}

fn is_refused(alloc: Global) -> Option<bool> {
    let mut names = Vec::new(alloc);
    names.push(Name::read(alloc, "x").ok()?).ok()?;
    let mut worked = laid_out(alloc)?;
    misapplied(&mut worked, names.as_slice())
}

#[test]
fn a_term_of_a_record_is_inferred(rt: HostRuntime) {
    assert!(rt; is_definition(rt.alloc()) == Some(true));
    assert!(rt; is_spent(rt.alloc()) == Some(true));
    assert!(rt; is_refused(rt.alloc()) == Some(true));
}

// The sort test of a judgement in the empty context of the record.
fn sort_at(worked: &mut Worked, node: usize, limit: u64) -> Option<Outcome> {
    if !is_begun(&worked.record) || judged(&worked.record, 0, node).is_none() {
        return None;
    }
    let mut meter = Meter::new(limit);
    let record = &mut worked.record;
    let answer = sort_test(&worked.system, &worked.front, record, &[], node, &mut meter);
    Some(Outcome::of(infer_word(&answer), &meter))
}

// Adds a `B` of the type `let y := a : A in *`.
fn assume_sorted(front: &mut Context, alloc: Global) -> Result<(), NameFault> {
    let definition = Boxed::new(alloc, Term::Const(Name::read(alloc, "a")?))?;
    let ty = Boxed::new(alloc, Term::Const(Name::read(alloc, "A")?))?;
    let body = Boxed::new(alloc, Term::Sort(Sort(0)))?;
    let name = Name::read(alloc, "y")?;
    let ty = Boxed::new(alloc, Term::Let(name, definition, ty, body))?;
    assume(front, alloc, "B", ty)
}

// What the sort test of the judgement of `B` comes to.
fn is_sorted(alloc: Global, limit: u64, word: &str) -> Option<bool> {
    let mut worked = laid_out(alloc)?;
    assume_sorted(&mut worked.front, alloc).ok()?;
    let shape = Shape::Const(Name::read(alloc, "B").ok()?);
    let term = add_line(&mut worked.record, shape).ok()?;
    let (_, node) = infer_at(&mut worked, term, 9)?;
    let outcome = sort_at(&mut worked, node?, limit)?;
    Some(outcome.is(word, limit))
}

// What that of the local definition comes to.
fn is_unsorted(alloc: Global) -> Option<bool> {
    let mut worked = laid_out(alloc)?;
    let node = definition(&mut worked)?;
    let outcome = sort_at(&mut worked, node, 9)?;
    Some(outcome.is("no sort", 1))
}

#[test]
fn a_judgement_is_sorted_at_its_cost(rt: HostRuntime) {
    assert!(rt; is_sorted(rt.alloc(), 1, "typed") == Some(true));
    assert!(rt; is_sorted(rt.alloc(), 0, "spent") == Some(true));
    assert!(rt; is_unsorted(rt.alloc()) == Some(true));
}

// The fit of a judgement in the empty context of the record to a term of it.
fn fit_at(worked: &mut Worked, node: usize, want: usize, limit: u64) -> Option<Outcome> {
    let is_judged = is_begun(&worked.record) && judged(&worked.record, 0, node).is_some();
    if !is_judged || want >= worked.record.terms() {
        return None;
    }
    let mut meter = Meter::new(limit);
    let record = &mut worked.record;
    let answer = fit(
        &worked.system,
        &worked.front,
        record,
        &[],
        node,
        want,
        &mut meter,
    );
    Some(Outcome::of(fit_word(&answer), &meter))
}

// What the fit of the local definition comes to.
fn is_fitted(alloc: Global, want: usize, limit: u64, word: &str, cost: u64) -> Option<bool> {
    let mut worked = laid_out(alloc)?;
    let node = definition(&mut worked)?;
    let outcome = fit_at(&mut worked, node, want, limit)?;
    Some(outcome.is(word, cost))
}

#[test]
fn a_judgement_fits_a_type_at_its_cost(rt: HostRuntime) {
    let cases = [
        (9, 1, "typed", 1),
        (2, 4, "typed", 4),
        (2, 3, "spent", 3),
        (0, 9, "another type", 4),
        (1, 9, "wanted", 2),
    ];
    for (want, limit, word, cost) in cases {
        assert!(rt;
            is_fitted(rt.alloc(), want, limit, word, cost) == Some(true),
            "{want} {limit}"
        );
    }
}

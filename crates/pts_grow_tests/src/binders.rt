// Judgements of products, abstractions, applications and local definitions, and a conversion, added to the worked record.

use crate::comparisons::{left_step, same};
use pts_check::{Verdict, check};
use pts_ctx::{Context, System};
use pts_grow::{RuleSorts, add_app, add_conv, add_lam, add_let, add_letsort, add_pi};
use pts_record::{Record, Shape};
use pts_samples::simple;
use pts_worked::{
    begun, compared, front, is_assumption, is_begun, is_definition, is_sort, judged, number,
};
use std::alloc::Global;

// `A -> A : *`
fn product(system: &System, record: &mut Record) -> Option<usize> {
    if !is_begun(record) {
        return None;
    }
    let domain = judged(record, 0, 2)?;
    if !is_assumption(record, &domain, 4) {
        return None;
    }
    let body = judged(record, 4, 6)?;
    let Shape::Pi(_, left, right) = record.shape(5) else {
        return None;
    };
    if *left != domain.subject || *right != body.subject {
        return None;
    }
    let (Shape::Sort(first), Shape::Sort(second), Shape::Sort(third)) = (
        record.shape(domain.claim),
        record.shape(body.claim),
        record.shape(0),
    ) else {
        return None;
    };
    let rule = RuleSorts {
        domain: *first,
        body: *second,
        product: *third,
    };
    if system.rule(rule.domain, rule.body) != Some(rule.product) {
        return None;
    }
    number(add_pi(system, record, 0, 5, 0, domain, 4, body, rule))
}

// `\y:A. y : A -> A`
fn abstraction(record: &mut Record) -> Option<usize> {
    if !is_begun(record) {
        return None;
    }
    let domain = judged(record, 0, 2)?;
    if !is_assumption(record, &domain, 4) {
        return None;
    }
    let body = judged(record, 4, 5)?;
    let product = judged(record, 0, 11)?;
    let (Shape::Lam(_, ty, inner), Shape::Pi(_, left, right)) = (
        record.shape(6),
        record.shape(product.subject),
    ) else {
        return None;
    };
    if *ty != domain.subject || *inner != body.subject {
        return None;
    }
    if *left != domain.subject || *right != body.claim || !is_sort(record, product.claim) {
        return None;
    }
    number(add_lam(record, 0, 6, product.subject, domain, 4, body, product))
}

// `(\y:A. y) a : A`
#[tactic(auto, using(pts_terms::proofs::Same::same_term_eq))]
fn application(record: &mut Record) -> Option<usize> {
    if !is_begun(record) {
        return None;
    }
    let function = judged(record, 0, 12)?;
    let argument = judged(record, 0, 3)?;
    let (Shape::App(left, right), Shape::Pi(_, domain, codomain)) = (
        record.shape(7),
        record.shape(function.claim),
    ) else {
        return None;
    };
    let (domain, codomain) = (*domain, *codomain);
    if *left != function.subject || *right != argument.subject || domain != argument.claim {
        return None;
    }
    record.limits(codomain);
    if !record.is_put(2, 0, 0, argument.subject, codomain) {
        return None;
    }
    number(add_app(record, 0, 7, 2, function, argument, domain, codomain))
}

// `let y := a : A in A : *`
fn sorted_definition(record: &mut Record) -> Option<usize> {
    if !is_begun(record) {
        return None;
    }
    let definition = judged(record, 0, 3)?;
    if !is_definition(record, &definition, 7) {
        return None;
    }
    let body = judged(record, 7, 9)?;
    let Shape::Let(_, value, ty, inner) = record.shape(9) else {
        return None;
    };
    if *value != definition.subject || *ty != definition.claim || *inner != body.subject {
        return None;
    }
    if !is_sort(record, body.claim) {
        return None;
    }
    number(add_letsort(record, 0, 9, body.claim, definition, 7, body))
}

// `let y := a : A in y : let y := a : A in A`
fn local_definition(record: &mut Record) -> Option<usize> {
    if !is_begun(record) {
        return None;
    }
    let definition = judged(record, 0, 3)?;
    if !is_definition(record, &definition, 7) {
        return None;
    }
    let body = judged(record, 7, 8)?;
    let sorted = judged(record, 0, 14)?;
    let (Shape::Let(_, value, ty, inner), Shape::Let(_, same, kind, outer)) = (
        record.shape(8),
        record.shape(sorted.subject),
    ) else {
        return None;
    };
    if *value != definition.subject || *ty != definition.claim || *inner != body.subject {
        return None;
    }
    if *same != definition.subject || *kind != definition.claim || *outer != body.claim {
        return None;
    }
    if !is_sort(record, sorted.claim) {
        return None;
    }
    let claim = sorted.subject;
    number(add_let(record, 0, 8, claim, definition, 7, body, sorted))
}

// `let y := a : A in y : A`
fn converted(record: &mut Record) -> Option<usize> {
    if !is_begun(record) {
        return None;
    }
    let inner = judged(record, 0, 15)?;
    let wanted = judged(record, 0, 2)?;
    let comparison = compared(record, 0, 17)?;
    if comparison.left != inner.claim || comparison.right != wanted.subject {
        return None;
    }
    if !is_sort(record, wanted.claim) {
        return None;
    }
    let (subject, claim) = (inner.subject, wanted.subject);
    number(add_conv(record, 0, subject, claim, inner, wanted, comparison))
}

fn go_on(system: &System, front: &Context, record: &mut Record) -> Option<usize> {
    product(system, record)?;
    abstraction(record)?;
    application(record)?;
    sorted_definition(record)?;
    local_definition(record)?;
    same(record, 0, 2)?;
    left_step(front, record, 16)?;
    converted(record)
}

fn is_valid(alloc: Global) -> Option<bool> {
    let system = simple(alloc)?;
    let front = front(alloc).ok()?;
    let mut record = begun(alloc, &system, &front)?;
    let last = go_on(&system, &front, &mut record)?;
    Some(last == 18 && record.nodes() == 19 && check(&system, &front, &record) == Verdict::Valid)
}

#[test]
fn judgements_are_added_to_those_of_their_parts(rt: HostRuntime) {
    assert!(rt; is_valid(rt.alloc()) == Some(true));
}

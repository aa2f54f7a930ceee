// Contexts, and judgements without parts, added to the worked record. Numbers are those of its terms and nodes.

use crate::worked::{front, is_begun, is_longer, judged, terms};
use pts_ctx::{Context, System};
use pts_grow::{
    Judged, add_again, add_assume, add_const, add_define, add_empty, add_sort, add_thin, add_var,
    entry_type,
};
use pts_record::{Record, Shape};
use pts_samples::simple;
use std::alloc::{AllocError, Global};

/// The node of a judgement that was added.
pub fn number(added: Result<Judged, AllocError>) -> Option<usize> {
    match added {
        Ok(judged) => Some(judged.node),
        Err(_) => None,
    }
}

// `* : #`
fn sort(system: &System, record: &mut Record) -> Option<usize> {
    if !is_begun(record) {
        return None;
    }
    let (Shape::Sort(own), Shape::Sort(above)) = (record.shape(0), record.shape(1)) else {
        return None;
    };
    let (own, above) = (*own, *above);
    if system.axiom(own) != Some(above) {
        return None;
    }
    number(add_sort(system, record, 0, 0, 1, own, above))
}

// A constant with the type of its entry.
#[tactic(auto, using(crate::proofs::Constants::entry_found))]
fn constant(front: &Context, record: &mut Record, subject: usize, claim: usize) -> Option<usize> {
    if !is_begun(record) || subject >= record.terms() || claim >= record.terms() {
        return None;
    }
    let Shape::Const(name) = record.shape(subject) else {
        return None;
    };
    let entry = front.lookup(name)?;
    if !record.is_term(claim, &entry.ty) {
        return None;
    }
    number(add_const(front, record, 0, subject, claim))
}

// The context with an assumption of `A`.
fn assumption(record: &mut Record) -> Option<usize> {
    if !is_begun(record) {
        return None;
    }
    let ty = judged(record, 0, 2)?;
    let Shape::Sort(_) = record.shape(ty.claim) else {
        return None;
    };
    add_assume(record, 0, ty).ok()
}

// The context with `a` as a definition.
fn definition(record: &mut Record) -> Option<usize> {
    if !is_begun(record) {
        return None;
    }
    let body = judged(record, 0, 3)?;
    add_define(record, 0, body).ok()
}

// The variable of a context with one entry, with its type `A`.
#[tactic(auto, using(pts_terms::proofs::Same::same_term_eq))]
fn variable(record: &mut Record, ctx: usize) -> Option<usize> {
    if !is_begun(record) || !is_longer(record, ctx) {
        return None;
    }
    let ty = entry_type(record, ctx, 0)?;
    record.limits(ty);
    if !record.is_lift(2, 0, 1, ty) {
        return None;
    }
    let Shape::Var(0) = record.shape(4) else {
        return None;
    };
    number(add_var(record, ctx, 4, 2, 0, ty))
}

// `A : *` in a context with one entry.
#[tactic(auto, using(pts_terms::proofs::Same::same_term_eq))]
fn thinned(record: &mut Record, ctx: usize) -> Option<usize> {
    if !is_begun(record) || !is_longer(record, ctx) {
        return None;
    }
    let premise = judged(record, 0, 2)?;
    let (subject, claim) = (premise.subject, premise.claim);
    record.limits(subject);
    record.limits(claim);
    if !record.is_lift(subject, 0, 1, subject) || !record.is_lift(claim, 0, 1, claim) {
        return None;
    }
    number(add_thin(record, ctx, subject, claim, 0, premise, 1))
}

// `a : A` once more.
fn again(record: &mut Record) -> Option<usize> {
    if !is_begun(record) {
        return None;
    }
    let premise = judged(record, 0, 3)?;
    number(add_again(record, 0, premise.subject, premise.claim, premise))
}

fn empty(record: &mut Record) -> Option<usize> {
    add_empty(record).ok()
}

// The empty context, `* : #`, `A : *` and `a : A`.
fn begin_closed(system: &System, front: &Context, record: &mut Record) -> Option<usize> {
    empty(record)?;
    sort(system, record)?;
    constant(front, record, 2, 0)?;
    constant(front, record, 3, 2)
}

fn begin(system: &System, front: &Context, record: &mut Record) -> Option<usize> {
    begin_closed(system, front, record)?;
    assumption(record)?;
    variable(record, 4)?;
    thinned(record, 4)?;
    definition(record)?;
    variable(record, 7)?;
    thinned(record, 7)?;
    again(record)
}

/// The worked record with the nodes `empty`, `* : #`, `A : *`, `a : A`; the context with an `A`, and in it the variable
/// and `A : *`; the context with `a` as a definition, and in it the same; and `a : A` once more.
pub fn begun(alloc: Global, system: &System, front: &Context) -> Option<Record> {
    let mut record = terms(alloc)?;
    match begin(system, front, &mut record)? {
        10 => Some(record),
        _ => None,
    }
}

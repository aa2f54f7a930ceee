// A comparison of each form, added to the worked record.

ghost use Rattle.std.specs.Prelude.{◌≡◌, ◌≤◌, List, length, Some, IfSome};
ghost use Rattle.pts_names.specs.Name.{Name as Spelling};
ghost use Rattle.pts_ctx.specs.Front.{Global as Entry, Local};
ghost use Rattle.pts_record.specs.Table.{named_at};
ghost use Rattle.pts_rules.specs.Step.{head_step};

use pts_check::{Verdict, check};
use pts_ctx::{Context, System};
use pts_grow::{
    Compared, TermFault, add_bare, add_capp, add_clam, add_cpi, add_empty, add_left, add_line,
    add_right, add_same,
};
use pts_record::{Name, Record, Shape};
use pts_samples::simple;
use pts_worked::{compared, front, is_bare, is_begun, terms};
use std::alloc::{AllocError, Global};

fn number(added: Result<Compared, AllocError>) -> Option<usize> {
    match added {
        Ok(compared) => Some(compared.node),
        Err(_) => None,
    }
}

/// A term and itself, in the empty context or in that with a bare entry.
pub fn same(record: &mut Record, ctx: usize, term: usize) -> Option<usize> {
    if !is_begun(record) || term >= record.terms() {
        return None;
    }
    if ctx != 0 && !is_bare(record, ctx) {
        return None;
    }
    if !record.equal(term, term) {
        return None;
    }
    number(add_same(record, ctx, term, term))
}

// The number of the body of `let y := a : A in A`, to which that steps.
#[tactic(auto, using(pts_worked::proofs::Constants::constant_left))]
fn inside(proof: &Record) -> Option<usize>
    requires { 10 ≤ length proof.now.shapes }
    ensures { IfSome result (λ t. (G : List (Entry Spelling)) (L : List (Local Spelling)) → head_step G L (named_at proof.now.shapes 9) ≡ Some (named_at proof.now.shapes t)) }
{
    let Shape::Let(_, _, _, inner) = proof.shape(9) else {
        return None;
    };
    let inner = *inner;
    match proof.shape(inner) {
        Shape::Const(_) => Some(inner),
        _ => None,
    }
}

/// `let y := a : A in A` and `A`.
pub fn left_step(front: &Context, record: &mut Record, node: usize) -> Option<usize> {
    if !is_begun(record) {
        return None;
    }
    let next = compared(record, 0, node)?;
    if inside(record)? != next.left {
        return None;
    }
    number(add_left(front, record, 0, 9, next))
}

// `A` and `let y := a : A in A`.
fn right_step(front: &Context, record: &mut Record, node: usize) -> Option<usize> {
    if !is_begun(record) {
        return None;
    }
    let next = compared(record, 0, node)?;
    if inside(record)? != next.right {
        return None;
    }
    number(add_right(front, record, 0, 9, next))
}

fn bare(record: &mut Record) -> Option<usize> {
    if !is_begun(record) {
        return None;
    }
    add_bare(record, 0).ok()
}

// Two applications of one function, to the two terms.
fn applications(record: &mut Record) -> Option<usize> {
    if !is_begun(record) || record.terms() < 16 {
        return None;
    }
    let functions = compared(record, 0, 4)?;
    let arguments = compared(record, 0, 2)?;
    let (Shape::App(f, a), Shape::App(g, b)) = (record.shape(10), record.shape(11)) else {
        return None;
    };
    if *f != functions.left || *a != arguments.left {
        return None;
    }
    if *g != functions.right || *b != arguments.right {
        return None;
    }
    number(add_capp(record, 0, 10, 11, functions, arguments))
}

// Two abstractions of one body, over the two terms.
fn abstractions(record: &mut Record) -> Option<usize> {
    if !is_begun(record) || record.terms() < 16 || !is_bare(record, 6) {
        return None;
    }
    let domains = compared(record, 0, 2)?;
    let bodies = compared(record, 6, 7)?;
    let (Shape::Lam(_, t, a), Shape::Lam(_, u, b)) = (record.shape(12), record.shape(13)) else {
        return None;
    };
    if *t != domains.left || *a != bodies.left {
        return None;
    }
    if *u != domains.right || *b != bodies.right {
        return None;
    }
    number(add_clam(record, 0, 12, 13, domains, 6, bodies))
}

// Two products of one body, over the two terms.
fn products(record: &mut Record) -> Option<usize> {
    if !is_begun(record) || record.terms() < 16 || !is_bare(record, 6) {
        return None;
    }
    let domains = compared(record, 0, 2)?;
    let bodies = compared(record, 6, 7)?;
    let (Shape::Pi(_, t, a), Shape::Pi(_, u, b)) = (record.shape(14), record.shape(15)) else {
        return None;
    };
    if *t != domains.left || *a != bodies.left {
        return None;
    }
    if *u != domains.right || *b != bodies.right {
        return None;
    }
    number(add_cpi(record, 0, 14, 15, domains, 6, bodies))
}

// Adds what is compared by its parts: pairs of applications, abstractions and products.
fn pairs(record: &mut Record, name: &Name) -> Result<usize, TermFault> {
    add_line(record, Shape::App(6, 9))?;
    add_line(record, Shape::App(6, 2))?;
    add_line(record, Shape::Lam(name.copy()?, 9, 4))?;
    add_line(record, Shape::Lam(name.copy()?, 2, 4))?;
    add_line(record, Shape::Pi(name.copy()?, 9, 4))?;
    add_line(record, Shape::Pi(name.copy()?, 2, 4))
}

fn empty(record: &mut Record) -> Option<usize> {
    add_empty(record).ok()
}

fn compare(front: &Context, record: &mut Record) -> Option<usize> {
    empty(record)?;
    same(record, 0, 2)?;
    left_step(front, record, 1)?;
    right_step(front, record, 1)?;
    same(record, 0, 6)?;
    applications(record)?;
    bare(record)?;
    same(record, 6, 4)?;
    abstractions(record)?;
    products(record)
}

fn is_valid(alloc: Global) -> Option<bool> {
    let system = simple(alloc)?;
    let front = front(alloc).ok()?;
    let name = Name::read(alloc, "z").ok()?;
    let mut record = terms(alloc)?;
    pairs(&mut record, &name).ok()?;
    let last = compare(&front, &mut record)?;
    Some(last == 9 && record.nodes() == 10 && check(&system, &front, &record) == Verdict::Valid)
}

#[test]
fn comparisons_are_added_to_those_of_their_parts(rt: HostRuntime) {
    assert!(rt; is_valid(rt.alloc()) == Some(true));
}

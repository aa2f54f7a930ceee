use pts_grow::{TermFault, apply, lift, push, put, take_in};
use pts_record::{Boxed, Form, Node, Record, RecordFault, Shape, Sort, Term};
use std::alloc::{AllocError, Global};

fn add(record: &mut Record, shape: Shape) -> Result<usize, RecordFault> {
    record.add_term(shape)
}

// Two sorts, and the terms `Var(0)` and `Var(1)` with the numbers 2 and 3.
fn variables(alloc: Global) -> Result<Record, RecordFault> {
    let mut record = Record::new(alloc);
    add(&mut record, Shape::Sort(Sort(0)))?;
    add(&mut record, Shape::Sort(Sort(1)))?;
    add(&mut record, Shape::Var(0))?;
    add(&mut record, Shape::Var(1))?;
    Ok(record)
}

// Whether the term that was made is an index, or a term that stood.
fn is_index(record: &Record, made: Result<usize, TermFault>, wanted: u32) -> bool {
    match made {
        Ok(term) => term < record.terms()
            && matches!(record.shape(term), Shape::Var(index) if *index == wanted),
        Err(_) => false,
    }
}

fn lifts(record: &mut Record) -> bool {
    if record.terms() != 4 {
        return false;
    }
    let kept = lift(record, 2, 1, 5);
    let lifted = lift(record, 2, 0, 5);
    is_index(record, kept, 0) && is_index(record, lifted, 5)
}

fn puts(record: &mut Record) -> bool {
    if record.terms() < 4 {
        return false;
    }
    let lowered = put(record, 3, 0, 0, 2);
    let replaced = put(record, 2, 0, 0, 3);
    is_index(record, lowered, 0) && is_index(record, replaced, 1)
}

fn applies(record: &mut Record) -> bool {
    if record.terms() < 4 {
        return false;
    }
    match apply(record, 2, 3) {
        Ok(term) => term < record.terms() && matches!(record.shape(term), Shape::App(2, 3)),
        Err(_) => false,
    }
}

fn takes_in(record: &mut Record) -> bool {
    match take_in(record, &Term::Sort(Sort(1))) {
        Ok(term) => term < record.terms() && record.is_sort(term, Sort(1)),
        Err(_) => false,
    }
}

#[test]
fn terms_are_made_of_terms(rt: HostRuntime) {
    match variables(rt.alloc()) {
        Ok(record) => {
            let mut record = record;
            assert!(rt; lifts(&mut record));
            assert!(rt; puts(&mut record));
            assert!(rt; applies(&mut record));
            assert!(rt; takes_in(&mut record));
        }
        Err(_) => assert!(rt; false),
    }
}

// `Var(0)` as a function on itself, and on that application, until the term has this depth.
fn nested(alloc: Global, depth: usize) -> Result<Term, AllocError> {
    let mut term = Term::Var(0);
    for _ in 1..depth {
        let function = Boxed::new(alloc, Term::Var(0))?;
        let argument = Boxed::new(alloc, term)?;
        term = Term::App(function, argument);
    }
    Ok(term)
}

// Whether a term that is taken in twice is the same number, and so many lines.
fn takes_in_once(record: &mut Record, term: &Term, lines: usize) -> bool {
    let first = take_in(record, term);
    let terms = record.terms();
    let second = take_in(record, term);
    match (first, second) {
        (Ok(first), Ok(second)) => first == second && terms == lines && record.terms() == lines,
        _ => false,
    }
}

// Whether a node that is pushed twice is one node.
fn pushes_once(record: &mut Record) -> bool {
    let empty = Node {
        form: Form::Empty,
        ctx: 0,
        subject: 0,
        claim: 0,
        first: 0,
        second: 0,
        third: 0,
    };
    let first = push(record, empty);
    let second = push(record, empty);
    match (first, second) {
        (Ok(first), Ok(second)) => first == second && record.nodes() == 1,
        _ => false,
    }
}

#[test]
fn equal_lines_are_kept_once(rt: HostRuntime) {
    let Ok(term) = nested(rt.alloc(), 2000) else {
        panic!(rt; "no memory")
    };
    let mut record = Record::new(rt.alloc());
    assert!(rt; takes_in_once(&mut record, &term, 2000));
    assert!(rt; pushes_once(&mut record));
    record.trim();
    assert!(rt; record.terms() == 2000 && record.nodes() == 1);
}

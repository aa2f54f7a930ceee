use pts_match::{
    Subterm, find_match, is_clear, lower, matches_are_complete, matches_are_sound,
    matches_are_unique, take_out,
};
use pts_record::{Name, Record, RecordFault, Shape, Sort};
use std::alloc::{AllocError, Global};

// What a match comes to.
type Found = Result<Option<Vec<Option<Subterm>>>, AllocError>;

// Binds a variable over the sort, with this body.
fn bind(record: &mut Record, body: usize) -> Result<usize, RecordFault> {
    let Ok(name) = Name::read(record.alloc(), "x") else {
        return Err(RecordFault::Memory);
    };
    record.add_term(Shape::Lam(name, 2, body))
}

// The indices 0 and 1, a sort, its application to itself and to the index 1, the application of the index 0 to itself,
// and the abstractions of the index 0, of the index 1, and of the sort, with the numbers from 0 to 8.
fn terms(alloc: Global) -> Result<Record, RecordFault> {
    let mut record = Record::new(alloc);
    record.add_term(Shape::Var(0))?;
    record.add_term(Shape::Var(1))?;
    record.add_term(Shape::Sort(Sort(0)))?;
    record.add_term(Shape::App(2, 2))?;
    record.add_term(Shape::App(2, 1))?;
    record.add_term(Shape::App(0, 0))?;
    bind(&mut record, 0)?;
    bind(&mut record, 1)?;
    bind(&mut record, 2)?;
    Ok(record)
}

fn find(record: &Record, variables: usize, pattern: usize, term: usize) -> Found {
    if pattern < record.terms() && term < record.terms() {
        return find_match(record, variables, pattern, term);
    }
    Ok(None)
}

// Whether the match has one variable, which is this part.
fn is_part(found: &Found, term: usize, binders: u64) -> bool {
    match found {
        Ok(Some(parts)) => parts.len() == 1 && parts[0] == Some(Subterm { term, binders }),
        _ => false,
    }
}

// Whether the match has one variable, which does not occur.
fn is_open(found: &Found) -> bool {
    match found {
        Ok(Some(parts)) => parts.len() == 1 && parts[0].is_none(),
        _ => false,
    }
}

fn is_none(found: &Found) -> bool {
    matches!(found, Ok(None))
}

#[test]
fn a_variable_is_one_term(rt: HostRuntime) {
    let Ok(record) = terms(rt.alloc()) else {
        assert!(rt; false);
        return;
    };
    assert!(rt; is_part(&find(&record, 1, 5, 3), 2, 0));
    assert!(rt; is_none(&find(&record, 1, 5, 4)));
    assert!(rt; is_none(&find(&record, 1, 5, 2)));
}

#[test]
fn a_variable_is_no_term_with_a_bound_variable(rt: HostRuntime) {
    let Ok(record) = terms(rt.alloc()) else {
        assert!(rt; false);
        return;
    };
    assert!(rt; is_part(&find(&record, 1, 7, 8), 2, 1));
    assert!(rt; is_part(&find(&record, 1, 7, 7), 1, 1));
    assert!(rt; is_none(&find(&record, 1, 7, 6)));
}

#[test]
fn closed_terms_and_indices_of_the_context_are_compared(rt: HostRuntime) {
    let Ok(record) = terms(rt.alloc()) else {
        assert!(rt; false);
        return;
    };
    assert!(rt; is_open(&find(&record, 1, 3, 3)));
    assert!(rt; is_none(&find(&record, 1, 3, 4)));
    assert!(rt; is_open(&find(&record, 1, 1, 0)));
    assert!(rt; is_none(&find(&record, 1, 1, 1)));
}

// The index 1 under one binder is the index 0 outside of it.
fn takes_out(record: &mut Record) -> bool {
    if record.terms() != 9 {
        return false;
    }
    let part = Subterm {
        term: 1,
        binders: 1,
    };
    if !is_clear(record, 1, 0, 1) {
        return false;
    }
    match take_out(record, part) {
        Ok(term) => term < record.terms() && matches!(record.shape(term), Shape::Var(0)),
        Err(_) => false,
    }
}

// The index 1 is lowered under a binder too.
fn lowers(record: &mut Record) -> bool {
    if record.terms() < 9 || is_clear(record, 7, 0, 1) {
        return false;
    }
    match lower(record, 7, 0, 1) {
        Ok(term) => term < record.terms() && record.equal(term, 6),
        Err(_) => false,
    }
}

#[test]
fn a_part_is_taken_out_of_its_binders(rt: HostRuntime) {
    match terms(rt.alloc()) {
        Ok(record) => {
            let mut record = record;
            assert!(rt; takes_out(&mut record));
            assert!(rt; lowers(&mut record));
        }
        Err(_) => assert!(rt; false),
    }
}

#[test]
fn the_laws_of_matching_are_called() {
    matches_are_sound();
    matches_are_complete();
    matches_are_unique();
}

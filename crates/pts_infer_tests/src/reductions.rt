use pts_check::{Context, Name};
use pts_record::{Form, Node, Record, RecordFault, Shape, Sort};
use pts_reduce::{Conversion, Meter, ReduceFault, Whnf, convert, whnf};
use std::alloc::Global;

fn add(record: &mut Record, shape: Shape) -> Result<usize, RecordFault> {
    record.add_term(shape)
}

fn add_empty(record: &mut Record) -> Result<usize, RecordFault> {
    record.add_node(Node {
        form: Form::Empty,
        ctx: 0,
        subject: 0,
        claim: 0,
        first: 0,
        second: 0,
        third: 0,
    })
}

// The empty context, and the terms 0 and 1, which are two sorts, and 4, the identity applied to the first.
fn identity(alloc: Global, name: Name) -> Result<Record, RecordFault> {
    let mut record = Record::new(alloc);
    add_empty(&mut record)?;
    add(&mut record, Shape::Sort(Sort(0)))?;
    add(&mut record, Shape::Sort(Sort(1)))?;
    add(&mut record, Shape::Var(0))?;
    add(&mut record, Shape::Lam(name, 0, 2))?;
    add(&mut record, Shape::App(3, 0))?;
    Ok(record)
}

fn fixture(alloc: Global) -> Option<Record> {
    let name = Name::read(alloc, "x").ok()?;
    identity(alloc, name).ok()
}

// The weak head normal form of a term in the empty context.
fn form(
    alloc: Global,
    record: &mut Record,
    term: usize,
    meter: &mut Meter,
) -> Option<Result<Whnf, ReduceFault>> {
    if record.nodes() == 0 || term >= record.terms() {
        return None;
    }
    match record.node(0).form {
        Form::Empty => Some(whnf(&Context::new(alloc), record, 0, term, meter)),
        _ => None,
    }
}

// The test of two terms in the empty context.
fn test(
    alloc: Global,
    record: &mut Record,
    left: usize,
    right: usize,
    meter: &mut Meter,
) -> Option<Result<Conversion, ReduceFault>> {
    if record.nodes() == 0 || left >= record.terms() || right >= record.terms() {
        return None;
    }
    match record.node(0).form {
        Form::Empty => Some(convert(&Context::new(alloc), record, 0, left, right, meter)),
        _ => None,
    }
}

fn is_reduced(alloc: Global, limit: u64, cost: u64) -> bool {
    let Some(mut record) = fixture(alloc) else {
        return false;
    };
    let mut meter = Meter::new(limit);
    match form(alloc, &mut record, 4, &mut meter) {
        Some(Ok(answer)) => answer.term == 0 && meter.spent() == cost,
        _ => false,
    }
}

#[test]
fn a_step_costs_a_unit(rt: HostRuntime) {
    assert!(rt; is_reduced(rt.alloc(), 1, 1));
    assert!(rt; is_reduced(rt.alloc(), 9, 1));
    assert!(rt; !is_reduced(rt.alloc(), 0, 0));
}

// What the test of the identity applied to a sort and another term comes to.
fn compares(alloc: Global, right: usize, limit: u64, wanted: &str) -> bool {
    let Some(mut record) = fixture(alloc) else {
        return false;
    };
    let mut meter = Meter::new(limit);
    match test(alloc, &mut record, 4, right, &mut meter) {
        Some(Ok(Conversion::Yes(_))) => wanted == "yes" && meter.spent() == 2,
        Some(Ok(Conversion::No { place, .. })) => wanted == "no"
            && place.items().is_empty()
            && meter.spent() == 2,
        Some(Err(ReduceFault::Spent)) => wanted == "spent" && meter.spent() == limit,
        _ => false,
    }
}

#[test]
fn the_test_answers_at_its_cost(rt: HostRuntime) {
    assert!(rt; compares(rt.alloc(), 0, 2, "yes"));
    assert!(rt; compares(rt.alloc(), 1, 2, "no"));
    assert!(rt; compares(rt.alloc(), 0, 1, "spent"));
}

// Binders of the same kind over the identity applied to a sort, and over that sort, as terms 5 and 6, and applications
// of a variable to the two, as terms 7 and 8.
fn parts(alloc: Global, first: Shape, second: Shape) -> Result<Record, RecordFault> {
    let name = Name::read(alloc, "x").map_err(|_| RecordFault::Memory)?;
    let mut record = identity(alloc, name)?;
    add(&mut record, first)?;
    add(&mut record, second)?;
    add(&mut record, Shape::App(2, 4))?;
    add(&mut record, Shape::App(2, 0))?;
    Ok(record)
}

fn is_yes(alloc: Global, record: &mut Record, left: usize, right: usize) -> bool {
    let mut meter = Meter::new(100);
    matches!(
        test(alloc, record, left, right, &mut meter),
        Some(Ok(Conversion::Yes(_)))
    )
}

fn agree(alloc: Global, product: bool) -> Option<bool> {
    let one = Name::read(alloc, "x").ok()?;
    let other = Name::read(alloc, "y").ok()?;
    let mut record = if product {
        parts(alloc, Shape::Pi(one, 4, 2), Shape::Pi(other, 0, 2)).ok()?
    } else {
        parts(alloc, Shape::Lam(one, 4, 2), Shape::Lam(other, 0, 2)).ok()?
    };
    let forwards = is_yes(alloc, &mut record, 5, 6) && is_yes(alloc, &mut record, 7, 8);
    Some(forwards && is_yes(alloc, &mut record, 6, 5) && !is_yes(alloc, &mut record, 5, 7))
}

#[test]
fn forms_are_tested_by_their_parts(rt: HostRuntime) {
    assert!(rt; agree(rt.alloc(), false) == Some(true));
    assert!(rt; agree(rt.alloc(), true) == Some(true));
}

// Two terms that are 2,000 deep and differ in their innermost argument alone.
fn deep(alloc: Global) -> Result<(Record, usize, usize), RecordFault> {
    let mut record = Record::new(alloc);
    add_empty(&mut record)?;
    let mut left = add(&mut record, Shape::Sort(Sort(0)))?;
    let mut right = add(&mut record, Shape::Sort(Sort(1)))?;
    let function = add(&mut record, Shape::Var(0))?;
    for _ in 1..2000 {
        left = add(&mut record, Shape::App(function, left))?;
        right = add(&mut record, Shape::App(function, right))?;
    }
    Ok((record, left, right))
}

// How long the place is at which the test of the two finds them to differ.
fn difference(alloc: Global) -> Option<usize> {
    let (mut record, left, right) = deep(alloc).ok()?;
    let mut meter = Meter::new(1_000_000);
    match test(alloc, &mut record, left, right, &mut meter) {
        Some(Ok(Conversion::No { place, .. })) => Some(place.items().len()),
        _ => None,
    }
}

#[test]
fn tests_are_nested_2000_deep(rt: HostRuntime) {
    assert_eq!(rt; difference(rt.alloc()), Some(1999));
}

use pts_record::{
    Extent, Form, FormKind, LocalEntry, Node, Record, RecordFault, Shape, Sort, Term, Terms,
};
use pts_samples::{add, fill, node};
use std::alloc::AllocError;

// The same with the terms `Var(0)`, `Var(1)` and the application of the first to itself.
fn fill_more(record: &mut Record) -> Result<usize, RecordFault> {
    fill(record, 1)?;
    add(record, Shape::Var(0))?;
    add(record, Shape::Var(1))?;
    add(record, Shape::App(2, 2))
}

fn has_its_terms(record: &Record) -> bool {
    if record.terms() != 5 {
        return false;
    }
    matches!(record.shape(4), Shape::App(2, 2)) && record.measure(4).size == 3
}

fn has_its_nodes(record: &Record) -> bool {
    record.linked();
    if record.nodes() != 2 {
        return false;
    }
    let empty = Extent {
        length: 0,
        typed: true,
    };
    record.node(1).form == Form::SortAt && record.is_judgement(1) && record.extent(1) == empty
}

fn compares(record: &Record) -> bool {
    if record.terms() != 5 {
        return false;
    }
    record.equal(4, 4) && !record.equal(0, 4) && record.is_sort(1, Sort(1))
}

fn tells_results(record: &Record) -> bool {
    if record.terms() != 5 {
        return false;
    }
    record.limits(2);
    record.is_lift(3, 0, 1, 2) && record.is_put(0, 0, 0, 0, 2)
}

#[test]
fn a_record_tells_its_lines_and_compares_its_terms(rt: HostRuntime) {
    let mut record = Record::new(rt.alloc());
    assert!(rt; matches!(fill_more(&mut record), Ok(4)));
    assert!(rt; has_its_terms(&record));
    assert!(rt; has_its_nodes(&record));
    assert!(rt; compares(&record));
    assert!(rt; tells_results(&record));
}

// After the nodes of `fill`: what `assume` and `define` make of the judgement, and `bare` of the empty context.
fn fill_contexts(record: &mut Record) -> Result<usize, RecordFault> {
    fill(record, 1)?;
    add_context(record, Form::Assume, 1)?;
    add_context(record, Form::Define, 1)?;
    add_context(record, Form::Bare, 0)
}

fn add_context(record: &mut Record, form: Form, first: usize) -> Result<usize, RecordFault> {
    record.add_node(node(form, 0, first))
}

fn tells_its_judgement(record: &Record) -> bool {
    if record.nodes() != 5 {
        return false;
    }
    matches!(
        record.judged(1),
        Some(Terms {
            subject: 0,
            claim: 1
        })
    ) && record.judged(0).is_none()
        && matches!(Form::Same.kind(), FormKind::Comparison)
}

fn tells_its_entries(record: &Record) -> bool {
    if record.nodes() != 5 {
        return false;
    }
    record.entry(1, 0).is_none()
        && matches!(record.entry(2, 0), Some(LocalEntry::Assumed(0)))
        && matches!(record.entry(3, 0), Some(LocalEntry::Defined(0, 1)))
        && matches!(record.entry(4, 0), Some(LocalEntry::Unknown))
}

#[test]
fn a_record_tells_the_terms_of_judgements_and_the_entries_of_contexts(rt: HostRuntime) {
    let mut record = Record::new(rt.alloc());
    assert!(rt; matches!(fill_contexts(&mut record), Ok(4)));
    assert!(rt; tells_its_judgement(&record));
    assert!(rt; tells_its_entries(&record));
}

fn tree_at(record: &Record, number: usize) -> Result<Term, AllocError> {
    if number >= record.terms() {
        return Err(AllocError);
    }
    record.tree(number)
}

fn is_tree(record: &Record, number: usize, tree: &Result<Term, AllocError>) -> bool {
    match tree {
        Ok(term) => number < record.terms() && record.is_term(number, term),
        Err(_) => false,
    }
}

fn has_one_term(copy: &Result<Record, AllocError>) -> bool {
    match copy {
        Ok(copy) => copy.terms() == 1,
        Err(_) => false,
    }
}

#[test]
fn a_term_is_taken_in_and_given_back(rt: HostRuntime) {
    let mut record = Record::new(rt.alloc());
    assert!(rt; matches!(record.add_tree(&Term::Var(3)), Ok(0)));
    assert!(rt; is_tree(&record, 0, &tree_at(&record, 0)));
    assert!(rt; has_one_term(&record.copy()));
    assert!(rt; Record::new(record.alloc()).terms() == 0);
    assert!(rt; matches!(Shape::Var(7).copy(), Ok(Shape::Var(7))));
}

// Keeps hints to the second term and to the first node.
fn note(record: &mut Record) {
    if record.terms() == 2 && record.nodes() == 2 {
        record.note_term(1);
        record.note_node(0);
    }
}

fn knows(record: &Record, term: Option<usize>, empty: Option<usize>) -> bool {
    record.known_term(&Shape::Sort(Sort(1))) == term
        && record.known_term(&Shape::Sort(Sort(0))).is_none()
        && record.known_node(&node(Form::Empty, 0, 0)) == empty
}

#[test]
fn lines_are_known_by_their_hints(rt: HostRuntime) {
    let mut record = Record::new(rt.alloc());
    assert!(rt; fill(&mut record, 1).is_ok());
    assert!(rt; knows(&record, None, None));
    note(&mut record);
    assert!(rt; knows(&record, Some(1), Some(0)));
    record.trim();
    assert!(rt; knows(&record, None, None));
}

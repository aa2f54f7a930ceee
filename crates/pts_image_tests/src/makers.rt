// Small records, and the checker's judgement of them.

ghost use Rattle.std.specs.Prelude.{◌≡◌};

use pts_check::{Context, Entry, Name, Record, Term, Verdict, check};
use pts_record::{Form, Node, RecordFault, Shape, Sort};
use pts_samples::simple;
use std::alloc::{AllocError, Global};

/// A name.
pub fn named(alloc: Global, text: &str) -> Option<Name> {
    Name::read(alloc, text).ok()
}

/// The front in which the name is a type.
pub fn front(alloc: Global, name: Name, key: Name) -> Result<Context, AllocError>
    requires { key ≡ name }
{
    let mut front = Context::new(alloc);
    front.reserve(1, 0)?;
    let entry = Entry {
        name,
        body: None,
        ty: Term::Sort(Sort(0)),
    };
    front.push(entry, key);
    Ok(front)
}

/// The front in which this name is a type.
pub fn one_type(alloc: Global, text: &str) -> Option<Context> {
    let name = named(alloc, text)?;
    let key = name.copy().ok()?;
    front(alloc, name, key).ok()
}

/// Whether a record is valid over a front of the simply typed calculus.
pub fn is_valid(front: &Context, proof: &Record) -> bool {
    match simple(proof.alloc()) {
        Some(system) => check(&system, front, proof) == Verdict::Valid,
        None => false,
    }
}

/// Whether it is valid over the front in which this name is a type.
pub fn is_valid_with(text: &str, proof: &Record) -> bool {
    match one_type(proof.alloc(), text) {
        Some(front) => is_valid(&front, proof),
        None => false,
    }
}

fn judged(form: Form, ctx: usize, subject: usize, first: usize, second: usize) -> Node {
    Node {
        form,
        ctx,
        subject,
        claim: 1,
        first,
        second,
        third: 0,
    }
}

// The terms `c`, `*` and `c -> c`.
fn add_terms(proof: &mut Record, constant: Name, binder: Name) -> Result<usize, RecordFault> {
    proof.add_term(Shape::Const(constant))?;
    proof.add_term(Shape::Sort(Sort(0)))?;
    proof.add_term(Shape::Pi(binder, 0, 0))
}

// The nodes that judge them to be types.
fn add_nodes(proof: &mut Record) -> Result<usize, RecordFault> {
    proof.add_node(judged(Form::Empty, 0, 0, 0, 0))?;
    proof.add_node(judged(Form::ConstAt, 0, 0, 0, 0))?;
    proof.add_node(judged(Form::Assume, 0, 0, 1, 0))?;
    proof.add_node(judged(Form::ConstAt, 2, 0, 0, 0))?;
    proof.add_node(judged(Form::PiAt, 0, 2, 1, 3))
}

/// The record of `c -> c : *`, five nodes.
pub fn arrow(alloc: Global, text: &str) -> Option<Record> {
    let mut proof = Record::new(alloc);
    let constant = named(alloc, text)?;
    let binder = named(alloc, "_")?;
    add_terms(&mut proof, constant, binder).ok()?;
    add_nodes(&mut proof).ok()?;
    Some(proof)
}

fn is_sort(shape: &Shape, sort: u8) -> bool {
    matches!(shape, Shape::Sort(Sort(number)) if *number == sort)
}

/// Whether the last node judges that the sort with this number has that one as its type.
pub fn last_judges(proof: &Record, subject: u8, claim: u8) -> bool {
    let count = proof.nodes();
    if count == 0 {
        return false;
    }
    match proof.judged(count - 1) {
        Some(terms) => {
            is_sort(proof.shape(terms.subject), subject) && is_sort(proof.shape(terms.claim), claim)
        }
        None => false,
    }
}

/// The size of the subject of the last node, or 0 where there is none.
pub fn last_size(proof: &Record) -> u32 {
    let count = proof.nodes();
    if count == 0 {
        return 0;
    }
    match proof.judged(count - 1) {
        Some(terms) => proof.measure(terms.subject).size,
        None => 0,
    }
}

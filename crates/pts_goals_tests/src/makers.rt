// A theorem of the simply typed calculus over a type, with the record in which it is proved, and the checker's judgement.

ghost use Rattle.std.specs.Prelude.{◌≡◌, IfSome, false};

use crate::judgements::{is_empty, sorted};
use pts_check::{Context, Entry, Term, declaration_fault};
use pts_goals::{Declaration, Name, Proof, Record};
use pts_record::{Form, Node, RecordFault, Shape, Sort};
use pts_samples::simple;
use std::alloc::{AllocError, Global};

fn named(alloc: Global, text: &str) -> Option<Name> {
    Name::read(alloc, text).ok()
}

fn push(front: &mut Context, name: Name, key: Name) -> Result<(), AllocError>
    requires { key ≡ name }
{
    front.reserve(1, 0)?;
    let entry = Entry {
        name,
        body: None,
        ty: Term::Sort(Sort(0)),
    };
    if front.place_of(&key).is_none() && entry.is_within() {
        front.push(entry, key);
    }
    Ok(())
}

// The front in which `A` is a type.
fn front(alloc: Global) -> Option<Context> {
    let name = named(alloc, "A")?;
    let key = name.copy().ok()?;
    let mut front = Context::new(alloc);
    push(&mut front, name, key).ok()?;
    Some(front)
}

/// Whether the checker finds no fault in a declaration over the front in which `A` is a type.
pub fn is_faultless(declaration: &Declaration) -> bool {
    let alloc = declaration.proof.alloc();
    match (simple(alloc), front(alloc)) {
        (Some(system), Some(front)) => declaration_fault(&system, &front, declaration).is_none(),
        _ => false,
    }
}

/// The term `A`.
pub const A: usize = 0;

/// The term `A -> A`.
pub const ARROW: usize = 2;

/// The theorem: `(A -> A -> A) -> A -> A`.
pub const STATEMENT: usize = 4;

// The terms `A`, `*`, `A -> A`, `A -> A -> A`, the theorem, and two variables, with the numbers from 0 to 6.
fn add_terms(record: &mut Record, constant: Name, binder: &Name) -> Result<(), RecordFault> {
    record.add_term(Shape::Const(constant))?;
    record.add_term(Shape::Sort(Sort(0)))?;
    record.add_term(Shape::Pi(binder.copy()?, 0, 0))?;
    record.add_term(Shape::Pi(binder.copy()?, 0, 2))?;
    record.add_term(Shape::Pi(binder.copy()?, 3, 2))?;
    record.add_term(Shape::Var(0))?;
    record.add_term(Shape::Var(1))?;
    Ok(())
}

/// The empty context.
pub const EMPTY: usize = 0;

/// The context of `g : A -> A -> A`.
pub const G: usize = 8;

/// The context of `g` and `x : A`.
pub const X: usize = 10;

/// The context of `g`, `x` and `y : A`.
pub const Y: usize = 16;

/// That the theorem is a type.
pub const THEOREM: usize = 13;

/// That `A -> A` is a type, where there is `g`.
pub const ARROW_IN_G: usize = 12;

/// That `A -> A` is a type, where there are `g` and `x`.
pub const ARROW_IN_X: usize = 18;

/// That `A -> A -> A` is a type, where there are `g` and `x`.
pub const BINARY_IN_X: usize = 25;

/// That `A` is a type, where there are `g` and `x`.
pub const A_IN_X: usize = 11;

/// That `g` has its type, where there are `g` and `x`.
pub const G_IN_X: usize = 15;

/// That `x` has its type, where there are `g` and `x`.
pub const X_IN_X: usize = 14;

/// That `y` has its type, where there is `y`.
pub const Y_IN_Y: usize = 19;

/// The comparison of `A` with itself, where there are `g` and `x`.
pub const A_IS_A: usize = 20;

/// The comparison of `A -> A` with itself, where there is `g`.
pub const ARROW_IS_ARROW: usize = 21;

/// The comparison of `A -> A -> A` with itself, where there are `g` and `x`.
pub const BINARY_IS_BINARY: usize = 26;

// Nodes, by their form, context, subject, claim, first and second premise.
const NODES: [(Form, usize, usize, usize, usize, usize); 27] = [
    (Form::Empty, 0, 0, 0, 0, 0),
    (Form::ConstAt, 0, 0, 1, 0, 0),
    (Form::Assume, 0, 0, 0, 1, 0),
    (Form::ConstAt, 2, 0, 1, 0, 0),
    (Form::Assume, 0, 0, 0, 3, 0),
    (Form::ConstAt, 4, 0, 1, 0, 0),
    (Form::PiAt, 2, 2, 1, 3, 5),
    (Form::PiAt, 0, 3, 1, 1, 6),
    (Form::Assume, 0, 0, 0, 7, 0),
    (Form::ConstAt, 8, 0, 1, 0, 0),
    (Form::Assume, 0, 0, 0, 9, 0),
    (Form::ConstAt, 10, 0, 1, 0, 0),
    (Form::PiAt, 8, 2, 1, 9, 11),
    (Form::PiAt, 0, 4, 1, 7, 12),
    (Form::VarAt, 10, 5, 0, 0, 0),
    (Form::VarAt, 10, 6, 3, 0, 0),
    (Form::Assume, 0, 0, 0, 11, 0),
    (Form::ConstAt, 16, 0, 1, 0, 0),
    (Form::PiAt, 10, 2, 1, 11, 17),
    (Form::VarAt, 16, 5, 0, 0, 0),
    (Form::Same, 10, 0, 0, 0, 0),
    (Form::Same, 8, 2, 2, 0, 0),
    (Form::Assume, 0, 0, 0, 17, 0),
    (Form::ConstAt, 22, 0, 1, 0, 0),
    (Form::PiAt, 16, 2, 1, 17, 23),
    (Form::PiAt, 10, 3, 1, 11, 24),
    (Form::Same, 10, 3, 3, 0, 0),
];

fn add_nodes(record: &mut Record) -> Result<(), RecordFault> {
    for (form, ctx, subject, claim, first, second) in NODES {
        record.add_node(Node {
            form,
            ctx,
            subject,
            claim,
            first,
            second,
            third: 0,
        })?;
    }
    Ok(())
}

fn record(alloc: Global) -> Option<Record> {
    let constant = named(alloc, "A")?;
    let binder = named(alloc, "_")?;
    let mut record = Record::new(alloc);
    add_terms(&mut record, constant, &binder).ok()?;
    add_nodes(&mut record).ok()?;
    Some(record)
}

// The proof of the theorem that a node judges to have a sort.
#[tactic(auto, using(pts_goals::proofs::Beginning::beginning))]
fn begun(name: Name, record: Record, node: usize) -> Option<Proof>
    ensures { IfSome result (λ p. p.is_lent ≡ false) }
{
    if !is_empty(&record, EMPTY) {
        return None;
    }
    let sorted = sorted(&record, EMPTY, node)?;
    match Proof::start(name, record, sorted.node) {
        Ok(proof) => Some(proof),
        Err(_) => None,
    }
}

/// The proof of the theorem, with no step.
pub fn begin(alloc: Global) -> Option<Proof>
    ensures { IfSome result (λ p. p.is_lent ≡ false) }
{
    let name = named(alloc, "first")?;
    let record = record(alloc)?;
    begun(name, record, THEOREM)
}

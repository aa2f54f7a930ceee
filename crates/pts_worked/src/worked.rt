// A record over a front, with terms to judge and to compare, and what its nodes are to the calls that add others.

ghost use Rattle.std.specs.Prelude.{◌≡◌, ◌<◌, ◌≤◌, length, nat_eq, position, Some, IsTrue, IfSome};
ghost use Rattle.pts_record.specs.Said.{named_told, scope_of};
ghost use Rattle.pts_grow.specs.Keeps.{Compares, IsBareOf};
ghost use Rattle.pts_grow.specs.Judges.{IsTypedContext, Judges, IsEmpty, IsAssumeOf, IsDefineOf, IsSort};

use crate::fronts::{assume, assume_type};
use pts_ctx::{Context, NameFault};
use pts_grow::{Compared, Judged, TermFault, add_line};
use pts_record::{Boxed, Form, FormKind, Name, Record, Shape, Sort, Term};
use std::alloc::Global;

/// The front with a type `A` and an `a` of it.
pub fn front(alloc: Global) -> Result<Context, NameFault> {
    let mut front = Context::new(alloc);
    assume_type(&mut front, alloc, "A")?;
    let ty = Name::read(alloc, "A")?;
    let ty = Boxed::new(alloc, Term::Const(ty))?;
    assume(&mut front, alloc, "a", ty)?;
    Ok(front)
}

/// A record with ten terms: `*`, `#`, `A`, `a`, the newest variable, `A -> A`, `\y:A. y`, that applied to `a`,
/// `let y := a : A in y` and `let y := a : A in A`.
pub fn terms(alloc: Global) -> Option<Record> {
    let ty = Name::read(alloc, "A").ok()?;
    let element = Name::read(alloc, "a").ok()?;
    let variable = Name::read(alloc, "y").ok()?;
    let mut record = Record::new(alloc);
    leaves(&mut record, ty, element).ok()?;
    compounds(&mut record, &variable).ok()?;
    Some(record)
}

fn leaves(record: &mut Record, ty: Name, element: Name) -> Result<usize, TermFault> {
    add_line(record, Shape::Sort(Sort(0)))?;
    add_line(record, Shape::Sort(Sort(1)))?;
    add_line(record, Shape::Const(ty))?;
    add_line(record, Shape::Const(element))?;
    add_line(record, Shape::Var(0))
}

fn compounds(record: &mut Record, variable: &Name) -> Result<usize, TermFault> {
    add_line(record, Shape::Pi(variable.copy()?, 2, 2))?;
    add_line(record, Shape::Lam(variable.copy()?, 2, 4))?;
    add_line(record, Shape::App(6, 3))?;
    add_line(record, Shape::Let(variable.copy()?, 3, 2, 4))?;
    add_line(record, Shape::Let(variable.copy()?, 3, 2, 2))
}

/// Whether the record has the ten terms, and the empty context as its first node.
pub fn is_begun(proof: &Record) -> bool
    ensures terms { IsTrue result → 10 ≤ length proof.now.shapes }
    ensures nodes { IsTrue result → 0 < length proof.now.nodes }
    ensures empty { IsTrue result → IsEmpty proof.now 0 }
    ensures typed { IsTrue result → IsTypedContext proof.now 0 }
{
    if proof.terms() < 10 || proof.nodes() == 0 {
        return false;
    }
    matches!(proof.node(0).form, Form::Empty)
}

/// The judgement that a node is in a context.
pub fn judged(proof: &Record, ctx: usize, node: usize) -> Option<Judged>
    ensures judges { IfSome result (λ j. Judges proof.now ctx j) }
    ensures node { IfSome result (λ j. j.node ≡ node) }
{
    if node >= proof.nodes() {
        return None;
    }
    let line = proof.node(node);
    match line.form.kind() {
        FormKind::Judgement if line.ctx == ctx => Some(Judged {
            subject: line.subject,
            claim: line.claim,
            node,
        }),
        _ => None,
    }
}

/// The comparison that a node is in a context.
pub fn compared(proof: &Record, ctx: usize, node: usize) -> Option<Compared>
    ensures compares { IfSome result (λ p. Compares proof.now ctx p) }
{
    if node >= proof.nodes() {
        return None;
    }
    let line = proof.node(node);
    match line.form.kind() {
        FormKind::Comparison if line.ctx == ctx => Some(Compared {
            left: line.subject,
            right: line.claim,
            node,
        }),
        _ => None,
    }
}

/// Whether a node is the empty context with a bare entry more.
pub fn is_bare(proof: &Record, node: usize) -> bool
    requires { 0 < length proof.now.nodes }
    ensures { IsTrue result → IsBareOf proof.now 0 node }
{
    if node >= proof.nodes() {
        return false;
    }
    let line = proof.node(node);
    matches!(line.form, Form::Bare) && line.ctx == 0
}

/// Whether a node is the empty context with an assumption more, the subject of a judgement.
#[tactic(auto, using(pts_grow::proofs::Longer::assume_typed))]
pub fn is_assumption(proof: &Record, ty: &Judged, node: usize) -> bool
    requires empty { IsEmpty proof.now 0 }
    requires typed { IsTypedContext proof.now 0 }
    requires ty { Judges proof.now 0 ty.now }
    ensures assume { IsTrue result → IsAssumeOf proof.now 0 ty.now node }
    ensures typed { IsTrue result → IsTypedContext proof.now node }
    ensures distance { IsTrue result → position (nat_eq 0) (scope_of (named_told proof.now node)).trail ≡ Some 1 }
{
    if node == 0 || node >= proof.nodes() {
        return false;
    }
    let line = proof.node(node);
    matches!(line.form, Form::Assume) && line.first == ty.node
}

/// Whether a node is the empty context with a definition more, the subject of a judgement with its claim as its type.
#[tactic(auto, using(pts_grow::proofs::Longer::define_typed))]
pub fn is_definition(proof: &Record, body: &Judged, node: usize) -> bool
    requires empty { IsEmpty proof.now 0 }
    requires typed { IsTypedContext proof.now 0 }
    requires body { Judges proof.now 0 body.now }
    ensures define { IsTrue result → IsDefineOf proof.now 0 body.now node }
    ensures typed { IsTrue result → IsTypedContext proof.now node }
    ensures distance { IsTrue result → position (nat_eq 0) (scope_of (named_told proof.now node)).trail ≡ Some 1 }
{
    if node == 0 || node >= proof.nodes() {
        return false;
    }
    let line = proof.node(node);
    matches!(line.form, Form::Define) && line.first == body.node
}

/// Whether a node is the empty context with one entry more.
pub fn is_longer(proof: &Record, node: usize) -> bool
    requires empty { IsEmpty proof.now 0 }
    requires typed { IsTypedContext proof.now 0 }
    ensures node { IsTrue result → node < length proof.now.nodes }
    ensures typed { IsTrue result → IsTypedContext proof.now node }
    ensures distance { IsTrue result → position (nat_eq 0) (scope_of (named_told proof.now node)).trail ≡ Some 1 }
{
    if node >= proof.nodes() {
        return false;
    }
    let premise = proof.node(node).first;
    match judged(proof, 0, premise) {
        Some(premise) => {
            is_assumption(proof, &premise, node) || is_definition(proof, &premise, node)
        }
        None => false,
    }
}

/// Whether a node is the empty context of the record, or that with one entry more.
pub fn is_typed(proof: &Record, ctx: usize) -> bool
    ensures node { IsTrue result → ctx < length proof.now.nodes }
    ensures typed { IsTrue result → IsTypedContext proof.now ctx }
{
    is_begun(proof) && (ctx == 0 || is_longer(proof, ctx))
}

/// Whether a term is a sort.
pub fn is_sort(proof: &Record, term: usize) -> bool
    requires { term < length proof.now.shapes }
    ensures { IsTrue result → IsSort proof.now term }
{
    matches!(proof.shape(term), Shape::Sort(_))
}

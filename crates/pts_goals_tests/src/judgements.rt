// What nodes of a record say, where they say what is asked for.

ghost use Rattle.std.specs.Prelude.{◌≡◌, IsTrue, IfSome};
ghost use Rattle.pts_grow.specs.Keeps.{Compares};
ghost use Rattle.pts_grow.specs.Judges.{IsEmpty, IsAssumeOf, IsProduct, Judges, JudgesSort};

use pts_goals::{Compared, Judged, Record};
use pts_record::{Form, FormKind, Shape};

/// Whether a node is an empty context.
pub fn is_empty(scratch: &Record, node: usize) -> bool
    ensures { IsTrue result → IsEmpty scratch.now node }
{
    if node >= scratch.nodes() {
        return false;
    }
    matches!(scratch.node(node).form, Form::Empty)
}

/// The judgement that a node is in a context.
pub fn judged(scratch: &Record, ctx: usize, node: usize) -> Option<Judged>
    ensures judges { IfSome result (λ j. Judges scratch.now ctx j) }
    ensures node { IfSome result (λ j. j.node ≡ node) }
{
    if node >= scratch.nodes() {
        return None;
    }
    let line = scratch.node(node);
    match line.form.kind() {
        FormKind::Judgement if line.ctx == ctx => Some(Judged {
            subject: line.subject,
            claim: line.claim,
            node,
        }),
        _ => None,
    }
}

/// The judgement, where its claim is a sort.
pub fn sorted(scratch: &Record, ctx: usize, node: usize) -> Option<Judged>
    ensures sort { IfSome result (λ j. JudgesSort scratch.now ctx j) }
    ensures node { IfSome result (λ j. j.node ≡ node) }
{
    let judged = judged(scratch, ctx, node)?;
    match scratch.shape(judged.claim) {
        Shape::Sort(_) => Some(judged),
        _ => None,
    }
}

/// The comparison that a node is in a context.
pub fn compared(scratch: &Record, ctx: usize, node: usize) -> Option<Compared>
    ensures { IfSome result (λ o. Compares scratch.now ctx o) }
{
    if node >= scratch.nodes() {
        return None;
    }
    let line = scratch.node(node);
    match line.form.kind() {
        FormKind::Comparison if line.ctx == ctx => Some(Compared {
            left: line.subject,
            right: line.claim,
            node,
        }),
        _ => None,
    }
}

// Whether a node is the context with an assumption more, the subject of a judgement in it.
fn is_assumption(scratch: &Record, ctx: usize, ty: &Judged, node: usize) -> bool
    requires { Judges scratch.now ctx ty.now }
    ensures { IsTrue result → IsAssumeOf scratch.now ctx ty.now node }
{
    let _ = ctx;
    if node >= scratch.nodes() {
        return false;
    }
    let line = scratch.node(node);
    matches!(line.form, Form::Assume) && line.first == ty.node
}

/// A judgement of a product and those of its two parts, the second one in the context `inner`.
#[derive(Clone, Copy)]
pub struct Parts {
    pub whole: Judged,
    pub domain: Judged,
    pub inner: usize,
    pub body: Judged,
}

/// The product that a node judges, and that its two premises judge in parts.
#[tactic(auto, using(crate::proofs::Facts::is_product))]
pub fn product(scratch: &Record, ctx: usize, node: usize, inner: usize) -> Option<Parts>
    ensures { IfSome result (λ p. IsProduct scratch.now ctx p.whole p.domain p.inner p.body) }
{
    let whole = sorted(scratch, ctx, node)?;
    let line = scratch.node(whole.node);
    let domain = sorted(scratch, ctx, line.first)?;
    if !is_assumption(scratch, ctx, &domain, inner) {
        return None;
    }
    let body = sorted(scratch, inner, line.second)?;
    match scratch.shape(whole.subject) {
        Shape::Pi(_, left, right) if *left == domain.subject && *right == body.subject => {
            Some(Parts {
                whole,
                domain,
                inner,
                body,
            })
        }
        _ => None,
    }
}

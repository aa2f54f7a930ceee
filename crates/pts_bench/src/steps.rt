// Steps of a proof of a type `A` from a function on it and an element of it, where they fit the goal that comes first. Numbers are
// those of the record that the proof begins with.

ghost use Rattle.std.specs.Prelude.{◌≡◌, ◌∷◌, [], IfOk, IfSome, IsTrue, false};
ghost use Rattle.pts_terms.specs.Tree.{lift};
ghost use Rattle.pts_record.specs.Table.{bare_at};
ghost use Rattle.pts_grow.specs.Keeps.{Compares};
ghost use Rattle.pts_grow.specs.Judges.{IsEmpty, Judges, JudgesSort};
ghost use Rattle.pts_goals.specs.Steps.{IsLink};
ghost use Rattle.pts_goals.specs.OpenProofs.{FitsFirst};

use pts_goals::{Argument, Compared, Judged, Link, List, Proof, Record, Step};
use pts_record::{Form, FormKind, Shape};
use std::alloc::{AllocError, Global};

/// The empty context.
pub const EMPTY: usize = 0;

/// That `A` is a type.
pub const TYPE: usize = 1;

// That the function has its type.
const FUNCTION: usize = 2;

// That the element has its type.
const ELEMENT: usize = 3;

// The comparison of `A` with itself.
const COMPARISON: usize = 4;

/// Whether a node is an empty context.
pub fn is_empty(scratch: &Record, node: usize) -> bool
    ensures { IsTrue result → IsEmpty scratch.now node }
{
    node < scratch.nodes() && matches!(scratch.node(node).form, Form::Empty)
}

// The judgement that a node is in a context.
fn judged(scratch: &Record, ctx: usize, node: usize) -> Option<Judged>
    ensures judges { IfSome result (λ j. Judges scratch.now ctx j) }
    ensures node { IfSome result (λ j. j.node ≡ node) }
{
    if node >= scratch.nodes() {
        return None;
    }
    let line = scratch.node(node);
    match line.form.kind() {
        FormKind::Judgement if line.ctx == ctx => Some(Judged {
            subject: line.subject,
            claim: line.claim,
            node,
        }),
        _ => None,
    }
}

/// The judgement, where its claim is a sort.
pub fn sorted(scratch: &Record, ctx: usize, node: usize) -> Option<Judged>
    ensures sort { IfSome result (λ j. JudgesSort scratch.now ctx j) }
    ensures node { IfSome result (λ j. j.node ≡ node) }
{
    let judged = judged(scratch, ctx, node)?;
    match scratch.shape(judged.claim) {
        Shape::Sort(_) => Some(judged),
        _ => None,
    }
}

// The comparison that a node is in a context.
fn compared(scratch: &Record, ctx: usize, node: usize) -> Option<Compared>
    ensures { IfSome result (λ o. Compares scratch.now ctx o) }
{
    if node >= scratch.nodes() {
        return None;
    }
    let line = scratch.node(node);
    match line.form.kind() {
        FormKind::Comparison if line.ctx == ctx => Some(Compared {
            left: line.subject,
            right: line.claim,
            node,
        }),
        _ => None,
    }
}

/// The element.
#[tactic(auto, using(pts_goals::proofs::Fitting::fitting))]
pub fn closed(proof: &Proof) -> Option<Step>
    requires here { proof.now.is_lent ≡ false }
    ensures { IfSome result (λ s. FitsFirst proof.now.scratch proof.now.goals s) }
{
    if proof.goals() == 0 {
        return None;
    }
    let goal = proof.goal(0);
    let node = judged(proof.scratch(), goal.ctx, ELEMENT)?;
    if node.claim != goal.statement {
        return None;
    }
    Some(Step::Exact { node })
}

/// `A` again.
#[tactic(auto, using(pts_goals::proofs::Fitting::fitting))]
pub fn changed(proof: &Proof) -> Option<Step>
    requires here { proof.now.is_lent ≡ false }
    ensures { IfSome result (λ s. FitsFirst proof.now.scratch proof.now.goals s) }
{
    if proof.goals() == 0 {
        return None;
    }
    let goal = proof.goal(0);
    let statement = goal.statement;
    let sorted = sorted(proof.scratch(), goal.ctx, TYPE)?;
    let comparison = compared(proof.scratch(), goal.ctx, COMPARISON)?;
    if sorted.subject != statement
        || comparison.left != statement
        || comparison.right != statement
    {
        return None;
    }
    Some(Step::Change {
        statement,
        sorted,
        comparison,
    })
}

// Whether a term is another one that is lifted past one binder.
#[tactic(auto, using(pts_terms::proofs::Same::same_term_eq))]
fn is_lifted(scratch: &Record, term: usize, other: usize) -> bool
    ensures { IsTrue result → bare_at scratch.now.shapes term ≡ lift 0 1 (bare_at scratch.now.shapes other) }
{
    if term >= scratch.terms() || other >= scratch.terms() {
        return false;
    }
    scratch.limits(other);
    scratch.is_lift(term, 0, 1, other)
}

// The application of a function of that type to an argument that is left to be proved, after which the type is `after`.
#[tactic(auto, using(crate::proofs::Applied::is_link))]
fn link(scratch: &Record, ctx: usize, ty: usize, after: usize) -> Option<Link>
    ensures link { IfSome result (λ l. IsLink scratch.now ctx (bare_at scratch.now.shapes ty) l) }
    ensures after { IfSome result (λ l. l.after ≡ after) }
{
    if ty >= scratch.terms() || after >= scratch.terms() {
        return None;
    }
    let Shape::Pi(_, domain, codomain) = scratch.shape(ty) else {
        return None;
    };
    let (domain, codomain) = (*domain, *codomain);
    let sorted = sorted(scratch, ctx, TYPE)?;
    if sorted.subject != domain || !is_lifted(scratch, codomain, after) {
        return None;
    }
    Some(Link {
        change: None,
        domain,
        codomain,
        argument: Argument::Left(sorted),
        after,
    })
}

fn one(alloc: Global, link: Link) -> Result<List<Link>, AllocError>
    ensures { IfOk result (λ l. l ≡ link ∷ []) }
{
    let mut links = Vec::new(alloc);
    links.push(link)?;
    Ok(List::of(links))
}

/// The function of an element.
#[tactic(auto, using(pts_goals::proofs::Fitting::fitting, crate::proofs::Applied::one_link))]
pub fn applied(proof: &Proof) -> Option<Step>
    requires here { proof.now.is_lent ≡ false }
    ensures { IfSome result (λ s. FitsFirst proof.now.scratch proof.now.goals s) }
{
    if proof.goals() == 0 {
        return None;
    }
    let goal = proof.goal(0);
    let scratch = proof.scratch();
    let function = judged(scratch, goal.ctx, FUNCTION)?;
    let link = link(scratch, goal.ctx, function.claim, goal.statement)?;
    match one(scratch.alloc(), link) {
        Ok(links) => Some(Step::Apply { function, links }),
        Err(_) => None,
    }
}

// Steps, by the numbers of nodes and terms, where they fit the goal that comes first.

ghost use Rattle.std.specs.Prelude.{◌≡◌, ◌∷◌, [], IfOk, IfSome, IsTrue, false};
ghost use Rattle.pts_terms.specs.Tree.{lift, subst};
ghost use Rattle.pts_record.specs.Table.{bare_at};
ghost use Rattle.pts_goals.specs.Steps.{Converts, IsArgument, IsLink, ReducesTo};
ghost use Rattle.pts_goals.specs.OpenProofs.{FitsFirst};

use crate::judgements::{compared, judged, product, sorted};
use crate::makers::{A, ARROW};
use pts_goals::{Argument, Compared, Link, List, Name, Proof, Record, Reduction, Step};
use pts_record::Shape;
use std::alloc::{AllocError, Global};

// The comparison of two terms by a node; none where they are the same and no node is given.
fn conversion(
    scratch: &Record,
    ctx: usize,
    from: usize,
    to: usize,
    by: Option<usize>,
) -> Option<Option<Compared>>
    ensures { IfSome result (λ o. Converts scratch.now ctx (bare_at scratch.now.shapes from) (bare_at scratch.now.shapes to) o) }
{
    let Some(node) = by else {
        return if from == to { Some(None) } else { None };
    };
    let compared = compared(scratch, ctx, node)?;
    if compared.left != from || compared.right != to {
        return None;
    }
    Some(Some(compared))
}

// Whether a term is another one that is lifted past one binder.
#[tactic(auto, using(pts_terms::proofs::Same::same_term_eq))]
fn is_lifted(scratch: &Record, term: usize, other: usize) -> bool
    ensures { IsTrue result → bare_at scratch.now.shapes term ≡ lift 0 1 (bare_at scratch.now.shapes other) }
{
    if term >= scratch.terms() || other >= scratch.terms() {
        return false;
    }
    scratch.limits(other);
    scratch.is_lift(term, 0, 1, other)
}

// Whether a term is a body with an argument put in.
#[tactic(auto, using(pts_terms::proofs::Same::same_term_eq))]
fn is_put(scratch: &Record, term: usize, argument: usize, body: usize) -> bool
    ensures { IsTrue result → bare_at scratch.now.shapes term ≡ subst 0 (bare_at scratch.now.shapes argument) (bare_at scratch.now.shapes body) }
{
    if term >= scratch.terms() || argument >= scratch.terms() || body >= scratch.terms() {
        return false;
    }
    scratch.limits(body);
    scratch.is_put(term, 0, 0, argument, body)
}

/// A judgement that closes the goal.
#[tactic(auto, using(pts_goals::proofs::Fitting::fitting))]
pub fn exact(proof: &Proof, node: usize) -> Option<Step>
    requires here { proof.now.is_lent ≡ false }
    ensures { IfSome result (λ s. FitsFirst proof.now.scratch proof.now.goals s) }
{
    if proof.goals() == 0 {
        return None;
    }
    let goal = proof.goal(0);
    let node = judged(proof.scratch(), goal.ctx, node)?;
    if node.claim != goal.statement {
        return None;
    }
    Some(Step::Exact { node })
}

/// An abstraction, by the node of its product, the context of its body, and the node that compares the product with the goal.
#[tactic(auto, using(pts_goals::proofs::Fitting::fitting))]
pub fn intro(
    proof: &Proof,
    name: Name,
    node: usize,
    inner: usize,
    change: Option<usize>,
) -> Option<Step>
    requires here { proof.now.is_lent ≡ false }
    ensures { IfSome result (λ s. FitsFirst proof.now.scratch proof.now.goals s) }
{
    if proof.goals() == 0 {
        return None;
    }
    let goal = proof.goal(0);
    let scratch = proof.scratch();
    let product = product(scratch, goal.ctx, node, inner)?;
    let change = conversion(
        scratch,
        goal.ctx,
        product.whole.subject,
        goal.statement,
        change,
    )?;
    Some(Step::Intro {
        name,
        product: product.whole,
        domain: product.domain,
        inner: product.inner,
        sorted: product.body,
        change,
    })
}

/// A lemma, by the node of the product of the lemma and the goal, and the context of the goal under it.
#[tactic(auto, using(pts_goals::proofs::Fitting::fitting))]
pub fn cut(proof: &Proof, name: Name, node: usize, inner: usize) -> Option<Step>
    requires here { proof.now.is_lent ≡ false }
    ensures { IfSome result (λ s. FitsFirst proof.now.scratch proof.now.goals s) }
{
    if proof.goals() == 0 {
        return None;
    }
    let goal = proof.goal(0);
    let scratch = proof.scratch();
    let product = product(scratch, goal.ctx, node, inner)?;
    if !is_lifted(scratch, product.body.subject, goal.statement) {
        return None;
    }
    Some(Step::Cut {
        name,
        lemma: product.domain,
        product: product.whole,
        inner: product.inner,
        sorted: product.body,
    })
}

/// Another statement, by the node that judges it to have a sort, and the one that compares it with the goal.
#[tactic(auto, using(pts_goals::proofs::Fitting::fitting))]
pub fn change(proof: &Proof, statement: usize, node: usize, comparison: usize) -> Option<Step>
    requires here { proof.now.is_lent ≡ false }
    ensures { IfSome result (λ s. FitsFirst proof.now.scratch proof.now.goals s) }
{
    if proof.goals() == 0 {
        return None;
    }
    let goal = proof.goal(0);
    let scratch = proof.scratch();
    let sorted = sorted(scratch, goal.ctx, node)?;
    let comparison = compared(scratch, goal.ctx, comparison)?;
    if sorted.subject != statement
        || comparison.left != statement
        || comparison.right != goal.statement
    {
        return None;
    }
    Some(Step::Change {
        statement,
        sorted,
        comparison,
    })
}

/// An argument, by the node that judges it, or that judges its type where it is left to be proved.
#[derive(Clone, Copy)]
pub enum Way {
    Given(usize),
    Left(usize),
}

// The argument of a product with these two parts, after which the type is `after`.
fn argument(
    scratch: &Record,
    ctx: usize,
    way: Way,
    domain: usize,
    codomain: usize,
    after: usize,
) -> Option<Argument>
    ensures { IfSome result (λ a. IsArgument scratch.now ctx a (bare_at scratch.now.shapes domain) (bare_at scratch.now.shapes codomain) (bare_at scratch.now.shapes after)) }
{
    match way {
        Way::Given(node) => {
            let judged = judged(scratch, ctx, node)?;
            if judged.claim != domain || !is_put(scratch, after, judged.subject, codomain) {
                return None;
            }
            Some(Argument::Given(judged))
        }
        Way::Left(node) => {
            let sorted = sorted(scratch, ctx, node)?;
            if sorted.subject != domain || !is_lifted(scratch, codomain, after) {
                return None;
            }
            Some(Argument::Left(sorted))
        }
    }
}

// The reduction of a type to itself, by the node of its sort and that of the comparison; none where no nodes are given.
fn reduction(
    scratch: &Record,
    ctx: usize,
    ty: usize,
    by: Option<(usize, usize)>,
) -> Option<Option<Reduction>>
    ensures { IfSome result (λ d. ReducesTo scratch.now ctx (bare_at scratch.now.shapes ty) (bare_at scratch.now.shapes ty) d) }
{
    let Some((node, comparison)) = by else {
        return Some(None);
    };
    let sorted = sorted(scratch, ctx, node)?;
    let compared = compared(scratch, ctx, comparison)?;
    if sorted.subject != ty || compared.left != ty || compared.right != ty {
        return None;
    }
    Some(Some(Reduction { sorted, compared }))
}

// The application of a function of that type, after which the type is `after`.
#[tactic(auto, using(crate::proofs::Facts::is_link))]
fn link(
    scratch: &Record,
    ctx: usize,
    ty: usize,
    way: Way,
    by: Option<(usize, usize)>,
    after: usize,
) -> Option<Link>
    ensures link { IfSome result (λ l. IsLink scratch.now ctx (bare_at scratch.now.shapes ty) l) }
    ensures after { IfSome result (λ l. l.after ≡ after) }
{
    if ty >= scratch.terms() || after >= scratch.terms() {
        return None;
    }
    let Shape::Pi(_, domain, codomain) = scratch.shape(ty) else {
        return None;
    };
    let (domain, codomain) = (*domain, *codomain);
    let change = reduction(scratch, ctx, ty, by)?;
    let argument = argument(scratch, ctx, way, domain, codomain, after)?;
    Some(Link {
        change,
        domain,
        codomain,
        argument,
        after,
    })
}

fn both(alloc: Global, first: Link, second: Link) -> Result<List<Link>, AllocError>
    ensures { IfOk result (λ l. l ≡ first ∷ second ∷ []) }
{
    let mut links = Vec::new(alloc);
    links.push(first)?;
    links.push(second)?;
    Ok(List::of(links))
}

/// A function of the type `A -> A -> A`, by its node, with two arguments. Its type may be reduced first.
#[tactic(auto, using(pts_goals::proofs::Fitting::fitting, crate::proofs::Facts::two_links))]
pub fn apply(
    proof: &Proof,
    node: usize,
    by: Option<(usize, usize)>,
    ways: (Way, Way),
) -> Option<Step>
    requires here { proof.now.is_lent ≡ false }
    ensures { IfSome result (λ s. FitsFirst proof.now.scratch proof.now.goals s) }
{
    if proof.goals() == 0 {
        return None;
    }
    let goal = proof.goal(0);
    let scratch = proof.scratch();
    let function = judged(scratch, goal.ctx, node)?;
    let first = link(scratch, goal.ctx, function.claim, ways.0, by, ARROW)?;
    let second = link(scratch, goal.ctx, first.after, ways.1, None, A)?;
    if second.after != goal.statement {
        return None;
    }
    match both(scratch.alloc(), first, second) {
        Ok(links) => Some(Step::Apply { function, links }),
        Err(_) => None,
    }
}

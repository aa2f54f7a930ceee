// The lines of an image.

ghost use Rattle.std.specs.Prelude.{◌≡◌, ◌<◌, ◌≤◌, ◌+◌, length, take, List, ℕ, IfOk, if◌then◌else◌};
ghost use Rattle.pts_record.specs.Table.{at, bare_trees, kept_node};
ghost use Rattle.pts_rules.specs.Parts.{const_in};
ghost use Rattle.pts_image.specs.Appending.{IsAmong, argument_node, image_by, is_empty_node, new_number, replacement_in};
ghost use Rattle.pts_image.specs.Appending as appending;

use crate::append::Numbering;
use crate::replacement::{Replacement, Replacements};
use pts_record::{Form, Node, Record, Shape};
use std::alloc::AllocError;

/// The line of a term after the first `terms` terms.
pub(crate) fn shape_image<R: Replacements>(
    into: &Record,
    replacements: &R,
    terms: usize,
    shape: &Shape,
) -> Result<Shape, AllocError>
    requires among { (c : List ℕ) → IsAmong terms (R.replacement replacements.now c) }
    requires terms { terms ≤ length into.now.shapes }
    ensures { IfOk result (λ s. s ≡ appending.shape_image (take terms into.now.shapes) (R.replacement replacements.now) shape.now) }
{
    Ok(match shape {
        Shape::Sort(s) => Shape::Sort(*s),
        Shape::Const(c) => match replacements.replacement(c)? {
            Replacement::Constant(name) => Shape::Const(name),
            Replacement::Argument(term, _) => into.shape(term).copy()?,
        },
        Shape::Var(i) => Shape::Var(*i),
        Shape::App(f, a) => Shape::App(after(terms, *f)?, after(terms, *a)?),
        Shape::Lam(x, t, b) => Shape::Lam(x.copy()?, after(terms, *t)?, after(terms, *b)?),
        Shape::Pi(x, t, b) => Shape::Pi(x.copy()?, after(terms, *t)?, after(terms, *b)?),
        Shape::Let(x, d, t, b) => {
            Shape::Let(
                x.copy()?,
                after(terms, *d)?,
                after(terms, *t)?,
                after(terms, *b)?,
            )
        }
    })
}

/// The line of a node, whose terms are after the first `terms` terms.
#[tactic(auto, using(crate::proofs::ImageLines::other_form, crate::proofs::ImageLines::const_kept, crate::proofs::ImageLines::const_thinned))]
pub(crate) fn node_image<R: Replacements>(
    replacements: &R,
    numbering: Numbering,
    terms: usize,
    proof: &Record,
    node: Node,
) -> Result<Node, AllocError>
    ensures { IfOk result (λ n. kept_node n ≡ image_by numbering terms (R.replacement replacements.now) proof.now node) }
{
    let image = Node {
        form: node.form,
        ctx: number_image(proof, numbering, node.ctx)?,
        subject: after(terms, node.subject)?,
        claim: after(terms, node.claim)?,
        first: number_image(proof, numbering, node.first)?,
        second: number_image(proof, numbering, node.second)?,
        third: number_image(proof, numbering, node.third)?,
    };
    let Form::ConstAt = node.form else {
        return Ok(image);
    };
    match argument(replacements, proof, node.subject)? {
        Some(first) => Ok(Node {
            form: Form::Thin,
            ctx: image.ctx,
            subject: image.subject,
            claim: image.claim,
            first,
            second: 0,
            third: 0,
        }),
        None => Ok(image),
    }
}

// The node that judges what replaces a constant.
#[tactic(auto, using(crate::proofs::ImageLines::not_const, crate::proofs::ImageLines::const_past))]
fn argument<R: Replacements>(
    replacements: &R,
    proof: &Record,
    term: usize,
) -> Result<Option<usize>, AllocError>
    ensures { IfOk result (λ o. o ≡ argument_node (replacement_in (R.replacement replacements.now) (const_in (at (bare_trees proof.now.shapes) term)))) }
{
    if term >= proof.terms() {
        return Ok(None);
    }
    let Shape::Const(name) = proof.shape(term) else {
        return Ok(None);
    };
    match replacements.replacement(name)? {
        Replacement::Constant(_) => Ok(None),
        Replacement::Argument(_, node) => Ok(Some(node)),
    }
}

// A number after the first ones.
fn after(start: usize, number: usize) -> Result<usize, AllocError>
    ensures { IfOk result (λ n. n ≡ start + number) }
{
    match start.checked_add(number) {
        Some(number) => Ok(number),
        None => Err(AllocError),
    }
}

// The new number of a node.
#[tactic(auto, using(crate::proofs::ImageLines::grafted_number, crate::proofs::ImageLines::other_number, crate::proofs::ImageLines::no_graft))]
fn number_image(proof: &Record, numbering: Numbering, number: usize) -> Result<usize, AllocError>
    ensures { IfOk result (λ n. n ≡ new_number proof.now.nodes numbering number) }
{
    match numbering.graft {
        Some(graft) if graft.node == number => Ok(graft.place),
        _ => place_of(proof, numbering, number),
    }
}

// The new number of a node that is not grafted.
#[tactic(auto, using(crate::proofs::ImageLines::root_number, crate::proofs::ImageLines::later_number, crate::proofs::ImageLines::past_number))]
fn place_of(proof: &Record, numbering: Numbering, number: usize) -> Result<usize, AllocError>
    ensures { IfOk result (λ n. n ≡ (if is_empty_node proof.now.nodes number then numbering.root else (numbering.start + number))) }
{
    if number < proof.nodes() && is_empty(proof, number) {
        return Ok(numbering.root);
    }
    after(numbering.start, number)
}

// Whether a node is an empty context.
#[tactic(auto, using(crate::proofs::ImageLines::empty_here))]
fn is_empty(proof: &Record, number: usize) -> bool
    requires { number < length proof.now.nodes }
    ensures { result ≡ is_empty_node proof.now.nodes number }
{
    is_empty_form(proof.node(number).form)
}

fn is_empty_form(form: Form) -> bool
    ensures { result ≡ appending.is_empty_form form }
{
    match form {
        Form::Empty => true,
        Form::Assume
        | Form::Define
        | Form::Bare
        | Form::SortAt
        | Form::ConstAt
        | Form::VarAt
        | Form::Thin
        | Form::PiAt
        | Form::LamAt
        | Form::AppAt
        | Form::LetSort
        | Form::LetAt
        | Form::Conv
        | Form::Same
        | Form::Left
        | Form::Right
        | Form::CongApp
        | Form::CongLam
        | Form::CongPi => false,
    }
}

// Head steps, compared without building the term that is stepped to.

ghost use Rattle.std.specs.Prelude.{◌≡◌, ◌<◌, length};
ghost use Rattle.pts_ctx.specs.Front.{find, bare_front, entry_at};
ghost use Rattle.pts_record.specs.Table.{bare_at};
ghost use Rattle.pts_record.specs.Said.{told, scope_of};
ghost use Rattle.pts_rules.specs.Parts.{is_that};
ghost use Rattle.pts_rules.specs.Step.{head_step, body_of, definition_at};

use crate::contexts::definition_of;
use pts_ctx::Context;
use pts_record::{Name, Record, Shape};

/// Whether a term steps at its head to another, in the front and the context.
#[tactic(auto, using(crate::proofs::Stepped::applied_is), unfolding(pts_rules::specs::Step::head_step))]
pub(crate) fn steps_to(
    front: &Context,
    proof: &Record,
    ctx: usize,
    term: usize,
    target: usize,
) -> bool
    requires ctx { ctx < length proof.now.nodes }
    requires term { term < length proof.now.shapes }
    requires target { target < length proof.now.shapes }
    ensures { result ≡ is_that (bare_at proof.now.shapes target) (head_step (bare_front front.now.entries) (scope_of (told proof.now ctx)).entries (bare_at proof.now.shapes term)) }
{
    match proof.shape(term) {
        Shape::Sort(_) | Shape::Lam(..) | Shape::Pi(..) => false,
        Shape::Const(name) => is_body(front, proof, name, target),
        Shape::Var(index) => is_definition(proof, ctx, *index, target),
        Shape::Let(_, definition, _, body) => {
            proof.limits(*body);
            proof.is_put(target, 0, 0, *definition, *body)
        }
        Shape::App(function, argument) => match proof.shape(*function) {
            Shape::Lam(_, _, body) => {
                proof.limits(*body);
                proof.is_put(target, 0, 0, *argument, *body)
            }
            Shape::Sort(_)
            | Shape::Const(_)
            | Shape::Var(_)
            | Shape::App(..)
            | Shape::Pi(..)
            | Shape::Let(..) => match proof.shape(target) {
                Shape::App(stepped, same) => {
                    steps_to(front, proof, ctx, *function, *stepped)
                        && proof.equal(*same, *argument)
                }
                _ => false,
            },
        },
    }
}

// Whether a term is the body of a name.
#[tactic(auto, using(pts_rules::proofs::HeadBare::find_bare))]
fn is_body(front: &Context, proof: &Record, name: &Name, target: usize) -> bool
    requires { target < length proof.now.shapes }
    ensures { result ≡ is_that (bare_at proof.now.shapes target) (body_of (find name.now (bare_front front.now.entries))) }
{
    match front.lookup(name) {
        None => false,
        Some(entry) => match &entry.body {
            None => false,
            Some(body) => proof.is_term(target, body),
        },
    }
}

// Whether a term is the definition of an index, after the entry itself.
#[tactic(auto, using(crate::proofs::Stepped::definition_at_is))]
fn is_definition(proof: &Record, ctx: usize, index: u32, target: usize) -> bool
    requires ctx { ctx < length proof.now.nodes }
    requires target { target < length proof.now.shapes }
    ensures { result ≡ is_that (bare_at proof.now.shapes target) (definition_at index (entry_at (scope_of (told proof.now ctx)).entries index)) }
{
    match definition_of(proof, ctx, index) {
        None => false,
        Some(definition) => {
            proof.limits(definition);
            proof.is_lift(target, 0, u64::from(index) + 1, definition)
        }
    }
}

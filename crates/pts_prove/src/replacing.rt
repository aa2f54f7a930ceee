// A constant for which a term is put.

ghost use Rattle.std.specs.Prelude.{◌≡◌, ◌<◌, IfErr, IfOk, OnOk, length, true};
ghost use Rattle.pts_terms.specs.Limits.{within};
ghost use Rattle.pts_terms.specs.Tree.{subst_const};
ghost use Rattle.pts_record.specs.Table.{named_at};
ghost use Rattle.pts_grow.specs.Keeps.{IsTerm, Keeps, StaysValid, WhyNot};
ghost use Rattle.pts_prove_cost.specs.Commands.{mentions};

use pts_grow::{TermFault, add_line};
use pts_names::Name;
use pts_record::{Record, Shape};

/// Whether a constant occurs in a term.
pub(crate) fn mentions(proof: &Record, term: usize, name: &Name) -> bool
    requires term { term < length proof.now.shapes }
    ensures { result ≡ mentions name.now (named_at proof.now.shapes term) }
{
    match proof.shape(term) {
        Shape::Sort(_) | Shape::Var(_) => false,
        Shape::Const(c) => name.same(c),
        Shape::App(f, a) => mentions(proof, *f, name) || mentions(proof, *a, name),
        Shape::Lam(_, t, b) | Shape::Pi(_, t, b) => mentions(proof, *t, name)
            || mentions(proof, *b, name),
        Shape::Let(_, d, t, b) => {
            mentions(proof, *d, name) || (mentions(proof, *t, name) || mentions(proof, *b, name))
        }
    }
}

/// A term with another one for a constant.
///
/// # Errors
///
/// `TooLarge` exactly where it is not within limits.
#[tactic(auto, using(pts_grow::proofs::Grow::keeping, pts_grow::proofs::Limits::limits, pts_grow::proofs::Lifted::stands_within))]
pub(crate) fn put_const(
    proof: &mut Record,
    term: usize,
    name: &Name,
    by: usize,
) -> Result<usize, TermFault>
    requires term { term < length proof.old.shapes }
    requires by { by < length proof.old.shapes }
    ensures term { IfOk result (λ n. IsTerm proof.new n (subst_const name.now (named_at proof.old.shapes by) (named_at proof.old.shapes term))) }
    ensures within { OnOk result (within (subst_const name.now (named_at proof.old.shapes by) (named_at proof.old.shapes term)) ≡ true) }
    ensures refused { IfErr result (λ e. WhyNot e (subst_const name.now (named_at proof.old.shapes by) (named_at proof.old.shapes term))) }
    ensures keeps { Keeps proof.old proof.new }
    ensures valid { StaysValid proof.old proof.new }
{
    proof.limits(term);
    proof.limits(by);
    match proof.shape(term) {
        Shape::Sort(_) | Shape::Var(_) => Ok(term),
        Shape::Const(c) => {
            if name.same(c) {
                return Ok(by);
            }
            Ok(term)
        }
        Shape::App(f, a) => {
            let (f, a) = (*f, *a);
            let f = put_const(proof, f, name, by)?;
            let a = put_const(proof, a, name, by)?;
            add_line(proof, Shape::App(f, a))
        }
        Shape::Lam(x, t, b) => {
            let x = x.copy()?;
            let (t, b) = (*t, *b);
            let t = put_const(proof, t, name, by)?;
            let b = put_const(proof, b, name, by)?;
            add_line(proof, Shape::Lam(x, t, b))
        }
        Shape::Pi(x, t, b) => {
            let x = x.copy()?;
            let (t, b) = (*t, *b);
            let t = put_const(proof, t, name, by)?;
            let b = put_const(proof, b, name, by)?;
            add_line(proof, Shape::Pi(x, t, b))
        }
        Shape::Let(x, d, t, b) => {
            let x = x.copy()?;
            let (d, t, b) = (*d, *t, *b);
            let d = put_const(proof, d, name, by)?;
            let t = put_const(proof, t, name, by)?;
            let b = put_const(proof, b, name, by)?;
            add_line(proof, Shape::Let(x, d, t, b))
        }
    }
}

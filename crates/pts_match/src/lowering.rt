// Terms that are taken out of binders.

ghost use Rattle.std.specs.Prelude.{◌≡◌, ◌<◌, ◌+◌, ◌^◌, length, IfOk, IfErr, OnOk, true};
ghost use Rattle.pts_terms.specs.Limits.{within};
ghost use Rattle.pts_record.specs.Table.{named_at};
ghost use Rattle.pts_grow.specs.Keeps.{Keeps, StaysValid, IsTerm, WhyNot};
ghost use Rattle.pts_match.specs.Lowering.{is_clear, lower, lower_index};
ghost use Rattle.pts_match.specs.Matching.{IsClear, value_of};

use crate::Subterm;
use pts_grow::{TermFault, add_line};
use pts_record::{Record, Shape};
use std::alloc::AllocError;

/// Whether a term has no free index that is at least `from` and below `from + by`.
#[tactic(auto, using(crate::proofs::Lowered::clear_of_bound, crate::proofs::Lowered::clear_of_none))]
pub fn is_clear(proof: &Record, term: usize, from: u64, by: u64) -> bool
    requires term { term < length proof.now.shapes }
    requires from { from + term < 2 ^ 63 }
    requires by { by < 2 ^ 62 }
    ensures { result ≡ is_clear from by (named_at proof.now.shapes term) }
{
    if by == 0 {
        return true;
    }
    if proof.measure(term).free <= from {
        return true;
    }
    match proof.shape(term) {
        Shape::Sort(_) | Shape::Const(_) => true,
        Shape::Var(i) => {
            let index = u64::from(*i);
            index < from || from + by <= index
        }
        Shape::App(f, a) => is_clear(proof, *f, from, by) && is_clear(proof, *a, from, by),
        Shape::Lam(_, t, b) => is_clear(proof, *t, from, by) && is_clear(proof, *b, from + 1, by),
        Shape::Pi(_, t, b) => is_clear(proof, *t, from, by) && is_clear(proof, *b, from + 1, by),
        Shape::Let(_, d, t, b) => {
            is_clear(proof, *d, from, by)
                && is_clear(proof, *t, from, by)
                && is_clear(proof, *b, from + 1, by)
        }
    }
}

/// The term with each free index that is at least `from` lowered by `by`. A term that has no such index keeps its number.
#[tactic(auto, using(pts_grow::proofs::Grow::keeping, crate::proofs::Lowered::lower_fits))]
pub fn lower(proof: &mut Record, term: usize, from: u64, by: u64) -> Result<usize, AllocError>
    requires term { term < length proof.old.shapes }
    requires from { from + term < 2 ^ 64 }
    ensures term { IfOk result (λ n. IsTerm proof.new n (lower from by (named_at proof.old.shapes term))) }
    ensures keeps { Keeps proof.old proof.new }
    ensures valid { StaysValid proof.old proof.new }
    ensures nodes { proof.new.nodes ≡ proof.old.nodes }
{
    proof.limits(term);
    match lower_parts(proof, term, from, by) {
        Ok(lowered) => Ok(lowered),
        Err(TermFault::Memory) => Err(AllocError),
        Err(TermFault::TooLarge) => unreachable!(),
    }
}

// The same, part by part. A term that is lowered is as large as it was.
#[tactic(auto, using(pts_grow::proofs::Grow::keeping, pts_grow::proofs::Limits::limits, pts_grow::proofs::Lifted::left_alone, crate::proofs::Lowered::lower_same, crate::proofs::Lowered::lower_none))]
fn lower_parts(proof: &mut Record, term: usize, from: u64, by: u64) -> Result<usize, TermFault>
    requires term { term < length proof.old.shapes }
    requires from { from + term < 2 ^ 64 }
    ensures term { IfOk result (λ n. IsTerm proof.new n (lower from by (named_at proof.old.shapes term))) }
    ensures within { OnOk result (within (lower from by (named_at proof.old.shapes term)) ≡ true) }
    ensures refused { IfErr result (λ e. WhyNot e (lower from by (named_at proof.old.shapes term))) }
    ensures keeps { Keeps proof.old proof.new }
    ensures valid { StaysValid proof.old proof.new }
    ensures nodes { proof.new.nodes ≡ proof.old.nodes }
{
    proof.limits(term);
    if by == 0 {
        return Ok(term);
    }
    if proof.measure(term).free <= from {
        return Ok(term);
    }
    match proof.shape(term) {
        Shape::Sort(_) | Shape::Const(_) => Ok(term),
        Shape::Var(i) => {
            let index = lowered(*i, from, by);
            add_line(proof, Shape::Var(index))
        }
        Shape::App(f, a) => {
            let (f, a) = (*f, *a);
            let f = lower_parts(proof, f, from, by)?;
            let a = lower_parts(proof, a, from, by)?;
            add_line(proof, Shape::App(f, a))
        }
        Shape::Lam(x, t, b) => {
            let x = x.copy()?;
            let (t, b) = (*t, *b);
            let t = lower_parts(proof, t, from, by)?;
            let b = lower_parts(proof, b, from + 1, by)?;
            add_line(proof, Shape::Lam(x, t, b))
        }
        Shape::Pi(x, t, b) => {
            let x = x.copy()?;
            let (t, b) = (*t, *b);
            let t = lower_parts(proof, t, from, by)?;
            let b = lower_parts(proof, b, from + 1, by)?;
            add_line(proof, Shape::Pi(x, t, b))
        }
        Shape::Let(x, d, t, b) => {
            let x = x.copy()?;
            let (d, t, b) = (*d, *t, *b);
            let d = lower_parts(proof, d, from, by)?;
            let t = lower_parts(proof, t, from, by)?;
            let b = lower_parts(proof, b, from + 1, by)?;
            add_line(proof, Shape::Let(x, d, t, b))
        }
    }
}

// The index, less `by` if it is at least `from`.
fn lowered(index: u32, from: u64, by: u64) -> u32
    ensures { result ≡ lower_index from by index }
{
    let raised = u64::from(index);
    if raised < from {
        return index;
    }
    raised.saturating_sub(by) as u32
}

/// The term that a part is outside of the binders under which it was found.
pub fn take_out(proof: &mut Record, part: Subterm) -> Result<usize, AllocError>
    requires part { IsClear proof.old.shapes part }
    ensures term { IfOk result (λ n. IsTerm proof.new n (value_of proof.old.shapes part)) }
    ensures keeps { Keeps proof.old proof.new }
    ensures valid { StaysValid proof.old proof.new }
    ensures nodes { proof.new.nodes ≡ proof.old.nodes }
{
    let _terms = proof.terms();
    lower(proof, part.term, 0, part.binders)
}

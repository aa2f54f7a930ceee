// The match of a pattern with a term. It builds nothing, and ends at the first difference.

ghost use Rattle.std.specs.Prelude.{◌≡◌, ◌<◌, ◌≤◌, ◌+◌, length};
ghost use Rattle.pts_terms.specs.Tree.{bare, same_term};
ghost use Rattle.pts_record.specs.Table.{named_at};
ghost use Rattle.pts_match.specs.Matching.{AreClear, IsClear, assign, is_index, match_index, match_under, match_variable, only_if, value_of, values_of};

use crate::Subterm;
use crate::lowering::is_clear;
use pts_record::{Record, Shape};

// Whether two parts are one term outside of their binders: the one under fewer is lifted by the difference.
#[tactic(auto, using(crate::proofs::Assigned::nearer, crate::proofs::Assigned::deeper))]
fn same_value(proof: &Record, part: Subterm, other: Subterm) -> bool
    requires part { IsClear proof.now.shapes part }
    requires other { IsClear proof.now.shapes other }
    ensures { result ≡ same_term (bare (value_of proof.now.shapes part)) (bare (value_of proof.now.shapes other)) }
{
    proof.limits(part.term);
    proof.limits(other.term);
    if other.binders <= part.binders {
        return proof.is_lift(part.term, 0, part.binders - other.binders, other.term);
    }
    proof.is_lift(other.term, 0, other.binders - part.binders, part.term)
}

// The variable is to be the part, if it can.
#[tactic(auto, using(crate::proofs::Assigned::assigning))]
fn assign(proof: &Record, found: &mut [Option<Subterm>], variable: usize, part: Subterm) -> bool
    requires variable { variable < length found.old }
    requires part { IsClear proof.now.shapes part }
    requires found { AreClear proof.now.shapes found.old }
    ensures outcome { only_if result (values_of proof.now.shapes found.new) ≡ assign variable (value_of proof.now.shapes part) (values_of proof.now.shapes found.old) }
    ensures found { AreClear proof.now.shapes found.new }
    ensures length { length found.new ≡ length found.old }
{
    match found[variable] {
        Some(known) => same_value(proof, part, known),
        None => {
            found[variable] = Some(part);
            true
        }
    }
}

// A variable meets a part.
fn match_variable(
    proof: &Record,
    found: &mut [Option<Subterm>],
    variable: usize,
    part: Subterm,
) -> bool
    requires variable { variable < length found.old }
    requires part { part.term < length proof.now.shapes }
    requires binders { part.binders ≤ 4294967296 }
    requires found { AreClear proof.now.shapes found.old }
    ensures outcome { only_if result (values_of proof.now.shapes found.new) ≡ match_variable part.binders variable (named_at proof.now.shapes part.term) (values_of proof.now.shapes found.old) }
    ensures found { AreClear proof.now.shapes found.new }
    ensures length { length found.new ≡ length found.old }
{
    let _terms = proof.terms();
    if !is_clear(proof, part.term, 0, part.binders) {
        return false;
    }
    assign(proof, found, variable, part)
}

// Whether a term is the index.
fn is_index(proof: &Record, index: u64, term: usize) -> bool
    requires term { term < length proof.now.shapes }
    ensures { result ≡ is_index index (named_at proof.now.shapes term) }
{
    match proof.shape(term) {
        Shape::Var(i) => index == u64::from(*i),
        _ => false,
    }
}

// An index of the pattern meets a part.
fn match_index(proof: &Record, found: &mut [Option<Subterm>], index: u64, part: Subterm) -> bool
    requires part { part.term < length proof.now.shapes }
    requires binders { part.binders ≤ 4294967296 }
    requires found { AreClear proof.now.shapes found.old }
    ensures outcome { only_if result (values_of proof.now.shapes found.new) ≡ match_index part.binders index (named_at proof.now.shapes part.term) (values_of proof.now.shapes found.old) }
    ensures found { AreClear proof.now.shapes found.new }
    ensures length { length found.new ≡ length found.old }
{
    if index < part.binders {
        return is_index(proof, index, part.term);
    }
    let variables = found.len() as u64;
    if index < part.binders + variables {
        return match_variable(proof, found, (index - part.binders) as usize, part);
    }
    is_index(proof, index - variables, part.term)
}

// The pattern meets a part. A pattern that has no other index than those of the binders is compared as it is: of two
// closed terms that are one term of the record, their numbers are.
#[tactic(auto, using(crate::proofs::Assigned::closed_match))]
pub(crate) fn match_under(
    proof: &Record,
    found: &mut [Option<Subterm>],
    pattern: usize,
    part: Subterm,
) -> bool
    requires pattern { pattern < length proof.now.shapes }
    requires part { part.term < length proof.now.shapes }
    requires binders { part.binders + pattern ≤ 4294967296 }
    requires found { AreClear proof.now.shapes found.old }
    ensures outcome { only_if result (values_of proof.now.shapes found.new) ≡ match_under part.binders (named_at proof.now.shapes pattern) (named_at proof.now.shapes part.term) (values_of proof.now.shapes found.old) }
    ensures found { AreClear proof.now.shapes found.new }
    ensures length { length found.new ≡ length found.old }
{
    if proof.measure(pattern).free <= part.binders {
        return proof.equal(pattern, part.term);
    }
    match (proof.shape(pattern), proof.shape(part.term)) {
        (Shape::Sort(_) | Shape::Const(_), _) => proof.equal(pattern, part.term),
        (Shape::Var(i), _) => match_index(proof, found, u64::from(*i), part),
        (Shape::App(f, a), Shape::App(g, b)) => {
            match_under(proof, found, *f, part.part(*g))
                && match_under(proof, found, *a, part.part(*b))
        }
        (Shape::Lam(_, t, a), Shape::Lam(_, u, b)) => {
            match_under(proof, found, *t, part.part(*u))
                && match_under(proof, found, *a, part.body(*b))
        }
        (Shape::Pi(_, t, a), Shape::Pi(_, u, b)) => {
            match_under(proof, found, *t, part.part(*u))
                && match_under(proof, found, *a, part.body(*b))
        }
        (Shape::Let(_, d, t, a), Shape::Let(_, e, u, b)) => {
            match_under(proof, found, *d, part.part(*e))
                && match_under(proof, found, *t, part.part(*u))
                && match_under(proof, found, *a, part.body(*b))
        }
        _ => false,
    }
}

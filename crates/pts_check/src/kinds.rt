// The kinds of a line's links, and terms that are put together of others.

ghost use Rattle.std.specs.Prelude.{◌≡◌, ◌<◌, ◌∷◌, [], length};
ghost use Rattle.std.specs.Option.{option_map};
ghost use Rattle.pts_terms.specs.Tree.{app, lam, pi, let_in, same_term};
ghost use Rattle.pts_record.specs.Table.{bare_at};
ghost use Rattle.pts_record.specs.Said.{told};
ghost use Rattle.pts_rules.specs.Conditions.{first_failing, judgement_kinds, comparison_kinds};

use crate::nodes::{is_comparison, is_context, is_typed};
use pts_record::{Record, Shape};
use pts_rules::Why;

/// The context is typed, and two premises are judgements.
pub(crate) fn judgement_kinds(
    proof: &Record,
    ctx: usize,
    first: usize,
    second: usize,
) -> Option<Why>
    requires ctx { ctx < length proof.now.nodes }
    requires first { first < length proof.now.nodes }
    requires second { second < length proof.now.nodes }
    ensures { result ≡ first_failing (judgement_kinds (told proof.now ctx) (told proof.now first) (told proof.now second)) }
{
    if !is_typed(proof, ctx) {
        return Some(Why::Kind(0));
    }
    if !proof.is_judgement(first) {
        return Some(Why::Kind(1));
    }
    if !proof.is_judgement(second) {
        return Some(Why::Kind(2));
    }
    None
}

/// There is a context, and two premises are comparisons.
pub(crate) fn comparison_kinds(
    proof: &Record,
    ctx: usize,
    first: usize,
    second: usize,
) -> Option<Why>
    requires ctx { ctx < length proof.now.nodes }
    requires first { first < length proof.now.nodes }
    requires second { second < length proof.now.nodes }
    ensures { result ≡ first_failing (comparison_kinds (told proof.now ctx) (told proof.now first) (told proof.now second)) }
{
    if !is_context(proof, ctx) {
        return Some(Why::Kind(0));
    }
    if !is_comparison(proof, first) {
        return Some(Why::Kind(1));
    }
    if !is_comparison(proof, second) {
        return Some(Why::Kind(2));
    }
    None
}

/// Whether a term applies the one to the other.
pub(crate) fn is_application(proof: &Record, term: usize, function: usize, argument: usize) -> bool
    requires term { term < length proof.now.shapes }
    requires function { function < length proof.now.shapes }
    requires argument { argument < length proof.now.shapes }
    ensures { result ≡ same_term (bare_at proof.now.shapes term) (app (bare_at proof.now.shapes function) (bare_at proof.now.shapes argument)) }
{
    match proof.shape(term) {
        Shape::App(f, a) => proof.equal(*f, function) && proof.equal(*a, argument),
        _ => false,
    }
}

/// Whether a term is the abstraction of a body over a domain.
pub(crate) fn is_abstraction(proof: &Record, term: usize, domain: usize, body: usize) -> bool
    requires term { term < length proof.now.shapes }
    requires domain { domain < length proof.now.shapes }
    requires body { body < length proof.now.shapes }
    ensures { result ≡ same_term (bare_at proof.now.shapes term) (lam (bare_at proof.now.shapes domain) (bare_at proof.now.shapes body)) }
{
    match proof.shape(term) {
        Shape::Lam(_, t, b) => proof.equal(*t, domain) && proof.equal(*b, body),
        _ => false,
    }
}

/// Whether a term is the product over a domain with a body.
pub(crate) fn is_product(proof: &Record, term: usize, domain: usize, body: usize) -> bool
    requires term { term < length proof.now.shapes }
    requires domain { domain < length proof.now.shapes }
    requires body { body < length proof.now.shapes }
    ensures { result ≡ same_term (bare_at proof.now.shapes term) (pi (bare_at proof.now.shapes domain) (bare_at proof.now.shapes body)) }
{
    match proof.shape(term) {
        Shape::Pi(_, t, b) => proof.equal(*t, domain) && proof.equal(*b, body),
        _ => false,
    }
}

/// Whether a term is the local definition of these parts.
pub(crate) fn is_local_definition(
    proof: &Record,
    term: usize,
    definition: usize,
    ty: usize,
    body: usize,
) -> bool
    requires term { term < length proof.now.shapes }
    requires definition { definition < length proof.now.shapes }
    requires ty { ty < length proof.now.shapes }
    requires body { body < length proof.now.shapes }
    ensures { result ≡ same_term (bare_at proof.now.shapes term) (let_in (bare_at proof.now.shapes definition) (bare_at proof.now.shapes ty) (bare_at proof.now.shapes body)) }
{
    match proof.shape(term) {
        Shape::Let(_, d, t, b) => {
            proof.equal(*d, definition) && proof.equal(*t, ty) && proof.equal(*b, body)
        }
        _ => false,
    }
}

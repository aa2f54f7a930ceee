// The conditions of `sort`, `const`, `var` and `thin`.

ghost use Rattle.std.specs.Prelude.{◌≡◌, ◌<◌, ◌∷◌, [], length, is_some};
ghost use Rattle.std.specs.Option.{option_map};
ghost use Rattle.pts_ctx.specs.Front.{find, bare_front};
ghost use Rattle.pts_record.specs.Table.{bare_at};
ghost use Rattle.pts_record.specs.Said.{told};
ghost use Rattle.pts_rules.specs.Parts.{is_that, var_in};
ghost use Rattle.pts_rules.specs.Conditions.{first_failing, sort_conditions, const_conditions, var_conditions, thin_conditions};
ghost use Rattle.pts_rules.specs.declared.why.Why.TheVariants.{NoEntry as no_entry, Claim as claim_fault};
ghost use Rattle.pts_check.specs.Stated.{stated};

use crate::contexts::{distance, type_at};
use crate::nodes::{is_typed, sort_in, terms_of};
use pts_ctx::{Context, System};
use pts_record::{Name, Node, Record, Shape};
use pts_rules::Why;

/// `sort C T U`: the axiom.
pub(crate) fn sort_fault(system: &System, proof: &Record, node: &Node) -> Option<Why>
    requires ctx { node.now.ctx < length proof.now.nodes }
    requires subject { node.now.subject < length proof.now.shapes }
    requires claim { node.now.claim < length proof.now.shapes }
    ensures { result ≡ first_failing (sort_conditions system.now (stated proof.now node.now) (told proof.now node.now.ctx)) }
{
    if !is_typed(proof, node.ctx) {
        return Some(Why::Kind(0));
    }
    match sort_in(proof, node.subject) {
        None => Some(Why::Subject),
        Some(sort) => match system.axiom(sort) {
            None => Some(Why::NoAxiom),
            Some(wanted) => {
                if proof.is_sort(node.claim, wanted) {
                    None
                } else {
                    Some(Why::Claim)
                }
            }
        },
    }
}

/// `const C T U`: the start for a global name, and weakening.
pub(crate) fn const_fault(front: &Context, proof: &Record, node: &Node) -> Option<Why>
    requires ctx { node.now.ctx < length proof.now.nodes }
    requires subject { node.now.subject < length proof.now.shapes }
    requires claim { node.now.claim < length proof.now.shapes }
    ensures { result ≡ first_failing (const_conditions (bare_front front.now.entries) (stated proof.now node.now) (told proof.now node.now.ctx)) }
{
    if !is_typed(proof, node.ctx) {
        return Some(Why::Kind(0));
    }
    match proof.shape(node.subject) {
        Shape::Const(name) => entry_fault(front, proof, name, node.claim),
        _ => Some(Why::Subject),
    }
}

// Whether the name stands in the front with that type.
#[tactic(auto, using(pts_rules::proofs::HeadBare::find_bare))]
fn entry_fault(front: &Context, proof: &Record, name: &Name, claim: usize) -> Option<Why>
    requires { claim < length proof.now.shapes }
    ensures { result ≡ first_failing ((is_some (find name.now (bare_front front.now.entries)), no_entry) ∷ (is_that (bare_at proof.now.shapes claim) (option_map (λ e. e.type) (find name.now (bare_front front.now.entries))), claim_fault) ∷ []) }
{
    match front.lookup(name) {
        None => Some(Why::NoEntry),
        Some(entry) => {
            if proof.is_term(claim, &entry.ty) {
                None
            } else {
                Some(Why::Claim)
            }
        }
    }
}

// The index that a term is.
fn var_in(proof: &Record, term: usize) -> Option<u32>
    requires { term < length proof.now.shapes }
    ensures { result ≡ var_in (bare_at proof.now.shapes term) }
{
    match proof.shape(term) {
        Shape::Var(index) => Some(*index),
        _ => None,
    }
}

/// `var C T U`: the start for an index, and weakening.
#[tactic(auto, using(crate::proofs::Found::entry_there))]
pub(crate) fn var_fault(proof: &Record, node: &Node) -> Option<Why>
    requires ctx { node.now.ctx < length proof.now.nodes }
    requires subject { node.now.subject < length proof.now.shapes }
    requires claim { node.now.claim < length proof.now.shapes }
    ensures { result ≡ first_failing (var_conditions (stated proof.now node.now) (told proof.now node.now.ctx)) }
{
    if !is_typed(proof, node.ctx) {
        return Some(Why::Kind(0));
    }
    let Some(index) = var_in(proof, node.subject) else {
        return Some(Why::Subject);
    };
    if index >= proof.extent(node.ctx).length {
        return Some(Why::NoEntry);
    }
    let Some(ty) = type_at(proof, node.ctx, index) else {
        return Some(Why::Claim);
    };
    proof.limits(ty);
    if proof.is_lift(node.claim, 0, u64::from(index) + 1, ty) {
        None
    } else {
        Some(Why::Claim)
    }
}

/// `thin C T U P`: weakening by the entries that the context has more.
pub(crate) fn thin_fault(proof: &Record, node: &Node) -> Option<Why>
    requires ctx { node.now.ctx < length proof.now.nodes }
    requires first { node.now.first < length proof.now.nodes }
    requires subject { node.now.subject < length proof.now.shapes }
    requires claim { node.now.claim < length proof.now.shapes }
    ensures { result ≡ first_failing (thin_conditions (stated proof.now node.now) (told proof.now node.now.ctx) (told proof.now node.now.first)) }
{
    if !is_typed(proof, node.ctx) {
        return Some(Why::Kind(0));
    }
    if !proof.is_judgement(node.first) {
        return Some(Why::Kind(1));
    }
    let Some(passed) = distance(proof, node.ctx, node.first) else {
        return Some(Why::Place(1));
    };
    let premise = terms_of(proof, node.first);
    proof.limits(premise.subject);
    proof.limits(premise.claim);
    if !proof.is_lift(node.subject, 0, passed, premise.subject) {
        return Some(Why::Subject);
    }
    if !proof.is_lift(node.claim, 0, passed, premise.claim) {
        return Some(Why::Claim);
    }
    None
}

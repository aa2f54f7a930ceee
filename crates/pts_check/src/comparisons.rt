// The conditions of `same`, `left`, `right`, `capp`, `clam` and `cpi`.

ghost use Rattle.std.specs.Prelude.{◌≡◌, ◌<◌, ◌∷◌, [], length, true};
ghost use Rattle.pts_ctx.specs.Front.{bare_front};
ghost use Rattle.pts_record.specs.Said.{told};
ghost use Rattle.pts_rules.specs.Conditions.{first_failing, in_order, comparison_kinds, same_conditions, left_conditions, right_conditions, both_places, capp_terms, binder_places, clam_terms, cpi_terms};
ghost use Rattle.pts_check.specs.Stated.{stated, has_statement};

use crate::contexts::is_bare_of;
use crate::functions::both_places;
use crate::kinds::{comparison_kinds, is_abstraction, is_application, is_product};
use crate::nodes::{is_comparison, is_context, is_in, terms_of};
use crate::steps::steps_to;
use pts_ctx::Context;
use pts_record::{Node, Record};
use pts_rules::Why;

/// `same C T U`: equal terms.
pub(crate) fn same_fault(proof: &Record, node: &Node) -> Option<Why>
    requires ctx { node.now.ctx < length proof.now.nodes }
    requires subject { node.now.subject < length proof.now.shapes }
    requires claim { node.now.claim < length proof.now.shapes }
    ensures { result ≡ first_failing (same_conditions (stated proof.now node.now) (told proof.now node.now.ctx)) }
{
    if !is_context(proof, node.ctx) {
        return Some(Why::Kind(0));
    }
    if !proof.equal(node.subject, node.claim) {
        return Some(Why::Claim);
    }
    None
}

/// `left C T U P`: a head step on the left.
pub(crate) fn left_fault(front: &Context, proof: &Record, node: &Node) -> Option<Why>
    requires ctx { node.now.ctx < length proof.now.nodes }
    requires first { node.now.first < length proof.now.nodes }
    requires subject { node.now.subject < length proof.now.shapes }
    requires claim { node.now.claim < length proof.now.shapes }
    ensures { result ≡ first_failing (left_conditions (bare_front front.now.entries) (stated proof.now node.now) (told proof.now node.now.ctx) (told proof.now node.now.first)) }
{
    if !is_context(proof, node.ctx) {
        return Some(Why::Kind(0));
    }
    if !is_comparison(proof, node.first) {
        return Some(Why::Kind(1));
    }
    if !is_in(proof, node.ctx, node.first) {
        return Some(Why::Place(1));
    }
    let premise = terms_of(proof, node.first);
    if !proof.equal(premise.claim, node.claim) {
        return Some(Why::Claim);
    }
    if !steps_to(front, proof, node.ctx, node.subject, premise.subject) {
        return Some(Why::NoStep);
    }
    None
}

/// `right C T U P`: a head step on the right.
pub(crate) fn right_fault(front: &Context, proof: &Record, node: &Node) -> Option<Why>
    requires ctx { node.now.ctx < length proof.now.nodes }
    requires first { node.now.first < length proof.now.nodes }
    requires subject { node.now.subject < length proof.now.shapes }
    requires claim { node.now.claim < length proof.now.shapes }
    ensures { result ≡ first_failing (right_conditions (bare_front front.now.entries) (stated proof.now node.now) (told proof.now node.now.ctx) (told proof.now node.now.first)) }
{
    if !is_context(proof, node.ctx) {
        return Some(Why::Kind(0));
    }
    if !is_comparison(proof, node.first) {
        return Some(Why::Kind(1));
    }
    if !is_in(proof, node.ctx, node.first) {
        return Some(Why::Place(1));
    }
    let premise = terms_of(proof, node.first);
    if !proof.equal(premise.subject, node.subject) {
        return Some(Why::Subject);
    }
    if !steps_to(front, proof, node.ctx, node.claim, premise.claim) {
        return Some(Why::NoStep);
    }
    None
}

/// `capp C T U P Q`: functions and arguments are compared.
#[tactic(auto, using(crate::proofs::Passed::first_is_comparison, crate::proofs::Passed::second_is_comparison))]
pub(crate) fn capp_fault(proof: &Record, node: &Node) -> Option<Why>
    requires ctx { node.now.ctx < length proof.now.nodes }
    requires first { node.now.first < length proof.now.nodes }
    requires second { node.now.second < length proof.now.nodes }
    requires subject { node.now.subject < length proof.now.shapes }
    requires claim { node.now.claim < length proof.now.shapes }
    ensures { result ≡ in_order (comparison_kinds (told proof.now node.now.ctx) (told proof.now node.now.first) (told proof.now node.now.second)) (both_places (stated proof.now node.now) (told proof.now node.now.first) (told proof.now node.now.second)) (capp_terms (stated proof.now node.now) (told proof.now node.now.first) (told proof.now node.now.second)) }
{
    if let Some(why) = comparison_kinds(proof, node.ctx, node.first, node.second) {
        return Some(why);
    }
    if let Some(why) = both_places(proof, node) {
        return Some(why);
    }
    let function = terms_of(proof, node.first);
    let argument = terms_of(proof, node.second);
    if !is_application(proof, node.subject, function.subject, argument.subject) {
        return Some(Why::Subject);
    }
    if !is_application(proof, node.claim, function.claim, argument.claim) {
        return Some(Why::Claim);
    }
    None
}

fn binder_places(proof: &Record, node: &Node) -> Option<Why>
    requires first { node.now.first < length proof.now.nodes }
    requires second { node.now.second < length proof.now.nodes }
    ensures { result ≡ first_failing (binder_places (stated proof.now node.now) (told proof.now node.now.first) (told proof.now node.now.second)) }
{
    if !is_in(proof, node.ctx, node.first) {
        return Some(Why::Place(1));
    }
    if !is_bare_of(proof, node.ctx, node.second) {
        return Some(Why::Place(2));
    }
    None
}

/// `clam C T U P Q`: domains and bodies of abstractions are compared.
#[tactic(auto, using(crate::proofs::Passed::first_is_comparison, crate::proofs::Passed::second_is_comparison))]
pub(crate) fn clam_fault(proof: &Record, node: &Node) -> Option<Why>
    requires ctx { node.now.ctx < length proof.now.nodes }
    requires first { node.now.first < length proof.now.nodes }
    requires second { node.now.second < length proof.now.nodes }
    requires subject { node.now.subject < length proof.now.shapes }
    requires claim { node.now.claim < length proof.now.shapes }
    ensures { result ≡ in_order (comparison_kinds (told proof.now node.now.ctx) (told proof.now node.now.first) (told proof.now node.now.second)) (binder_places (stated proof.now node.now) (told proof.now node.now.first) (told proof.now node.now.second)) (clam_terms (stated proof.now node.now) (told proof.now node.now.first) (told proof.now node.now.second)) }
{
    if let Some(why) = comparison_kinds(proof, node.ctx, node.first, node.second) {
        return Some(why);
    }
    if let Some(why) = binder_places(proof, node) {
        return Some(why);
    }
    let domain = terms_of(proof, node.first);
    let body = terms_of(proof, node.second);
    if !is_abstraction(proof, node.subject, domain.subject, body.subject) {
        return Some(Why::Subject);
    }
    if !is_abstraction(proof, node.claim, domain.claim, body.claim) {
        return Some(Why::Claim);
    }
    None
}

/// `cpi C T U P Q`: domains and bodies of products are compared.
#[tactic(auto, using(crate::proofs::Passed::first_is_comparison, crate::proofs::Passed::second_is_comparison))]
pub(crate) fn cpi_fault(proof: &Record, node: &Node) -> Option<Why>
    requires ctx { node.now.ctx < length proof.now.nodes }
    requires first { node.now.first < length proof.now.nodes }
    requires second { node.now.second < length proof.now.nodes }
    requires subject { node.now.subject < length proof.now.shapes }
    requires claim { node.now.claim < length proof.now.shapes }
    ensures { result ≡ in_order (comparison_kinds (told proof.now node.now.ctx) (told proof.now node.now.first) (told proof.now node.now.second)) (binder_places (stated proof.now node.now) (told proof.now node.now.first) (told proof.now node.now.second)) (cpi_terms (stated proof.now node.now) (told proof.now node.now.first) (told proof.now node.now.second)) }
{
    if let Some(why) = comparison_kinds(proof, node.ctx, node.first, node.second) {
        return Some(why);
    }
    if let Some(why) = binder_places(proof, node) {
        return Some(why);
    }
    let domain = terms_of(proof, node.first);
    let body = terms_of(proof, node.second);
    if !is_product(proof, node.subject, domain.subject, body.subject) {
        return Some(Why::Subject);
    }
    if !is_product(proof, node.claim, domain.claim, body.claim) {
        return Some(Why::Claim);
    }
    None
}

// The conditions of `pi`, `lam` and `app`.

ghost use Rattle.std.specs.Prelude.{◌≡◌, ◌<◌, ◌∷◌, [], length, true, IfSome};
ghost use Rattle.std.specs.Option.{option_map};
ghost use Rattle.pts_record.specs.Table.{bare_at};
ghost use Rattle.pts_record.specs.Said.{told};
ghost use Rattle.pts_rules.specs.Parts.{domain_in, codomain_in};
ghost use Rattle.pts_rules.specs.Conditions.{first_failing, in_order, judgement_kinds, pi_places, pi_terms, lam_places, lam_terms, both_places, app_terms};
ghost use Rattle.pts_check.specs.Stated.{stated, has_statement};

use crate::contexts::{is_assume_in, is_assume_of, newest_assumption};
use crate::kinds::{is_abstraction, is_application, is_product, judgement_kinds};
use crate::nodes::{is_in, sort_in, terms_of};
use pts_ctx::System;
use pts_record::{Node, Record, Shape};
use pts_rules::Why;

/// `pi C T U P Q`: the product rule.
#[tactic(auto, using(crate::proofs::Passed::first_is_judgement, crate::proofs::Passed::second_is_judgement))]
pub(crate) fn pi_fault(system: &System, proof: &Record, node: &Node) -> Option<Why>
    requires ctx { node.now.ctx < length proof.now.nodes }
    requires first { node.now.first < length proof.now.nodes }
    requires second { node.now.second < length proof.now.nodes }
    requires subject { node.now.subject < length proof.now.shapes }
    requires claim { node.now.claim < length proof.now.shapes }
    ensures { result ≡ in_order (judgement_kinds (told proof.now node.now.ctx) (told proof.now node.now.first) (told proof.now node.now.second)) (pi_places (stated proof.now node.now) (told proof.now node.now.first) (told proof.now node.now.second)) (pi_terms system.now (stated proof.now node.now) (told proof.now node.now.first) (told proof.now node.now.second)) }
{
    if let Some(why) = judgement_kinds(proof, node.ctx, node.first, node.second) {
        return Some(why);
    }
    if let Some(why) = pi_places(proof, node) {
        return Some(why);
    }
    pi_terms(system, proof, node)
}

fn pi_places(proof: &Record, node: &Node) -> Option<Why>
    requires first { node.now.first < length proof.now.nodes }
    requires second { node.now.second < length proof.now.nodes }
    ensures { result ≡ first_failing (pi_places (stated proof.now node.now) (told proof.now node.now.first) (told proof.now node.now.second)) }
{
    if !is_in(proof, node.ctx, node.first) {
        return Some(Why::Place(1));
    }
    if !is_assume_of(proof, node.first, node.second) {
        return Some(Why::Place(2));
    }
    None
}

fn pi_terms(system: &System, proof: &Record, node: &Node) -> Option<Why>
    requires first { node.now.first < length proof.now.nodes }
    requires second { node.now.second < length proof.now.nodes }
    requires subject { node.now.subject < length proof.now.shapes }
    requires claim { node.now.claim < length proof.now.shapes }
    requires one { has_statement (told proof.now node.now.first) ≡ true }
    requires two { has_statement (told proof.now node.now.second) ≡ true }
    ensures { result ≡ first_failing (pi_terms system.now (stated proof.now node.now) (told proof.now node.now.first) (told proof.now node.now.second)) }
{
    let domain = terms_of(proof, node.first);
    let body = terms_of(proof, node.second);
    if !is_product(proof, node.subject, domain.subject, body.subject) {
        return Some(Why::Subject);
    }
    let Some(first) = sort_in(proof, domain.claim) else {
        return Some(Why::SortOf(1));
    };
    let Some(second) = sort_in(proof, body.claim) else {
        return Some(Why::SortOf(2));
    };
    let Some(third) = system.rule(first, second) else {
        return Some(Why::NoRule);
    };
    if !proof.is_sort(node.claim, third) {
        return Some(Why::Claim);
    }
    None
}

/// `lam C T U P Q`: the abstraction rule.
#[tactic(auto, using(crate::proofs::Passed::first_is_judgement, crate::proofs::Passed::second_is_judgement))]
pub(crate) fn lam_fault(proof: &Record, node: &Node) -> Option<Why>
    requires ctx { node.now.ctx < length proof.now.nodes }
    requires first { node.now.first < length proof.now.nodes }
    requires second { node.now.second < length proof.now.nodes }
    requires subject { node.now.subject < length proof.now.shapes }
    requires claim { node.now.claim < length proof.now.shapes }
    ensures { result ≡ in_order (judgement_kinds (told proof.now node.now.ctx) (told proof.now node.now.first) (told proof.now node.now.second)) (lam_places (stated proof.now node.now) (told proof.now node.now.first) (told proof.now node.now.second)) (lam_terms (stated proof.now node.now) (told proof.now node.now.first) (told proof.now node.now.second)) }
{
    if let Some(why) = judgement_kinds(proof, node.ctx, node.first, node.second) {
        return Some(why);
    }
    if let Some(why) = lam_places(proof, node) {
        return Some(why);
    }
    lam_terms(proof, node)
}

fn lam_places(proof: &Record, node: &Node) -> Option<Why>
    requires first { node.now.first < length proof.now.nodes }
    requires second { node.now.second < length proof.now.nodes }
    ensures { result ≡ first_failing (lam_places (stated proof.now node.now) (told proof.now node.now.first) (told proof.now node.now.second)) }
{
    if !is_assume_in(proof, node.ctx, node.first) {
        return Some(Why::Place(1));
    }
    if !is_in(proof, node.ctx, node.second) {
        return Some(Why::Place(2));
    }
    None
}

fn lam_terms(proof: &Record, node: &Node) -> Option<Why>
    requires first { node.now.first < length proof.now.nodes }
    requires second { node.now.second < length proof.now.nodes }
    requires subject { node.now.subject < length proof.now.shapes }
    requires claim { node.now.claim < length proof.now.shapes }
    requires one { has_statement (told proof.now node.now.first) ≡ true }
    requires two { has_statement (told proof.now node.now.second) ≡ true }
    ensures { result ≡ first_failing (lam_terms (stated proof.now node.now) (told proof.now node.now.first) (told proof.now node.now.second)) }
{
    let Some(domain) = newest_assumption(proof, node.first) else {
        return Some(Why::Subject);
    };
    let body = terms_of(proof, node.first);
    if !is_abstraction(proof, node.subject, domain, body.subject) {
        return Some(Why::Subject);
    }
    if !is_product(proof, node.claim, domain, body.claim) {
        return Some(Why::Claim);
    }
    let product = terms_of(proof, node.second);
    if !proof.equal(product.subject, node.claim) {
        return Some(Why::Premise(2));
    }
    match sort_in(proof, product.claim) {
        Some(_) => None,
        None => Some(Why::SortOf(2)),
    }
}

/// `app C T U P Q`: the application rule.
#[tactic(auto, using(crate::proofs::Passed::first_is_judgement, crate::proofs::Passed::second_is_judgement))]
pub(crate) fn app_fault(proof: &Record, node: &Node) -> Option<Why>
    requires ctx { node.now.ctx < length proof.now.nodes }
    requires first { node.now.first < length proof.now.nodes }
    requires second { node.now.second < length proof.now.nodes }
    requires subject { node.now.subject < length proof.now.shapes }
    requires claim { node.now.claim < length proof.now.shapes }
    ensures { result ≡ in_order (judgement_kinds (told proof.now node.now.ctx) (told proof.now node.now.first) (told proof.now node.now.second)) (both_places (stated proof.now node.now) (told proof.now node.now.first) (told proof.now node.now.second)) (app_terms (stated proof.now node.now) (told proof.now node.now.first) (told proof.now node.now.second)) }
{
    if let Some(why) = judgement_kinds(proof, node.ctx, node.first, node.second) {
        return Some(why);
    }
    if let Some(why) = both_places(proof, node) {
        return Some(why);
    }
    app_terms(proof, node)
}

/// Both premises are in the line's context.
pub(crate) fn both_places(proof: &Record, node: &Node) -> Option<Why>
    requires first { node.now.first < length proof.now.nodes }
    requires second { node.now.second < length proof.now.nodes }
    ensures { result ≡ first_failing (both_places (stated proof.now node.now) (told proof.now node.now.first) (told proof.now node.now.second)) }
{
    if !is_in(proof, node.ctx, node.first) {
        return Some(Why::Place(1));
    }
    if !is_in(proof, node.ctx, node.second) {
        return Some(Why::Place(2));
    }
    None
}

// The parts of a product.
#[derive(Clone, Copy)]
struct ProductParts {
    domain: usize,
    body: usize,
}

fn product_in(proof: &Record, term: usize) -> Option<ProductParts>
    requires { term < length proof.now.shapes }
    ensures stand { IfSome result (λ p. (p.domain < length proof.now.shapes) × (p.body < length proof.now.shapes)) }
    ensures domain { option_map (λ p. bare_at proof.now.shapes p.domain) result ≡ domain_in (bare_at proof.now.shapes term) }
    ensures body { option_map (λ p. bare_at proof.now.shapes p.body) result ≡ codomain_in (bare_at proof.now.shapes term) }
{
    match proof.shape(term) {
        Shape::Pi(_, domain, body) => Some(ProductParts {
            domain: *domain,
            body: *body,
        }),
        _ => None,
    }
}

fn app_terms(proof: &Record, node: &Node) -> Option<Why>
    requires first { node.now.first < length proof.now.nodes }
    requires second { node.now.second < length proof.now.nodes }
    requires subject { node.now.subject < length proof.now.shapes }
    requires claim { node.now.claim < length proof.now.shapes }
    requires one { has_statement (told proof.now node.now.first) ≡ true }
    requires two { has_statement (told proof.now node.now.second) ≡ true }
    ensures { result ≡ first_failing (app_terms (stated proof.now node.now) (told proof.now node.now.first) (told proof.now node.now.second)) }
{
    let function = terms_of(proof, node.first);
    let argument = terms_of(proof, node.second);
    let Some(product) = product_in(proof, function.claim) else {
        return Some(Why::Premise(1));
    };
    if !proof.equal(argument.claim, product.domain) {
        return Some(Why::Premise(2));
    }
    if !is_application(proof, node.subject, function.subject, argument.subject) {
        return Some(Why::Subject);
    }
    proof.limits(product.body);
    if !proof.is_put(node.claim, 0, 0, argument.subject, product.body) {
        return Some(Why::Claim);
    }
    None
}

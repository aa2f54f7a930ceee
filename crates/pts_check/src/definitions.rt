// The conditions of `letsort`, `let` and `conv`.

ghost use Rattle.std.specs.Prelude.{◌≡◌, ◌<◌, ◌∷◌, [], length, true};
ghost use Rattle.pts_record.specs.Said.{told};
ghost use Rattle.pts_rules.specs.Conditions.{first_failing, or_fault, in_order, judgement_kinds, let_kinds, letsort_terms, let_places, let_terms, conv_places, conv_terms};
ghost use Rattle.pts_check.specs.Stated.{stated, has_statement};

use crate::contexts::{is_define_in, newest_definition};
use crate::kinds::{is_local_definition, judgement_kinds};
use crate::nodes::{is_comparison, is_in, is_typed, sort_in, terms_of};
use pts_record::{Node, Record};
use pts_rules::Why;

/// `letsort C T U P`: the formation of a local definition.
#[tactic(auto, using(crate::proofs::Passed::only_is_judgement))]
pub(crate) fn letsort_fault(proof: &Record, node: &Node) -> Option<Why>
    requires ctx { node.now.ctx < length proof.now.nodes }
    requires first { node.now.first < length proof.now.nodes }
    requires subject { node.now.subject < length proof.now.shapes }
    requires claim { node.now.claim < length proof.now.shapes }
    ensures { result ≡ or_fault (first_failing (let_kinds (told proof.now node.now.ctx) (told proof.now node.now.first))) (first_failing (letsort_terms (stated proof.now node.now) (told proof.now node.now.first))) }
{
    if let Some(why) = let_kinds(proof, node.ctx, node.first) {
        return Some(why);
    }
    letsort_terms(proof, node)
}

fn let_kinds(proof: &Record, ctx: usize, first: usize) -> Option<Why>
    requires ctx { ctx < length proof.now.nodes }
    requires first { first < length proof.now.nodes }
    ensures { result ≡ first_failing (let_kinds (told proof.now ctx) (told proof.now first)) }
{
    if !is_typed(proof, ctx) {
        return Some(Why::Kind(0));
    }
    if !proof.is_judgement(first) {
        return Some(Why::Kind(1));
    }
    None
}

#[tactic(auto, using(crate::proofs::Found::let_with_is))]
fn letsort_terms(proof: &Record, node: &Node) -> Option<Why>
    requires first { node.now.first < length proof.now.nodes }
    requires subject { node.now.subject < length proof.now.shapes }
    requires claim { node.now.claim < length proof.now.shapes }
    requires one { has_statement (told proof.now node.now.first) ≡ true }
    ensures { result ≡ first_failing (letsort_terms (stated proof.now node.now) (told proof.now node.now.first)) }
{
    if !is_define_in(proof, node.ctx, node.first) {
        return Some(Why::Place(1));
    }
    let Some(entry) = newest_definition(proof, node.first) else {
        return Some(Why::Subject);
    };
    let body = terms_of(proof, node.first);
    if !is_local_definition(
        proof,
        node.subject,
        entry.subject,
        entry.claim,
        body.subject,
    ) {
        return Some(Why::Subject);
    }
    let Some(_) = sort_in(proof, body.claim) else {
        return Some(Why::SortOf(1));
    };
    if !proof.equal(node.claim, body.claim) {
        return Some(Why::Claim);
    }
    None
}

/// `let C T U P Q`: the introduction of a local definition.
#[tactic(auto, using(crate::proofs::Passed::first_is_judgement, crate::proofs::Passed::second_is_judgement))]
pub(crate) fn let_fault(proof: &Record, node: &Node) -> Option<Why>
    requires ctx { node.now.ctx < length proof.now.nodes }
    requires first { node.now.first < length proof.now.nodes }
    requires second { node.now.second < length proof.now.nodes }
    requires subject { node.now.subject < length proof.now.shapes }
    requires claim { node.now.claim < length proof.now.shapes }
    ensures { result ≡ in_order (judgement_kinds (told proof.now node.now.ctx) (told proof.now node.now.first) (told proof.now node.now.second)) (let_places (stated proof.now node.now) (told proof.now node.now.first) (told proof.now node.now.second)) (let_terms (stated proof.now node.now) (told proof.now node.now.first) (told proof.now node.now.second)) }
{
    if let Some(why) = judgement_kinds(proof, node.ctx, node.first, node.second) {
        return Some(why);
    }
    if let Some(why) = let_places(proof, node) {
        return Some(why);
    }
    let_terms(proof, node)
}

fn let_places(proof: &Record, node: &Node) -> Option<Why>
    requires first { node.now.first < length proof.now.nodes }
    requires second { node.now.second < length proof.now.nodes }
    ensures { result ≡ first_failing (let_places (stated proof.now node.now) (told proof.now node.now.first) (told proof.now node.now.second)) }
{
    if !is_define_in(proof, node.ctx, node.first) {
        return Some(Why::Place(1));
    }
    if !is_in(proof, node.ctx, node.second) {
        return Some(Why::Place(2));
    }
    None
}

#[tactic(auto, using(crate::proofs::Found::let_with_is))]
fn let_terms(proof: &Record, node: &Node) -> Option<Why>
    requires first { node.now.first < length proof.now.nodes }
    requires second { node.now.second < length proof.now.nodes }
    requires subject { node.now.subject < length proof.now.shapes }
    requires claim { node.now.claim < length proof.now.shapes }
    requires one { has_statement (told proof.now node.now.first) ≡ true }
    requires two { has_statement (told proof.now node.now.second) ≡ true }
    ensures { result ≡ first_failing (let_terms (stated proof.now node.now) (told proof.now node.now.first) (told proof.now node.now.second)) }
{
    let Some(entry) = newest_definition(proof, node.first) else {
        return Some(Why::Subject);
    };
    let body = terms_of(proof, node.first);
    if !is_local_definition(
        proof,
        node.subject,
        entry.subject,
        entry.claim,
        body.subject,
    ) {
        return Some(Why::Subject);
    }
    if !is_local_definition(proof, node.claim, entry.subject, entry.claim, body.claim) {
        return Some(Why::Claim);
    }
    let formed = terms_of(proof, node.second);
    if !proof.equal(formed.subject, node.claim) {
        return Some(Why::Premise(2));
    }
    match sort_in(proof, formed.claim) {
        Some(_) => None,
        None => Some(Why::SortOf(2)),
    }
}

/// `conv C T U P Q R`: the conversion rule.
#[tactic(auto, using(crate::proofs::Passed::first_is_judgement, crate::proofs::Passed::second_is_judgement, crate::proofs::Passed::third_is_comparison))]
pub(crate) fn conv_fault(proof: &Record, node: &Node) -> Option<Why>
    requires ctx { node.now.ctx < length proof.now.nodes }
    requires first { node.now.first < length proof.now.nodes }
    requires second { node.now.second < length proof.now.nodes }
    requires third { node.now.third < length proof.now.nodes }
    requires subject { node.now.subject < length proof.now.shapes }
    requires claim { node.now.claim < length proof.now.shapes }
    ensures { result ≡ in_order (judgement_kinds (told proof.now node.now.ctx) (told proof.now node.now.first) (told proof.now node.now.second)) (conv_places (stated proof.now node.now) (told proof.now node.now.first) (told proof.now node.now.second) (told proof.now node.now.third)) (conv_terms (stated proof.now node.now) (told proof.now node.now.first) (told proof.now node.now.second) (told proof.now node.now.third)) }
{
    if let Some(why) = judgement_kinds(proof, node.ctx, node.first, node.second) {
        return Some(why);
    }
    if let Some(why) = conv_places(proof, node) {
        return Some(why);
    }
    conv_terms(proof, node)
}

fn conv_places(proof: &Record, node: &Node) -> Option<Why>
    requires first { node.now.first < length proof.now.nodes }
    requires second { node.now.second < length proof.now.nodes }
    requires third { node.now.third < length proof.now.nodes }
    ensures { result ≡ first_failing (conv_places (stated proof.now node.now) (told proof.now node.now.first) (told proof.now node.now.second) (told proof.now node.now.third)) }
{
    if !is_comparison(proof, node.third) {
        return Some(Why::Kind(3));
    }
    if !is_in(proof, node.ctx, node.first) {
        return Some(Why::Place(1));
    }
    if !is_in(proof, node.ctx, node.second) {
        return Some(Why::Place(2));
    }
    if !is_in(proof, node.ctx, node.third) {
        return Some(Why::Place(3));
    }
    None
}

fn conv_terms(proof: &Record, node: &Node) -> Option<Why>
    requires first { node.now.first < length proof.now.nodes }
    requires second { node.now.second < length proof.now.nodes }
    requires third { node.now.third < length proof.now.nodes }
    requires subject { node.now.subject < length proof.now.shapes }
    requires claim { node.now.claim < length proof.now.shapes }
    requires one { has_statement (told proof.now node.now.first) ≡ true }
    requires two { has_statement (told proof.now node.now.second) ≡ true }
    requires three { has_statement (told proof.now node.now.third) ≡ true }
    ensures { result ≡ first_failing (conv_terms (stated proof.now node.now) (told proof.now node.now.first) (told proof.now node.now.second) (told proof.now node.now.third)) }
{
    let judged = terms_of(proof, node.first);
    if !proof.equal(node.subject, judged.subject) {
        return Some(Why::Subject);
    }
    let wanted = terms_of(proof, node.second);
    if !proof.equal(node.claim, wanted.subject) {
        return Some(Why::Claim);
    }
    let Some(_) = sort_in(proof, wanted.claim) else {
        return Some(Why::SortOf(2));
    };
    let compared = terms_of(proof, node.third);
    if proof.equal(compared.subject, judged.claim) && proof.equal(compared.claim, node.claim) {
        None
    } else {
        Some(Why::Premise(3))
    }
}

// Products, abstractions and applications with their types.

ghost use Rattle.std.specs.Prelude.{◌≡◌, ◌<◌, length, IfOk, Some};
ghost use Rattle.pts_terms.specs.Tree.{sort, app, lam, pi, subst};
ghost use Rattle.pts_ctx.specs.System.{rule_of};
ghost use Rattle.pts_ctx.specs.Front.{Front};
ghost use Rattle.pts_record.specs.Table.{bare_at};
ghost use Rattle.pts_rules.specs.Valid.{IsValid};
ghost use Rattle.pts_grow.specs.Keeps.{Keeps, StaysValid};
ghost use Rattle.pts_grow.specs.Judges.{IsTypedContext, Judges, IsAssumeOf, IsProductNode, IsSort};

use crate::{Judged, RuleSorts, push};
use pts_ctx::System;
use pts_record::{Form, Node, Record};
use std::alloc::AllocError;

/// A product has the sort of the rule for its domain's sort and its body's.
#[tactic(auto, using(crate::proofs::Judgements::new_judges, crate::proofs::Binders::pi_ok))]
pub fn add_pi(
    system: &System,
    proof: &mut Record,
    ctx: usize,
    subject: usize,
    claim: usize,
    domain: Judged,
    inner: usize,
    body: Judged,
    rule: RuleSorts,
) -> Result<Judged, AllocError>
    requires ctx { ctx < length proof.old.nodes }
    requires typed { IsTypedContext proof.old ctx }
    requires subject { subject < length proof.old.shapes }
    requires claim { claim < length proof.old.shapes }
    requires domain { Judges proof.old ctx domain }
    requires inner { IsAssumeOf proof.old ctx domain inner }
    requires body { Judges proof.old inner body }
    requires parts { bare_at proof.old.shapes subject ≡ pi (bare_at proof.old.shapes domain.subject) (bare_at proof.old.shapes body.subject) }
    requires domain_sort { bare_at proof.old.shapes domain.claim ≡ sort rule.domain.0 }
    requires body_sort { bare_at proof.old.shapes body.claim ≡ sort rule.body.0 }
    requires rule { rule_of system.now rule.domain.0 rule.body.0 ≡ Some rule.product.0 }
    requires ty { bare_at proof.old.shapes claim ≡ sort rule.product.0 }
    ensures pair { IfOk result (λ j. (j.subject ≡ subject) × (j.claim ≡ claim)) }
    ensures judges { IfOk result (λ j. Judges proof.new ctx j) }
    ensures node { IfOk result (λ j. IsProductNode proof.new j.node domain.node body.node) }
    ensures shapes { proof.new.shapes ≡ proof.old.shapes }
    ensures keeps { Keeps proof.old proof.new }
    ensures valid { (G : Front) → IsValid system.now G proof.old → IsValid system.now G proof.new }
{
    let _ = system.rule(rule.domain, rule.body);
    let _ = inner;
    let node = push(
        proof,
        Node {
            form: Form::PiAt,
            ctx,
            subject,
            claim,
            first: domain.node,
            second: body.node,
            third: 0,
        },
    )?;
    Ok(Judged {
        subject,
        claim,
        node,
    })
}

/// An abstraction has the product of its domain and its body's type as its type, where that product has a sort.
#[tactic(auto, using(crate::proofs::Judgements::new_judges, crate::proofs::Binders::lam_ok))]
pub fn add_lam(
    proof: &mut Record,
    ctx: usize,
    subject: usize,
    claim: usize,
    domain: Judged,
    inner: usize,
    body: Judged,
    product: Judged,
) -> Result<Judged, AllocError>
    requires ctx { ctx < length proof.old.nodes }
    requires typed { IsTypedContext proof.old ctx }
    requires subject { subject < length proof.old.shapes }
    requires claim { claim < length proof.old.shapes }
    requires inner { IsAssumeOf proof.old ctx domain inner }
    requires body { Judges proof.old inner body }
    requires product { Judges proof.old ctx product }
    requires parts { bare_at proof.old.shapes subject ≡ lam (bare_at proof.old.shapes domain.subject) (bare_at proof.old.shapes body.subject) }
    requires ty { bare_at proof.old.shapes claim ≡ pi (bare_at proof.old.shapes domain.subject) (bare_at proof.old.shapes body.claim) }
    requires sorted { bare_at proof.old.shapes product.subject ≡ bare_at proof.old.shapes claim }
    requires sort { IsSort proof.old product.claim }
    ensures pair { IfOk result (λ j. (j.subject ≡ subject) × (j.claim ≡ claim)) }
    ensures judges { IfOk result (λ j. Judges proof.new ctx j) }
    ensures shapes { proof.new.shapes ≡ proof.old.shapes }
    ensures keeps { Keeps proof.old proof.new }
    ensures valid { StaysValid proof.old proof.new }
{
    let _ = (domain, inner);
    let node = push(
        proof,
        Node {
            form: Form::LamAt,
            ctx,
            subject,
            claim,
            first: body.node,
            second: product.node,
            third: 0,
        },
    )?;
    Ok(Judged {
        subject,
        claim,
        node,
    })
}

/// An application has the function's codomain as its type, with the argument put in.
#[tactic(auto, using(crate::proofs::Judgements::new_judges, crate::proofs::Binders::app_ok))]
pub fn add_app(
    proof: &mut Record,
    ctx: usize,
    subject: usize,
    claim: usize,
    function: Judged,
    argument: Judged,
    domain: usize,
    codomain: usize,
) -> Result<Judged, AllocError>
    requires ctx { ctx < length proof.old.nodes }
    requires typed { IsTypedContext proof.old ctx }
    requires subject { subject < length proof.old.shapes }
    requires claim { claim < length proof.old.shapes }
    requires function { Judges proof.old ctx function }
    requires argument { Judges proof.old ctx argument }
    requires product { bare_at proof.old.shapes function.claim ≡ pi (bare_at proof.old.shapes domain) (bare_at proof.old.shapes codomain) }
    requires domain { bare_at proof.old.shapes argument.claim ≡ bare_at proof.old.shapes domain }
    requires parts { bare_at proof.old.shapes subject ≡ app (bare_at proof.old.shapes function.subject) (bare_at proof.old.shapes argument.subject) }
    requires ty { bare_at proof.old.shapes claim ≡ subst 0 (bare_at proof.old.shapes argument.subject) (bare_at proof.old.shapes codomain) }
    ensures pair { IfOk result (λ j. (j.subject ≡ subject) × (j.claim ≡ claim)) }
    ensures judges { IfOk result (λ j. Judges proof.new ctx j) }
    ensures shapes { proof.new.shapes ≡ proof.old.shapes }
    ensures keeps { Keeps proof.old proof.new }
    ensures valid { StaysValid proof.old proof.new }
{
    let _ = (domain, codomain);
    let node = push(
        proof,
        Node {
            form: Form::AppAt,
            ctx,
            subject,
            claim,
            first: function.node,
            second: argument.node,
            third: 0,
        },
    )?;
    Ok(Judged {
        subject,
        claim,
        node,
    })
}

// Functions that are applied to their arguments, one after another.

ghost use Rattle.std.specs.Prelude.{◌≡◌, ◌<◌, ◌≤◌, ◌+◌, ◌∷◌, drop, length, IfOk, true};
ghost use Rattle.pts_terms.specs.Tree.{subst};
ghost use Rattle.pts_terms.specs.Limits.{within};
ghost use Rattle.pts_record.specs.Table.{named_at, bare_at};
ghost use Rattle.pts_grow.specs.Keeps.{Keeps, StaysValid};
ghost use Rattle.pts_grow.specs.Judges.{IsTypedContext, Judges};
ghost use Rattle.pts_goals.specs.Steps.{IsGoal, Closes, ReducesTo, IsLink, LinksFit, link_goals, link_product, argument_arity};
ghost use Rattle.pts_goals.specs.OpenGoals.{AllClose};
ghost use Rattle.pts_goals.specs.Parts.{pick, OnSpine, app_term, spine_term};

use crate::{Argument, Goal, Link, Reduction};
use pts_grow::{Judged, TermFault, add_app, add_conv, apply};
use pts_record::Record;
use std::alloc::AllocError;

// How many goals an argument is.
pub(crate) fn goal_count(argument: Argument) -> usize
    ensures number { result ≡ argument_arity argument }
    ensures few { result ≤ 1 }
{
    match argument {
        Argument::Given(_) => 0,
        Argument::Left(_) => 1,
    }
}

// The judgement of an argument: the given one, or the one that closes its goal.
fn argument_judged(argument: Argument, parts: &[Judged], place: usize) -> Judged
    requires { place + argument_arity argument ≤ length parts.now }
    ensures { result ≡ pick argument parts.now place }
{
    match argument {
        Argument::Given(judged) => judged,
        Argument::Left(_) => parts[place],
    }
}

// The first of the links that are left.
#[tactic(auto, using(crate::proofs::Application::taken_at))]
pub(crate) fn link_at(links: &[Link], at: usize) -> Link
    requires { at < length links.now }
    ensures { drop at links.now ≡ result ∷ drop (at + 1) links.now }
{
    links[at]
}

// A judgement with the product that its claim is, perhaps by reduction.
#[tactic(auto, using(pts_grow::proofs::Grow::keeping))]
fn reduced(proof: &mut Record, ctx: usize, judged: Judged, link: Link) -> Result<Judged, AllocError>
    requires ctx { ctx < length proof.old.nodes }
    requires typed { IsTypedContext proof.old ctx }
    requires judged { Judges proof.old ctx judged }
    requires change { ReducesTo proof.old ctx (bare_at proof.old.shapes judged.claim) (link_product proof.old link) link.change }
    ensures subject { IfOk result (λ j. j.subject ≡ judged.subject) }
    ensures claim { IfOk result (λ j. bare_at proof.old.shapes j.claim ≡ link_product proof.old link) }
    ensures judges { IfOk result (λ j. Judges proof.new ctx j) }
    ensures shapes { proof.new.shapes ≡ proof.old.shapes }
    ensures keeps { Keeps proof.old proof.new }
    ensures valid { StaysValid proof.old proof.new }
{
    match link.change {
        None => Ok(judged),
        Some(Reduction { sorted, compared }) => {
            add_conv(
                proof,
                ctx,
                judged.subject,
                sorted.subject,
                judged,
                sorted,
                compared,
            )
        }
    }
}

// A function with its product, applied.
#[tactic(auto, using(pts_grow::proofs::Grow::keeping, pts_grow::proofs::Judgements::still, pts_grow::proofs::Plain::plainly))]
fn apply_to(
    proof: &mut Record,
    ctx: usize,
    function: Judged,
    link: Link,
    argument: Judged,
) -> Result<Judged, AllocError>
    requires ctx { ctx < length proof.old.nodes }
    requires typed { IsTypedContext proof.old ctx }
    requires function { Judges proof.old ctx function }
    requires domain { link.domain < length proof.old.shapes }
    requires codomain { link.codomain < length proof.old.shapes }
    requires after { link.after < length proof.old.shapes }
    requires product { bare_at proof.old.shapes function.claim ≡ link_product proof.old link }
    requires argument { Judges proof.old ctx argument }
    requires claim { bare_at proof.old.shapes argument.claim ≡ bare_at proof.old.shapes link.domain }
    requires put { bare_at proof.old.shapes link.after ≡ subst 0 (bare_at proof.old.shapes argument.subject) (bare_at proof.old.shapes link.codomain) }
    requires within { within (app_term proof.old function argument) ≡ true }
    ensures claim { IfOk result (λ j. j.claim ≡ link.after) }
    ensures judges { IfOk result (λ j. Judges proof.new ctx j) }
    ensures term { IfOk result (λ j. named_at proof.new.shapes j.subject ≡ app_term proof.old function argument) }
    ensures keeps { Keeps proof.old proof.new }
    ensures valid { StaysValid proof.old proof.new }
{
    match apply(proof, function.subject, argument.subject) {
        Ok(term) => {
            add_app(
                proof,
                ctx,
                term,
                link.after,
                function,
                argument,
                link.domain,
                link.codomain,
            )
        }
        Err(TermFault::Memory) => Err(AllocError),
        Err(TermFault::TooLarge) => unreachable!(),
    }
}

// The first application of a spine.
#[tactic(auto, using(pts_grow::proofs::Grow::keeping, pts_grow::proofs::Judgements::still))]
fn apply_link(
    proof: &mut Record,
    ctx: usize,
    judged: Judged,
    link: Link,
    argument: Judged,
) -> Result<Judged, AllocError>
    requires ctx { ctx < length proof.old.nodes }
    requires typed { IsTypedContext proof.old ctx }
    requires judged { Judges proof.old ctx judged }
    requires link { IsLink proof.old ctx (bare_at proof.old.shapes judged.claim) link }
    requires argument { Judges proof.old ctx argument }
    requires claim { bare_at proof.old.shapes argument.claim ≡ bare_at proof.old.shapes link.domain }
    requires put { bare_at proof.old.shapes link.after ≡ subst 0 (bare_at proof.old.shapes argument.subject) (bare_at proof.old.shapes link.codomain) }
    requires within { within (app_term proof.old judged argument) ≡ true }
    ensures claim { IfOk result (λ j. j.claim ≡ link.after) }
    ensures judges { IfOk result (λ j. Judges proof.new ctx j) }
    ensures term { IfOk result (λ j. named_at proof.new.shapes j.subject ≡ app_term proof.old judged argument) }
    ensures keeps { Keeps proof.old proof.new }
    ensures valid { StaysValid proof.old proof.new }
{
    let function = reduced(proof, ctx, judged, link)?;
    apply_to(proof, ctx, function, link, argument)
}

// The application of a function along its links.
#[tactic(auto, using(pts_grow::proofs::Grow::keeping))]
pub(crate) fn apply_all(
    proof: &mut Record,
    goal: &Goal,
    function: Judged,
    links: &[Link],
    parts: &[Judged],
) -> Result<Judged, AllocError>
    requires goal { IsGoal proof.old goal.now }
    requires function { Judges proof.old goal.now.ctx function }
    requires links { LinksFit proof.old goal.now function.claim links.now }
    requires parts { AllClose proof.old (link_goals goal.now links.now) parts.now }
    requires within { within (spine_term proof.old function links.now parts.now) ≡ true }
    ensures closes { IfOk result (λ j. Closes proof.new goal.now j) }
    ensures term { IfOk result (λ j. named_at proof.new.shapes j.subject ≡ spine_term proof.old function links.now parts.now) }
    ensures keeps { Keeps proof.old proof.new }
    ensures valid { StaysValid proof.old proof.new }
{
    let mut judged = function;
    let mut left = parts.len();
    let mut at = 0;
    'apply: while at < links.len() {
        let link = link_at(links, at);
        left -= goal_count(link.argument);
        let argument = argument_judged(link.argument, parts, left);
        judged = apply_link(proof, goal.ctx, judged, link, argument)?;
        at += 1;
    }
    Ok(judged)
}
